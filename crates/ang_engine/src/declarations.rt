//! What a built module declares at the top level.
ghost use Rattle.std.specs.Prelude.{◌≡◌, ◌≤◌, ◌++◌, [], OnOk, IfOk, IfSome, is_some, unwrap_or, length, option_map};
ghost use Rattle.ang_engine_modules.specs.States.{program_in};
ghost use Rattle.ang_engine.specs.Declarations.{declared_by, text_by, import_by, program_named};
ghost use Rattle.ang_engine.specs.Sound.{IsSound};

use crate::engine::Engine;
use ang_engine_call::{DeclarationKind, declared_count, declared_import, write_declared};
use ang_engine_modules::{LoadedModule, find};
use ang_host::Driver;
use std::alloc::AllocError;

impl Engine {
    ghost use Rattle.ang_engine.specs.Engines.{world_in};

    /// What the module of that name is loaded with, where it is there and built.
    fn loaded_named(&self, name: &[u8]) -> Option<&LoadedModule>
        requires sound { IsSound ⟦<dyn Driver as Driver>⟧ self.now }
        ensures program { option_map (λ l. program_in l.now) result
            ≡ program_named name.now (world_in ⟦<dyn Driver as Driver>⟧ self.now) }
        ensures few { IfSome result (λ l. length l.now.names.families ≤ 256) }
    {
        let Some(home) = find(&self.modules.places, name) else {
            return None;
        };
        match self.modules.code.loaded(home) {
            Some(loaded) => Some(loaded),
            None => None,
        }
    }

    /// How many functions, global variables or imports the module declares; none where there is no module
    /// of that name, or where it is not built. Methods and constructors are not among the functions.
    pub fn declarations(&self, name: &[u8], kind: DeclarationKind) -> Option<usize>
        requires sound { IsSound ⟦<dyn Driver as Driver>⟧ self.now }
        ensures exact { result
            ≡ declared_by name.now kind (world_in ⟦<dyn Driver as Driver>⟧ self.now) }
    {
        let Some(loaded) = self.loaded_named(name) else {
            return None;
        };
        Some(declared_count(&loaded.names, kind))
    }

    /// Writes a declaration of the module behind what stands in `out`: `int f(int n)`, `const int limit`.
    /// Numbers are those of the text, from 0, each kind for itself; an import's is that which
    /// `Command::Bind` takes. The text is without a body, an initializer or the module that an import
    /// names; each type is spelled by the name that it has in the module, and parameters have their
    /// names. Of a function it is a text that `Command::Call` and `prepare` take.
    ///
    /// It answers `false`, and writes nothing, where there is no such declaration, no module of that
    /// name, or where it is not built.
    ///
    /// # Errors
    /// Want of memory: a part of the text may then stand in `out`.
    pub fn write_declaration(
        &self,
        name: &[u8],
        kind: DeclarationKind,
        number: usize,
        out: &mut Vec<u8>,
    ) -> Result<bool, AllocError>
        requires sound { IsSound ⟦<dyn Driver as Driver>⟧ self.now }
        ensures found { IfOk result (λ found. found ≡ is_some
            (text_by name.now kind number (world_in ⟦<dyn Driver as Driver>⟧ self.now))) }
        ensures written { OnOk result (out.new.items ≡ out.old.items ++ unwrap_or
            (text_by name.now kind number (world_in ⟦<dyn Driver as Driver>⟧ self.now)) []) }
    {
        match self.loaded_named(name) {
            Some(loaded) => write_declared(out, &loaded.view, &loaded.names, kind, number),
            None => Ok(false),
        }
    }

    /// The number of the module's import of that declaration, which is without the module that it names:
    /// the number that `Command::Bind` takes. None where there is none, or no module of that name, or
    /// where it is not built.
    ///
    /// # Errors
    /// Want of memory.
    pub fn import_number(&self, name: &[u8], decl: &[u8]) -> Result<Option<u32>, AllocError>
        requires sound { IsSound ⟦<dyn Driver as Driver>⟧ self.now }
        ensures exact { IfOk result (λ number. number
            ≡ import_by name.now decl.now (world_in ⟦<dyn Driver as Driver>⟧ self.now)) }
    {
        match self.loaded_named(name) {
            Some(loaded) => declared_import(self.alloc, &loaded.view, &loaded.names, decl),
            None => Ok(None),
        }
    }
}
