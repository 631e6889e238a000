//! Imports that are bound.
ghost use Rattle.std.specs.Prelude.{ℕ, ◌≡◌, ◌≤◌, Some, length, IfSome, IsSome, IsNone, slice_get};
ghost use Rattle.ang_meaning.specs.World.{World as RunWorld};
ghost use Rattle.ang_view.specs.Registration.{RegistrationList};
ghost use Rattle.ang_engine_modules.specs.Loaded.{loaded_at};
ghost use Rattle.ang_engine_modules.specs.declared.modules.LoadedModule.{LoadedModule};
ghost use Rattle.ang_engine_modules.specs.declared.reply.Refusal.TheVariants.{NotBuilt};
ghost use Rattle.ang_engine_modules.specs.States.{states_in, program_in};
ghost use Rattle.ang_engine_modules.specs.Outcomes.{IsDone};
ghost use Rattle.ang_engine_modules.specs.World.{left_to};
ghost use Rattle.ang_engine.specs.Outcomes.{IsLinked, IsRefusedBy, binding};
ghost use Rattle.ang_engine.specs.Sound.{AreSoundModules};
ghost use Rattle.ang_engine.specs.Step.{link_of};

use ang_engine_call::find_function;
use ang_engine_modules::{LoadedModule, ModuleList, Modules, Refusal, find, import_of};
use ang_names_known::{ScriptFunction, same_call};
use std::alloc::Global;

/// The number of the function of a module to which an import can be bound by this declaration.
fn choose_function(
    alloc: Global,
    import: &ScriptFunction,
    exporter: &LoadedModule,
    decl: &[u8],
) -> Result<usize, Refusal>
    requires few { length exporter.now.names.families ≤ 256 }
    ensures linked { (j : ℕ) → IsLinked result j
        (link_of (Some import.now) j (program_in exporter.now) decl.now) }
{
    let number = match find_function(alloc, &exporter.view, &exporter.names, decl) {
        Ok(Some(number)) => number,
        Ok(None) => return Err(Refusal::NoFunction),
        Err(_) => return Err(Refusal::Memory),
    };
    if !same_call(import, &exporter.names.functions()[number]) {
        return Err(Refusal::SignatureDiffers);
    }
    Ok(number)
}

/// The number of the function to which an import of module `home` can be bound by this declaration,
/// among those of module `exporter`.
fn choose_link(
    alloc: Global,
    code: &Modules,
    home: u32,
    index: u32,
    exporter: u32,
    decl: &[u8],
) -> Result<usize, Refusal>
    requires few { IfSome (loaded_at code.now exporter)
        (λ l. length l.names.families ≤ 256) }
    ensures importer { IsNone (loaded_at code.now home) → IsRefusedBy result NotBuilt }
    ensures exporter { IsSome (loaded_at code.now home)
        → IsNone (loaded_at code.now exporter) → IsRefusedBy result NotBuilt }
    ensures linked { (p q : LoadedModule)
        → loaded_at code.now home ≡ Some p → loaded_at code.now exporter ≡ Some q
        → IsLinked result exporter
        (link_of (slice_get p.names.imports index) exporter (program_in q) decl.now) }
{
    let Some(importer) = code.loaded(home) else {
        return Err(Refusal::NotBuilt);
    };
    let Some(exporter) = code.loaded(exporter) else {
        return Err(Refusal::NotBuilt);
    };
    let Some(import) = import_of(importer, index) else {
        return Err(Refusal::NoImport);
    };
    choose_function(alloc, import, exporter, decl)
}

/// Binds an import of the module of that name to a function of another one: `Command::Bind`.
pub fn bind(
    alloc: Global,
    list: &mut ModuleList,
    name: &[u8],
    index: u32,
    exporter: &[u8],
    decl: &[u8],
) -> Result<(), Refusal>
    requires modules { (R : RegistrationList) × AreSoundModules R list.old }
    ensures done { (r : RunWorld) → IsDone result (binding name.now index exporter.now decl.now
        (left_to (states_in list.old) r)) (left_to (states_in list.old) r)
        (left_to (states_in list.new) r) }
    ensures sound { (R : RegistrationList) → AreSoundModules R list.old
        → AreSoundModules R list.new }
    ensures places { list.new.places ≡ list.old.places }
    ensures builds { list.new.builds ≡ list.old.builds }
{
    let Some(home) = find(&list.places, name) else {
        return Err(Refusal::NoModule);
    };
    let Some(exporter) = find(&list.places, exporter) else {
        return Err(Refusal::NoModule);
    };
    let number = choose_link(alloc, &list.code, home, index, exporter, decl)?;
    list.code
        .bind(alloc, home, index as usize, exporter, number);
    Ok(())
}
