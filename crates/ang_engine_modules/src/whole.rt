//! A module that was compiled and is not loaded yet.
ghost use Rattle.std.specs.Prelude.{◌≡◌, None, IfOk, map as list_map};

use crate::modules::LoadedModule;
use ang_gen::KeptTree;
use ang_kinds::List;
use ang_meaning::Routine;
use ang_names_known::Names;
use ang_typed::{Heading, Typed};
use ang_view::View;
use std::alloc::{AllocError, Global};
use std::marker::Model;

/// What a module is loaded with, and its tree, of which its code is made. Contracts see the former.
#[derive(Drop)]
pub struct WholeModule {
    loaded: LoadedModule,
    tree: Typed,
}

impl Model for WholeModule {
    ghost use Rattle.std.specs.Prelude.{◌≡◌};
    ghost use Rattle.ang_engine_modules.specs.declared.modules.LoadedModule.{LoadedModule};
    ghost use Rattle.ang_engine_modules.specs.contracts.modules.LoadedModule as loaded_module;

    ghost Value = { LoadedModule };

    ghost coded = { loaded_module.the_row.coded };

    ghost view = { λ w. w.loaded };

    ghost invariant = { λ w. w.loaded.tree ≡ w.tree };
}

/// Imports that are bound to nothing, a link for each.
fn unbound_links(alloc: Global, imports: &[Heading]) -> Result<Vec<Option<Routine>>, AllocError>
    ensures exact { IfOk result (λ links. links.items ≡ list_map (λ h. None) imports.now) }
{
    imports.iter().map(|_| None).collect(alloc)
}

/// What a built module has beside its names, its tree and its view.
#[derive(Drop)]
struct Beside {
    name: List<u8>,
    tree: KeptTree,
    links: List<Option<Routine>>,
}

/// What stands beside this tree, under this name.
fn make_beside(alloc: Global, name: &[u8], tree: &Typed) -> Result<Beside, AllocError>
    ensures name { IfOk result (λ b. b.name ≡ name.now) }
    ensures tree { IfOk result (λ b. b.tree ≡ tree.now) }
    ensures links { IfOk result (λ b. b.links ≡ list_map (λ h. None) tree.now.imports) }
{
    let name = List::from_vec(Vec::from_slice(alloc, name)?);
    let links = List::from_vec(unbound_links(alloc, tree.imports.as_slice())?);
    let tree = KeptTree::of(alloc, tree)?;
    Ok(Beside { name, tree, links })
}

/// Names and a tree with their view and what stands beside them.
fn assembled(alloc: Global, view: View, names: Names, tree: Typed, parts: Beside) -> WholeModule
    requires tree { parts.tree ≡ tree }
    requires links { parts.links ≡ list_map (λ h. None) tree.imports }
    ensures name { result.name ≡ parts.name }
    ensures view { result.view ≡ view }
    ensures names { result.names ≡ names }
    ensures tree { result.tree ≡ tree }
    ensures unbound { result.links ≡ list_map (λ h. None) result.tree.imports }
{
    let loaded = LoadedModule {
        name: parts.name,
        names: names.without_lists(alloc),
        view,
        tree: parts.tree,
        links: parts.links,
    };
    WholeModule { loaded, tree }
}

impl WholeModule {
    /// A module of this name, with these names and this tree over its view. None of its imports is bound.
    ///
    /// # Errors
    /// Want of memory.
    pub fn unbound(
        alloc: Global,
        name: &[u8],
        view: View,
        names: Names,
        tree: Typed,
    ) -> Result<WholeModule, AllocError>
        ensures name { IfOk result (λ l. l.name ≡ name.now) }
        ensures view { IfOk result (λ l. l.view ≡ view) }
        ensures names { IfOk result (λ l. l.names ≡ names) }
        ensures tree { IfOk result (λ l. l.tree ≡ tree) }
        ensures unbound { IfOk result (λ l. l.links ≡ list_map (λ h. None) l.tree.imports) }
    {
        match make_beside(alloc, name, &tree) {
            Ok(parts) => Ok(assembled(alloc, view, names, tree, parts)),
            Err(error) => {
                drop(tree);
                drop(names);
                drop(view);
                Err(error)
            }
        }
    }

    /// What it is loaded with, and its tree.
    pub fn into_parts(self) -> (LoadedModule, Typed)
        ensures loaded { result.0 ≡ self }
        ensures tree { result.1 ≡ self.tree }
    {
        let WholeModule { loaded, tree } = self;
        (loaded, tree)
    }
}
