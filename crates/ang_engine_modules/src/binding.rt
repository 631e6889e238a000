//! Imports that are unbound.
ghost use Rattle.std.specs.Prelude.{ℕ, ◌≡◌, ◌<◌, ◌^◌, None, OnOk, OnErr, length, option_map, slice_get};
ghost use Rattle.ang_meaning.specs.World.{World as RunWorld};
ghost use Rattle.ang_engine_modules.specs.Loaded.{linked_in};
ghost use Rattle.ang_engine_modules.specs.States.{states_in};
ghost use Rattle.ang_engine_modules.specs.Outcomes.{IsDoneWithoutMemory, unbinding};
ghost use Rattle.ang_engine_modules.specs.World.{left_to};

use crate::LoadedModule;
use crate::module::ModuleList;
use crate::module_places::find;
use crate::reply::Refusal;
use ang_names_known::ScriptFunction;
use std::alloc::Global;

/// The import of that number, where the module has one.
pub fn import_of(loaded: &LoadedModule, index: u32) -> Option<&ScriptFunction>
    ensures exact { option_map (λ f. f.now) result ≡ slice_get loaded.now.names.imports index }
{
    loaded.names.imports().get(index as usize)
}

/// Unbinds an import of the module of that name, whether it was bound or not: `Command::Unbind`. It
/// takes no memory.
///
/// # Errors
/// The first that applies: `NoModule` where there is none of that name, `NotBuilt` where it is not
/// built, `NoImport` where it has no import of that number. All is then as it was.
pub fn unbind(alloc: Global, list: &mut ModuleList, name: &[u8], index: u32) -> Result<(), Refusal>
    requires few { length list.old.places.items < 2 ^ 32 }
    ensures done { (r : RunWorld) → IsDoneWithoutMemory result (unbinding name.now index
        (left_to (states_in list.old) r)) (left_to (states_in list.old) r)
        (left_to (states_in list.new) r) }
    ensures places { list.new.places ≡ list.old.places }
    ensures order { list.new.order ≡ list.old.order }
    ensures builds { list.new.builds ≡ list.old.builds }
    ensures code { OnOk result
        ((home : ℕ) × (list.new.code ≡ linked_in home index None list.old.code)) }
    ensures code_unchanged { OnErr result (list.new.code ≡ list.old.code) }
{
    let Some(home) = find(&list.places, name) else {
        return Err(Refusal::NoModule);
    };
    let Some(loaded) = list.code.loaded(home) else {
        return Err(Refusal::NotBuilt);
    };
    if import_of(loaded, index).is_none() {
        return Err(Refusal::NoImport);
    }
    list.code.unbind(alloc, home, index as usize);
    Ok(())
}
