//! Groups of entries that go between builds.
ghost use Rattle.std.specs.Prelude.{◌≡◌};
ghost use Rattle.ang_engine_modules.specs.States.{states_in};
ghost use Rattle.ang_engine.specs.Groups.{removal, list_of, IsRemoved};
ghost use Rattle.ang_engine.specs.Sound.{AreSoundModules};
ghost use Rattle.ang_registry.specs.Registrations.{grouped};

use ang_engine_modules::{ModuleList, Refusal};
use ang_kinds::List;
use ang_registry::Registry;

/// Removes the group of this name, where nothing names it and no built module uses it. It takes no memory.
pub fn remove_group(
    registry: &mut Registry,
    modules: &ModuleList,
    name: List<u8>,
) -> Result<(), Refusal>
    requires sound { AreSoundModules registry.old.entries modules.now }
    ensures exact { IsRemoved result (removal name (grouped registry.old) (states_in modules.now)) }
    ensures list { grouped registry.new ≡ list_of (grouped registry.old)
        (removal name (grouped registry.old) (states_in modules.now)) }
    ensures sound { AreSoundModules registry.new.entries modules.now }
    ensures mask { registry.new.default_mask ≡ registry.old.default_mask }
{
    let Some(group) = registry.group(name.as_slice()) else {
        return Err(Refusal::NoGroup);
    };
    if modules.code.keep(group) {
        return Err(Refusal::InUse);
    }
    // It is there, so what the registry may refuse it for is that something outside names a type of it.
    match registry.remove_group(name.as_slice()) {
        Ok(()) => {}
        Err(_) => return Err(Refusal::InUse),
    }
    Ok(())
}
