//! What built modules keep of a group of entries.
ghost use Rattle.std.specs.Prelude.{◌≡◌};
ghost use Rattle.std.specs.List.{list_any};
ghost use Rattle.std.specs.Option.{option_copied};
ghost use Rattle.ang_engine_modules.specs.Keeping.{keeps_some, place_keeps_some};

use crate::LoadedModule;
use ang_kinds::EntityNo;
use ang_view::{Group, View};

/// Whether a module keeps an entry of the group: so it does of each group of which it uses one.
fn keeps_some(view: &View, group: &Group) -> bool
    ensures exact { result ≡ keeps_some group.now view.now }
{
    for number in group.first..group.after {
        if view.get(EntityNo(number)).is_some() {
            return true;
        }
    }
    false
}

/// Whether the module of a place keeps one, where a module is built there.
fn place_keeps_some(place: Option<&LoadedModule>, group: &Group) -> bool
    ensures exact { result ≡ place_keeps_some group.now (option_copied place.entry) }
{
    match place {
        None => false,
        Some(loaded) => keeps_some(&loaded.view, group),
    }
}

/// Whether the module of one of these places keeps one. It takes no memory.
pub(crate) fn some_keep(places: &[Option<LoadedModule>], group: &Group) -> bool
    ensures exact { result ≡ list_any (place_keeps_some group.now) places.now }
{
    for place in places {
        if place_keeps_some(place.as_ref(), group) {
            return true;
        }
    }
    false
}
