//! Numbers of builds.
ghost use Rattle.std.specs.Prelude.{◌≡◌};
ghost use Rattle.ang_engine_modules.specs.States.{build_at};

use crate::module::Module;

/// The number of the last build of the module in a place, where there is one. While it is the same, what is
/// loaded there is the same, but for the functions that its imports are bound to.
pub fn build_at(places: &[Option<Module>], home: u32) -> Option<u64>
    ensures exact { result ≡ build_at places.now home }
{
    match places.get(home as usize) {
        Some(Some(module)) => module.build,
        Some(None) => None,
        None => None,
    }
}
