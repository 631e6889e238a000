//! An engine under the limits that a profile sets.
ghost use Rattle.std.specs.Prelude.{◌≡◌, ◌↔◌, IfOk, IfErr, length};
ghost use Rattle.ang_host.specs.Boxes.{members};
ghost use Rattle.ang_host.specs.Members.{states_of, AreFresh};
ghost use Rattle.asrun_session.specs.Whole.{list_begun};
ghost use Rattle.ang_engine.specs.Engines.{list_in, registrations, world_in, drivers_in, limits_in};
ghost use Rattle.ang_heap.specs.Stores.{bounds_of};
ghost use Rattle.ang_engine.specs.Sound.{IsSound, HaveDrivers};
ghost use Rattle.ang_engine.specs.declared.refused.NewError.TheVariants.{NoDriver};
ghost use Rattle.ang_engine_modules.specs.World.{no_modules, bounded_by};
ghost use Rattle.asrun_session.specs.Limits.{with_limit};

use crate::profile::LoadedProfile;
use ang_engine::{Engine, Limits, NewRefused};
use ang_host::{Driver, Drivers};
use asrun_lines::{LimitKind, LimitLine};
use std::alloc::Global;

/// The limits with this one in the place of the one of its kind.
pub fn with_limit(limits: Limits, limit: LimitLine) -> Limits
    ensures exact { result ≡ with_limit limits limit }
{
    let most = limit.most as usize;
    match limit.kind {
        LimitKind::Events => Limits {
            events: most,
            ..limits
        },
        LimitKind::Slots => Limits {
            slots: most,
            ..limits
        },
        LimitKind::Objects => Limits {
            objects: most,
            ..limits
        },
    }
}

/// An engine over what a profile registers, under the limits that it sets. Each driver has to be idle, as those of
/// `Drivers::new` are.
///
/// # Errors
/// Those of `Engine::new`.
pub fn limited_engine(
    alloc: Global,
    profile: LoadedProfile,
    drivers: Drivers,
) -> Result<Engine, NewRefused>
    requires fresh { AreFresh (states_of ⟦<dyn Driver as Driver>⟧ (members drivers)) }
    ensures limits { IfOk result (λ e. limits_in e ≡ profile.limits) }
    ensures list { IfOk result (λ e. list_in e ≡ list_begun profile.registry) }
    ensures registrations { IfOk result (λ e. registrations e ≡ profile.registry.entries) }
    ensures world { IfOk result (λ e. world_in ⟦<dyn Driver as Driver>⟧ e
        ≡ bounded_by (bounds_of profile.limits) no_modules) }
    ensures drivers { IfOk result (λ e. drivers_in e ≡ members drivers) }
    ensures sound { IfOk result (λ e. IsSound ⟦<dyn Driver as Driver>⟧ e) }
    ensures drivers_back { IfErr result (λ r. members r.drivers ≡ members drivers) }
    ensures why { IfErr result (λ r. r.why ≡ NoDriver
        ↔ (HaveDrivers profile.registry.entries (length (members drivers)) → ⊥)) }
{
    let LoadedProfile { registry, limits } = profile;
    match Engine::new(alloc, registry, drivers) {
        Ok(mut engine) => {
            engine.set_limits(limits);
            Ok(engine)
        }
        Err(refused) => Err(refused),
    }
}
