//! Laws of the definitions, each the contract of a function that does nothing. No program calls them.
ghost use Rattle.std.specs.Prelude.{List, ◌++◌};
ghost use Rattle.ang_host.specs.declared.event.HostEvent.{HostEvent};
ghost use Rattle.ang_host.specs.declared.event.Role.{Role};
ghost use Rattle.ang_host.specs.State.{State};
ghost use Rattle.ang_host.specs.Events.{Follows};

use crate::driver::Driver;

/// A driver that follows one list of events and then another follows the two lists joined.
pub fn follows_join<D: Driver>()
    ensures joined { (roles : List Role) (s t u : State) (xs ys : List HostEvent)
        → Follows roles D.meaning.fits s xs t
        → Follows roles D.meaning.fits t ys u
        → Follows roles D.meaning.fits s (xs ++ ys) u }
{}
