//! A law of `Engine` itself: commands in turn, by calls alone. No program calls it.
ghost use Rattle.std.specs.Prelude.{IfOk};
ghost use Rattle.ang_host.specs.Boxes.{members};
ghost use Rattle.ang_host.specs.Members.{states_of, AreFresh};
ghost use Rattle.ang_engine.specs.Sound.{IsSound};

use ang_engine::{Engine, NewRefused};
use ang_engine_modules::Command;
use ang_host::{Driver, Drivers};
use ang_registry::Registry;
use std::alloc::Global;

/// Applies a command, whose reply nobody reads.
fn apply_unread(engine: &mut Engine, command: Command)
    requires sound { IsSound ⟦<dyn Driver as Driver>⟧ engine.old }
    ensures sound { IsSound ⟦<dyn Driver as Driver>⟧ engine.new }
{
    drop(engine.apply(command));
}

/// Applies these commands in turn.
fn apply_each(engine: &mut Engine, commands: Vec<Command>)
    requires sound { IsSound ⟦<dyn Driver as Driver>⟧ engine.old }
    ensures sound { IsSound ⟦<dyn Driver as Driver>⟧ engine.new }
{
    for command in commands {
        apply_unread(engine, command);
    }
}

/// Applies these commands in turn, and ends the engine.
fn apply_and_discard(engine: Engine, commands: Vec<Command>) -> Vec<Box<dyn Driver>>
    requires sound { IsSound ⟦<dyn Driver as Driver>⟧ engine }
    ensures fresh { AreFresh (states_of ⟦<dyn Driver as Driver>⟧ result.items) }
{
    let mut engine = engine;
    apply_each(&mut engine, commands);
    engine.discard()
}

/// Who begins with idle drivers meets whatever `Engine::apply` and `Engine::discard` ask, with any commands, and has idle
/// drivers again. So `IsSound`, which they ask and promise, need not be read: `Engine::new` gives it, and each command keeps it.
pub fn commands_in_turn(
    alloc: Global,
    registry: Registry,
    drivers: Drivers,
    commands: Vec<Command>,
) -> Result<Vec<Box<dyn Driver>>, NewRefused>
    requires fresh { AreFresh (states_of ⟦<dyn Driver as Driver>⟧ (members drivers)) }
    ensures fresh { IfOk result
        (λ boxes. AreFresh (states_of ⟦<dyn Driver as Driver>⟧ boxes.items)) }
{
    match Engine::new(alloc, registry, drivers) {
        Ok(engine) => Ok(apply_and_discard(engine, commands)),
        Err(refused) => {
            drop(commands);
            Err(refused)
        }
    }
}
