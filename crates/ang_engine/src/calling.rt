//! Calls from outside.
ghost use Rattle.std.specs.Prelude.{◌≡◌, ◌≢◌, ◌⊎◌, ◌<◌, ◌≤◌, [], Some, None, Ok, Err, length, IfOk, IfErr, slice_get, map as list_map};
ghost use Rattle.ang_host.specs.Boxes.{members};
ghost use Rattle.ang_meaning.specs.Counting.{IsCounted};
ghost use Rattle.ang_heap.specs.Globals.{values_in};
ghost use Rattle.ang_heap.specs.Stores.{world_of, IsReady};
ghost use Rattle.ang_vm.specs.Machines.{lent};
ghost use Rattle.ang_engine_call.specs.Named.{function_named_by};
ghost use Rattle.ang_engine_modules.specs.declared.reply.Refusal.TheVariants.{NoFunction, Memory};
ghost use Rattle.ang_engine_modules.specs.Loaded.{modules_of};
ghost use Rattle.ang_engine_modules.specs.Modules.{TakesSoMany, AreDriversThere};
ghost use Rattle.ang_names_known.specs.declared.names.Names.{Names};
ghost use Rattle.ang_engine.specs.Asked.{HasRunOn};
ghost use Rattle.ang_engine_modules.specs.States.{program_in};
ghost use Rattle.ang_engine.specs.Outcomes.{IsChosen, NameNothing, HasCalled, IsTyped, outcome_as};
ghost use Rattle.ang_engine.specs.Step.{of_function};
ghost use Rattle.ang_engine.specs.Prepared.{callable_in};

use ang_engine_call::{arguments, find_function, is_callable};
use ang_engine_modules::{LoadedModule, Modules, Outcome, Refusal};
use ang_host::{Driver, EventBuffer};
use ang_kinds::{Fault, Value};
use ang_meaning::Slot;
use ang_names_known::ScriptFunction;
use ang_vm::Machine;
use std::alloc::Global;

/// The number of the function that a call runs, and its arguments.
#[derive(Drop)]
pub struct ChosenCall {
    /// The function's place among those that the scripts declare, from 0.
    pub number: usize,
    /// A value for each parameter, in their order.
    pub args: Vec<Slot>,
}

/// A call of this function with these values, if it can be called with them.
fn choose_arguments(
    alloc: Global,
    number: usize,
    function: &ScriptFunction,
    args: &[Value],
) -> Result<ChosenCall, Refusal>
    ensures chosen { IsChosen result (of_function number (Some function.now) args.now) }
    ensures number { IfOk result (λ c. c.number ≡ number) }
    ensures plain { IfOk result (λ c. NameNothing c.args.items) }
{
    if !is_callable(function) {
        return Err(Refusal::NotCallable);
    }
    match arguments(alloc, function, args) {
        Ok(Some(args)) => Ok(ChosenCall { number, args }),
        Ok(None) => Err(Refusal::BadArguments),
        Err(_) => Err(Refusal::Memory),
    }
}

/// A call of the function of this number of a module with these values.
pub fn choose_by_number(
    alloc: Global,
    loaded: &LoadedModule,
    number: usize,
    args: &[Value],
) -> Result<ChosenCall, Refusal>
    ensures chosen { IsChosen result
        (of_function number (slice_get loaded.now.names.functions number) args.now) }
    ensures plain { IfOk result (λ c. NameNothing c.args.items) }
{
    match loaded.names.functions().get(number) {
        Some(function) => choose_arguments(alloc, number, function, args),
        None => Err(Refusal::NoFunction),
    }
}

/// The number of the function that a declaration names, of this module.
pub fn number_of(alloc: Global, loaded: &LoadedModule, decl: &[u8]) -> Result<usize, Refusal>
    requires few { length loaded.now.names.families ≤ 256 }
    ensures found { IfOk result (λ number.
        function_named_by loaded.now.view loaded.now.names decl.now ≡ Some number) }
    ensures none { IfErr result (λ why. (why ≡ Memory) ⊎ ((why ≡ NoFunction)
        × (function_named_by loaded.now.view loaded.now.names decl.now ≡ None))) }
    ensures within { IfOk result (λ number. number < length loaded.now.names.functions) }
{
    match find_function(alloc, &loaded.view, &loaded.names, decl) {
        Ok(Some(number)) => Ok(number),
        Ok(None) => Err(Refusal::NoFunction),
        Err(_) => Err(Refusal::Memory),
    }
}

/// The same of a function that a host can call.
pub fn callable_number(alloc: Global, loaded: &LoadedModule, decl: &[u8]) -> Result<usize, Refusal>
    requires few { length loaded.now.names.families ≤ 256 }
    ensures named { IfOk result (λ number.
        function_named_by loaded.now.view loaded.now.names decl.now ≡ Some number) }
    ensures found { IfOk result (λ number.
        callable_in (Some (program_in loaded.now)) decl.now ≡ Ok number) }
    ensures refused { IfErr result (λ why. why ≢ Memory
        → callable_in (Some (program_in loaded.now)) decl.now ≡ Err why) }
{
    match number_of(alloc, loaded, decl) {
        Ok(number) => {
            if is_callable(&loaded.names.functions()[number]) {
                Ok(number)
            } else {
                Err(Refusal::NotCallable)
            }
        }
        Err(refusal) => Err(refusal),
    }
}

/// How a call ended that was answered so.
fn call_outcome(answer: Result<Option<Value>, Fault>) -> Outcome
    ensures exact { result ≡ outcome_as answer }
{
    match answer {
        Ok(value) => Outcome::Done(value),
        Err(fault) => Outcome::Failed(fault),
    }
}

/// Runs a function of a module that was chosen for a call.
pub fn run_chosen(
    code: &Modules,
    machine: &mut Machine,
    events: &mut EventBuffer,
    home: u32,
    chosen: &ChosenCall,
    budget: u64,
) -> Outcome
    requires drivers { AreDriversThere (modules_of code.now)
        (length (members machine.old.store.drivers)) }
    requires ready { IsReady ⟦<dyn Driver as Driver>⟧ (lent machine.old events.old) }
    requires plain { NameNothing chosen.now.args.items }
    requires counted { IsCounted []
        (world_of ⟦<dyn Driver as Driver>⟧ (lent machine.old events.old)) }
    requires takes { TakesSoMany (modules_of code.now) home chosen.now.number
        (length chosen.now.args.items) }
    ensures means { (names : Names) → IsTyped (modules_of code.now) names home chosen.now.number
        → HasCalled (modules_of code.now) names home budget chosen.now
        (world_of ⟦<dyn Driver as Driver>⟧ (lent machine.old events.old)) result
        (world_of ⟦<dyn Driver as Driver>⟧ (lent machine.new events.new)) }
    ensures asked { HasRunOn ⟦<dyn Driver as Driver>⟧ (modules_of code.now)
        (lent machine.old events.old) (lent machine.new events.new) }
    ensures globals { list_map length (values_in machine.new.store.globals)
        ≡ list_map length (values_in machine.old.store.globals) }
{
    let answer = code.call(machine, home, chosen.number, &chosen.args, budget, events);
    call_outcome(answer)
}
