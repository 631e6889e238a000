//! The machine.
ghost use Rattle.std.specs.Prelude.{◌≡◌, ◌<◌, ◌≤◌, [], length, reverse, IfErr, IfOk};
ghost use Rattle.ang_kinds.specs.declared.fault.Fault.TheVariants.{Budget as BudgetFault, Memory as MemoryFault};
ghost use Rattle.ang_host.specs.Boxes.{members};
ghost use Rattle.ang_meaning.specs.World.{with_inputs};
ghost use Rattle.ang_meaning.specs.declared.routine.Routine.{Routine};
ghost use Rattle.ang_meaning.specs.Environment.{Environment};
ghost use Rattle.ang_meaning.specs.Counting.{IsCounted, CanGive};
ghost use Rattle.ang_code.specs.Machine.{Texts, call_begins};
ghost use Rattle.ang_heap.specs.Stores.{world_of, IsReady, HasMoved};
ghost use Rattle.ang_vm_stack.specs.Tables.{setting_of, texts_of, result_of};
ghost use Rattle.ang_vm_ask.specs.Entities.{DriversThere};
ghost use Rattle.ang_vm.specs.Legs.{Ends};
ghost use Rattle.ang_vm.specs.BodyRunning.{MayRun, RunMoves};
ghost use Rattle.ang_vm.specs.Running.{HeldAt, IsSettled};
ghost use Rattle.ang_vm.specs.Machines.{lent, IsLost, HasCalled, HasGiven, HasRun, HasInitialized, call_in, initializer_in};
ghost use Rattle.ang_vm.specs.Traces.{HasLeft, HasTrace, IfStops, IsKept};
ghost use Rattle.ang_vm_ask.specs.Askings.{HasMovedOver};

use crate::bodies::run_from;
use crate::last::{LastRun, begin_run, end_run};
use crate::start::{start_call, start_initializer};
use ang_heap::{Store, give};
use ang_host::{Driver, EventBuffer};
use ang_kinds::{Fault, Value};
use ang_meaning::{Routine, Slot};
use ang_vm_stack::place::RunResult;
use ang_vm_stack::table::Table;
use ang_vm_steps::answers::answer;
use ang_vm_steps::lookups::result_type;
use ang_vm_steps::many::give_all_in_use;
use std::alloc::Global;
use std::mem;

/// 200: how many functions may stand one inside the other in a call, the called one being the first. One more
/// is the fault `Depth`.
pub const CALLS: usize = 200;

/// 201: the same in a run of an initializer, which stands below the first function and is counted with them, so
/// that 200 functions may stand above it.
pub const WITH_INITIALIZER: usize = 201;

/// What scripts run on: script objects, the values of all globals, and the drivers with the host objects that
/// they keep. It stays from run to run.
///
/// A machine can't be dropped, since its drivers can't.
pub struct Machine {
    /// What a run borrows. Between runs nothing is read of its `events`: those of a command are put in their
    /// place.
    pub store: Store,
    /// Where the last run faulted, and the ticks that it left.
    pub last: LastRun,
}

/// The fault of a call for whose arguments there is no memory.
fn no_room(budget: u64) -> Fault
    ensures spent { budget ≡ 0 → result ≡ BudgetFault }
    ensures left { 0 < budget → result ≡ MemoryFault }
{
    if budget == 0 {
        Fault::Budget
    } else {
        Fault::Memory
    }
}

/// A call ends for whose arguments there is no memory: they are given up.
fn refuse(store: &mut Store, args: &[Slot], budget: u64) -> RunResult
    requires ready { IsReady ⟦<dyn Driver as Driver>⟧ store.old }
    requires held { CanGive (reverse args.now) (world_of ⟦<dyn Driver as Driver>⟧ store.old) }
    ensures ends { (z : Environment) (code : Texts) (entry : Routine)
        → Ends z code (λ is. call_begins z code budget entry (reverse args.now)
        (with_inputs is (world_of ⟦<dyn Driver as Driver>⟧ store.old))) result
        (world_of ⟦<dyn Driver as Driver>⟧ store.new) }
    ensures moves { HasMoved ⟦<dyn Driver as Driver>⟧ store.old store.new }
{
    let count = args.len();
    give_all_in_use(args, store, count);
    RunResult::Stops(no_room(budget))
}

/// A call of a function, from its beginning to its end.
fn run_call(
    alloc: Global,
    table: &Table,
    store: &mut Store,
    last: &mut LastRun,
    entry: Routine,
    args: &[Slot],
    budget: u64,
) -> RunResult
    requires may_run { MayRun ⟦<dyn Driver as Driver>⟧ table.now (reverse args.now) store.old }
    requires none { last.old.frames.items ≡ [] }
    requires all { last.old.left ≡ budget }
    ensures ends { Ends (setting_of table.now 200) (texts_of table.now)
        (call_in ⟦<dyn Driver as Driver>⟧ table.now budget entry (reverse args.now) store.old)
        result (world_of ⟦<dyn Driver as Driver>⟧ store.new) }
    ensures moves { RunMoves ⟦<dyn Driver as Driver>⟧ table.now store.old store.new }
    ensures stood { IfStops result (λ x. IsKept (setting_of table.now 200) (texts_of table.now)
        (call_in ⟦<dyn Driver as Driver>⟧ table.now budget entry (reverse args.now) store.old)
        x budget last.new) }
{
    let Ok(mut stack) = Vec::from_slice(alloc, args) else {
        return refuse(store, args, budget);
    };
    match start_call(table, &mut stack, &mut last.frames, store, entry, budget) {
        Ok(first) => run_from(table, CALLS, &mut stack, last, store, first),
        Err(ending) => ending,
    }
}

/// An initializer, from its beginning to its end.
fn initialize(
    alloc: Global,
    table: &Table,
    store: &mut Store,
    last: &mut LastRun,
    entry: Routine,
    ticks: u64,
) -> RunResult
    requires may_run { MayRun ⟦<dyn Driver as Driver>⟧ table.now [] store.old }
    requires all { last.old.left ≡ ticks }
    ensures ends { Ends (setting_of table.now 201) (texts_of table.now)
        (initializer_in ⟦<dyn Driver as Driver>⟧ table.now ticks entry store.old) result
        (world_of ⟦<dyn Driver as Driver>⟧ store.new) }
    ensures moves { RunMoves ⟦<dyn Driver as Driver>⟧ table.now store.old store.new }
    ensures stood { IfStops result (λ x. IsKept (setting_of table.now 201) (texts_of table.now)
        (initializer_in ⟦<dyn Driver as Driver>⟧ table.now ticks entry store.old) x ticks
        last.new) }
{
    let mut stack = Vec::new(alloc);
    match start_initializer(table, &mut stack, &mut last.frames, store, entry, ticks) {
        Ok(first) => run_from(table, WITH_INITIALIZER, &mut stack, last, store, first),
        Err(ending) => ending,
    }
}

/// A run's end is told, with the ticks that are left. Nobody holds its value any more, so it is given up.
///
/// # Errors
/// The fault of the run. Lost code is `Null`.
fn settle(store: &mut Store, ending: RunResult) -> Result<(Slot, u64), Fault>
    requires ready { IsReady ⟦<dyn Driver as Driver>⟧ store.old }
    requires held { HeldAt ending (world_of ⟦<dyn Driver as Driver>⟧ store.old) }
    ensures settled { IsSettled ending result (world_of ⟦<dyn Driver as Driver>⟧ store.old)
        (world_of ⟦<dyn Driver as Driver>⟧ store.new) }
    ensures moves { HasMoved ⟦<dyn Driver as Driver>⟧ store.old store.new }
{
    match ending {
        RunResult::Gives(value, ticks) => {
            give(store, value);
            Ok((value, ticks))
        }
        RunResult::Stops(fault) => Err(fault),
        RunResult::Stuck => Err(Fault::Null),
    }
}

/// A call of a function as it is told.
///
/// # Errors
/// The fault of the script.
fn call_told(
    alloc: Global,
    table: &Table,
    store: &mut Store,
    last: &mut LastRun,
    entry: Routine,
    args: &[Slot],
    budget: u64,
) -> Result<Slot, Fault>
    requires may_run { MayRun ⟦<dyn Driver as Driver>⟧ table.now (reverse args.now) store.old }
    ensures told { HasCalled (setting_of table.now 200) (texts_of table.now)
        (call_in ⟦<dyn Driver as Driver>⟧ table.now budget entry (reverse args.now) store.old)
        result (world_of ⟦<dyn Driver as Driver>⟧ store.new) }
    ensures moves { RunMoves ⟦<dyn Driver as Driver>⟧ table.now store.old store.new }
    ensures counted { (IsLost (setting_of table.now 200) (texts_of table.now)
        (call_in ⟦<dyn Driver as Driver>⟧ table.now budget entry (reverse args.now) store.old)
        → ⊥) → IsCounted [] (world_of ⟦<dyn Driver as Driver>⟧ store.new) }
    ensures stood { IfErr result (λ fault. HasTrace (setting_of table.now 200) (texts_of table.now)
        (call_in ⟦<dyn Driver as Driver>⟧ table.now budget entry (reverse args.now) store.old)
        fault last.new.frames.items last.new.left) }
    ensures ticks { IfOk result (λ value. HasGiven (setting_of table.now 200) (texts_of table.now)
        (call_in ⟦<dyn Driver as Driver>⟧ table.now budget entry (reverse args.now) store.old)
        value last.new.left (world_of ⟦<dyn Driver as Driver>⟧ store.new)) }
    ensures no_frames { IfOk result (λ value. last.new.frames.items ≡ []) }
    ensures within { last.new.left ≤ budget }
{
    begin_run(last, budget);
    let ending = run_call(alloc, table, store, last, entry, args, budget);
    end_run(last, ending);
    match settle(store, ending) {
        Ok((value, _)) => Ok(value),
        Err(fault) => Err(fault),
    }
}

/// An initializer as it is told: the ticks that it leaves.
///
/// # Errors
/// The fault of the script.
fn initializer_told(
    alloc: Global,
    table: &Table,
    store: &mut Store,
    last: &mut LastRun,
    entry: Routine,
    ticks: u64,
) -> Result<u64, Fault>
    requires may_run { MayRun ⟦<dyn Driver as Driver>⟧ table.now [] store.old }
    ensures told { HasInitialized (setting_of table.now 201) (texts_of table.now)
        (initializer_in ⟦<dyn Driver as Driver>⟧ table.now ticks entry store.old) result
        (world_of ⟦<dyn Driver as Driver>⟧ store.new) }
    ensures moves { RunMoves ⟦<dyn Driver as Driver>⟧ table.now store.old store.new }
    ensures counted { (IsLost (setting_of table.now 201) (texts_of table.now)
        (initializer_in ⟦<dyn Driver as Driver>⟧ table.now ticks entry store.old) → ⊥)
        → IsCounted [] (world_of ⟦<dyn Driver as Driver>⟧ store.new) }
    ensures stood { IfErr result (λ fault. HasTrace (setting_of table.now 201) (texts_of table.now)
        (initializer_in ⟦<dyn Driver as Driver>⟧ table.now ticks entry store.old) fault
        last.new.frames.items last.new.left) }
    ensures ticks { IfOk result (λ left. last.new.left ≡ left) }
    ensures no_frames { IfOk result (λ left. last.new.frames.items ≡ []) }
    ensures within { last.new.left ≤ ticks }
{
    begin_run(last, ticks);
    let ending = initialize(alloc, table, store, last, entry, ticks);
    end_run(last, ending);
    match settle(store, ending) {
        Ok((_, left)) => Ok(left),
        Err(fault) => Err(fault),
    }
}

/// Puts a command's events into the machine's store.
fn lend(machine: &mut Machine, events: &mut EventBuffer)
    ensures lent { machine.new.store ≡ lent machine.old events.old }
    ensures last { machine.new.last ≡ machine.old.last }
{
    mem::swap(&mut machine.store.events, events);
}

/// Takes them out again.
fn take_back(machine: &mut Machine, events: &mut EventBuffer)
    ensures back { lent machine.new events.new ≡ machine.old.store }
    ensures last { machine.new.last ≡ machine.old.last }
{
    mem::swap(&mut machine.store.events, events);
}

/// Calls a function of a table's code with a budget of ticks, and answers its value, where it is of a primitive
/// type: a signed number, an unsigned one or a truth value. The last argument stands last. What any other value
/// holds has been given up, and it is not handed out.
///
/// The run is one of the code's own meaning, told what it met: whether there was memory, what the drivers
/// answered, and so on. What it asked and which host objects ended is listed after the events, and the drivers
/// follow what was added. It always ends: each turn of a loop and each call takes a tick. The events need room
/// for the end of each live host object.
///
/// `last` of the machine has then where the run faulted, and the ticks that it left.
///
/// # Errors
/// The fault of the script: `Budget` where its ticks run out, `Depth` where more than 200 functions would stand
/// one inside the other, and so on. Code that was not generated from a tree may find less on the stack than it
/// takes, and is `Null` then.
pub fn run(
    table: &Table,
    machine: &mut Machine,
    entry: Routine,
    args: &[Slot],
    budget: u64,
    events: &mut EventBuffer,
) -> Result<Option<Value>, Fault>
    requires drivers { DriversThere table.now (length (members machine.old.store.drivers)) }
    requires ready { IsReady ⟦<dyn Driver as Driver>⟧ (lent machine.old events.old) }
    requires counted { IsCounted (reverse args.now)
        (world_of ⟦<dyn Driver as Driver>⟧ (lent machine.old events.old)) }
    ensures told { HasRun (setting_of table.now 200) (texts_of table.now)
        (result_of table.now entry)
        (call_in ⟦<dyn Driver as Driver>⟧ table.now budget entry (reverse args.now)
        (lent machine.old events.old)) result
        (world_of ⟦<dyn Driver as Driver>⟧ (lent machine.new events.new)) }
    ensures moves { HasMovedOver ⟦<dyn Driver as Driver>⟧ table.now (lent machine.old events.old)
        (lent machine.new events.new) }
    ensures ready { IsReady ⟦<dyn Driver as Driver>⟧ (lent machine.new events.new) }
    ensures count { length (members machine.new.store.drivers)
        ≡ length (members machine.old.store.drivers) }
    ensures counted { (IsLost (setting_of table.now 200) (texts_of table.now)
        (call_in ⟦<dyn Driver as Driver>⟧ table.now budget entry (reverse args.now)
        (lent machine.old events.old)) → ⊥)
        → IsCounted [] (world_of ⟦<dyn Driver as Driver>⟧ (lent machine.new events.new)) }
    ensures stood { IfErr result (λ fault. HasTrace (setting_of table.now 200) (texts_of table.now)
        (call_in ⟦<dyn Driver as Driver>⟧ table.now budget entry (reverse args.now)
        (lent machine.old events.old)) fault machine.new.last.frames.items machine.new.last.left) }
    ensures ticks { IfOk result (λ answer. HasLeft (setting_of table.now 200) (texts_of table.now)
        (result_of table.now entry)
        (call_in ⟦<dyn Driver as Driver>⟧ table.now budget entry (reverse args.now)
        (lent machine.old events.old)) answer machine.new.last.left
        (world_of ⟦<dyn Driver as Driver>⟧ (lent machine.new events.new))) }
    ensures no_frames { IfOk result (λ answer. machine.new.last.frames.items ≡ []) }
    ensures within { machine.new.last.left ≤ budget }
{
    let alloc = *events.allocator();
    lend(machine, events);
    let ended = call_told(
        alloc,
        table,
        &mut machine.store,
        &mut machine.last,
        entry,
        args,
        budget,
    );
    take_back(machine, events);
    answer(result_type(table, entry), ended)
}

/// Runs the initializer of a global, and answers the ticks that are left. Its entry takes none, and it does not
/// count where functions stand one inside the other.
///
/// # Errors
/// As `run`.
pub fn run_initializer(
    table: &Table,
    machine: &mut Machine,
    entry: Routine,
    ticks: u64,
    events: &mut EventBuffer,
) -> Result<u64, Fault>
    requires drivers { DriversThere table.now (length (members machine.old.store.drivers)) }
    requires ready { IsReady ⟦<dyn Driver as Driver>⟧ (lent machine.old events.old) }
    requires counted { IsCounted []
        (world_of ⟦<dyn Driver as Driver>⟧ (lent machine.old events.old)) }
    ensures told { HasInitialized (setting_of table.now 201) (texts_of table.now)
        (initializer_in ⟦<dyn Driver as Driver>⟧ table.now ticks entry
        (lent machine.old events.old)) result
        (world_of ⟦<dyn Driver as Driver>⟧ (lent machine.new events.new)) }
    ensures moves { HasMovedOver ⟦<dyn Driver as Driver>⟧ table.now (lent machine.old events.old)
        (lent machine.new events.new) }
    ensures ready { IsReady ⟦<dyn Driver as Driver>⟧ (lent machine.new events.new) }
    ensures count { length (members machine.new.store.drivers)
        ≡ length (members machine.old.store.drivers) }
    ensures counted { (IsLost (setting_of table.now 201) (texts_of table.now)
        (initializer_in ⟦<dyn Driver as Driver>⟧ table.now ticks entry
        (lent machine.old events.old)) → ⊥)
        → IsCounted [] (world_of ⟦<dyn Driver as Driver>⟧ (lent machine.new events.new)) }
    ensures stood { IfErr result (λ fault. HasTrace (setting_of table.now 201) (texts_of table.now)
        (initializer_in ⟦<dyn Driver as Driver>⟧ table.now ticks entry
        (lent machine.old events.old)) fault machine.new.last.frames.items machine.new.last.left) }
    ensures ticks { IfOk result (λ left. machine.new.last.left ≡ left) }
    ensures no_frames { IfOk result (λ left. machine.new.last.frames.items ≡ []) }
    ensures within { machine.new.last.left ≤ ticks }
{
    let alloc = *events.allocator();
    lend(machine, events);
    let ended = initializer_told(
        alloc,
        table,
        &mut machine.store,
        &mut machine.last,
        entry,
        ticks,
    );
    take_back(machine, events);
    ended
}
