//! Calls: what stands before a body, and room for its frame.
ghost use Rattle.std.specs.Prelude.{◌≡◌, ℕ, ◌+◌, ◌<◌, ◌≤◌, ◌^◌, List, length, reverse, Some, None, Err, IfErr, IfOk, true, ◌⊎◌};
ghost use Rattle.ang_meaning.specs.World.{World, with_inputs};
ghost use Rattle.ang_meaning.specs.Environment.{target};
ghost use Rattle.ang_meaning.specs.Told.{Told};
ghost use Rattle.ang_code.specs.declared.instruction.Frame.{Frame};
ghost use Rattle.ang_code.specs.Machine.{Texts, begins, enters, fault, found_enters};
ghost use Rattle.ang_code.specs.Weight.{frames_left, left_in};
ghost use Rattle.ang_heap.specs.Stores.{world_of};
ghost use Rattle.ang_vm_stack.specs.Stacks.{values};
ghost use Rattle.ang_vm_stack.specs.Tables.{body_of, setting_of, texts_of};
ghost use Rattle.ang_vm_steps.specs.Turns.{Reaches};
ghost use Rattle.ang_vm.specs.Legs.{Fits, begun, caller_at, standing_in};
ghost use Rattle.ang_vm.specs.Traces.{IfFails};
ghost use Rattle.ang_vm.specs.Waiting.{most_waiting, long};

use ang_code::Frame;
use ang_heap::Store;
use ang_host::Driver;
use ang_kinds::Fault;
use ang_meaning::{Callee, Routine, Slot};
use ang_vm_stack::body::LoadedBody;
use ang_vm_stack::place::{Activation, Cursor};
use ang_vm_stack::stop::Trap;
use ang_vm_stack::table::{Table, body_at};
use ang_vm_steps::callees::callee_of;
use ang_vm_steps::lookups::{height_at, left_from};
use ang_vm_steps::objects::objects_there;
use ang_vm_steps::room::reserve;

/// 450,000: the most instructions that callers may have left when one of them calls, if it is long. Each runs
/// the rest of its text as it goes on, for which it needs no tick, so this bounds what a run does after its last
/// one: some 50 milliseconds of the dearest instructions, with what the running body has left and 200 callers that
/// are not long.
pub const MOST_WAITING: usize = 450_000;

/// 1,024: a body of more instructions is long. A call from any other is not looked at.
const LONG: usize = 1_024;

/// A body that puts `height` values above its parameters at most begins, where there is memory for its frame.
///
/// # Errors
/// `Memory` where there is none.
#[inline(always)]
fn begin_above(
    body: Routine,
    height: usize,
    stack: &mut Vec<Slot>,
    top: usize,
    ticks: u64,
) -> Result<Activation, Trap>
    requires within { top ≤ length stack.old.items }
    ensures told { (code : Texts) (frames : List Frame) (w : World) → height ≡ code.height body
        → Told (λ is. begins code body (values stack.old.items top) frames ticks (with_inputs is w))
        (λ is. begun result top stack.new.items frames (with_inputs is w)) }
    ensures in_room { IfOk result
        (λ s. (s.place.top ≤ s.room) × (s.room ≤ length stack.new.items)) }
    ensures body { IfOk result (λ s. s.body ≡ body) }
    ensures same { values stack.new.items top ≡ values stack.old.items top }
    ensures grows { length stack.old.items ≤ length stack.new.items }
{
    if !reserve(stack, top, height) {
        return Err(Trap::Fails(Fault::Memory));
    }
    Ok(Activation {
        body,
        room: top + height,
        place: Cursor { at: 0, top, ticks },
    })
}

/// A body begins, where there is memory for its frame.
///
/// # Errors
/// `Memory` where there is none.
pub fn begin(
    table: &Table,
    body: Routine,
    stack: &mut Vec<Slot>,
    top: usize,
    ticks: u64,
) -> Result<Activation, Trap>
    requires within { top ≤ length stack.old.items }
    ensures told { (frames : List Frame) (w : World)
        → Told (λ is. begins (texts_of table.now) body (values stack.old.items top) frames ticks
        (with_inputs is w))
        (λ is. begun result top stack.new.items frames (with_inputs is w)) }
    ensures in_room { IfOk result
        (λ s. (s.place.top ≤ s.room) × (s.room ≤ length stack.new.items)) }
    ensures same { values stack.new.items top ≡ values stack.old.items top }
    ensures grows { length stack.old.items ≤ length stack.new.items }
{
    begin_above(body, height_at(table, body), stack, top, ticks)
}

/// Whether these callers and one more wait with at most `MOST_WAITING` instructions left.
///
/// It stays apart and is cold, so that entering a body stays small and keeps the registers.
#[cold]
fn may_wait(table: &Table, frames: &Vec<Frame>, of: Routine, at: usize) -> bool
    ensures few { result ≡ true → frames_left (texts_of table.now) frames.now.items
        + left_in (texts_of table.now) of (at + 1) ≤ most_waiting }
{
    let last = left_from(table, of, at.saturating_add(1));
    if last > MOST_WAITING {
        return false;
    }
    let mut room = MOST_WAITING - last;
    for frame in frames.iter() {
        let left = left_from(table, frame.of, frame.at);
        if left > room {
            return false;
        }
        room = room - left;
    }
    true
}

/// The same, where the length of its text is known; one that is not long always may.
#[inline(always)]
fn may_call(table: &Table, frames: &Vec<Frame>, size: usize, of: Routine, at: usize) -> bool
    ensures few { result ≡ true → (size ≤ long) ⊎ (frames_left (texts_of table.now) frames.now.items
        + left_in (texts_of table.now) of (at + 1) ≤ most_waiting) }
{
    if size <= LONG {
        return true;
    }
    may_wait(table, frames, of, at)
}

/// A function is entered, with its arguments on top; `code` is its code, and `size` the length of the caller's
/// text.
///
/// # Errors
/// `Null`, `Depth`, `Budget` and `Memory`, the first of them that applies. It is `Memory` too where the caller is
/// long, and with it more than `MOST_WAITING` instructions would wait.
#[inline(always)]
pub fn enter_body(
    table: &Table,
    nesting: usize,
    stack: &mut Vec<Slot>,
    frames: &mut Vec<Frame>,
    from: Activation,
    size: usize,
    body: Routine,
    code: &LoadedBody,
) -> Result<Activation, Trap>
    requires fits { Fits from stack.old.items frames.old.items }
    requires inside { from.place.at + 1 < 2 ^ 64 }
    requires known { body_of table.now body ≡ Some code.now }
    ensures callers { IfErr result (λ stop. frames.new.items ≡ frames.old.items) }
    ensures waits { IfOk result (λ s. (size ≤ long)
        ⊎ (frames_left (texts_of table.now) frames.new.items ≤ most_waiting)) }
    ensures told { (w : World)
        → Told (λ is. enters (setting_of table.now nesting) (texts_of table.now) body
        (values stack.old.items from.place.top) (reverse frames.old.items) (caller_at from)
        from.place.ticks (with_inputs is w))
        (λ is. begun result from.place.top stack.new.items (reverse frames.new.items)
        (with_inputs is w)) }
    ensures fits { IfOk result (λ s. Fits s stack.new.items frames.new.items) }
    ensures body { IfOk result (λ s. s.body ≡ body) }
    ensures same { values stack.new.items from.place.top ≡ values stack.old.items from.place.top }
    ensures grows { length stack.old.items ≤ length stack.new.items }
{
    let top = from.place.top;
    let params = code.params();
    let height = code.height();
    if params.len() > top {
        return Err(Trap::Stuck);
    }
    if !objects_there(
        code.wants_objects(),
        code.only_receiver(),
        params,
        stack.as_slice(),
        top,
    ) {
        return Err(Trap::Fails(Fault::Null));
    }
    if frames.len() + 1 >= nesting {
        return Err(Trap::Fails(Fault::Depth));
    }
    if from.place.ticks == 0 {
        return Err(Trap::Fails(Fault::Budget));
    }
    if !may_call(table, frames, size, from.body, from.place.at) {
        return Err(Trap::Fails(Fault::Memory));
    }
    let caller = Frame {
        of: from.body,
        at: from.place.at + 1,
        room: from.room,
    };
    let Ok(()) = frames.reserve(1) else {
        return Err(Trap::Fails(Fault::Memory));
    };
    match begin_above(body, height, stack, top, from.place.ticks - 1) {
        Ok(next) => {
            frames.push_reserved(caller);
            Ok(next)
        }
        Err(stop) => Err(stop),
    }
}

/// A function that there is not is entered: why that leads nowhere. It is cold, as `may_wait` is.
#[cold]
fn enter_nothing(nesting: usize, frames: &Vec<Frame>, place: Cursor) -> Trap
    ensures reaches { (table : Table) (body : Routine) (stack : List Slot) (top : ℕ) (caller : Frame)
        (w : World) → body_of table body ≡ None → top ≤ length stack
        → Reaches (setting_of table nesting) (texts_of table)
        (λ is. enters (setting_of table nesting) (texts_of table) body (values stack top)
        (reverse frames.now.items) caller place.ticks (with_inputs is w))
        (λ is. begun (Err result) top stack (reverse frames.now.items) (with_inputs is w)) }
    ensures refuses { (table : Table) (body : Routine) (stack : List Slot) (top : ℕ) (caller : Frame)
        (w : World) → body_of table body ≡ None → top ≤ length stack
        → IfFails result (λ x. Told
        (λ is. enters (setting_of table nesting) (texts_of table) body (values stack top)
        (reverse frames.now.items) caller place.ticks (with_inputs is w))
        (λ is. fault x (values stack top) (with_inputs is w))) }
{
    if nesting <= frames.len() + 1 {
        return Trap::Fails(Fault::Depth);
    }
    if place.ticks == 0 {
        return Trap::Fails(Fault::Budget);
    }
    Trap::Stuck
}

/// `Enter`: the function that a call names is entered. With where it stands comes its code.
///
/// # Errors
/// `Unbound`, `Null`, `Depth`, `Budget` and `Memory`, the first of them that applies; lost where there is no such function.
#[inline(always)]
pub fn enter<'t>(
    table: &'t Table,
    nesting: usize,
    stack: &mut Vec<Slot>,
    frames: &mut Vec<Frame>,
    store: &Store,
    from: Activation,
    size: usize,
    callee: Callee,
) -> Result<(Activation, &'t LoadedBody), Trap>
    requires fits { Fits from stack.old.items frames.old.items }
    requires inside { from.place.at + 1 < 2 ^ 64 }
    ensures reaches { Reaches (setting_of table.now nesting) (texts_of table.now)
        (λ is. found_enters (setting_of table.now nesting) (texts_of table.now)
        (target (setting_of table.now nesting) from.body.home callee
        (values stack.old.items from.place.top)
        (with_inputs is (world_of ⟦<dyn Driver as Driver>⟧ store.now)))
        (values stack.old.items from.place.top) (reverse frames.old.items) (caller_at from)
        from.place.ticks (with_inputs is (world_of ⟦<dyn Driver as Driver>⟧ store.now)))
        (λ is. begun (standing_in result) from.place.top stack.new.items (reverse frames.new.items)
        (with_inputs is (world_of ⟦<dyn Driver as Driver>⟧ store.now))) }
    ensures refused { IfErr result (λ stop. IfFails stop (λ x. Told
        (λ is. found_enters (setting_of table.now nesting) (texts_of table.now)
        (target (setting_of table.now nesting) from.body.home callee
        (values stack.old.items from.place.top)
        (with_inputs is (world_of ⟦<dyn Driver as Driver>⟧ store.now)))
        (values stack.old.items from.place.top) (reverse frames.old.items) (caller_at from)
        from.place.ticks (with_inputs is (world_of ⟦<dyn Driver as Driver>⟧ store.now)))
        (λ is. fault x (values stack.new.items from.place.top)
        (with_inputs is (world_of ⟦<dyn Driver as Driver>⟧ store.now))))) }
    ensures callers { IfErr result (λ stop. frames.new.items ≡ frames.old.items) }
    ensures fits { IfOk result (λ r. Fits r.0 stack.new.items frames.new.items) }
    ensures code { IfOk result (λ r. body_of table.now r.0.body ≡ Some r.1.now) }
    ensures same { values stack.new.items from.place.top ≡ values stack.old.items from.place.top }
    ensures grows { length stack.old.items ≤ length stack.new.items }
{
    let top = from.place.top;
    match callee_of(table, from.body.home, callee, stack.as_slice(), top, store) {
        Ok(body) => {
            let Some(code) = body_at(table, body) else {
                return Err(enter_nothing(nesting, frames, from.place));
            };
            match enter_body(table, nesting, stack, frames, from, size, body, code) {
                Ok(next) => Ok((next, code)),
                Err(stop) => Err(stop),
            }
        }
        Err(fault) => Err(Trap::Fails(fault)),
    }
}
