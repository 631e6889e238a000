//! Ticks, and jumps within a body.
ghost use Rattle.std.specs.Prelude.{◌≡◌, ◌+◌, ◌<◌, ◌≤◌, ◌^◌, List, length, IfSome, IfNone};
ghost use Rattle.ang_meaning.specs.declared.slot.Slot.{Slot};
ghost use Rattle.ang_meaning.specs.declared.routine.Routine.{Routine};
ghost use Rattle.ang_meaning.specs.World.{World};
ghost use Rattle.ang_code.specs.declared.instruction.Instruction.TheVariants.{JumpIfFalse, Jump, Tick, LoopBack};
ghost use Rattle.ang_vm_stack.specs.declared.table.Table.{Table};
ghost use Rattle.ang_vm_stack.specs.Arms.{next_of};
ghost use Rattle.ang_vm_steps.specs.Turns.{Turned, IsNext};

use ang_kinds::Fault;
use ang_meaning::Slot;
use ang_vm_stack::place::{Pause, Cursor};
use ang_vm_stack::stack::peek;
use ang_vm_stack::stop::Trap;

/// The next instruction's place after one that leaves some values in use, or why there is none.
#[inline(always)]
pub fn next(here: Cursor, went: Result<usize, Trap>) -> Result<Cursor, Pause>
    requires inside { here.at + 1 < 2 ^ 64 }
    ensures exact { result ≡ next_of here went }
{
    match went {
        Ok(top) => Ok(Cursor {
            at: here.at + 1,
            top,
            ticks: here.ticks,
        }),
        Err(Trap::Fails(fault)) => Err(Pause::Faults(here.top, fault)),
        Err(Trap::Stuck) => Err(Pause::Stuck),
    }
}

/// The place that `count` instructions are passed to, in a text of `size` instructions: none after the
/// text's end.
#[inline(always)]
fn pass(here: Cursor, count: usize, size: usize) -> Option<usize>
    requires inside { here.at < size }
    ensures some { IfSome result (λ at. (at ≡ here.at + 1 + count) × (at ≤ size)) }
    ensures none { IfNone result (size < here.at + 1 + count) }
{
    if count > size - here.at - 1 {
        return None;
    }
    Some(here.at + 1 + count)
}

/// `Jump`: `count` instructions are passed.
#[inline(always)]
pub fn go_on(here: Cursor, room: usize, count: usize, size: usize) -> Result<Cursor, Pause>
    requires inside { here.at < size }
    requires in_room { here.top ≤ room }
    ensures turned { (t : Table) (f : Routine) (stack : List Slot) (w : World)
        → IsNext t f here (Jump count) size → Turned t f room here stack w result stack w }
{
    match pass(here, count, size) {
        Some(at) => Ok(Cursor { at, ..here }),
        None => Err(Pause::Stuck),
    }
}

/// `JumpIfFalse`: the top value is taken, and `count` instructions are passed where it is false.
#[inline(always)]
pub fn skip_if_false(
    stack: &[Slot],
    here: Cursor,
    room: usize,
    count: usize,
    size: usize,
) -> Result<Cursor, Pause>
    requires inside { here.at < size }
    requires in_room { here.top ≤ room }
    requires within { room ≤ length stack.now }
    ensures turned { (t : Table) (f : Routine) (w : World)
        → IsNext t f here (JumpIfFalse count) size
        → Turned t f room here stack.now w result stack.now w }
{
    if here.top == 0 {
        return Err(Pause::Stuck);
    }
    let below = Cursor {
        top: here.top - 1,
        ..here
    };
    match peek(stack, here.top, 0) {
        Slot::Bits(n) => {
            if n != 0 {
                return Ok(Cursor {
                    at: here.at + 1,
                    ..below
                });
            }
            match pass(here, count, size) {
                Some(at) => Ok(Cursor { at, ..below }),
                None => Err(Pause::Stuck),
            }
        }
        Slot::Script(_) | Slot::Host(_, _) => Err(Pause::Faults(here.top, Fault::Null)),
    }
}

/// `Tick`: a tick is taken.
#[inline(always)]
pub fn tick(here: Cursor, room: usize, size: usize) -> Result<Cursor, Pause>
    requires inside { here.at < size }
    requires in_room { here.top ≤ room }
    ensures turned { (t : Table) (f : Routine) (stack : List Slot) (w : World)
        → IsNext t f here Tick size → Turned t f room here stack w result stack w }
{
    if here.ticks == 0 {
        return Err(Pause::Faults(here.top, Fault::Budget));
    }
    let ticks = here.ticks - 1;
    Ok(Cursor {
        at: here.at + 1,
        top: here.top,
        ticks,
    })
}

/// `LoopBack`: a tick is taken, and the body goes back by `count` instructions.
#[inline(always)]
pub fn go_back(here: Cursor, room: usize, count: usize, size: usize) -> Result<Cursor, Pause>
    requires in_room { here.top ≤ room }
    ensures turned { (t : Table) (f : Routine) (stack : List Slot) (w : World)
        → IsNext t f here (LoopBack count) size → Turned t f room here stack w result stack w }
{
    if here.ticks == 0 {
        return Err(Pause::Faults(here.top, Fault::Budget));
    }
    Ok(Cursor {
        at: here.at.saturating_sub(count),
        top: here.top,
        ticks: here.ticks - 1,
    })
}
