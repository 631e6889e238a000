//! `Apply`: operations take their operands from the stack and put their value there.
ghost use Rattle.std.specs.Prelude.{◌≡◌, ℕ, ◌+◌, ◌-◌, ◌<◌, ◌≤◌, ◌∷◌, List, length, IfOk, is_ok, Err};
ghost use Rattle.ang_kinds.specs.declared.fault.Fault.{Fault as FaultOf};
ghost use Rattle.ang_meaning.specs.declared.routine.Routine.{Routine};
ghost use Rattle.ang_meaning.specs.declared.operation.Operation.TheVariants.{Binary, Compare, Convert, Negate, Complement, Not};
ghost use Rattle.ang_meaning.specs.World.{World};
ghost use Rattle.ang_meaning.specs.Results.{drop_some};
ghost use Rattle.ang_code.specs.declared.instruction.Frame.{Frame};
ghost use Rattle.ang_code.specs.declared.instruction.Instruction.TheVariants.{Apply};
ghost use Rattle.ang_code.specs.Machine.{At, did};
ghost use Rattle.ang_vm_stack.specs.declared.stop.Trap.TheVariants.{Fails};
ghost use Rattle.ang_vm_stack.specs.Stacks.{values};
ghost use Rattle.ang_vm_stack.specs.Arms.{done, went};
ghost use Rattle.ang_vm_steps.specs.Arms.{ActsAlone};

use crate::operations::{
    compare_slots, complement_slot, convert_slot, deny_slot, negate_slot, work_slots,
};
use ang_kinds::{Comparison, Fault, Operator, Prim};
use ang_meaning::Slot;
use ang_vm_stack::stack::{peek, push};
use ang_vm_stack::stop::Trap;

/// The answer of an operation that takes `count` operands: its value takes their place, or they stay where
/// it faults.
#[inline(always)]
pub(crate) fn put_answer(
    stack: &mut [Slot],
    top: usize,
    count: usize,
    answer: Result<Slot, Fault>,
) -> Result<usize, Trap>
    requires in_use { count ≤ top }
    requires within { top ≤ length stack.old }
    requires room { top - count < length stack.old }
    ensures exact { (room : ℕ) (f : Routine) (pc : ℕ) (fr : List Frame) (t : ℕ) (w : World)
        → did (done answer w) (values stack.old top)
        (λ v u. At f (pc + 1) room (v ∷ drop_some count (values stack.old top)) fr t u)
        ≡ went result f pc room stack.new top fr t w }
    ensures in_room { IfOk result (λ n. n ≤ top - count + 1) }
    ensures ok { is_ok result ≡ is_ok answer }
    ensures fails { (x : FaultOf) → result ≡ Err (Fails x)
        → (answer ≡ Err x) × (stack.new ≡ stack.old) }
{
    match answer {
        Ok(value) => {
            push(stack, top - count, value);
            Ok(top - count + 1)
        }
        Err(fault) => Err(Trap::Fails(fault)),
    }
}

/// A binary operator on the two top values.
#[inline(always)]
pub(crate) fn do_work(
    stack: &mut [Slot],
    top: usize,
    room: usize,
    what: Operator,
    at: Prim,
) -> Result<usize, Trap>
    requires in_room { top ≤ room }
    requires within { room ≤ length stack.old }
    ensures acts { ActsAlone (Apply (Binary what at)) room top stack.old result stack.new }
    ensures in_room { IfOk result (λ n. n ≤ room) }
{
    if top < 2 {
        return Err(Trap::Stuck);
    }
    let second = peek(stack, top, 0);
    let first = peek(stack, top, 1);
    let answer = work_slots(what, at, first, second);
    put_answer(stack, top, 2, answer)
}

/// A comparison of the two top values.
#[inline(always)]
pub(crate) fn do_compare(
    stack: &mut [Slot],
    top: usize,
    room: usize,
    what: Comparison,
    signed: bool,
) -> Result<usize, Trap>
    requires in_room { top ≤ room }
    requires within { room ≤ length stack.old }
    ensures acts { ActsAlone (Apply (Compare what signed)) room top stack.old result stack.new }
    ensures in_room { IfOk result (λ n. n ≤ room) }
{
    if top < 2 {
        return Err(Trap::Stuck);
    }
    let second = peek(stack, top, 0);
    let first = peek(stack, top, 1);
    let answer = compare_slots(what, signed, first, second);
    put_answer(stack, top, 2, answer)
}

/// The conversion of the top value.
#[inline(always)]
pub(crate) fn do_convert(
    stack: &mut [Slot],
    top: usize,
    room: usize,
    to: Prim,
) -> Result<usize, Trap>
    requires in_room { top ≤ room }
    requires within { room ≤ length stack.old }
    ensures acts { ActsAlone (Apply (Convert to)) room top stack.old result stack.new }
    ensures in_room { IfOk result (λ n. n ≤ room) }
{
    if top == 0 {
        return Err(Trap::Stuck);
    }
    let first = peek(stack, top, 0);
    let answer = convert_slot(to, first);
    put_answer(stack, top, 1, answer)
}

/// Unary `-` of the top value.
#[inline(always)]
pub(crate) fn do_negate(
    stack: &mut [Slot],
    top: usize,
    room: usize,
    at: Prim,
) -> Result<usize, Trap>
    requires in_room { top ≤ room }
    requires within { room ≤ length stack.old }
    ensures acts { ActsAlone (Apply (Negate at)) room top stack.old result stack.new }
    ensures in_room { IfOk result (λ n. n ≤ room) }
{
    if top == 0 {
        return Err(Trap::Stuck);
    }
    let first = peek(stack, top, 0);
    let answer = negate_slot(at, first);
    put_answer(stack, top, 1, answer)
}

/// `~` of the top value.
#[inline(always)]
pub(crate) fn do_complement(
    stack: &mut [Slot],
    top: usize,
    room: usize,
    at: Prim,
) -> Result<usize, Trap>
    requires in_room { top ≤ room }
    requires within { room ≤ length stack.old }
    ensures acts { ActsAlone (Apply (Complement at)) room top stack.old result stack.new }
    ensures in_room { IfOk result (λ n. n ≤ room) }
{
    if top == 0 {
        return Err(Trap::Stuck);
    }
    let first = peek(stack, top, 0);
    let answer = complement_slot(at, first);
    put_answer(stack, top, 1, answer)
}

/// `!` of the top value.
#[inline(always)]
pub(crate) fn do_not(stack: &mut [Slot], top: usize, room: usize) -> Result<usize, Trap>
    requires in_room { top ≤ room }
    requires within { room ≤ length stack.old }
    ensures acts { ActsAlone (Apply Not) room top stack.old result stack.new }
    ensures in_room { IfOk result (λ n. n ≤ room) }
{
    if top == 0 {
        return Err(Trap::Stuck);
    }
    let first = peek(stack, top, 0);
    let answer = deny_slot(first);
    put_answer(stack, top, 1, answer)
}
