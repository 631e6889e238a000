//! The code of expressions, written from its end.
ghost use Rattle.std.specs.Prelude.{◌≡◌, ◌+◌, ◌<◌, ◌^◌, ◌++◌, length, IfOk, OnOk};
ghost use Rattle.ang_gen.specs.Code.{expr_code, outs_code, swap_at, swaps_code};
ghost use Rattle.ang_gen.specs.Peaks.{peak, list_peak};
ghost use Rattle.ang_gen.specs.Rows.{list_code};

use crate::room::place_above;
use crate::text::InstructionBuffer;
use ang_code::Instruction;
use ang_core::CoreExpression;
use ang_meaning::{Spot, Target};
use std::alloc::AllocError;

// The value of an `&out` parameter at the place `under` moves into its target, where the locals begin at
// the place `base`. Into a field it moves from a place of 32 bits: a call with more `&out` parameters, of which no memory
// holds the code, is want of memory.
fn swap(target: &Target, under: usize, base: usize) -> Result<Instruction, AllocError>
    ensures exact { IfOk result (λ i. i ≡ swap_at target.now.to under base target.now.spot) }
{
    let instruction = match target.spot {
        Spot::Local(i) => Instruction::Swap {
            to: target.to,
            under,
            with: place_above(base, i),
        },
        Spot::Global(global) => Instruction::SwapGlobal {
            to: target.to,
            under,
            global,
        },
        Spot::Field { object, field } => {
            let Ok(under) = u32::try_from(under) else {
                return Err(AllocError);
            };
            Instruction::SwapField {
                to: target.to,
                under,
                object: place_above(base, object),
                field,
            }
        }
    };
    Ok(instruction)
}

// The code of all targets, after a call. The first target in the list is the last one of the call.
fn write_swaps(
    text: &mut InstructionBuffer,
    base: usize,
    targets: &[Target],
) -> Result<(), AllocError>
    ensures code { OnOk result (text.new ≡ swaps_code 1 base targets.now ++ text.old) }
{
    let mut under = 1;
    for target in targets {
        text.put(swap(target, under, base)?)?;
        under += 1;
    }
    Ok(())
}

// What follows a call's entry: the values of its `&out` parameters move into their targets.
fn write_outs(
    text: &mut InstructionBuffer,
    above: usize,
    targets: &[Target],
) -> Result<(), AllocError>
    requires room { 1 + length targets.now + above < 2 ^ 64 }
    ensures code { OnOk result (text.new ≡ outs_code above targets.now ++ text.old) }
{
    if targets.is_empty() {
        return Ok(());
    }
    let base = 1 + targets.len() + above;
    text.put(Instruction::DropUnder(targets.len()))?;
    write_swaps(text, base, targets)
}

/// Writes the code of an expression, where `above` values stand on the stack above the locals.
#[cycle(expression)]
pub fn write_expression(
    text: &mut InstructionBuffer,
    above: usize,
    e: &CoreExpression,
) -> Result<(), AllocError>
    requires room { peak above e.now < 2 ^ 64 }
    ensures code { OnOk result (text.new ≡ expr_code above e.now ++ text.old) }
{
    match e {
        CoreExpression::Number(n) => text.put(Instruction::PushBits(*n)),
        CoreExpression::Null => text.put(Instruction::PushNull),
        CoreExpression::Local(i) => text.put(Instruction::Load(place_above(above, *i))),
        CoreExpression::Assign(i, value) => {
            text.put(Instruction::Store(place_above(above, *i)))?;
            write_expression(text, above, value)
        }
        CoreExpression::Update(i, change, value) => {
            text.put(Instruction::Update(*change, place_above(above, *i)))?;
            write_expression(text, above, value)
        }
        CoreExpression::Apply(operation, operands) => {
            text.put(Instruction::Apply(*operation))?;
            write_operands(text, above, operands)
        }
        CoreExpression::Call(callee, operands, targets) => {
            write_outs(text, above, targets)?;
            text.put(Instruction::Enter(*callee))?;
            write_operands(text, above, operands)
        }
        CoreExpression::Choose(test, one, two) => {
            let end = text.len();
            write_expression(text, above, two)?;
            let second = text.len();
            text.put(Instruction::Jump(second - end))?;
            write_expression(text, above, one)?;
            let first = text.len();
            text.put(Instruction::JumpIfFalse(first - second))?;
            write_expression(text, above, test)
        }
    }
}

// Operands in their order, each above the values of those before it.
#[cycle(expression)]
fn write_operands(
    text: &mut InstructionBuffer,
    above: usize,
    operands: &[CoreExpression],
) -> Result<(), AllocError>
    requires room { list_peak above operands.now < 2 ^ 64 }
    ensures code { OnOk result (text.new ≡ list_code above operands.now ++ text.old) }
{
    let mut next = above + operands.len();
    for e in operands.iter().rev() {
        next -= 1;
        write_expression(text, next, e)?;
    }
    Ok(())
}
