//! Numbers, `true`, `false` and `null`.
ghost use Rattle.std.specs.Prelude.{◌≡◌, IfOk};
ghost use Rattle.ang_check_operators.specs.Operands.{operand};
ghost use Rattle.ang_check_operators.specs.Refusals.{Gives};
ghost use Rattle.ang_check_operators.specs.View.{view_operand};
ghost use Rattle.ang_check_operators.specs.Operations as spec;
ghost use Rattle.ang_typed.specs.Typed as tree;

use crate::trees::{null_tree, number_tree, truth_tree};
use crate::{Operand, TypingError, fault, plain_operand};
use ang_kinds::{ErrorKind, Place, Prim};
use ang_lex::{Token, TokenKind, number};
use ang_types::ArgType;
use std::alloc::{AllocError, Global};

/// A number, `true`, `false` or `null`, of which `text` are the bytes.
///
/// # Errors
///
/// `BadConversion` at any other token, which no grammar puts here. `Memory` where a growth was refused.
#[tactic(auto, unfolding(crate::specs::Operations::literal_typing))]
pub fn literal(alloc: Global, token: &Token, text: &[u8]) -> Result<Operand, TypingError>
    ensures exact { Gives view_operand result (spec.literal_typing token.now text.now) }
{
    match token.kind {
        TokenKind::Number => Ok(number_literal(alloc, token.place, text)?),
        TokenKind::True => Ok(truth_literal(alloc, token.place, true)?),
        TokenKind::False => Ok(truth_literal(alloc, token.place, false)?),
        TokenKind::Null => Ok(null_literal(alloc, token.place)?),
        _ => Err(fault(ErrorKind::BadConversion, token.place)),
    }
}

fn number_literal(alloc: Global, place: Place, text: &[u8]) -> Result<Operand, AllocError>
    ensures exact { IfOk result (λ a. view_operand a ≡ spec.number_operand place text.now) }
{
    let written = number(text);
    let tree = number_tree(alloc, written.ty, written.value)?;
    Ok(plain_operand(place, ArgType::Plain(written.ty), tree))
}

fn truth_literal(alloc: Global, place: Place, value: bool) -> Result<Operand, AllocError>
    ensures exact { IfOk result
        (λ a. view_operand a ≡ operand place (ArgType.Plain Prim.Bool) (tree.truth value)) }
{
    let tree = truth_tree(alloc, value)?;
    Ok(plain_operand(place, ArgType::Plain(Prim::Bool), tree))
}

fn null_literal(alloc: Global, place: Place) -> Result<Operand, AllocError>
    ensures exact { IfOk result (λ a. view_operand a ≡ operand place ArgType.Null tree.null) }
{
    let tree = null_tree(alloc)?;
    Ok(plain_operand(place, ArgType::Null, tree))
}
