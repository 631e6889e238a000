//! `this`, and what methods are called on.
ghost use Rattle.std.specs.Prelude.{◌≡◌, ◌<◌, IfOk};
ghost use Rattle.ang_check_operators.specs.Refusals.{Gives};
ghost use Rattle.ang_check_operators.specs.View.{view_operand};
ghost use Rattle.ang_check_context.specs.Names as names;
ghost use Rattle.ang_names_known.specs.Spaces as spaces;

use crate::context::BodyContext;
use crate::scope::Within;
use ang_check_operators::{Operand, TypingError, boxed, plain_operand, refused};
use ang_kinds::{ErrorKind, Place};
use ang_lex::Token;
use ang_names_known::family_type;
use ang_typed::{TypedExpression, TypedSite, TypedVariable};
use ang_types::ArgType;
use std::alloc::{AllocError, Global};

/// On what a method is called: the number of the receiver's type, and whether the receiver may not
/// be changed.
#[derive(Clone, Copy)]
pub struct Receiver {
    /// The number of its type.
    pub number: u32,
    /// Whether it is `const`.
    pub read_only: bool,
}

/// `this` as the receiver of a method.
pub fn receiver_within(within: Within) -> Receiver
    requires few { within.family < 256 }
    ensures number { result.number ≡ spaces.family_type within.family }
    ensures read_only { result.read_only ≡ within.read_only }
{
    Receiver {
        number: family_type(within.family),
        read_only: within.read_only,
    }
}

/// The type of `this`.
pub fn own_type(within: Within) -> ArgType
    requires few { within.family < 256 }
    ensures exact { result ≡ names.own_type within }
{
    ArgType::Object {
        number: family_type(within.family),
        read_only: within.read_only,
    }
}

/// `this`, which is local 0.
///
/// The only error is want of memory.
pub fn this_operand(alloc: Global, place: Place, within: Within) -> Result<Operand, AllocError>
    requires few { within.family < 256 }
    ensures exact { IfOk result (λ a. view_operand a ≡ names.this_operand place within) }
{
    let ty = own_type(within);
    let site = TypedSite::Named(TypedVariable::Local(0));
    let tree = boxed(alloc, TypedExpression::Read { site, ty })?;
    Ok(plain_operand(place, ty, tree))
}

/// `this`, in a method or a constructor.
///
/// # Errors
///
/// `UnknownName` in any other body. `Memory` where a growth was refused.
#[tactic(auto, unfolding(crate::specs::Names::this_typing))]
pub fn this(alloc: Global, context: &BodyContext<'_>, token: &Token) -> Result<Operand, TypingError>
    ensures exact { Gives view_operand result (names.this_typing context.now token.now) }
{
    match context.within() {
        None => Err(refused(ErrorKind::UnknownName, token)),
        Some(within) => Ok(this_operand(alloc, token.place, within)?),
    }
}
