//! What variables begin with.
ghost use Rattle.std.specs.Prelude.{◌≡◌};
ghost use Rattle.ang_tree.specs.View.{view_init};
ghost use Rattle.ang_typed.specs.View.{view_option};
ghost use Rattle.ang_check_operators.specs.Refusals.{Gives};
ghost use Rattle.ang_check_operators.specs.View.{view_operand, view_operands};
ghost use Rattle.ang_check_stmt.specs.Typing as spec;

use ang_check_context::{BodyContext, Locals};
use ang_check_operators::{Operand, TypingError, fault, fit, refused};
use ang_check_typing::{default_typing, made_typing, typing, typing_of_all};
use ang_kinds::ErrorKind;
use ang_lex::Token;
use ang_tree::{Initializer, TypeName};
use ang_typed::TypedExpression;
use ang_types::{ArgType, Lineage};
use std::alloc::Global;

/// A variable without an initializer: an object is made without arguments.
fn made_by_default(
    alloc: Global,
    context: &BodyContext<'_>,
    locals: &Locals<'_>,
    declared: &TypeName,
    ty: ArgType,
) -> Result<Option<Box<TypedExpression>>, TypingError>
    ensures exact { Gives view_option result
        (spec.absent_typing context.now locals.now declared.now ty) }
{
    match ty {
        ArgType::Object { number, .. } => {
            let object = default_typing(alloc, context, locals, &declared.name, number)?;
            Ok(Some(object.tree))
        }
        ArgType::Void
        | ArgType::Null
        | ArgType::Plain(_)
        | ArgType::Enumeration { .. }
        | ArgType::Handle { .. } => Ok(None),
    }
}

/// The value after `=`, as one of the variable's type; `NoAssign` at the `=` of an object.
fn assigned(
    alloc: Global,
    lineage: &Lineage,
    equals: &Token,
    ty: ArgType,
    operand: Operand,
) -> Result<Option<Box<TypedExpression>>, TypingError>
    ensures exact { Gives view_option result
        (spec.value_typing lineage.now equals.now ty (view_operand operand)) }
{
    match ty {
        ArgType::Object { .. } => Err(fault(ErrorKind::NoAssign, equals.place)),
        ArgType::Void
        | ArgType::Null
        | ArgType::Plain(_)
        | ArgType::Enumeration { .. }
        | ArgType::Handle { .. } => {
            let value = fit(alloc, lineage, ty, operand)?;
            Ok(Some(value))
        }
    }
}

/// An object that is made with arguments; `NoMatch` at the type's name of what is no object.
fn made_with(
    alloc: Global,
    context: &BodyContext<'_>,
    locals: &Locals<'_>,
    declared: &TypeName,
    ty: ArgType,
    operands: Vec<Operand>,
) -> Result<Option<Box<TypedExpression>>, TypingError>
    ensures exact { Gives view_option result
        (spec.arguments_typing context.now locals.now declared.now ty
        (view_operands operands.items)) }
{
    match ty {
        ArgType::Object { number, .. } => {
            let object = made_typing(alloc, context, locals, &declared.name, number, operands)?;
            Ok(Some(object.tree))
        }
        ArgType::Void
        | ArgType::Null
        | ArgType::Plain(_)
        | ArgType::Enumeration { .. }
        | ArgType::Handle { .. } => Err(refused(ErrorKind::NoMatch, &declared.name)),
    }
}

/// What a variable of this type begins with; nothing where it stays 0, `false` or null.
///
/// `BadConversion` at a value that does not convert, `NoAssign` at the `=` of an object, `NoDefault`
/// or `NoMatch` at the type's name where nothing makes an object so, besides the refusals of the
/// expressions.
pub fn initializer(
    alloc: Global,
    context: &BodyContext<'_>,
    locals: &Locals<'_>,
    declared: &TypeName,
    ty: ArgType,
    initializer: &Initializer,
) -> Result<Option<Box<TypedExpression>>, TypingError>
    ensures exact { Gives view_option result (spec.initializer_typing context.now locals.now
        declared.now ty (view_init initializer.now)) }
{
    match initializer {
        Initializer::Absent => made_by_default(alloc, context, locals, declared, ty),
        Initializer::Value(written) => {
            let operand = typing(alloc, context, locals, &written.value)?;
            assigned(alloc, context.lineage(), &written.equals, ty, operand)
        }
        Initializer::Constructor(arguments) => {
            let operands = typing_of_all(alloc, context, locals, arguments.items.as_slice())?;
            made_with(alloc, context, locals, declared, ty, operands)
        }
    }
}
