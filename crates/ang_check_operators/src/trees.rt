//! Resolved trees made of their parts, each in a box. Each function fails for want of memory alone.
ghost use Rattle.std.specs.Prelude.{◌≡◌, IfOk};
ghost use Rattle.ang_typed.specs.Typed as tree;
ghost use Rattle.ang_typed.specs.View.{view_site, view_tree};

use crate::boxed;
use ang_kinds::{Comparison, Operator, Prim};
use ang_typed::{StepKind, TypedExpression, TypedSite};
use ang_types::ArgType;
use std::alloc::{AllocError, Global};

/// A number as it is written: `value`, of the integer type `ty`.
pub(crate) fn number_tree(
    alloc: Global,
    ty: Prim,
    value: u64,
) -> Result<Box<TypedExpression>, AllocError>
    ensures exact { IfOk result (λ e. view_tree e ≡ tree.number ty value) }
{
    boxed(alloc, TypedExpression::Number { ty, value })
}

/// The word `true` or `false`, by its truth value.
pub(crate) fn truth_tree(alloc: Global, value: bool) -> Result<Box<TypedExpression>, AllocError>
    ensures exact { IfOk result (λ e. view_tree e ≡ tree.truth value) }
{
    boxed(alloc, TypedExpression::Truth(value))
}

/// `null`
pub(crate) fn null_tree(alloc: Global) -> Result<Box<TypedExpression>, AllocError>
    ensures exact { IfOk result (λ e. view_tree e ≡ tree.null) }
{
    boxed(alloc, TypedExpression::Null)
}

/// `++` or `--` of what stands at a site of the integer type `ty`.
pub(crate) fn step_of(
    alloc: Global,
    site: TypedSite,
    ty: Prim,
    step: StepKind,
) -> Result<Box<TypedExpression>, AllocError>
    ensures exact { IfOk result (λ e. view_tree e ≡ tree.step (view_site site) ty step) }
{
    boxed(alloc, TypedExpression::Step { site, ty, step })
}

/// An operator on two integers of type `ty`, which is the type of its result too.
pub(crate) fn operate(
    alloc: Global,
    operator: Operator,
    ty: Prim,
    left: Box<TypedExpression>,
    right: Box<TypedExpression>,
) -> Result<Box<TypedExpression>, AllocError>
    ensures exact { IfOk result
        (λ e. view_tree e ≡ tree.operate operator ty (view_tree left) (view_tree right)) }
{
    boxed(
        alloc,
        TypedExpression::Operate {
            operator,
            ty,
            left,
            right,
        },
    )
}

/// A comparison of two values of type `ty`. Its result is a `bool`.
pub(crate) fn compare(
    alloc: Global,
    comparison: Comparison,
    ty: Prim,
    left: Box<TypedExpression>,
    right: Box<TypedExpression>,
) -> Result<Box<TypedExpression>, AllocError>
    ensures exact { IfOk result
        (λ e. view_tree e ≡ tree.compare comparison ty (view_tree left) (view_tree right)) }
{
    boxed(
        alloc,
        TypedExpression::Compare {
            comparison,
            ty,
            left,
            right,
        },
    )
}

/// `&&` of two truth values.
pub(crate) fn and(
    alloc: Global,
    left: Box<TypedExpression>,
    right: Box<TypedExpression>,
) -> Result<Box<TypedExpression>, AllocError>
    ensures exact { IfOk result (λ e. view_tree e ≡ tree.and (view_tree left) (view_tree right)) }
{
    boxed(alloc, TypedExpression::And { left, right })
}

/// `||` of two truth values.
pub(crate) fn or(
    alloc: Global,
    left: Box<TypedExpression>,
    right: Box<TypedExpression>,
) -> Result<Box<TypedExpression>, AllocError>
    ensures exact { IfOk result (λ e. view_tree e ≡ tree.or (view_tree left) (view_tree right)) }
{
    boxed(alloc, TypedExpression::Or { left, right })
}

/// `is` of two objects or handles.
pub(crate) fn same(
    alloc: Global,
    left: Box<TypedExpression>,
    right: Box<TypedExpression>,
) -> Result<Box<TypedExpression>, AllocError>
    ensures exact { IfOk result (λ e. view_tree e ≡ tree.same (view_tree left) (view_tree right)) }
{
    boxed(alloc, TypedExpression::Same { left, right })
}

/// `?:`: of two values of one type the first where the condition is true, else the second.
pub(crate) fn choose(
    alloc: Global,
    condition: Box<TypedExpression>,
    then: Box<TypedExpression>,
    otherwise: Box<TypedExpression>,
) -> Result<Box<TypedExpression>, AllocError>
    ensures exact { IfOk result (λ e. view_tree e ≡
        tree.choose (view_tree condition) (view_tree «then») (view_tree otherwise)) }
{
    boxed(
        alloc,
        TypedExpression::Choose {
            condition,
            then,
            otherwise,
        },
    )
}

/// `-` of an integer of type `ty`, which is the type of its result too.
pub(crate) fn negate(
    alloc: Global,
    ty: Prim,
    operand: Box<TypedExpression>,
) -> Result<Box<TypedExpression>, AllocError>
    ensures exact { IfOk result (λ e. view_tree e ≡ tree.negate ty (view_tree operand)) }
{
    boxed(alloc, TypedExpression::Negate { ty, operand })
}

/// `~` of an integer of type `ty`, which is the type of its result too.
pub(crate) fn complement(
    alloc: Global,
    ty: Prim,
    operand: Box<TypedExpression>,
) -> Result<Box<TypedExpression>, AllocError>
    ensures exact { IfOk result (λ e. view_tree e ≡ tree.complement ty (view_tree operand)) }
{
    boxed(alloc, TypedExpression::Complement { ty, operand })
}

/// `!` of a truth value.
pub(crate) fn not(
    alloc: Global,
    operand: Box<TypedExpression>,
) -> Result<Box<TypedExpression>, AllocError>
    ensures exact { IfOk result (λ e. view_tree e ≡ tree.not (view_tree operand)) }
{
    boxed(alloc, TypedExpression::Not { operand })
}

/// `=`: a value of type `ty` stored at a site of that type.
pub(crate) fn assign(
    alloc: Global,
    site: TypedSite,
    ty: ArgType,
    value: Box<TypedExpression>,
) -> Result<Box<TypedExpression>, AllocError>
    ensures exact { IfOk result
        (λ e. view_tree e ≡ tree.assign (view_site site) ty (view_tree value)) }
{
    boxed(alloc, TypedExpression::Assign { site, ty, value })
}

/// A compound assignment to a site of the integer type `ty`, such as `+=`. The operator works in the type
/// `operating`, of which the value is.
pub(crate) fn compound(
    alloc: Global,
    site: TypedSite,
    ty: Prim,
    operator: Operator,
    operating: Prim,
    value: Box<TypedExpression>,
) -> Result<Box<TypedExpression>, AllocError>
    ensures exact { IfOk result (λ e. view_tree e ≡
        tree.compound (view_site site) ty operator operating (view_tree value)) }
{
    boxed(
        alloc,
        TypedExpression::Compound {
            site,
            ty,
            operator,
            operating,
            value,
        },
    )
}
