//! Variables and members of objects: where they stand, how they are read, stored and changed.
ghost use Rattle.std.specs.Prelude.{◌≡◌, ◌+◌, ◌-◌, suc, reverse, IfOk, OnOk};
ghost use Rattle.ang_typed.specs.View.{view_arg, view_args};
ghost use Rattle.ang_lower.specs.PlainExpr.{plain_expr};
ghost use Rattle.ang_lower.specs.LoweredExpr as spec;

use crate::build_expr::{CoreOperands, binary, nullary, unary};
use crate::operators::brought_to;
use ang_core::CoreExpression;
use ang_meaning::{Operation, Spot, Target, Update};
use ang_typed::{TypedArgument, TypedMember, TypedVariable};
use std::alloc::{AllocError, Global};

/// The place of a local among `alive` ones, counted from the innermost one. In a checked tree it is alive; where
/// it is not the place is 0.
fn place(alive: usize, local: usize) -> usize
    ensures exact { result ≡ alive - suc local }
{
    if local < alive { alive - local - 1 } else { 0 }
}

/// `this`, which is local 0.
fn this(alive: usize) -> CoreExpression
    ensures exact { plain_expr result ≡ spec.this_at alive }
{
    CoreExpression::Local(place(alive, 0))
}

/// An operation on a value and `this`.
fn with_this(
    alloc: Global,
    alive: usize,
    operation: Operation,
    value: CoreExpression,
) -> Result<CoreExpression, AllocError>
    ensures exact { IfOk result (λ x. plain_expr x
        ≡ spec.binary operation (plain_expr value) (spec.this_at alive)) }
{
    let left = value;
    let right = this(alive);
    binary(alloc, operation, CoreOperands { left, right })
}

/// What reads a member of its operand.
pub fn reading(member: &TypedMember) -> Operation
    ensures exact { result ≡ spec.reading member.now }
{
    match member {
        TypedMember::Field(i) => Operation::FieldGet(*i),
        TypedMember::Property(host) => Operation::Read(host.entity),
    }
}

/// What stores its first operand into a member of the second.
pub fn writing(member: &TypedMember) -> Operation
    ensures exact { result ≡ spec.writing member.now }
{
    match member {
        TypedMember::Field(i) => Operation::FieldSet(*i),
        TypedMember::Property(host) => Operation::Write(host.entity),
    }
}

/// What changes a member of its second operand by the first.
pub fn altering(member: &TypedMember, by: Update) -> Operation
    ensures exact { result ≡ spec.altering member.now by }
{
    match member {
        TypedMember::Field(i) => Operation::FieldChange(by, *i),
        TypedMember::Property(host) => Operation::Alter(host.entity, by),
    }
}

/// A variable's value, where `alive` locals are alive.
pub fn read(
    alloc: Global,
    alive: usize,
    variable: &TypedVariable,
) -> Result<CoreExpression, AllocError>
    ensures exact { IfOk result (λ x. plain_expr x ≡ spec.read alive variable.now) }
{
    match variable {
        TypedVariable::Local(i) => {
            let place = place(alive, *i);
            Ok(CoreExpression::Local(place))
        }
        TypedVariable::Global(g) => Ok(nullary(alloc, Operation::GlobalGet(*g))),
        TypedVariable::Property(host) => Ok(nullary(alloc, Operation::Read(host.entity))),
        TypedVariable::Field(i) => {
            let object = this(alive);
            unary(alloc, Operation::FieldGet(*i), object)
        }
    }
}

/// A store into a variable.
pub fn store(
    alloc: Global,
    alive: usize,
    variable: &TypedVariable,
    value: CoreExpression,
) -> Result<CoreExpression, AllocError>
    ensures exact { IfOk result (λ x. plain_expr x
        ≡ spec.stored alive variable.now (plain_expr value)) }
{
    match variable {
        TypedVariable::Local(i) => {
            let place = place(alive, *i);
            let value = Box::new(alloc, value)?;
            Ok(CoreExpression::Assign(place, value))
        }
        TypedVariable::Global(g) => unary(alloc, Operation::GlobalSet(*g), value),
        TypedVariable::Property(host) => unary(alloc, Operation::Write(host.entity), value),
        TypedVariable::Field(i) => with_this(alloc, alive, Operation::FieldSet(*i), value),
    }
}

/// A change of a variable by an operand.
pub fn change(
    alloc: Global,
    alive: usize,
    variable: &TypedVariable,
    by: Update,
    value: CoreExpression,
) -> Result<CoreExpression, AllocError>
    ensures exact { IfOk result (λ x. plain_expr x
        ≡ spec.changed alive variable.now by (plain_expr value)) }
{
    match variable {
        TypedVariable::Local(i) => {
            let place = place(alive, *i);
            let value = Box::new(alloc, value)?;
            Ok(CoreExpression::Update(place, by, value))
        }
        TypedVariable::Global(g) => unary(alloc, Operation::GlobalChange(by, *g), value),
        TypedVariable::Property(host) => unary(alloc, Operation::Alter(host.entity, by), value),
        TypedVariable::Field(i) => with_this(alloc, alive, Operation::FieldChange(by, *i), value),
    }
}

/// Where a variable stands that an `&out` value moves into. A host property is none, and stands for the innermost
/// local; no checked tree has one there.
fn spot(alive: usize, variable: &TypedVariable) -> Spot
    ensures exact { result ≡ spec.spot_of alive variable.now }
{
    match variable {
        TypedVariable::Local(i) => Spot::Local(place(alive, *i)),
        TypedVariable::Global(g) => Spot::Global(*g),
        TypedVariable::Property(_) => Spot::Local(0),
        TypedVariable::Field(i) => Spot::Field {
            object: place(alive, 0),
            field: *i,
        },
    }
}

// The target of one argument after those that there are, if it is an `&out` one.
fn add_target(
    alive: usize,
    argument: &TypedArgument,
    found: &mut Vec<Target>,
) -> Result<(), AllocError>
    ensures exact { OnOk result (reverse found.new.items
        ≡ spec.with_target alive (view_arg argument.now) (reverse found.old.items)) }
{
    match argument {
        TypedArgument::Value { .. } => Ok(()),
        TypedArgument::Out { variable, to, .. } => {
            let spot = spot(alive, variable);
            found.push(Target {
                spot,
                to: brought_to(to),
            })?;
            Ok(())
        }
    }
}

/// The targets of a call's arguments, the last one first.
pub fn targets(
    alloc: Global,
    alive: usize,
    arguments: &[TypedArgument],
) -> Result<Vec<Target>, AllocError>
    ensures exact { IfOk result (λ v. v.items ≡ spec.targets_of alive (view_args arguments.now)) }
{
    let mut found = Vec::new(alloc);
    for argument in arguments {
        add_target(alive, argument, &mut found)?;
    }
    found.reverse();
    Ok(found)
}
