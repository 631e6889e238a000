//! Operators of the resolved tree as operations on values.
ghost use Rattle.std.specs.Prelude.{◌≡◌};
ghost use Rattle.ang_source.specs.Meaning as spec;

use ang_kinds::{Operator, Prim};
use ang_meaning::Update;
use ang_typed::StepKind;
use ang_types::ArgType;

/// How `operator=` changes a variable of type `ty`, where the operator works in the type `at`.
pub fn compound(ty: Prim, operator: Operator, at: Prim) -> Update
    ensures same { result ≡ spec.compound_of ty operator at }
{
    Update {
        operator,
        at,
        to: ty,
        old: false,
    }
}

/// How `++` and `--` change a variable of type `ty`.
pub fn step(ty: Prim, kind: StepKind) -> Update
    ensures same { result ≡ spec.step_of ty kind }
{
    let (operator, old) = match kind {
        StepKind::IncrementBefore => (Operator::Add, false),
        StepKind::DecrementBefore => (Operator::Subtract, false),
        StepKind::IncrementAfter => (Operator::Add, true),
        StepKind::DecrementAfter => (Operator::Subtract, true),
    };
    Update {
        operator,
        at: ty,
        to: ty,
        old,
    }
}

fn integer(ty: Prim) -> Option<Prim>
    ensures same { result ≡ spec.integer_of ty }
{
    match ty {
        Prim::I8
        | Prim::I16
        | Prim::I32
        | Prim::I64
        | Prim::U8
        | Prim::U16
        | Prim::U32
        | Prim::U64 => Some(ty),
        Prim::Bool => None,
    }
}

/// The integer type that a value is brought to as it moves into a variable of type `ty`, if any.
pub fn brought_to(ty: &ArgType) -> Option<Prim>
    ensures same { result ≡ spec.brought_to ty.now }
{
    match ty {
        ArgType::Plain(primitive) => integer(*primitive),
        ArgType::Enumeration { .. } => Some(Prim::I32),
        ArgType::Void => None,
        ArgType::Null => None,
        ArgType::Object { .. } => None,
        ArgType::Handle { .. } => None,
    }
}
