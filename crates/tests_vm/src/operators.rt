//! Operators and changes of numbers that several modules and texts have.
use ang_code::Instruction;
use ang_code::Instruction::Apply;
use ang_kinds::{Operator, Prim};
use ang_meaning::{Operation, Update};

/// `+` of two `int`.
pub const ADD: Instruction = Apply(Operation::Binary(Operator::Add, Prim::I32));

/// `-` of two `int`.
pub const SUBTRACT: Instruction = Apply(Operation::Binary(Operator::Subtract, Prim::I32));

/// `/` of two `int`.
pub const DIVIDE: Instruction = Apply(Operation::Binary(Operator::Divide, Prim::I32));

/// `+= n` on an `int`.
pub const PLUS: Update = Update {
    operator: Operator::Add,
    at: Prim::I32,
    to: Prim::I32,
    old: false,
};

/// `+= n` on an `int64`, whose value is the one before.
pub const LATER: Update = Update {
    operator: Operator::Add,
    at: Prim::I64,
    to: Prim::I64,
    old: true,
};
