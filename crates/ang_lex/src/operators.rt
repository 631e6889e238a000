//! The operators of the grammar that stand between two operands: which token is one, how tightly it binds, and what
//! it does.
//!
//! This is the one table of them. The grammar, the limit on operators in a statement and the checker read it, each
//! what it asks of an operator. It stands here, beside the signs, since this is the lowest crate that knows both
//! tokens and operators: `ang_kinds` has the operators themselves, which also the machine speaks of, and no tokens.
ghost use Rattle.std.specs.Prelude.{◌≡◌, ◌≤◌, IfSome};
ghost use Rattle.ang_lex.specs.Operators as spec;

use crate::token::TokenKind;
use ang_kinds::{Comparison, Operator};

/// An operator on two integers, by the type in which it works.
#[derive(Clone, Copy)]
pub enum IntegerOperator {
    /// Works in the common type of both.
    Arithmetic(Operator),
    /// Works in the left one's type, raised.
    Shift(Operator),
}

/// What a binary operator does.
#[derive(Clone, Copy)]
pub enum OperatorForm {
    /// Works on two integers.
    Integers(IntegerOperator),
    /// Compares two integers.
    Order(Comparison),
    /// Compares two integers or two truth values.
    Equality(Comparison),
    /// `&&`
    And,
    /// `||`
    Or,
    /// `xor`
    Xor,
    /// `is`
    Same,
    /// `!is`
    Differ,
}

/// A binary operator.
#[derive(Clone, Copy)]
pub struct BinaryOperator {
    /// How tightly it binds, from 1 for `||` to 10 for `*`, `/` and `%`.
    pub precedence: u32,
    /// What it does.
    pub form: OperatorForm,
}

/// The binary operator that a token is, if it is one.
pub fn binary_operator(kind: TokenKind) -> Option<BinaryOperator>
    ensures exact { result ≡ spec.binary_operator kind }
    ensures bound { IfSome result (λ o. o.precedence ≤ 10) }
{
    let (precedence, form) = match kind {
        TokenKind::Or => (1, OperatorForm::Or),
        TokenKind::And => (2, OperatorForm::And),
        TokenKind::Equal => (3, OperatorForm::Equality(Comparison::Equal)),
        TokenKind::NotEqual => (3, OperatorForm::Equality(Comparison::NotEqual)),
        TokenKind::Is => (3, OperatorForm::Same),
        TokenKind::NotIs => (3, OperatorForm::Differ),
        TokenKind::Xor => (3, OperatorForm::Xor),
        TokenKind::Less => (4, OperatorForm::Order(Comparison::Less)),
        TokenKind::LessEqual => (4, OperatorForm::Order(Comparison::LessEqual)),
        TokenKind::Greater => (4, OperatorForm::Order(Comparison::Greater)),
        TokenKind::GreaterEqual => (4, OperatorForm::Order(Comparison::GreaterEqual)),
        TokenKind::Pipe => (5, arithmetic(Operator::BitOr)),
        TokenKind::Caret => (6, arithmetic(Operator::BitXor)),
        TokenKind::Ampersand => (7, arithmetic(Operator::BitAnd)),
        TokenKind::ShiftLeft => (8, shift(Operator::ShiftLeft)),
        TokenKind::ShiftRight => (8, shift(Operator::ShiftRight)),
        TokenKind::ShiftRightArithmetic => (8, shift(Operator::ShiftRightArithmetic)),
        TokenKind::Plus => (9, arithmetic(Operator::Add)),
        TokenKind::Minus => (9, arithmetic(Operator::Subtract)),
        TokenKind::Star => (10, arithmetic(Operator::Multiply)),
        TokenKind::Slash => (10, arithmetic(Operator::Divide)),
        TokenKind::Percent => (10, arithmetic(Operator::Remainder)),
        _ => return None,
    };
    Some(BinaryOperator { precedence, form })
}

fn arithmetic(operator: Operator) -> OperatorForm
    ensures exact { result ≡ spec.arithmetic operator }
{
    OperatorForm::Integers(IntegerOperator::Arithmetic(operator))
}

fn shift(operator: Operator) -> OperatorForm
    ensures exact { result ≡ spec.shift operator }
{
    OperatorForm::Integers(IntegerOperator::Shift(operator))
}

/// The operator of the compound assignment that a token is, if it is one. `=` has none.
pub fn compound_operator(kind: TokenKind) -> Option<IntegerOperator>
    ensures exact { result ≡ spec.compound_operator kind }
{
    let operator = match kind {
        TokenKind::PlusAssign => IntegerOperator::Arithmetic(Operator::Add),
        TokenKind::MinusAssign => IntegerOperator::Arithmetic(Operator::Subtract),
        TokenKind::StarAssign => IntegerOperator::Arithmetic(Operator::Multiply),
        TokenKind::SlashAssign => IntegerOperator::Arithmetic(Operator::Divide),
        TokenKind::PercentAssign => IntegerOperator::Arithmetic(Operator::Remainder),
        TokenKind::AmpersandAssign => IntegerOperator::Arithmetic(Operator::BitAnd),
        TokenKind::PipeAssign => IntegerOperator::Arithmetic(Operator::BitOr),
        TokenKind::CaretAssign => IntegerOperator::Arithmetic(Operator::BitXor),
        TokenKind::ShiftLeftAssign => IntegerOperator::Shift(Operator::ShiftLeft),
        TokenKind::ShiftRightAssign => IntegerOperator::Shift(Operator::ShiftRight),
        TokenKind::ShiftRightArithmeticAssign => {
            IntegerOperator::Shift(Operator::ShiftRightArithmetic)
        }
        _ => return None,
    };
    Some(operator)
}
