//! Statements with their meaning settled.

use crate::expression::TypedExpression;
use ang_types::ArgType;

/// A statement.
#[cycle(statement)]
#[derive(Drop)]
pub enum TypedStatement {
    /// Statements in a block of their own.
    Block(TypedBlock),
    /// One local after the other, in the block in which the statement stands.
    Locals(Vec<Local>),
    /// An expression, whose value nobody takes; nothing for a lone `;`.
    Expression(Option<Box<TypedExpression>>),
    /// Leaves the innermost loop.
    Break,
    /// Goes on with the innermost loop: with the steps of a `for`, else with its condition.
    Continue,
    /// Ends the function. The value is of the function's result type; `void` functions have none. A constructor returns
    /// its object.
    Return(Option<Box<TypedExpression>>),
    /// One of two blocks, by a condition.
    If(Box<TypedChoice>),
    /// A loop that goes on as long as its condition is true. A tick is taken before each test.
    While(Box<TypedLoop>),
    /// As `While`, but the body runs before the first test. A tick is taken before each test, after the body.
    DoWhile(Box<TypedLoop>),
    /// A block of its own: `start`, one `Locals` or `TypedExpression`, runs once in it; then as `While`, with the
    /// steps after the body of each pass. A condition that is not written is true.
    For(Box<TypedFor>),
}

/// A condition and the two blocks of which it picks one.
#[cycle(statement)]
#[derive(Drop)]
pub struct TypedChoice {
    /// The truth value that decides.
    pub condition: Box<TypedExpression>,
    /// What runs where the condition is true.
    pub then: TypedBlock,
    /// What runs where the condition is false: an empty block where no `else` is written.
    pub otherwise: TypedBlock,
}

/// A loop that has a condition alone, as `while` and `do` are written.
#[cycle(statement)]
#[derive(Drop)]
pub struct TypedLoop {
    /// The truth value that is tested: of a `While` before each pass, of a `DoWhile` after it.
    pub condition: Box<TypedExpression>,
    /// What runs in each pass.
    pub body: TypedBlock,
}

/// A loop with a start and steps of its own, as `for` is written.
#[cycle(statement)]
#[derive(Drop)]
pub struct TypedFor {
    /// What runs once before the first test: no statement, or one.
    pub start: Vec<TypedStatement>,
    /// The truth value that is tested before each pass. Without one each test is passed.
    pub condition: Option<Box<TypedExpression>>,
    /// What is evaluated after each pass, from left to right. Nobody takes the values.
    pub steps: Vec<TypedExpression>,
    /// What runs in each pass.
    pub body: TypedBlock,
}

/// Statements in a block of their own: wherever it is left, the locals that were declared in it end, last
/// declared first.
#[cycle(statement)]
#[derive(Drop)]
pub struct TypedBlock {
    /// The statements, in the order in which they run.
    pub statements: Vec<TypedStatement>,
}

/// A new local, which is known after its own initializer.
#[derive(Drop)]
pub struct Local {
    /// The type of the values that it holds.
    pub ty: ArgType,
    /// What it begins with, a value of that type. Without one it begins as 0, `false` or null. An object has one, which
    /// makes it.
    pub initializer: Option<Box<TypedExpression>>,
}
