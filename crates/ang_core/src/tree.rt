//! Bodies of script functions and of initializers.
use ang_kinds::{Position, Prim};
use ang_meaning::{Callee, Operation, Passing, Target, Update};

/// An expression. A local is counted from the innermost one, which is 0; parameters are locals.
#[derive(Drop)]
pub enum CoreExpression {
    /// A number or truth value in its canonical form.
    Number(u64),
    /// Null.
    Null,
    /// The value of a local.
    Local(usize),
    /// Stores the value into a local; its value is what was stored.
    Assign(usize, Box<CoreExpression>),
    /// Changes a local by the value.
    Update(usize, Update, Box<CoreExpression>),
    /// A strict operation on its operands, in the order in which they are evaluated.
    Apply(Operation, Vec<CoreExpression>),
    /// A call of a script function with all its arguments, in order, and the variables that its `&out`
    /// parameters' values move into, the last one first. The argument of an `&out` parameter is 0, false
    /// or null.
    Call(Callee, Vec<CoreExpression>, Box<Vec<Target>>),
    /// The second where the first is true, and else the third.
    Choose(Box<CoreExpression>, Box<CoreExpression>, Box<CoreExpression>),
}

/// A statement.
#[derive(Drop)]
pub enum CoreStatement {
    /// Nothing.
    Skip,
    /// Gives up the expression's value.
    Evaluate(Box<CoreExpression>),
    /// A new innermost local with that value.
    Declare(Box<CoreExpression>),
    /// Statements in turn, whose locals are given up at its end.
    Block(Vec<CoreStatement>),
    /// The first where the test is true, and else the second; each is a block.
    If(Box<CoreExpression>, Box<CoreStatement>, Box<CoreStatement>),
    /// A loop: a tick and the test, then the first, which is a block, and the second, which is the loop's
    /// step.
    While(Box<CoreExpression>, Box<CoreStatement>, Box<CoreStatement>),
    /// A loop whose first pass has no test and no tick before it.
    DoWhile(Box<CoreExpression>, Box<CoreStatement>),
    /// Leaves the body with that value; 0 where it has no result.
    Return(Box<CoreExpression>),
    /// Leaves the innermost loop.
    Break,
    /// Goes on with the step of the innermost loop.
    Continue,
}

/// A function, or an initializer's body, which has no parameters.
#[derive(Drop)]
pub struct CoreBody {
    /// How each parameter takes its argument, the last parameter first.
    pub params: Vec<Passing>,
    /// The primitive type of its value, if it is of one. An initializer's value is of none.
    pub result: Option<Prim>,
    /// What it does.
    pub statement: CoreStatement,
    /// Where the statements of its blocks stand, each after those inside it. No meaning reads it.
    pub positions: Vec<Position>,
}
