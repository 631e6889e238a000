//! Statements, and the variables that they and a script declare.

use crate::expression::{Argument, Arguments, Expression};
use crate::type_name::TypeName;
use ang_lex::Token;

/// A statement. Each variant is a few boxes, so that a list of statements, and each function that holds one,
/// stays small.
#[cycle(statement)]
#[derive(Drop)]
pub enum Statement {
    /// Statements in a block of their own: `"{" { stmt } "}"`
    Block(Box<Block>),
    /// Local variables, one or several of one type.
    Variables(Box<Variables>),
    /// An expression for what it does, or a `;` by itself: `[ assign ] ";"`
    Expression(Box<Simple>),
    /// Leaves the innermost loop: `"break" ";"`
    Break(Box<Jump>),
    /// Goes on with the next pass of the innermost loop: `"continue" ";"`
    Continue(Box<Jump>),
    /// Ends the function: `"return" [ assign ] ";"`
    Return(Box<Returned>),
    /// One of two branches, by a condition: `"if" "(" assign ")" stmt [ "else" stmt ]`
    If {
        /// The word and the condition.
        head: Box<Guard>,
        /// The statement that runs where the condition is true.
        then: Box<Statement>,
        /// The other branch, where an `else` is written. It goes with the nearest `if`.
        otherwise: Option<Box<Else>>,
    },
    /// A loop with its test in front: `"while" "(" assign ")" stmt`
    While {
        /// The word and the condition.
        head: Box<Guard>,
        /// The statement that is repeated.
        body: Box<Statement>,
    },
    /// A loop with its test at its end: `"do" stmt "while" "(" assign ")" ";"`
    DoWhile {
        /// The statement that is repeated.
        body: Box<Statement>,
        /// The word in front of it, and all that stands after it.
        ending: Box<Ending>,
    },
    /// A loop with a start and steps of its own:
    /// `"for" "(" ( vars | [ assign ] ";" ) [ assign ] ";" [ assign { "," assign } ] ")" stmt`
    For {
        /// The word and what stands in the parentheses.
        head: Box<Head>,
        /// The statement that is repeated.
        body: Box<Statement>,
    },
}

/// An expression for what it does, or a `;` by itself: `[ assign ] ";"`
#[derive(Drop)]
pub struct Simple {
    /// The expression. A `;` by itself has none.
    pub value: Option<Box<Expression>>,
    /// The `;` at the end.
    pub semicolon: Token,
}

/// `break` or `continue`.
#[derive(Clone, Copy)]
pub struct Jump {
    /// The word.
    pub word: Token,
    /// The `;` at the end.
    pub semicolon: Token,
}

/// `"return" [ assign ] ";"`
#[derive(Drop)]
pub struct Returned {
    /// The word `return`.
    pub word: Token,
    /// What is returned, where a value is written.
    pub value: Option<Box<Expression>>,
    /// The `;` at the end.
    pub semicolon: Token,
}

/// `( "if" | "while" ) "(" assign ")"`
#[derive(Drop)]
pub struct Guard {
    /// The word `if` or `while`.
    pub word: Token,
    /// The `(` in front of the condition.
    pub open: Token,
    /// The truth value that decides.
    pub condition: Expression,
    /// The `)` after the condition.
    pub close: Token,
}

/// What a `do` has beside its body: `"do"`, and `"while" "(" assign ")" ";"`.
#[derive(Drop)]
pub struct Ending {
    /// The word `do`.
    pub word: Token,
    /// The word `while` after the body.
    pub while_word: Token,
    /// The `(` in front of the condition.
    pub open: Token,
    /// The truth value that is tested after each pass.
    pub condition: Expression,
    /// The `)` after the condition.
    pub close: Token,
    /// The `;` at the end.
    pub semicolon: Token,
}

/// The head of a `for`.
#[derive(Drop)]
pub struct Head {
    /// The word `for`.
    pub word: Token,
    /// The `(` in front of the start.
    pub open: Token,
    /// What runs once before the first test, with its `;`.
    pub start: ForStart,
    /// The truth value that is tested before each pass. One that is not written is true.
    pub condition: Option<Box<Expression>>,
    /// The `;` after the condition.
    pub semicolon: Token,
    /// What is evaluated after each pass, in the order of the text.
    pub steps: Vec<Argument>,
    /// The `)` after the steps.
    pub close: Token,
}

/// `"{" { stmt } "}"`
#[cycle(statement)]
#[derive(Drop)]
pub struct Block {
    /// The `{` in front of the statements.
    pub open: Token,
    /// The statements, in the order of the text.
    pub statements: Vec<Statement>,
    /// The `}` after the statements.
    pub close: Token,
}

/// The other branch of an `if`: `"else" stmt`.
#[cycle(statement)]
#[derive(Drop)]
pub struct Else {
    /// The word `else`.
    pub word: Token,
    /// The statement that runs where the condition is false.
    pub branch: Box<Statement>,
}

/// What a `for` begins with, up to its first `;`.
#[derive(Drop)]
pub enum ForStart {
    /// Local variables, which the whole `for` knows.
    Variables(Variables),
    /// An expression for what it does, or nothing: `[ assign ] ";"`
    Expression {
        /// The expression, where one is written.
        value: Option<Box<Expression>>,
        /// The `;` after it.
        semicolon: Token,
    },
}

/// Variables of one type: `type NAME [ "=" assign | args ] { "," NAME [ "=" assign | args ] } ";"`.
#[derive(Drop)]
pub struct Variables {
    /// The type of all these variables.
    pub declared_type: TypeName,
    /// The variables, at least one, in the order of the text.
    pub items: Vec<Variable>,
    /// The `;` at the end.
    pub semicolon: Token,
}

/// One of the variables of a declaration.
#[derive(Drop)]
pub struct Variable {
    /// The comma in front of it. The first has none.
    pub comma: Option<Token>,
    /// The variable's name.
    pub name: Token,
    /// What it begins with.
    pub initializer: Initializer,
}

/// What a variable begins with. Each variant is a box, so that a list of variables stays small.
#[derive(Drop)]
pub enum Initializer {
    /// Nothing is written.
    Absent,
    /// A value: `"=" assign`
    Value(Box<Assigned>),
    /// Arguments for the type's constructor: `args`
    Constructor(Box<Arguments>),
}

/// The value that a variable begins with: `"=" assign`
#[derive(Drop)]
pub struct Assigned {
    /// The `=`.
    pub equals: Token,
    /// The value after it.
    pub value: Expression,
}
