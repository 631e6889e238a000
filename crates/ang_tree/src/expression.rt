//! Expressions.

use crate::type_name::TypeName;
use ang_lex::Token;

/// An expression. What has many tokens is in a box of its own, so that every other node stays small.
#[cycle(expression)]
#[derive(Drop)]
pub enum Expression {
    /// A number, `true`, `false`, `null` or `this`.
    Literal(Token),
    /// A name that is not called.
    Name(Token),
    /// A call of a function by its bare name, or of a type's name: `NAME args`
    Call {
        /// The name that is called.
        name: Token,
        /// The arguments, with their parentheses.
        arguments: Box<Arguments>,
    },
    /// `NAME "::" NAME args`: the first name is a class, the second its method.
    ScopedCall {
        /// The name of the class.
        class: Token,
        /// The `::`.
        scope: Token,
        /// The name of its method.
        name: Token,
        /// The arguments, with their parentheses.
        arguments: Box<Arguments>,
    },
    /// `NAME "::" NAME`: the first name is an enumeration, the second a value of it.
    ScopedName {
        /// The name of the enumeration.
        enumeration: Token,
        /// The `::`.
        scope: Token,
        /// The name of its value.
        name: Token,
    },
    /// A handle cast to another type: `"cast" "<" type ">" "(" assign ")"`
    Cast {
        /// All that is written but the operand.
        tokens: Box<CastTokens>,
        /// What is cast.
        operand: Box<Expression>,
    },
    /// A conversion to a primitive type: `PRIM "(" assign ")"`
    Convert {
        /// The word of the type that is converted to.
        primitive: Token,
        /// The `(` in front of the operand.
        open: Token,
        /// What is converted.
        operand: Box<Expression>,
        /// The `)` after the operand.
        close: Token,
    },
    /// An expression in parentheses, which mean nothing else: `"(" assign ")"`
    Parenthesized {
        /// The `(` in front of it.
        open: Token,
        /// The expression between the parentheses.
        inner: Box<Expression>,
        /// The `)` after it.
        close: Token,
    },
    /// An operand with `++` or `--` after it.
    Postfix {
        /// What is changed by one.
        operand: Box<Expression>,
        /// The `++` or `--` after it.
        operator: Token,
    },
    /// A member of an object: `post "." NAME`
    Member {
        /// The object whose member it is.
        object: Box<Expression>,
        /// The `.`.
        dot: Token,
        /// The member's name.
        name: Token,
    },
    /// A call of an object's method: `post "." NAME args`
    MethodCall {
        /// The object whose method is called.
        object: Box<Expression>,
        /// The `.`.
        dot: Token,
        /// The method's name.
        name: Token,
        /// The arguments, with their parentheses.
        arguments: Box<Arguments>,
    },
    /// An operand with `!`, `-`, `+`, `~`, `@`, `++` or `--` in front of it.
    Prefix {
        /// The operator's sign, or the word `not` for `!`.
        operator: Token,
        /// What stands after the operator.
        operand: Box<Expression>,
    },
    /// Two operands with a binary operator between them. Operators group to the left.
    Binary {
        /// The operand in front of the operator.
        left: Box<Expression>,
        /// The operator's sign, or its word: `and`, `or`, `xor`, `is` or `!is`.
        operator: Token,
        /// The operand after the operator.
        right: Box<Expression>,
    },
    /// One of two expressions, by a condition: `binary "?" assign ":" assign`
    Conditional {
        /// The truth value that decides.
        condition: Box<Expression>,
        /// The `?`.
        question: Token,
        /// What is evaluated where the condition is true.
        then: Box<Expression>,
        /// The `:`.
        colon: Token,
        /// What is evaluated where the condition is false. It is as long as it can be.
        otherwise: Box<Expression>,
    },
    /// A target and its value, with `=` or a compound assignment between them.
    Assignment {
        /// What is changed.
        target: Box<Expression>,
        /// The sign: `=`, or that of a compound assignment, such as `+=`.
        operator: Token,
        /// What is stored, or what the compound operator works with.
        value: Box<Expression>,
    },
}

/// What a cast has beside its operand: `"cast" "<" type ">" "("` and `")"`.
#[derive(Drop)]
pub struct CastTokens {
    /// The word `cast`.
    pub word: Token,
    /// The `<` in front of the type.
    pub less: Token,
    /// The type that is cast to.
    pub target: TypeName,
    /// The `>` after the type.
    pub greater: Token,
    /// The `(` in front of the operand.
    pub open: Token,
    /// The `)` after the operand.
    pub close: Token,
}

/// The arguments of a call: `"(" [ assign { "," assign } ] ")"`.
#[cycle(expression)]
#[derive(Drop)]
pub struct Arguments {
    /// The `(` in front of the list.
    pub open: Token,
    /// The arguments, in the order of the text.
    pub items: Vec<Argument>,
    /// The `)` after the list.
    pub close: Token,
}

/// One of several expressions that commas part.
#[cycle(expression)]
#[derive(Drop)]
pub struct Argument {
    /// The comma in front of it. The first has none.
    pub comma: Option<Token>,
    /// The expression itself.
    pub value: Expression,
}
