//! A module with its meaning settled.

use crate::expression::TypedExpression;
use crate::statement::TypedBlock;
use ang_kinds::{List, Pass, Position};
use ang_types::ArgType;

/// What the checker gives for the scripts of one build.
#[derive(Drop)]
pub struct Typed {
    /// The functions, in the order of their declarations; after them the bodies of the families, in the order of
    /// families and their members, each with `this` as its first parameter.
    pub functions: List<TypedFunction>,
    /// The global variables, in the order of their declarations, which is that of their initializers.
    pub globals: List<Global>,
    /// The classes and interfaces, by their numbers, in the order of their declarations.
    pub classes: List<TypedClass>,
    /// The methods of classes and interfaces, in the order of families and their members. A slot is the number of the
    /// first method of its name, parameters and `const`.
    pub methods: List<Heading>,
    /// The imported functions, in the order of their declarations.
    pub imports: List<Heading>,
}

/// What is known of a class or an interface where its objects are made and its methods are chosen.
#[derive(Drop)]
pub struct TypedClass {
    /// The types of the fields that it declares itself, in the order of declaration. An interface has none.
    pub fields: List<ArgType>,
    /// The number of its base class.
    pub base: Option<usize>,
    /// The numbers of the families above it, rising.
    pub above: List<u8>,
    /// For each method that it has itself: the slot, and the number in `Typed::functions` of the body that stands in it.
    /// In any other slot it has what its base class has there. An interface has no bodies.
    pub chosen: List<(usize, usize)>,
    /// It falls along all that a field can reach.
    pub rank: usize,
}

/// A function that is called by its parameters alone: a method by its slot, or an import.
#[derive(Drop)]
pub struct Heading {
    /// The parameters, in the order in which they are written; a method's receiver is the first one.
    pub parameters: List<TypedParameter>,
    /// The type of what is returned.
    pub result: ArgType,
}

/// A function of the module.
#[derive(Drop)]
pub struct TypedFunction {
    /// The parameters, in the order in which they are written. Their numbers as locals are 0 and up.
    pub parameters: List<TypedParameter>,
    /// The type of what it returns.
    pub result: ArgType,
    /// Its statements. A path through them that does not return ends only a `void` function.
    pub body: TypedBlock,
    /// Where these statements and those inside them begin, in the order of the text: the `{` of a block, what a `for`
    /// starts with after the `for` itself. Of a constructor the call of its base class's stands first, at its name where
    /// `super` is not written, and what gives the object back last, at the closing `}`. No meaning reads it.
    pub positions: List<Position>,
}

/// A parameter.
#[derive(Clone, Copy)]
pub struct TypedParameter {
    /// The type of the values that it holds.
    pub ty: ArgType,
    /// How it is passed. A parameter by `&out` begins as 0, `false` or null; the others begin with their argument. One of
    /// an object type takes an object: null there is the fault `Null`.
    pub pass: Pass,
}

/// A global variable.
#[derive(Drop)]
pub struct Global {
    /// The type of the values that it holds.
    pub ty: ArgType,
    /// What it begins with, a value of that type. Without one it stays 0, `false` or null.
    pub initializer: Option<Box<TypedExpression>>,
}
