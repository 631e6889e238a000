//! Strict operations: they take the values of their operands, and do not run where one of these fails.
use ang_kinds::{Comparison, EntityNo, Operator, Prim};

/// How a variable changes by an operand, in a compound assignment, `++` or `--`: its value is brought
/// to the type `at`, the operation is done there, and the result is brought to the variable's type `to`.
#[derive(Clone, Copy, PartialEq, Eq)]
pub struct Update {
    /// The operator, whose first operand is the variable.
    pub operator: Operator,
    /// The type in which it is done.
    pub at: Prim,
    /// The variable's type.
    pub to: Prim,
    /// Whether the expression's value is the variable's old one, as for a postfix `++`, and not the new.
    pub old: bool,
}

/// A strict operation. Its width and sign are written in it, so no value carries a type.
#[derive(Clone, Copy)]
pub enum Operation {
    /// A binary operator on integers, done in that type.
    Binary(Operator, Prim),
    /// A comparison; the flag says whether the numbers are of a signed type.
    Compare(Comparison, bool),
    /// The conversion of a number to that type, which keeps the low bits.
    Convert(Prim),
    /// Unary `-` in that type.
    Negate(Prim),
    /// `~` in that type.
    Complement(Prim),
    /// `!`
    Not,
    /// `is`: whether two handles name the same object, or are both null.
    Same,
    /// The value of a global of the running module.
    GlobalGet(usize),
    /// Stores the operand into a global of the running module; its value is what was stored.
    GlobalSet(usize),
    /// Changes a global of the running module by the operand.
    GlobalChange(Update, usize),
    /// Calls a host function or method, or makes a host object by a factory. A receiver is the first
    /// operand.
    Ask(EntityNo),
    /// Reads a host property; of a type's property the operand is the object.
    Read(EntityNo),
    /// Writes a host property. The first operand is the value, and of a type's property the second is
    /// the object. Its value is what was stored.
    Write(EntityNo),
    /// Changes a host property by the first operand; of a type's property the second is the object.
    Alter(EntityNo, Update),
    /// Makes an object of a class of the running module, whose fields are 0, false or null.
    Make(usize),
    /// The value of a field of the operand.
    FieldGet(usize),
    /// Stores the first operand into a field of the second, which is the object; its value is what was
    /// stored.
    FieldSet(usize),
    /// Changes a field of the second operand, which is the object, by the first.
    FieldChange(Update, usize),
    /// The operand, where it is null or its class stands under that class, and else null.
    Cast(usize),
}

/// An operation stays small, since most instructions have one: with the `Update` in front of a number it has 16 bytes.
const _: () = prove!(std::mem::size_of::<Operation>() <= 16);
