//! Expressions with their meaning settled.

use ang_kinds::{Comparison, EntityNo, Operator, Prim};
use ang_types::ArgType;

/// A registered entity that a use was resolved to, and how the host is asked for it.
#[derive(Clone, Copy)]
pub struct HostEntity {
    /// Its number in the registration list, which host events and masks speak of.
    pub entity: EntityNo,
    /// The number of its driver.
    pub driver: u32,
    /// The driver's own number for it.
    pub f: u32,
}

/// What a bare name stands for, where it can be read and written.
#[derive(Clone, Copy)]
pub enum TypedVariable {
    /// A parameter or local of the function, by its number.
    Local(usize),
    /// A global variable of the module, by its number.
    Global(usize),
    /// A global property of the host: reading and writing each ask the driver.
    Property(HostEntity),
    /// A field of `this`, by its number among the fields of its class, those of the base class first. It stands in
    /// bodies of methods and constructors alone, where `this` is local 0.
    Field(usize),
}

/// What of an object can be read and written.
#[derive(Clone, Copy)]
pub enum TypedMember {
    /// A field of a script's class, by its number, those of the base class first.
    Field(usize),
    /// An object property of the host: reading and writing each ask the driver.
    Property(HostEntity),
}

/// Which function of the scripts is called.
#[derive(Clone, Copy)]
pub enum TypedCallee {
    /// A body of the module, by its number in `Typed::functions`: a function, a constructor, or a method that is
    /// named by its class.
    Own(usize),
    /// An imported function, by its number.
    Import(usize),
    /// The method of this slot that the class of the receiver has. The receiver is the first argument.
    Chosen(usize),
}

/// What can be read and written.
#[cycle(expression)]
#[derive(Drop)]
pub enum TypedSite {
    /// A variable by its bare name.
    Named(TypedVariable),
    /// A member of an object, which is evaluated once. Where the site is written it is evaluated after the value;
    /// null is the fault `Null`.
    Of {
        /// The object, or a handle to it.
        object: Box<TypedExpression>,
        /// Which member of it.
        member: TypedMember,
    },
}

/// What `++` and `--` do to a variable, and which of its values they give.
#[derive(Clone, Copy)]
pub enum StepKind {
    /// `++x`: one more, and the value is the new one.
    IncrementBefore,
    /// `--x`: one less, and the value is the new one.
    DecrementBefore,
    /// `x++`: one more, and the value is the old one.
    IncrementAfter,
    /// `x--`: one less, and the value is the old one.
    DecrementAfter,
}

/// An expression. Fields lie in memory as they stand here, so in `Assign` and `Call` the type is first, where it fills
/// what is left beside the variant's number.
///
/// Operands and arguments are evaluated from left to right, each once. In an assignment the value comes
/// first.
#[cycle(expression)]
#[derive(Drop)]
pub enum TypedExpression {
    /// A number of an integer type: one that is written, which is not negative, or an enumeration's value, which is
    /// an `int`.
    Number {
        /// The number's type, an integer type.
        ty: Prim,
        /// The number, within its type: from 0 up, or as two's complement in 64 bits where it is less than 0.
        value: u64,
    },
    /// `true` or `false`
    Truth(bool),
    /// The value of what stands at a site of type `ty`.
    Read {
        /// Where it stands.
        site: TypedSite,
        /// The site's type.
        ty: ArgType,
    },
    /// `null`, of every handle type.
    Null,
    /// An integer of one type made an integer of another: the low bits stay.
    Convert {
        /// The operand's type, an integer type.
        from: Prim,
        /// The type of the result, an integer type.
        to: Prim,
        /// The value that is converted.
        operand: Box<TypedExpression>,
    },
    /// `-` of an integer of type `ty`, which wraps. The result has that type.
    Negate {
        /// The type of the operand and of the result, an integer type.
        ty: Prim,
        /// The value that is negated.
        operand: Box<TypedExpression>,
    },
    /// `~` of an integer of type `ty`: each bit turned. The result has that type.
    Complement {
        /// The type of the operand and of the result, an integer type.
        ty: Prim,
        /// The value whose bits are turned.
        operand: Box<TypedExpression>,
    },
    /// `!` of a `bool`: the other truth value.
    Not {
        /// The truth value that is denied.
        operand: Box<TypedExpression>,
    },
    /// An operator on two integers. Both operands and the result are of type `ty`.
    Operate {
        /// What is done with them.
        operator: Operator,
        /// The integer type in which the operator works.
        ty: Prim,
        /// The first operand. Of a shift it is what is shifted.
        left: Box<TypedExpression>,
        /// The second operand. Of a shift it is the count.
        right: Box<TypedExpression>,
    },
    /// A comparison. Both operands are of type `ty`; the result is `bool`. `bool` itself is compared by `Equal` and
    /// `NotEqual` alone.
    Compare {
        /// What is asked of them.
        comparison: Comparison,
        /// The type of both operands: an integer type or `bool`.
        ty: Prim,
        /// The first operand.
        left: Box<TypedExpression>,
        /// The second operand.
        right: Box<TypedExpression>,
    },
    /// `&&`: the right operand is evaluated only where the left one is true.
    And {
        /// The first truth value, which is always evaluated.
        left: Box<TypedExpression>,
        /// The second truth value, which is that of the whole where the first is true.
        right: Box<TypedExpression>,
    },
    /// `||`: the right operand is evaluated only where the left one is false.
    Or {
        /// The first truth value, which is always evaluated.
        left: Box<TypedExpression>,
        /// The second truth value, which is that of the whole where the first is false.
        right: Box<TypedExpression>,
    },
    /// `condition ? then : otherwise`: one of the two is evaluated, and both are of one type.
    Choose {
        /// The truth value that decides.
        condition: Box<TypedExpression>,
        /// The value where the condition is true.
        then: Box<TypedExpression>,
        /// The value where the condition is false.
        otherwise: Box<TypedExpression>,
    },
    /// `left is right`: whether both are one object, or both null. `!is` is `Not` of it.
    Same {
        /// The first object or handle.
        left: Box<TypedExpression>,
        /// The second one.
        right: Box<TypedExpression>,
    },
    /// `cast<T>(operand)` between types of scripts: the handle, or null where its object is not of the family and not
    /// under it. A cast of a host type to itself changes nothing, and is its operand.
    Cast {
        /// The number of the family that is asked for.
        family: usize,
        /// The handle.
        operand: Box<TypedExpression>,
    },
    /// The operand, in which a registered entry is named that nobody is asked for: a value of an enumeration by its
    /// name, a conversion to an enumeration, or a cast to a host type. Its value is the operand's.
    Naming {
        /// The entry that is named.
        entity: EntityNo,
        /// What it is the value of.
        operand: Box<TypedExpression>,
    },
    /// A new object of a script's class. Its fields are 0, false and null; then the constructor runs on it, where one
    /// does, with the arguments, which are evaluated after the making. Without a constructor there are none.
    Make {
        /// The number of the class among the families.
        family: usize,
        /// The constructor's number in `Typed::functions`: the one that was chosen, or the nearest written one without
        /// parameters where the class has none.
        constructor: Option<usize>,
        /// The arguments, in the order of the parameters after `this`.
        arguments: Vec<TypedArgument>,
    },
    /// `site = value`, or `@site = value` of handles, both of type `ty`. The value comes first, then the site. The value
    /// of the whole is what was stored.
    Assign {
        /// The type of the site and of the value.
        ty: ArgType,
        /// What is written.
        site: TypedSite,
        /// What is stored.
        value: Box<TypedExpression>,
    },
    /// `site operator= value`. The value is evaluated, of type `operating`; then the site, of type `ty`, is found
    /// once, read and converted to `operating`; the operator works there, what was read on the left; its result
    /// is converted back to `ty` and stored, and is the value of the whole.
    Compound {
        /// What is read and then written.
        site: TypedSite,
        /// The site's type, an integer type.
        ty: Prim,
        /// What is done with what stands there and `value`.
        operator: Operator,
        /// The integer type in which the operator works.
        operating: Prim,
        /// The operand on the right, of type `operating`.
        value: Box<TypedExpression>,
    },
    /// `++` or `--` of what stands at a site of the integer type `ty`, in that type, where it wraps.
    Step {
        /// What is changed by one.
        site: TypedSite,
        /// The site's type, an integer type.
        ty: Prim,
        /// Whether it is one more or one less, and which value is given.
        step: StepKind,
    },
    /// A call of a function of the scripts. There is an argument for each parameter; the receiver of a method, and
    /// the object of a constructor that `super` calls, are the first one.
    Call {
        /// The type of what the function returns.
        result: ArgType,
        /// What is called.
        callee: TypedCallee,
        /// The arguments, in the order of the parameters.
        arguments: Vec<TypedArgument>,
    },
    /// A call of a function, a factory or a method of the host. Its arguments are values, of the types of its
    /// parameters; a method's receiver is the first one.
    HostCall {
        /// What is called, and how its driver is asked.
        host: HostEntity,
        /// The type of what the host function returns.
        result: ArgType,
        /// The arguments, in the order of the parameters.
        arguments: Vec<TypedArgument>,
    },
}

/// An argument of a call.
#[cycle(expression)]
#[derive(Drop)]
pub enum TypedArgument {
    /// A value of the parameter's type `ty`, by value or by `&in`.
    Value {
        /// The parameter's type.
        ty: ArgType,
        /// What the parameter begins with.
        value: TypedExpression,
    },
    /// A variable for an `&out` parameter. When the call has returned, the parameter's value, of type `from`,
    /// is converted to the variable's type `to` and stored; all `&out` values of one call are one store, from
    /// left to right. The variable is no host property.
    Out {
        /// Which variable takes the parameter's value.
        variable: TypedVariable,
        /// The parameter's type.
        from: ArgType,
        /// The variable's type.
        to: ArgType,
    },
}
