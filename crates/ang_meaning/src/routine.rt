//! Script functions as code names them.
use ang_kinds::Prim;

/// A script function, or the body of a global's initializer: the module that it belongs to, and its
/// number there.
#[derive(Clone, Copy)]
pub struct Routine {
    /// The module's number.
    pub home: u32,
    /// The number of the body in its module: the functions first, and then the initializers, each in
    /// the order of declaration. An initializer's body stores its value into its global itself.
    pub number: usize,
}

/// What a call names.
#[derive(Clone, Copy)]
pub enum Callee {
    /// A function of the running module.
    Own(usize),
    /// An imported function of the running module, by the import's number.
    Import(usize),
    /// The method in that slot of the receiver's class.
    Virtual(usize),
}

/// How a parameter takes its argument.
#[derive(Clone, Copy, PartialEq, Eq, Debug)]
pub enum Passing {
    /// By value, and `&in` of a primitive. A handle may be null.
    In,
    /// `&out`: it starts at 0, false or null, and its value moves into the argument after the call.
    Out,
    /// An object, which must not be null.
    Object,
}

/// Where a variable stands that an `&out` parameter's value moves into.
#[derive(Clone, Copy)]
pub enum Spot {
    /// The local of that number, counted from the innermost one, which is 0.
    Local(usize),
    /// The global of that number of the running module.
    Global(usize),
    /// A field of an object that a local holds, as a method's receiver does.
    Field {
        /// The local's number, counted from the innermost one.
        object: usize,
        /// The field's number.
        field: usize,
    },
}

/// A variable that an `&out` parameter's value moves into.
#[derive(Clone, Copy)]
pub struct Target {
    /// Where it stands.
    pub spot: Spot,
    /// The integer type that the value is brought to, if any.
    pub to: Option<Prim>,
}
