//! One list of instructions for each body.
use ang_kinds::{Position, Prim};
use ang_meaning::{Callee, Operation, Passing, Routine, Update};

/// One instruction. The stack's values are counted from its top, which is 0; a jump says how many
/// instructions it passes.
#[derive(Clone, Copy)]
pub enum Instruction {
    /// Pushes a number or truth value.
    PushBits(u64),
    /// Pushes null.
    PushNull,
    /// Pushes the value at that place.
    Load(usize),
    /// Stores the top value at that place, counted without the top, and leaves the top.
    Store(usize),
    /// Changes the value at that place, counted without the top, by the top value, which the change's
    /// value replaces.
    Update(Update, usize),
    /// Takes an operation's operands, the last one on top, and pushes its value.
    Apply(Operation),
    /// Gives up the top value.
    Drop,
    /// Gives up that number of values.
    Leave(usize),
    /// Takes a truth value, and passes that number of instructions where it is false.
    JumpIfFalse(usize),
    /// Passes that number of instructions.
    Jump(usize),
    /// Takes a tick.
    Tick,
    /// Takes a tick and goes back by that number of instructions.
    LoopBack(usize),
    /// Enters a script function, whose arguments are on top, the last one first.
    Enter(Callee),
    /// Brings the value at the place `under` to the type `to`, if any, and exchanges it with the one at
    /// the place `with`.
    Swap {
        /// The integer type.
        to: Option<Prim>,
        /// The place of the value that moves.
        under: usize,
        /// The place of the variable.
        with: usize,
    },
    /// The same with a global of the running module.
    SwapGlobal {
        /// The integer type.
        to: Option<Prim>,
        /// The place of the value that moves.
        under: usize,
        /// The global's number.
        global: usize,
    },
    /// The same with a field of the object at the place `object`, where it is there and the field may take
    /// the value; else nothing changes.
    SwapField {
        /// The integer type.
        to: Option<Prim>,
        /// The place of the value that moves, which lies among the `&out` values of one call: in 32 bits, so that no
        /// instruction is larger for it.
        under: u32,
        /// The object's place.
        object: usize,
        /// The field's number.
        field: usize,
    },
    /// Gives up that number of values below the top one, the lowest first.
    DropUnder(usize),
    /// Leaves the body with the top value; below it that number of locals is given up, and then the parameters
    /// other than `&out`.
    Return(usize),
}

/// An instruction has at most 24 bytes.
const _: () = prove!(std::mem::size_of::<Instruction>() <= 24);

/// Where a caller goes on.
#[derive(Clone, Copy)]
pub struct Frame {
    /// The body.
    pub of: Routine,
    /// The number of its next instruction.
    pub at: usize,
    /// How high the stack may stand while it runs.
    pub room: usize,
}

/// Where the statement stands whose instructions begin at a place of a body's text. They go on to the next mark.
#[derive(Clone, Copy)]
pub struct Mark {
    /// The number of the first of these instructions.
    pub at: u32,
    /// Where the statement's first token stands, in the section of its body.
    pub position: Position,
}

/// A mark has at most 8 bytes.
const _: () = prove!(std::mem::size_of::<Mark>() <= 8);

/// The code of one body.
#[derive(Drop)]
pub struct RoutineCode {
    /// How each parameter takes its argument, the last parameter first.
    pub params: Vec<Passing>,
    /// The primitive type of its value, if it is of one. An initializer's value is of none.
    pub result: Option<Prim>,
    /// How many values it puts above its parameters at most.
    pub height: usize,
    /// The instructions.
    pub text: Vec<Instruction>,
    /// Which instructions are those of which statement, in the order of the instructions. No run reads it.
    pub marks: Vec<Mark>,
}
