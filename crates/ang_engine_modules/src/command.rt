//! What a host tells the engine to do.
ghost use Rattle.std.specs.Prelude.{◌≡◌};
ghost use Rattle.ang_engine_modules.specs.Commands.{budget_of};

use ang_kinds::{List, Mask, Value};

/// One command to the engine (docs/HOST.md, "Commands").
///
/// Names and texts are bytes. A `budget` is a number of ticks, from 1 to 2,147,483,647: a tick is
/// an entry of a script function, or a test of a loop.
#[derive(Drop)]
pub enum Command {
    /// Makes a module without sections, which sees what `mask` meets.
    NewModule {
        /// The module's name, an identifier.
        name: List<u8>,
        /// The module's mask. A mask of 0 sees nothing.
        mask: Mask,
    },
    /// Gives a module another mask, which acts from its next build on: what is built goes on to see
    /// what it saw. It takes no memory.
    SetMask {
        /// The module.
        name: List<u8>,
        /// The new mask.
        mask: Mask,
    },
    /// Adds one section to those that wait for the module's next build. 64 may wait. The text may
    /// have any length here; above 65,536 bytes it is an error of the build.
    AddSection {
        /// The module.
        name: List<u8>,
        /// The section's text.
        text: List<u8>,
    },
    /// Builds the sections that wait, over what the module's mask meets now. Unless it is refused
    /// as `NoModule`, `BadBudget` or `Memory`, what the module had is gone whatever the build
    /// answers: its program, its globals and the sections that waited. Each import that was bound
    /// to a function of it is unbound.
    Build {
        /// The module.
        name: List<u8>,
        /// The ticks that the initializers may take.
        budget: u64,
    },
    /// Binds an import of a built module to a function of a built module, in the place of an
    /// earlier binding. From then on a call of the import runs that function, as its own module:
    /// with that module's name, globals and view. The binding stands until it is replaced or
    /// unbound, or one of the two modules is built again or discarded.
    Bind {
        /// The module that imports.
        name: List<u8>,
        /// The import's number, from 0 in order of declaration.
        index: u32,
        /// The module that has the function.
        exporter: List<u8>,
        /// The declaration of the function, without a body. It may have another name than the
        /// import.
        decl: List<u8>,
    },
    /// Unbinds an import, whether it was bound or not. A call of it is then the fault `Unbound`. It
    /// takes no memory.
    Unbind {
        /// The module that imports.
        name: List<u8>,
        /// The import's number.
        index: u32,
    },
    /// Calls a script function of a built module.
    Call {
        /// The module.
        name: List<u8>,
        /// The declaration of the function, without a body.
        decl: List<u8>,
        /// The arguments, in order.
        args: List<Value>,
        /// The ticks that the call may take.
        budget: u64,
    },
    /// Ends a module: its globals are given up, each import that is bound to a function of it is
    /// unbound, and it is gone with all that it had.
    Discard {
        /// The module.
        name: List<u8>,
    },
    /// Removes a group of entries from the registration list: they are blanks from then on, for builds to come. It is
    /// refused where an entry outside the group names a type or an enumeration of it, and where a built module uses an entry
    /// of it. It takes no memory.
    RemoveGroup {
        /// The group's name.
        name: List<u8>,
    },
}

/// The ticks that a command may take.
pub fn budget_of(command: &Command) -> u64
    ensures exact { result ≡ budget_of command.now }
{
    match command {
        Command::NewModule { .. } => 0,
        Command::SetMask { .. } => 0,
        Command::AddSection { .. } => 0,
        Command::Build { budget, .. } => *budget,
        Command::Bind { .. } => 0,
        Command::Unbind { .. } => 0,
        Command::Call { budget, .. } => *budget,
        Command::Discard { .. } => 0,
        Command::RemoveGroup { .. } => 0,
    }
}
