//! The modules of an engine.
ghost use Rattle.std.specs.Prelude.{◌≤◌, length};

use crate::{KeptFailure, Modules};
use ang_kinds::{List, Mask};

/// How many modules one engine can have.
pub const MOST_MODULES: usize = 64;

/// How many sections can wait in one module.
pub const MOST_SECTIONS: usize = 64;

/// One module: its name, its masks, and the sections that wait.
#[derive(Drop)]
pub struct Module {
    /// The bytes of its name, by which commands find it.
    pub name: List<u8>,
    /// The mask that acts at the next build.
    pub mask: Mask,
    /// The mask of the last build, a failed one too; before the first it is the mask that the
    /// module was made with.
    pub built_mask: Mask,
    /// The number of its last build, a failed one too, among all that the engine began: no other build has
    /// it, of this module or of one that has this place later. None before the first.
    pub build: Option<u64>,
    /// The texts of the sections that wait for the next build, in the order in which they were
    /// added.
    pub sections: Vec<List<u8>>,
    ghost few: { length sections.items ≤ 64 },
}

/// The modules of an engine, by number. A module keeps its number for as long as it is there: code
/// and globals go by it.
#[derive(Drop)]
pub struct ModuleList {
    /// Their names, masks and waiting sections. The place that a discarded module leaves is empty
    /// until a new one takes it.
    pub places: Vec<Option<Module>>,
    /// What is built of them.
    pub code: Modules,
    /// The module whose initializer the last command failed at, for its trace.
    pub failed: Option<KeptFailure>,
    /// The numbers of those that are there, in the order in which they were made.
    pub order: Vec<u32>,
    /// How many builds were begun, of modules that are gone too: the number of the last one.
    pub builds: u64,
}
