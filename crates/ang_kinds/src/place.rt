//! Places in the sections of a module.

/// A place in the script sections of a build.
#[derive(Clone, Copy, PartialEq, Eq, Debug)]
pub struct Place {
    /// The section, from 0 in the order in which they were added.
    pub sect: u32,
    /// The line, from 1.
    pub line: u32,
    /// The column, from 1, counted in bytes.
    pub column: u32,
}
