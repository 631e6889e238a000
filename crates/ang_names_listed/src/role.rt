//! Where types are written.
use ang_kinds::Pass;

/// Where a type is written.
#[derive(Clone, Copy)]
pub enum TypePosition {
    /// As a function's or a method's result.
    Result,
    /// As the type of a global variable or a local.
    Variable,
    /// As the type of a field.
    Field,
    /// As the type of a parameter that is passed so.
    Parameter(Pass),
    /// As an import's result.
    ImportResult,
    /// As the type of an import's parameter that is passed so.
    ImportParameter(Pass),
    /// Between the `<` and `>` of a cast.
    Cast,
}
