//! The name of a type, as it is written.

use ang_lex::Token;

/// A type: `[ "const" ] ( PRIMITIVE | "void" | NAME ) [ "@" [ "const" ] ]`.
#[derive(Clone, Copy)]
pub struct TypeName {
    /// The word `const` in front of the type, where it is written.
    pub constant: Option<Token>,
    /// The word of a primitive type, `void`, or a name.
    pub name: Token,
    /// The handle's sign, where it is written.
    pub handle: Option<Handle>,
}

/// What makes a type a handle: `"@" [ "const" ]`.
#[derive(Clone, Copy, PartialEq, Eq)]
pub struct Handle {
    /// `@`
    pub at: Token,
    /// The word `const` after the `@`, where it is written.
    pub constant: Option<Token>,
}
