//! Declarations of a host, as they are written: each keeps its tokens whole.

use ang_kinds::List;
use ang_lex::Token;
use ang_tree::Reference;

/// A type of a host declaration: `[ "const" ] ( PRIMITIVE | "void" | NAME ) [ "@" [ "+" ] [ "const" ] ]`.
#[derive(Clone, Copy)]
pub struct HostType {
    /// The word `const`, where it is written.
    pub constant: Option<Token>,
    /// The word of a primitive type, `void`, or a name.
    pub name: Token,
    /// The handle's sign, where it is written.
    pub handle: Option<HostHandle>,
}

/// What makes a type a handle: `"@" [ "+" ] [ "const" ]`.
#[derive(Clone, Copy)]
pub struct HostHandle {
    /// `@`
    pub at: Token,
    /// `+`, where it is written. It is a token of its own.
    pub plus: Option<Token>,
    /// The word `const`, where it is written.
    pub constant: Option<Token>,
}

/// `type [ "&" [ "in" | "out" | "inout" ] ] [ NAME ]`
#[derive(Clone, Copy)]
pub struct HostParameter {
    /// The comma in front of it. The first has none.
    pub comma: Option<Token>,
    /// Its type.
    pub declared_type: HostType,
    /// `&` and its direction, where they are written.
    pub reference: Option<Reference>,
    /// Its name, where it is written.
    pub name: Option<Token>,
}

/// `"(" [ "void" | param { "," param } ] ")"`
#[derive(Drop)]
pub struct HostParameters {
    /// `(`
    pub open: Token,
    /// The word of `(void)`, which has no items.
    pub void_word: Option<Token>,
    /// The parameters, in the order of the text.
    pub items: List<HostParameter>,
    /// `)`
    pub close: Token,
}

/// A function, a method or a factory: `type NAME params [ "const" ]`. Only a method has the `const`.
#[derive(Drop)]
pub struct HostFunction {
    /// The result's type.
    pub result: HostType,
    /// Its name.
    pub name: Token,
    /// Its parameters, with their parentheses.
    pub parameters: HostParameters,
    /// The word `const` after the parameters, where it is written.
    pub constant: Option<Token>,
}

/// `type NAME`
#[derive(Clone, Copy)]
pub struct HostProperty {
    /// Its type.
    pub declared_type: HostType,
    /// Its name.
    pub name: Token,
}
