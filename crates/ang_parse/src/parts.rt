//! Parts of classes, between what is read and the tree that it makes.

use ang_lex::Token;
use ang_tree::{BaseName, Block, Statement, SuperCall, TypeName};

/// What a class and an interface begin with: `NAME [ ":" NAME { "," NAME } ] "{"`.
#[derive(Drop)]
pub(crate) struct Heading {
    pub(crate) name: Token,
    pub(crate) bases: Vec<BaseName>,
    pub(crate) open: Token,
}

/// What fields and a method begin with: `access type NAME`.
#[derive(Clone, Copy)]
pub(crate) struct MemberStart {
    pub(crate) access: Option<Token>,
    pub(crate) declared_type: TypeName,
    pub(crate) name: Token,
}

/// What stands after a method's parameters: `[ "const" ] { "final" | "override" } block`.
#[derive(Drop)]
pub(crate) struct MethodEnd {
    pub(crate) constant: Option<Token>,
    pub(crate) attributes: Vec<Token>,
    pub(crate) body: Block,
}

/// What stands after a constructor's left brace: `[ "super" args ";" ] { stmt } "}"`.
#[derive(Drop)]
pub(crate) struct ConstructorEnd {
    pub(crate) super_call: Option<SuperCall>,
    pub(crate) statements: Vec<Statement>,
    pub(crate) close: Token,
}
