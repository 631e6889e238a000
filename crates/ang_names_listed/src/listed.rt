//! The declarations of all scripts, in order.
use crate::WrittenParameters;
use ang_kinds::List;
use ang_lex::Token;
use ang_names_known::{Access, Origin, BorrowedText};
use ang_tree::TypeName;

/// A declaration of a script. Each name of a declaration of globals is one of its own.
#[derive(Drop)]
pub struct ListedDeclaration<'a> {
    /// Where it stands.
    pub origin: Origin,
    /// The bytes of its section.
    pub text: BorrowedText<'a>,
    /// The name.
    pub name: Token,
    /// What is declared.
    pub part: Part<'a>,
}

/// What a declaration declares.
#[derive(Drop)]
pub enum Part<'a> {
    /// A class or an interface.
    Family(ListedFamily<'a>),
    /// A function with its result's type.
    Function(TypeName, WrittenParameters<'a>),
    /// An imported function with its result's type.
    Import(TypeName, WrittenParameters<'a>),
    /// A global variable, of this type.
    Global(TypeName),
}

/// What a class or an interface declares.
#[derive(Drop)]
pub struct ListedFamily<'a> {
    /// Whether it is a class, else an interface.
    pub is_class: bool,
    /// Whether it is a class that is written with `final`.
    pub is_final: bool,
    /// The names after `:`.
    pub bases: List<Token>,
    /// Its members, in order: each name of a declaration of fields is one of its own.
    pub members: List<ListedMember<'a>>,
}

/// A member of a class or an interface.
#[derive(Drop)]
pub struct ListedMember<'a> {
    /// The name.
    pub name: Token,
    /// Who may use it.
    pub access: Access,
    /// What is declared.
    pub kind: MemberKind<'a>,
}

/// What a member is.
#[derive(Drop)]
pub enum MemberKind<'a> {
    /// A field of this type.
    Field(TypeName),
    /// A method with its result's type.
    Method(TypeName, WrittenParameters<'a>, Attributes),
    /// A constructor.
    Constructor(WrittenParameters<'a>),
}

/// The words after a method's parameters.
#[derive(Clone, Copy)]
pub struct Attributes {
    /// `const`
    pub read_only: bool,
    /// `final`
    pub is_final: bool,
    /// `override`
    pub is_override: bool,
}
