//! Scripts and their declarations.

use crate::expression::Arguments;
use crate::statement::{Block, Statement, Variables};
use crate::type_name::TypeName;
use ang_lex::Token;

/// A section, as it is written.
#[derive(Drop)]
pub struct Script {
    /// The section's bytes. A token's text is the slice at its span.
    pub source: Vec<u8>,
    /// In the order of the text.
    pub declarations: Vec<Declaration>,
}

/// A declaration of a script. Each variant is a box, and a `;` its token, so that a list of declarations stays
/// small.
#[derive(Drop)]
pub enum Declaration {
    /// A class.
    Class(Box<Class>),
    /// An interface.
    Interface(Box<Interface>),
    /// A function that another module is to give.
    Import(Box<Import>),
    /// A function of the script.
    Function(Box<Function>),
    /// Global variables, one or several of one type.
    Globals(Box<Variables>),
    /// A `;` by itself, which declares nothing.
    Empty(Token),
}

/// `[ "final" ] "class" NAME [ ":" NAME { "," NAME } ] "{" { member } "}"`
#[derive(Drop)]
pub struct Class {
    /// The word `final`, where it is written.
    pub final_word: Option<Token>,
    /// The word `class`.
    pub word: Token,
    /// The class's name.
    pub name: Token,
    /// The class and the interfaces that it is derived from. Without a `:` there are none.
    pub bases: Vec<BaseName>,
    /// The `{` in front of the members.
    pub open: Token,
    /// The fields, methods and constructors, in the order of the text.
    pub members: Vec<Member>,
    /// The `}` after the members.
    pub close: Token,
}

/// A name in the list of a class or an interface after `:`.
#[derive(Clone, Copy)]
pub struct BaseName {
    /// `:` in front of the first name, `,` in front of each other.
    pub separator: Token,
    /// The name of the class or interface that is derived from.
    pub name: Token,
}

/// A member of a class. Each variant is a box, so that a list of members stays small.
#[derive(Drop)]
pub enum Member {
    /// One or several fields of one type.
    Fields(Box<Fields>),
    /// A method.
    Method(Box<Method>),
    /// A constructor.
    Constructor(Box<Constructor>),
}

/// `access type NAME { "," NAME } ";"`
#[derive(Drop)]
pub struct Fields {
    /// The word `private` or `protected`, where one is written.
    pub access: Option<Token>,
    /// The type of all these fields.
    pub declared_type: TypeName,
    /// The fields' names, at least one, in the order of the text.
    pub names: Vec<FieldName>,
    /// The `;` at the end.
    pub semicolon: Token,
}

/// `access type NAME params [ "const" ] { "final" | "override" } block`
#[derive(Drop)]
pub struct Method {
    /// The word `private` or `protected`, where one is written.
    pub access: Option<Token>,
    /// The type of what the method returns, `void` for nothing.
    pub result: TypeName,
    /// The method's name.
    pub name: Token,
    /// The method's parameters, with their parentheses.
    pub parameters: Parameters,
    /// The word `const` after the parameters, where it is written.
    pub constant: Option<Token>,
    /// The words `final` and `override`, as often as they are written.
    pub attributes: Vec<Token>,
    /// The method's statements, with their braces.
    pub body: Block,
}

/// `NAME params "{" [ "super" args ";" ] { stmt } "}"`
#[derive(Drop)]
pub struct Constructor {
    /// The constructor's name, which is to be that of its class. The grammar does not compare the two.
    pub name: Token,
    /// The constructor's parameters, with their parentheses.
    pub parameters: Parameters,
    /// The `{` in front of the body.
    pub open: Token,
    /// The call of the base class's constructor, where it is written.
    pub super_call: Option<SuperCall>,
    /// The statements of the body after that call, in the order of the text.
    pub statements: Vec<Statement>,
    /// The `}` after the body.
    pub close: Token,
}

/// The name of one of several fields of one type.
#[derive(Clone, Copy)]
pub struct FieldName {
    /// The comma in front of it. The first has none.
    pub comma: Option<Token>,
    /// The field's name.
    pub name: Token,
}

/// The call of the base class's constructor: `"super" args ";"`.
#[derive(Drop)]
pub struct SuperCall {
    /// The word `super`.
    pub word: Token,
    /// What the base class's constructor is handed.
    pub arguments: Arguments,
    /// The `;` at the end.
    pub semicolon: Token,
}

/// `"interface" NAME [ ":" NAME { "," NAME } ] "{" { method } "}"`
#[derive(Drop)]
pub struct Interface {
    /// The word `interface`.
    pub word: Token,
    /// The interface's name.
    pub name: Token,
    /// The interfaces that it is derived from. Without a `:` there are none.
    pub bases: Vec<BaseName>,
    /// The `{` in front of the methods.
    pub open: Token,
    /// The methods, in the order of the text.
    pub methods: Vec<InterfaceMethod>,
    /// The `}` after the methods.
    pub close: Token,
}

/// `type NAME params [ "const" ] ";"`
#[derive(Drop)]
pub struct InterfaceMethod {
    /// The type of what the method returns, `void` for nothing.
    pub result: TypeName,
    /// The method's name.
    pub name: Token,
    /// The method's parameters, with their parentheses.
    pub parameters: Parameters,
    /// The word `const` after the parameters, where it is written.
    pub constant: Option<Token>,
    /// The `;` at the end.
    pub semicolon: Token,
}

/// `"import" type NAME params "from" TEXT ";"`
#[derive(Drop)]
pub struct Import {
    /// The word `import`.
    pub word: Token,
    /// The type of what the function returns, `void` for nothing.
    pub result: TypeName,
    /// The name of the function that is imported.
    pub name: Token,
    /// The function's parameters, with their parentheses.
    pub parameters: Parameters,
    /// The word `from`.
    pub from_word: Token,
    /// The text that names the other module, with both its quotes.
    pub module: Token,
    /// The `;` at the end.
    pub semicolon: Token,
}

/// `type NAME params block`
#[derive(Drop)]
pub struct Function {
    /// The type of what the function returns, `void` for nothing.
    pub result: TypeName,
    /// The function's name.
    pub name: Token,
    /// The function's parameters, with their parentheses.
    pub parameters: Parameters,
    /// The function's statements, with their braces.
    pub body: Block,
}

/// `"(" [ "void" | param { "," param } ] ")"`
#[derive(Drop)]
pub struct Parameters {
    /// The `(` in front of the list.
    pub open: Token,
    /// The word of `(void)`, which has no items.
    pub void_word: Option<Token>,
    /// The parameters, in the order of the text. There are none in `()` and `(void)`.
    pub items: Vec<Parameter>,
    /// The `)` after the list.
    pub close: Token,
}

/// `type [ "&" [ "in" | "out" | "inout" ] ] [ NAME ]`
#[derive(Clone, Copy)]
pub struct Parameter {
    /// The comma in front of it. The first has none.
    pub comma: Option<Token>,
    /// The parameter's type, without the `&`.
    pub declared_type: TypeName,
    /// How it is passed by reference. Without it the parameter is passed by value.
    pub reference: Option<Reference>,
    /// The parameter's name. One without a name can't be used in the body.
    pub name: Option<Token>,
}

/// `"&" [ "in" | "out" | "inout" ]`
#[derive(Clone, Copy)]
pub struct Reference {
    /// The `&`.
    pub ampersand: Token,
    /// The word `in`, `out` or `inout`, where one is written. `&` alone is `&inout`.
    pub direction: Option<Token>,
}
