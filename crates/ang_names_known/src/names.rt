//! What scripts declare, with what its types mean.
use ang_kinds::{List, Pass, Place};
use ang_types::ArgType;

/// Where a declaration stands in the scripts of a build. All three count from 0.
#[derive(Clone, Copy)]
pub struct Origin {
    /// The section.
    pub script: usize,
    /// The declaration's place among those of its section.
    pub declaration: usize,
    /// The place of the name in a declaration of globals, and 0 for all others.
    pub variable: usize,
}

/// A type as it is written, with what it means.
#[derive(Clone, Copy)]
pub struct Written {
    /// The type.
    pub ty: ArgType,
    /// Whether `const` stands in front.
    pub constant: bool,
    /// Whether `const` stands after `@`.
    pub const_handle: bool,
}

/// A parameter of a script's function.
#[derive(Drop)]
pub struct ScriptParameter {
    /// The type, as it is written.
    pub written: Written,
    /// How the argument is passed.
    pub pass: Pass,
    /// The name, empty where none is written.
    pub name: List<u8>,
}

/// A function of a script, an import, a method or a constructor.
#[derive(Drop)]
pub struct ScriptFunction {
    /// The name.
    pub name: List<u8>,
    /// The place of the name.
    pub place: Place,
    /// The type of the result, as it is written; of a constructor it is `void`.
    pub result: Written,
    /// At most 32, in order. A method's receiver is not among them.
    pub params: List<ScriptParameter>,
    /// Where its declaration stands; a method's and a constructor's is that of its family.
    pub origin: Origin,
}

/// A global variable of a script.
#[derive(Drop)]
pub struct ScriptGlobal {
    /// The name.
    pub name: List<u8>,
    /// The place of the name.
    pub place: Place,
    /// The type, as it is written.
    pub written: Written,
    /// Where it stands, and its initializer with it.
    pub origin: Origin,
}

/// Who may use a member.
#[derive(Clone, Copy)]
pub enum Access {
    /// Any code.
    Public,
    /// Bodies of the class that declares it, and of classes that derive from that one.
    Protected,
    /// Bodies of the class that declares it.
    Private,
}

/// A field of a class.
#[derive(Drop)]
pub struct Field {
    /// The name.
    pub name: List<u8>,
    /// The place of the name.
    pub place: Place,
    /// The type, as it is written.
    pub written: Written,
    /// Who may use it.
    pub access: Access,
    /// Its number among all fields of an object, those of the base class first.
    pub number: usize,
}

/// A method of a class or an interface.
#[derive(Drop)]
pub struct ScriptMethod {
    /// Its name, result and parameters, without the receiver.
    pub function: ScriptFunction,
    /// Who may use it.
    pub access: Access,
    /// Whether it is declared `const`, so that its receiver is not changed.
    pub read_only: bool,
    /// Whether it is declared `final`, so that no class below has another one in its place.
    pub is_final: bool,
    /// Whether it is declared `override`.
    pub is_override: bool,
    /// The number of the first method of its name, parameters and `const` among all methods of the build, in the order of
    /// families and members.
    pub slot: usize,
    /// The number of its body, which an interface's method does not have.
    pub body: Option<usize>,
}

/// A constructor of a class.
#[derive(Drop)]
pub struct ScriptConstructor {
    /// Its parameters; its name is the class's.
    pub function: ScriptFunction,
    /// The number of its body.
    pub body: usize,
}

/// A class or an interface.
#[derive(Drop)]
pub struct Family {
    /// The name.
    pub name: List<u8>,
    /// The place of the name.
    pub place: Place,
    /// Whether it is a class, else an interface.
    pub is_class: bool,
    /// The number of its base class.
    pub base: Option<usize>,
    /// The numbers of all families above it, rising: base classes, and the interfaces of these and its own.
    pub above: List<u8>,
    /// Itself and the families from which it has methods, the nearest first: of a class its base classes, of an interface
    /// the interfaces above it, of equally near ones the lowest number first.
    pub order: List<u8>,
    /// It falls along all that a field can reach.
    pub rank: usize,
    /// Its own fields, in order of declaration.
    pub fields: List<Field>,
    /// Its own methods, in order of declaration.
    pub methods: List<ScriptMethod>,
    /// Its constructors, in order of declaration.
    pub constructors: List<ScriptConstructor>,
    /// Where it stands.
    pub origin: Origin,
}

/// The names of a module's scripts, each kind in the order of sections and text.
///
/// Object types go by number: a seen host type has the number of its entry, and a family 1,024 and its place here.
/// Bodies are numbered from 0: those of functions, and then those of methods and constructors in the order of families
/// and members.
#[derive(Drop)]
pub struct Names {
    /// All names that are declared: one for each declaration.
    pub declared: List<List<u8>>,
    /// The classes and interfaces.
    pub families: List<Family>,
    /// The functions.
    pub functions: List<ScriptFunction>,
    /// The imports.
    pub imports: List<ScriptFunction>,
    /// The global variables.
    pub globals: List<ScriptGlobal>,
}

/// A field as objects of a class have it.
#[derive(Clone, Copy)]
pub struct FoundField {
    /// The number of the class that declares it.
    pub owner: usize,
    /// Its number among all fields of the object, those of the base class first.
    pub number: usize,
    /// The type, as it is written.
    pub written: Written,
    /// Who may use it.
    pub access: Access,
}

/// How an object of a class is made without arguments.
#[derive(Clone, Copy)]
pub enum Default {
    /// Not at all: the class has constructors, and none without parameters.
    Missing,
    /// By no constructor that is written: the class has none, and nor has any above it. A class that has none while the
    /// nearest above it has none without parameters is refused at its own name, and stands here too.
    Unwritten,
    /// By the constructor with this body.
    Written(usize),
}
