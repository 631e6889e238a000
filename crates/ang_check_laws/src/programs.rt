//! The law that the program of a build is typed, and its parts: each law is the contract of a function that does nothing.
ghost use Rattle.std.specs.Prelude.{ℕ};
ghost use Rattle.ang_meaning.specs.Environment.{Environment};
ghost use Rattle.ang_source_typed.specs.Types.{Modules};
ghost use Rattle.ang_check_laws.specs.HostTypes.{SameTypesHoldTheSame};
ghost use Rattle.ang_check_laws.specs.Typed.{TypesGoUp, ExpressionsAreTyped, StatementsAreTyped};
ghost use Rattle.ang_check_laws.specs.Typed.{FunctionsAreTyped, MethodsAreTyped, ConstructorsAreTyped, InitializersAreTyped};
ghost use Rattle.ang_check_laws.specs.Typed.{ProgramsAreTyped, ProgramIsTyped};

/// The program of a build without errors is typed: each expression gives a value of the kind that is wanted where it stands,
/// each class has the fields and the methods of what stands above it, and each body ends as its function's result wants.
pub fn program_is_typed()
    ensures each { ProgramIsTyped }
{}

/// An expression that gives an object of a class gives one of each class and interface above it.
pub fn types_go_up()
    ensures each { (z : Environment) (ms : Modules) (m : ℕ) → TypesGoUp z ms m }
{}

/// What a binding finds to be one type holds the same values in both modules.
pub fn same_types()
    ensures each { SameTypesHoldTheSame }
{}

/// What the checker makes of an expression gives values of the type that the checker says.
pub fn expressions_are_typed()
    ensures each { (z : Environment) (ms : Modules) (m : ℕ) → ExpressionsAreTyped z ms m }
{}

/// What the checker makes of statements, bodies and initializers is typed, and where a function gives an object or a handle,
/// no path of its body comes to the end without a `return`.
pub fn bodies_are_typed()
    ensures statements { (z : Environment) (ms : Modules) (m : ℕ) → StatementsAreTyped z ms m }
    ensures functions { (z : Environment) (ms : Modules) (m : ℕ) → FunctionsAreTyped z ms m }
    ensures methods { (z : Environment) (ms : Modules) (m : ℕ) → MethodsAreTyped z ms m }
    ensures constructors { (z : Environment) (ms : Modules) (m : ℕ) → ConstructorsAreTyped z ms m }
    ensures initializers { (z : Environment) (ms : Modules) (m : ℕ) → InitializersAreTyped z ms m }
{}

/// The program of a build whose bodies have no errors is typed if its classes are as typing wants them.
pub fn programs_are_typed()
    ensures each { ProgramsAreTyped }
{}
