//! What a body that was running is declared as, and the statement in which it stood.
ghost use Rattle.std.specs.Prelude.{◌≡◌, IfSome, option_map, position, slice_get};
ghost use Rattle.ang_engine_modules.specs.Traced.{frame_of, function_frame, global_frame, has_method_body, has_constructor_body, method_of, constructor_of, member_of, has_member, family_frame, member_frame, initializer_frame, frame_in, place_in, begins_before, count_before, mark_before, statement_place};

use crate::modules::LoadedModule;
use ang_code::Mark;
use ang_kinds::{Place, Position};
use ang_names_known::{Family, ScriptConstructor, ScriptFunction, ScriptGlobal, ScriptMethod};

/// One body that was running when the last command ended with a fault.
#[derive(Clone, Copy)]
pub struct TraceFrame<'a> {
    /// The module that it is of.
    pub module: &'a [u8],
    /// The class of a method or a constructor; else empty.
    pub class: &'a [u8],
    /// The function, or the global whose initializer it is.
    pub name: &'a [u8],
    /// Whether it is the initializer of a global.
    pub is_global: bool,
    /// The place of the name in its declaration.
    pub declared: Place,
    /// The place of the statement in which it stood, by the statement's first token. `None` where it stood in no
    /// statement: in the initializer of a global, or in code that was made without a source.
    pub place: Option<Place>,
}

fn has_method_body(method: &ScriptMethod, number: usize) -> bool
    ensures exact { result ≡ has_method_body number method.now }
{
    match method.body {
        Some(body) => body == number,
        None => false,
    }
}

fn has_constructor_body(constructor: &ScriptConstructor, number: usize) -> bool
    ensures exact { result ≡ has_constructor_body number constructor.now }
{
    constructor.body == number
}

fn method_place(methods: &[ScriptMethod], number: usize) -> Option<usize>
    ensures exact { result ≡ position (has_method_body number) methods.now }
{
    methods
        .iter()
        .position(|method| has_method_body(method, number))
}

/// The method that has the body of that number.
fn method_of(methods: &[ScriptMethod], number: usize) -> Option<&ScriptFunction>
    ensures exact { option_map (λ f. f.now) result ≡ method_of number methods.now }
{
    let place = method_place(methods, number)?;
    match methods.get(place) {
        Some(method) => Some(&method.function),
        None => None,
    }
}

fn constructor_place(constructors: &[ScriptConstructor], number: usize) -> Option<usize>
    ensures exact { result ≡ position (has_constructor_body number) constructors.now }
{
    constructors
        .iter()
        .position(|constructor| has_constructor_body(constructor, number))
}

/// The constructor that has the body of that number.
fn constructor_of(constructors: &[ScriptConstructor], number: usize) -> Option<&ScriptFunction>
    ensures exact { option_map (λ f. f.now) result ≡ constructor_of number constructors.now }
{
    let place = constructor_place(constructors, number)?;
    match constructors.get(place) {
        Some(constructor) => Some(&constructor.function),
        None => None,
    }
}

/// The method or constructor of a class that has the body of that number.
fn member_of(family: &Family, number: usize) -> Option<&ScriptFunction>
    ensures exact { option_map (λ f. f.now) result ≡ member_of number family.now }
{
    if let Some(method) = method_of(family.methods.as_slice(), number) {
        return Some(method);
    }
    constructor_of(family.constructors.as_slice(), number)
}

fn has_member(family: &Family, number: usize) -> bool
    ensures exact { result ≡ has_member number family.now }
{
    match member_of(family, number) {
        Some(_) => true,
        None => false,
    }
}

fn family_place(families: &[Family], number: usize) -> Option<usize>
    ensures exact { result ≡ position (has_member number) families.now }
{
    families
        .iter()
        .position(|family| has_member(family, number))
}

fn function_frame<'a>(
    own: &'a [u8],
    class: &'a [u8],
    function: &'a ScriptFunction,
) -> TraceFrame<'a>
    ensures exact { frame_of result ≡ function_frame own.now class.now function.now }
{
    TraceFrame {
        module: own,
        class,
        name: function.name.as_slice(),
        is_global: false,
        declared: function.place,
        place: None,
    }
}

fn global_frame<'a>(own: &'a [u8], global: &'a ScriptGlobal) -> TraceFrame<'a>
    ensures exact { frame_of result ≡ global_frame own.now global.now }
{
    TraceFrame {
        module: own,
        class: &[],
        name: global.name.as_slice(),
        is_global: true,
        declared: global.place,
        place: None,
    }
}

/// The method or constructor of a class that has the body of that number, with its module and its class.
fn family_frame<'a>(own: &'a [u8], family: &'a Family, number: usize) -> Option<TraceFrame<'a>>
    ensures exact { option_map frame_of result ≡ family_frame own.now number family.now }
{
    match member_of(family, number) {
        Some(function) => Some(function_frame(own, family.name.as_slice(), function)),
        None => None,
    }
}

/// The method or constructor of a module that has the body of that number.
fn member_frame<'a>(own: &'a [u8], families: &'a [Family], number: usize) -> Option<TraceFrame<'a>>
    ensures exact { option_map frame_of result ≡ member_frame own.now number families.now }
{
    let place = family_place(families, number)?;
    match families.get(place) {
        Some(family) => family_frame(own, family, number),
        None => None,
    }
}

/// The global of that number.
fn numbered_frame<'a>(
    own: &'a [u8],
    globals: &'a [ScriptGlobal],
    number: usize,
) -> Option<TraceFrame<'a>>
    ensures exact { option_map frame_of result
        ≡ option_map (global_frame own.now) (slice_get globals.now number) }
{
    match globals.get(number) {
        Some(global) => Some(global_frame(own, global)),
        None => None,
    }
}

/// The global of a module whose initializer is the body of that number. The first initializer has the number `first`, and
/// these are the numbers of the globals that have one.
fn initializer_frame<'a>(
    own: &'a [u8],
    globals: &'a [ScriptGlobal],
    first: usize,
    numbers: &[usize],
    number: usize,
) -> Option<TraceFrame<'a>>
    ensures exact { option_map frame_of result
        ≡ initializer_frame own.now first numbers.now number globals.now }
{
    if number < first {
        return None;
    }
    match numbers.get(number - first) {
        Some(global) => numbered_frame(own, globals, *global),
        None => None,
    }
}

/// What the body of that number of a module is declared as: its function, or else the method or
/// constructor that has it, or else the global whose initializer it is.
fn declared_frame(loaded: &LoadedModule, number: usize) -> Option<TraceFrame<'_>>
    ensures exact { option_map frame_of result ≡ frame_in loaded.now number }
{
    let own = loaded.name.as_slice();
    if let Some(function) = loaded.names.functions().get(number) {
        return Some(function_frame(own, &[], function));
    }
    if let Some(frame) = member_frame(own, loaded.names.families(), number) {
        return Some(frame);
    }
    let first = loaded.tree.function_count();
    let numbers = loaded.tree.initialized();
    initializer_frame(own, loaded.names.globals(), first, numbers, number)
}

// ---- where it stood

/// A place within a section, with the section.
fn place_in(section: u32, position: Position) -> Place
    ensures exact { result ≡ place_in section position }
{
    Place {
        sect: section,
        line: u32::from(position.line) + 1,
        column: u32::from(position.column) + 1,
    }
}

/// Whether a statement's instructions begin before this one.
fn begins_before(mark: &Mark, at: usize) -> bool
    ensures exact { result ≡ begins_before at mark.now }
{
    (mark.at as usize) < at
}

/// How many statements of a body begin before this instruction.
fn count_before(marks: &[Mark], at: usize) -> usize
    ensures exact { result ≡ count_before marks.now at }
{
    marks
        .iter()
        .take_while(|mark| begins_before(*mark, at))
        .count()
}

/// The mark of the statement of which the instruction before this one is.
fn mark_before(marks: &[Mark], at: usize) -> Option<Mark>
    ensures exact { result ≡ mark_before marks.now at }
{
    let count = count_before(marks, at);
    if count == 0 {
        return None;
    }
    marks.get(count - 1).copied()
}

/// Where that statement stands, in the section of its body.
fn statement_place(marks: &[Mark], at: usize, section: u32) -> Option<Place>
    ensures exact { result ≡ statement_place marks.now at section }
{
    match mark_before(marks, at) {
        Some(mark) => Some(place_in(section, mark.position)),
        None => None,
    }
}

/// What the body of that number of a module is declared as, and the place of the statement of which the
/// instruction before instruction `at` is, by the body's marks.
pub fn trace_frame<'a>(
    loaded: &'a LoadedModule,
    marks: &[Mark],
    number: usize,
    at: usize,
) -> Option<TraceFrame<'a>>
    ensures exact { option_map frame_of result ≡ frame_in loaded.now number }
    ensures placed { IfSome result
        (λ f. f.place ≡ statement_place marks.now at f.declared.sect) }
{
    let frame = declared_frame(loaded, number)?;
    let place = statement_place(marks, at, frame.declared.sect);
    Some(TraceFrame { place, ..frame })
}
