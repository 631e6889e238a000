//! What a module sees of the host, by name and by type.
ghost use Rattle.std.specs.Prelude.{◌≡◌, ◌++◌, IfOk, OnOk, Some, option_map, option_to_list};
ghost use Rattle.ang_view.specs.Registration.{entry_at};
ghost use Rattle.ang_view.specs.Types.{enumeration_named, type_named};
ghost use Rattle.ang_types.specs.declared.arg_type.ArgType.TheVariants as type;
ghost use Rattle.ang_check_contest.specs.Among.{found_among, property_among};
ghost use Rattle.ang_check_contest.specs.Host as spec;

use ang_kinds::{EntityNo, List, Param, Pass, Shape, TypeRef};
use ang_names_known::{BorrowedText, enumeration_number, type_number};
use ang_types::ArgType;
use ang_view::{Entry, EntryKind, View, belongs_to};
use std::alloc::{AllocError, Global};

/// A function, a factory or a method of the host that a module sees.
#[derive(Drop)]
pub struct SeenFunction {
    /// Its entry.
    pub entity: EntityNo,
    /// The driver that answers for it.
    pub driver: u32,
    /// The driver's own number for it.
    pub f: u32,
    /// The type of the result.
    pub result: ArgType,
    /// The types and passings of the parameters, in order. A method's receiver is not among them.
    pub params: List<(ArgType, Pass)>,
    /// Whether it is a method that is declared `const`.
    pub read_only: bool,
}

/// A global property or an object property of the host that a module sees.
#[derive(Clone, Copy)]
pub struct SeenProperty {
    /// Its entry.
    pub entity: EntityNo,
    /// The driver that answers for it.
    pub driver: u32,
    /// The driver's own number for it.
    pub f: u32,
    /// The type.
    pub ty: ArgType,
    /// Whether scripts can't write it.
    pub read_only: bool,
}

/// What of the host's functions is looked for.
#[derive(Drop)]
pub enum Wanted<'a> {
    /// The functions of this name.
    Function(BorrowedText<'a>),
    /// The factories of the type of this number.
    Factory(u32),
    /// The methods of the type of this number, of this name.
    Method(u32, BorrowedText<'a>),
}

/// Which property of the host is looked for.
#[derive(Drop)]
pub enum WantedProperty<'a> {
    /// The global property of this name.
    Global(BorrowedText<'a>),
    /// The property of the type of this number, of this name.
    Member(u32, BorrowedText<'a>),
}

fn shaped(shape: Shape, number: u32, read_only: bool) -> ArgType
    ensures exact { result ≡ spec.shaped shape number read_only }
{
    match shape {
        Shape::ByValue => ArgType::Object { number, read_only },
        Shape::Handle | Shape::AutoHandle => ArgType::Handle { number, read_only },
    }
}

/// The enumeration of this name, if the module sees it.
fn enumeration_type(view: &View, name: &[u8]) -> Option<ArgType>
    ensures exact { result ≡ option_map type.Enumeration (enumeration_named view.now name.now) }
{
    let number = enumeration_number(view, name)?;
    Some(ArgType::Enumeration { number })
}

/// The type that a host's declaration names, if the module sees it. It takes no memory.
pub fn host_type(view: &View, ty: &TypeRef) -> Option<ArgType>
    ensures exact { result ≡ spec.host_type view.now ty.now }
{
    match ty {
        TypeRef::Void => Some(ArgType::Void),
        TypeRef::Plain(primitive) => Some(ArgType::Plain(*primitive)),
        TypeRef::Enumeration { name } => enumeration_type(view, name.as_slice()),
        TypeRef::Object {
            name,
            shape,
            const_object,
            ..
        } => {
            let number = type_number(view, name.as_slice())?;
            Some(shaped(*shape, number, *const_object))
        }
    }
}

fn host_parameters(
    alloc: Global,
    view: &View,
    params: &[Param],
) -> Result<Option<List<(ArgType, Pass)>>, AllocError>
    ensures exact { IfOk result (λ found. found ≡ spec.host_parameters view.now params.now) }
{
    let mut found = Vec::new(alloc);
    for param in params {
        let Some(ty) = host_type(view, &param.ty) else {
            return Ok(None);
        };
        found.push((ty, param.pass))?;
    }
    Ok(Some(List::from_vec(found)))
}

/// The function of an entry.
fn function_in(
    alloc: Global,
    view: &View,
    entity: EntityNo,
    entry: &Entry,
) -> Result<Option<SeenFunction>, AllocError>
    ensures exact { IfOk result (λ found. found
        ≡ spec.function_of_entry view.now entity.0 entry.now) }
{
    let Some(result) = host_type(view, &entry.signature.result) else {
        return Ok(None);
    };
    let Some(params) = host_parameters(alloc, view, entry.signature.params.as_slice())? else {
        return Ok(None);
    };
    Ok(Some(SeenFunction {
        entity,
        driver: entry.driver,
        f: entry.f,
        result,
        params,
        read_only: entry.signature.read_only,
    }))
}

/// Whether an entry is what is wanted. It takes no memory.
pub fn is_wanted(wanted: &Wanted<'_>, entry: &Entry) -> bool
    ensures exact { result ≡ spec.is_wanted wanted.now entry.now }
{
    match wanted {
        Wanted::Function(name) => {
            matches!(entry.kind, EntryKind::Function)
                && entry.signature.name.as_slice() == name.bytes()
        }
        Wanted::Factory(number) => {
            matches!(entry.kind, EntryKind::Factory) && belongs_to(entry.owner, *number as usize)
        }
        Wanted::Method(number, name) => {
            matches!(entry.kind, EntryKind::Method)
                && belongs_to(entry.owner, *number as usize)
                && entry.signature.name.as_slice() == name.bytes()
        }
    }
}

/// The function, factory or method of the entry of this number, if it is wanted. Its types are looked up in the same view.
///
/// The only error is want of memory.
pub fn found_at(
    alloc: Global,
    view: &View,
    wanted: &Wanted<'_>,
    entity: EntityNo,
) -> Result<Option<SeenFunction>, AllocError>
    ensures exact { IfOk result (λ found. found
        ≡ spec.found wanted.now view.now entity.0 (entry_at view.now entity.0)) }
{
    match view.get(entity) {
        Some(entry) if is_wanted(wanted, entry) => function_in(alloc, view, entity, entry),
        _ => Ok(None),
    }
}

/// Whether the entry of this number is wanted.
fn wants_at(view: &View, wanted: &Wanted<'_>, entity: EntityNo) -> bool
    ensures exact { result ≡ spec.wants_in wanted.now (entry_at view.now entity.0) }
{
    match view.get(entity) {
        None => false,
        Some(entry) => is_wanted(wanted, entry),
    }
}

fn push_function(
    functions: &mut Vec<SeenFunction>,
    function: Option<SeenFunction>,
) -> Result<(), AllocError>
    ensures pushed { OnOk result
        (functions.new.items ≡ functions.old.items ++ option_to_list function) }
{
    if let Some(function) = function {
        functions.push(function)?;
    }
    Ok(())
}

/// Puts what is found in the entry of this number at the end: most entries are not wanted, and nothing is made of them.
fn push_found(
    alloc: Global,
    functions: &mut Vec<SeenFunction>,
    view: &View,
    wanted: &Wanted<'_>,
    entity: EntityNo,
) -> Result<(), AllocError>
    ensures pushed { OnOk result (functions.new.items ≡ functions.old.items ++ option_to_list
        (spec.found wanted.now view.now entity.0 (entry_at view.now entity.0))) }
{
    if !wants_at(view, wanted, entity) {
        return Ok(());
    }
    let function = found_at(alloc, view, wanted, entity)?;
    push_function(functions, function)
}

/// What is wanted among the entries of these numbers.
fn functions_among(
    alloc: Global,
    view: &View,
    wanted: &Wanted<'_>,
    numbers: &[EntityNo],
) -> Result<Vec<SeenFunction>, AllocError>
    ensures among { IfOk result (λ found. found.items
        ≡ found_among wanted.now view.now numbers.now) }
{
    let mut functions = Vec::new(alloc);
    for number in numbers {
        push_found(alloc, &mut functions, view, wanted, *number)?;
    }
    Ok(functions)
}

/// The functions, factories or methods of the host that are wanted, in the order of their numbers.
///
/// The only error is want of memory.
#[tactic(auto, using(crate::proofs::Among::functions_in, crate::proofs::Among::factories_in, crate::proofs::Among::methods_in))]
pub fn host_where(
    alloc: Global,
    view: &View,
    wanted: &Wanted<'_>,
) -> Result<Vec<SeenFunction>, AllocError>
    ensures exact { IfOk result (λ found. found.items ≡ spec.host_where wanted.now view.now) }
{
    match wanted {
        Wanted::Function(name) => functions_among(alloc, view, wanted, view.find(name.bytes())),
        Wanted::Factory(number) => {
            functions_among(alloc, view, wanted, view.makers(EntityNo(*number)))
        }
        Wanted::Method(number, name) => {
            let methods = view.owned(EntityNo(*number), name.bytes());
            functions_among(alloc, view, wanted, methods)
        }
    }
}

fn is_wanted_property(wanted: &WantedProperty<'_>, entry: &Entry) -> bool
    ensures exact { result ≡ spec.is_wanted_property wanted.now entry.now }
{
    match wanted {
        WantedProperty::Global(name) => {
            matches!(entry.kind, EntryKind::Global)
                && entry.signature.name.as_slice() == name.bytes()
        }
        WantedProperty::Member(number, name) => {
            matches!(entry.kind, EntryKind::Property)
                && belongs_to(entry.owner, *number as usize)
                && entry.signature.name.as_slice() == name.bytes()
        }
    }
}

fn property_in(view: &View, entity: EntityNo, entry: &Entry) -> Option<SeenProperty>
    ensures exact { result
        ≡ spec.property_with entity.0 entry.now
        (spec.host_type view.now entry.now.signature.result) }
{
    let ty = host_type(view, &entry.signature.result)?;
    Some(SeenProperty {
        entity,
        driver: entry.driver,
        f: entry.f,
        ty,
        read_only: entry.signature.read_only,
    })
}

/// The property of the entry of this number, if it is wanted. It takes no memory.
pub fn property_at(
    view: &View,
    wanted: &WantedProperty<'_>,
    entity: EntityNo,
) -> Option<SeenProperty>
    ensures exact { result
        ≡ spec.property_found wanted.now view.now entity.0 (entry_at view.now entity.0) }
{
    match view.get(entity) {
        Some(entry) if is_wanted_property(wanted, entry) => property_in(view, entity, entry),
        _ => None,
    }
}

/// The first property that is wanted among the entries of these numbers.
fn property_among_these(
    view: &View,
    wanted: &WantedProperty<'_>,
    numbers: &[EntityNo],
) -> Option<SeenProperty>
    ensures among { result ≡ property_among wanted.now view.now numbers.now }
{
    for number in numbers {
        let found = property_at(view, wanted, *number);
        if found.is_some() {
            return found;
        }
    }
    None
}

/// The property that is wanted, if the module sees it. It takes no memory.
#[tactic(auto, using(crate::proofs::Among::global_in, crate::proofs::Among::member_in))]
pub fn property_where(view: &View, wanted: &WantedProperty<'_>) -> Option<SeenProperty>
    ensures exact { result ≡ spec.property_where wanted.now view.now }
{
    match wanted {
        WantedProperty::Global(name) => {
            property_among_these(view, wanted, view.find(name.bytes()))
        }
        WantedProperty::Member(number, name) => {
            let members = view.owned(EntityNo(*number), name.bytes());
            property_among_these(view, wanted, members)
        }
    }
}
