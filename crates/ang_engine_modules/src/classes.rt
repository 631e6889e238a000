//! The classes of a module's tree as the machine's table has them.
ghost use Rattle.std.specs.Prelude.{◌≡◌, ◌++◌, ◌∷◌, [], Some, None, MatchOption, IfOk, OnOk, length, option_and_then, slice_get, map as list_map};
ghost use Rattle.ang_source.specs.Meaning.{kind_of, fields_by};
ghost use Rattle.ang_engine_modules.specs.Loaded as spec;
ghost use Rattle.ang_engine_modules.specs.Trees.{own_methods, methods_by, classes_from};
ghost use Rattle.ang_engine_modules.specs.Joining as joining;

use ang_kinds::List;
use ang_meaning as meaning;
use ang_meaning::{Routine, ValueKind};
use ang_typed::TypedClass;
use ang_types::ArgType;
use ang_vm_stack::methods::{MethodEntry, Methods};
use ang_vm_stack::table::ClassCode;
use std::alloc::{AllocError, Global};

/// What a field of a type holds: a number or truth value, or an object or a handle.
fn kind_of(ty: ArgType) -> ValueKind
    ensures same { result ≡ kind_of ty }
{
    match ty {
        ArgType::Void => ValueKind::Number,
        ArgType::Null => ValueKind::Handle,
        ArgType::Plain(_) => ValueKind::Number,
        ArgType::Enumeration { .. } => ValueKind::Number,
        ArgType::Object { .. } => ValueKind::Handle,
        ArgType::Handle { .. } => ValueKind::Handle,
    }
}

/// The base class of a class, where it has one that is there.
fn base_of<'a>(classes: &'a [TypedClass], class: &TypedClass) -> Option<&'a TypedClass>
    ensures exact { MatchOption result
        (option_and_then (slice_get classes.now) class.now.base ≡ None)
        (λ base. option_and_then (slice_get classes.now) class.now.base ≡ Some base.now) }
{
    classes.get(class.base?)
}

/// What the fields hold that a class declares itself, after those that there are.
fn add_own_kinds(fields: &[ArgType], kinds: &mut Vec<ValueKind>) -> Result<(), AllocError>
    ensures added { OnOk result (kinds.new.items ≡ kinds.old.items ++ list_map kind_of fields.now) }
{
    for ty in fields {
        kinds.push(kind_of(*ty))?;
    }
    Ok(())
}

/// What the fields hold of up to `left` classes above a class, the highest one's first, and then its own, after what
/// there is.
fn add_kinds(
    classes: &[TypedClass],
    left: usize,
    class: &TypedClass,
    kinds: &mut Vec<ValueKind>,
) -> Result<(), AllocError>
    ensures added { OnOk result (kinds.new.items
        ≡ kinds.old.items ++ list_map kind_of (fields_by classes.now left (Some class.now))) }
{
    if left > 0 {
        if let Some(base) = base_of(classes, class) {
            add_kinds(classes, left - 1, base, kinds)?;
        }
    }
    add_own_kinds(class.fields.as_slice(), kinds)
}

/// What the fields of a class's objects hold, those of its base class first, with room for no more.
fn kinds_of(
    alloc: Global,
    classes: &[TypedClass],
    class: &TypedClass,
) -> Result<Vec<ValueKind>, AllocError>
    ensures exact { IfOk result (λ kinds. kinds.items
        ≡ list_map kind_of (fields_by classes.now (length classes.now) (Some class.now))) }
{
    let mut kinds = Vec::new(alloc);
    add_kinds(classes, classes.len(), class, &mut kinds)?;
    kinds.shrink_to_fit();
    Ok(kinds)
}

/// The numbers of a class and of those above it, with room for no more.
fn numbers_of(alloc: Global, number: usize, above: &[u8]) -> Result<Vec<usize>, AllocError>
    ensures exact { IfOk result (λ found. found.items ≡ number ∷ above.now) }
{
    let mut found = Vec::with_capacity(alloc, above.len().saturating_add(1))?;
    found.push(number)?;
    for family in above {
        found.push(*family as usize)?;
    }
    Ok(found)
}

/// The methods that a class has itself, after those that there are.
fn add_methods(
    home: u32,
    rows: &[(usize, usize)],
    found: &mut Vec<MethodEntry>,
) -> Result<(), AllocError>
    ensures added { OnOk result (found.new.items ≡ found.old.items ++ own_methods home rows.now) }
{
    for row in rows {
        let function = Routine {
            home,
            number: row.1,
        };
        found.push(MethodEntry {
            slot: row.0,
            function,
        })?;
    }
    Ok(())
}

/// The methods of a class and of up to `left` classes above it, after those that there are.
fn add_chain(
    home: u32,
    classes: &[TypedClass],
    left: usize,
    class: &TypedClass,
    found: &mut Vec<MethodEntry>,
) -> Result<(), AllocError>
    ensures added { OnOk result
        (found.new.items ≡ found.old.items ++ methods_by home classes.now left (Some class.now)) }
{
    add_methods(home, class.chosen.as_slice(), found)?;
    if left == 0 {
        return Ok(());
    }
    match base_of(classes, class) {
        Some(base) => add_chain(home, classes, left - 1, base, found),
        None => Ok(()),
    }
}

/// What a class has by those above it: what the fields of its objects hold, and its methods, the nearest one of each slot.
#[derive(Drop)]
struct ClassParts {
    fields: Vec<ValueKind>,
    methods: Methods,
}

fn class_parts(
    alloc: Global,
    home: u32,
    classes: &[TypedClass],
    class: &TypedClass,
) -> Result<ClassParts, AllocError>
    ensures exact { IfOk result
        (λ p. joining.parts_in p ≡ joining.parts_of home classes.now class.now) }
{
    let mut found = Vec::new(alloc);
    add_chain(home, classes, classes.len(), class, &mut found)?;
    let methods = Methods::new(found)?;
    let fields = kinds_of(alloc, classes, class)?;
    Ok(ClassParts { fields, methods })
}

fn all_parts(
    alloc: Global,
    home: u32,
    classes: &[TypedClass],
) -> Result<Vec<ClassParts>, AllocError>
    ensures exact { IfOk result (λ all. list_map joining.parts_in all.items
        ≡ list_map (joining.parts_of home classes.now) classes.now) }
{
    let mut all = Vec::with_capacity(alloc, classes.len())?;
    for class in classes {
        all.push(class_parts(alloc, home, classes, class)?)?;
    }
    Ok(all)
}

/// The code of the class of a number, which has these parts.
fn class_code(
    alloc: Global,
    number: usize,
    class: TypedClass,
    parts: ClassParts,
) -> Result<ClassCode, AllocError>
    ensures exact { IfOk result (λ code. spec.class_of code
        ≡ joining.class_with number class (joining.parts_in parts)) }
{
    let ClassParts { fields, methods } = parts;
    let under = numbers_of(alloc, number, class.above.as_slice())?;
    let class = meaning::Class {
        number,
        rank: class.rank,
        fields: List::from_vec(fields),
        under: List::from_vec(under),
    };
    Ok(ClassCode { class, methods })
}

/// The code of classes, each of which has the parts of its place.
fn codes_with(
    alloc: Global,
    classes: Vec<TypedClass>,
    parts: Vec<ClassParts>,
) -> Result<Vec<ClassCode>, AllocError>
    ensures exact { IfOk result (λ codes. list_map spec.class_of codes.items
        ≡ joining.classes_with 0 classes.items (list_map joining.parts_in parts.items)) }
{
    let count = classes.len();
    let mut codes = Vec::with_capacity(alloc, count)?;
    let mut left = classes.into_iter();
    let mut rest = parts.into_iter();
    for number in 0..count {
        let Some(class) = left.next() else {
            return Ok(codes);
        };
        let Some(part) = rest.next() else {
            return Ok(codes);
        };
        let code = class_code(alloc, number, class, part)?;
        codes.push(code)?;
    }
    Ok(codes)
}

/// The code of all classes of a module, by number.
///
/// # Errors
/// Want of memory.
pub fn classes_of(
    alloc: Global,
    home: u32,
    classes: Vec<TypedClass>,
) -> Result<Vec<ClassCode>, AllocError>
    ensures exact { IfOk result (λ codes. list_map spec.class_of codes.items
        ≡ classes_from home classes.items 0 classes.items) }
{
    let parts = all_parts(alloc, home, classes.as_slice())?;
    codes_with(alloc, classes, parts)
}
