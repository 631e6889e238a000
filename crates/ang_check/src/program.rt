//! The classes, methods and imports of the resolved tree.
ghost use Rattle.std.specs.Prelude.{◌≡◌, ◌<◌, ◌≤◌, ◌++◌, length, option_to_list, IfOk, OnOk, map as list_map};
ghost use Rattle.std.specs.List.{filter_map};
ghost use Rattle.ang_check.specs.Bodies as spec;
ghost use Rattle.ang_check.specs.Judging.{field_type};

use crate::{member_parameters, parameters_of};
use ang_check_context::Within;
use ang_kinds::List;
use ang_names_known::{Family, Field, ScriptFunction, ScriptMethod};
use ang_typed::{Heading, TypedClass};
use ang_types::ArgType;
use std::alloc::{AllocError, Global};

/// The heading of an import.
///
/// The only error is want of memory.
fn import_heading(alloc: Global, import: &ScriptFunction) -> Result<Heading, AllocError>
    ensures exact { IfOk result (λ h. h ≡ spec.import_heading import.now) }
{
    let parameters = parameters_of(alloc, import)?;
    Ok(Heading {
        parameters: List::from_vec(parameters),
        result: import.result.ty,
    })
}

/// The headings of all imports.
///
/// The only error is want of memory.
pub fn import_headings(
    alloc: Global,
    imports: &[ScriptFunction],
) -> Result<Vec<Heading>, AllocError>
    ensures exact { IfOk result (λ v. v.items ≡ list_map spec.import_heading imports.now) }
{
    let mut headings = Vec::new(alloc);
    for import in imports {
        let heading = import_heading(alloc, import)?;
        headings.push(heading)?;
    }
    Ok(headings)
}

/// The types of the fields that a family declares itself.
///
/// The only error is want of memory.
fn own_types(alloc: Global, fields: &[Field]) -> Result<Vec<ArgType>, AllocError>
    ensures exact { IfOk result (λ v. v.items ≡ list_map field_type fields.now) }
{
    let mut types = Vec::with_capacity(alloc, fields.len())?;
    for field in fields {
        types.push(field.written.ty)?;
    }
    Ok(types)
}

/// The slot and the body of a method, where it has one, at the end of some.
fn push_slot(slots: &mut Vec<(usize, usize)>, method: &ScriptMethod) -> Result<(), AllocError>
    ensures pushed { OnOk result
        (slots.new.items ≡ slots.old.items ++ option_to_list (spec.slot_and_body method.now)) }
{
    if let Some(body) = method.body {
        slots.push((method.slot, body))?;
    }
    Ok(())
}

/// The slots of methods that have bodies, with these.
///
/// The only error is want of memory.
#[tactic(auto, using(crate::proofs::Lists::cons_joins))]
fn slots_of(alloc: Global, methods: &[ScriptMethod]) -> Result<Vec<(usize, usize)>, AllocError>
    ensures exact { IfOk result (λ v. v.items ≡ filter_map spec.slot_and_body methods.now) }
{
    let mut slots = Vec::new(alloc);
    for method in methods {
        push_slot(&mut slots, method)?;
    }
    Ok(slots)
}

/// What is known of a class or an interface.
///
/// The only error is want of memory.
fn typed_class(alloc: Global, family: &Family) -> Result<TypedClass, AllocError>
    ensures exact { IfOk result (λ k. k ≡ spec.typed_class family.now) }
{
    let fields = own_types(alloc, family.fields.as_slice())?;
    let above = Vec::from_slice(alloc, family.above.as_slice())?;
    let chosen = slots_of(alloc, family.methods.as_slice())?;
    Ok(TypedClass {
        fields: List::from_vec(fields),
        base: family.base,
        above: List::from_vec(above),
        chosen: List::from_vec(chosen),
        rank: family.rank,
    })
}

/// The classes and interfaces, with what is known of them where their objects are made and their methods are chosen.
///
/// The only error is want of memory.
pub fn typed_classes(alloc: Global, families: &[Family]) -> Result<Vec<TypedClass>, AllocError>
    ensures exact { IfOk result (λ v. v.items ≡ spec.typed_classes families.now) }
{
    let mut classes = Vec::new(alloc);
    for family in families {
        let class = typed_class(alloc, family)?;
        classes.push(class)?;
    }
    Ok(classes)
}

/// The heading of a method of the family of this number, with `this` in front.
///
/// The only error is want of memory.
fn method_heading(
    alloc: Global,
    number: usize,
    method: &ScriptMethod,
) -> Result<Heading, AllocError>
    requires few { number < 256 }
    ensures exact { IfOk result (λ h. h ≡ spec.method_heading number method.now) }
{
    let within = Within {
        family: number,
        read_only: method.read_only,
    };
    let parameters = member_parameters(alloc, within, &method.function)?;
    Ok(Heading {
        parameters: List::from_vec(parameters),
        result: method.function.result.ty,
    })
}

/// The headings of a family's methods, at the end of some.
fn push_headings(
    alloc: Global,
    headings: &mut Vec<Heading>,
    number: usize,
    methods: &[ScriptMethod],
) -> Result<(), AllocError>
    requires few { number < 256 }
    ensures pushed { OnOk result (headings.new.items
        ≡ headings.old.items ++ list_map (spec.method_heading number) methods.now) }
{
    for method in methods {
        let heading = method_heading(alloc, number, method)?;
        headings.push(heading)?;
    }
    Ok(())
}

/// The headings of all methods, in the order of families and members.
///
/// The only error is want of memory.
pub fn method_headings(alloc: Global, families: &[Family]) -> Result<Vec<Heading>, AllocError>
    requires few { length families.now ≤ 256 }
    ensures exact { IfOk result (λ v. v.items ≡ spec.method_headings families.now) }
{
    let mut headings = Vec::new(alloc);
    for number in 0..families.len() {
        let methods = families[number].methods.as_slice();
        push_headings(alloc, &mut headings, number, methods)?;
    }
    Ok(headings)
}
