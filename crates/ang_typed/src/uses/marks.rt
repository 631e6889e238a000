//! Numbers that are marked.
ghost use Rattle.std.specs.Prelude.{◌≡◌, ◌∷◌, []};
ghost use Rattle.ang_typed.specs.Uses as spec;

use crate::expression::{HostEntity, TypedMember, TypedVariable};
use ang_types::ArgType;

/// Marks a number, where it is within the marks.
pub(crate) fn mark(marks: &mut Vec<bool>, number: u32)
    ensures exact { marks.new.items ≡ spec.marked (number ∷ []) marks.old.items }
{
    let place = number as usize;
    if place < marks.len() {
        marks[place] = true;
    }
}

/// Marks the entry of a type, where it is one.
pub(crate) fn mark_type(marks: &mut Vec<bool>, ty: ArgType)
    ensures exact { marks.new.items ≡ spec.marked (spec.type_uses ty) marks.old.items }
{
    match ty {
        ArgType::Void | ArgType::Null | ArgType::Plain(_) => {}
        ArgType::Enumeration { number }
        | ArgType::Object { number, .. }
        | ArgType::Handle { number, .. } => mark(marks, number),
    }
}

/// Marks an entity that is asked.
pub(crate) fn mark_host(marks: &mut Vec<bool>, host: &HostEntity)
    ensures exact { marks.new.items ≡ spec.marked (spec.host_uses host.now) marks.old.items }
{
    mark(marks, host.entity.0);
}

/// Marks what a variable is of the host, where it is a property.
pub(crate) fn mark_variable(marks: &mut Vec<bool>, variable: &TypedVariable)
    ensures exact { marks.new.items
        ≡ spec.marked (spec.variable_uses variable.now) marks.old.items }
{
    match variable {
        TypedVariable::Local(_) => {}
        TypedVariable::Global(_) => {}
        TypedVariable::Property(host) => mark_host(marks, host),
        TypedVariable::Field(_) => {}
    }
}

/// Marks what a member is of the host, where it is a property.
pub(crate) fn mark_member(marks: &mut Vec<bool>, member: &TypedMember)
    ensures exact { marks.new.items ≡ spec.marked (spec.member_uses member.now) marks.old.items }
{
    match member {
        TypedMember::Field(_) => {}
        TypedMember::Property(host) => mark_host(marks, host),
    }
}
