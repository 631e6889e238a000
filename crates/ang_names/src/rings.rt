//! Refusals of classes and interfaces at their names, and those that lead to themselves.
ghost use Rattle.std.specs.Prelude.{◌≡◌, ◌≤◌, ◌*◌, length, IfOk};
ghost use Rattle.ang_names.specs.Heirs as spec;
ghost use Rattle.ang_names.specs.ByNumber as numbered;

use ang_kinds::{Error, ErrorKind, List, Place};
use ang_names_graph::has_edge;
use ang_names_known::Family;
use ang_names_listed::push_refused;
use ang_types::Refused;
use std::alloc::{AllocError, Global};

/// An error of this name at this place, with which no entry of the host could help.
///
/// The only error is want of memory.
pub fn refused_at(
    alloc: Global,
    kind: ErrorKind,
    place: Place,
    name: &[u8],
) -> Result<Refused, AllocError>
    ensures exact { IfOk result (λ r. r ≡ spec.refused_at kind place name.now) }
{
    let name = Vec::from_slice(alloc, name)?;
    let error = Error {
        kind,
        place,
        name: List::from_vec(name),
    };
    Ok(Refused::plain(error))
}

/// Where something holds, an error at the name of a class or an interface.
fn at_name(
    alloc: Global,
    kind: ErrorKind,
    is_refused: bool,
    family: &Family,
) -> Result<Option<Refused>, AllocError>
    ensures exact { IfOk result (λ r. r ≡ spec.at_name kind is_refused family.now) }
{
    if !is_refused {
        return Ok(None);
    }
    let refused = refused_at(alloc, kind, family.place, family.name.as_slice())?;
    Ok(Some(refused))
}

/// The classes and interfaces that lead to themselves by a table that is closed, each refused at its name.
///
/// The only error is want of memory.
pub fn ring_refusals(
    alloc: Global,
    kind: ErrorKind,
    closed: &[bool],
    families: &[Family],
) -> Result<Vec<Refused>, AllocError>
    requires few { length families.now ≤ 256 }
    requires size { length closed.now ≡ length families.now * length families.now }
    ensures exact { IfOk result (λ found. found.items ≡ numbered.refused_from
        (numbered.ring_refusal kind closed.now (length families.now)) 0 families.now) }
{
    let n = families.len();
    let mut found = Vec::new(alloc);
    for (number, family) in families.iter().enumerate() {
        let is_refused = has_edge(closed, n, number, number);
        push_refused(&mut found, at_name(alloc, kind, is_refused, family)?)?;
    }
    Ok(found)
}
