//! What a module sees of the host, as its code asks it.
ghost use Rattle.std.specs.Prelude.{◌≡◌, IfOk, Some};
ghost use Rattle.ang_source.specs.Hosts.{use_in, asked_as};
ghost use Rattle.ang_engine_modules.specs.Loaded.{uses_of};

use ang_kinds::EntityNo;
use ang_lower::host_use;
use ang_meaning::HostUse;
use ang_view::{Entry, EntryKind, View};
use std::alloc::{AllocError, Global};

/// How an entry is asked. A type, an enumeration and a value of one are asked by nobody.
///
/// # Errors
/// Want of memory.
fn entry_use(alloc: Global, entry: &Entry) -> Result<Option<HostUse>, AllocError>
    ensures exact { IfOk result (λ u. u ≡ asked_as (Some entry.now)) }
{
    match entry.kind {
        EntryKind::HostType | EntryKind::Enumeration | EntryKind::EnumValue(_) => Ok(None),
        EntryKind::Factory
        | EntryKind::Method
        | EntryKind::Property
        | EntryKind::Function
        | EntryKind::Global => Ok(Some(host_use(alloc, entry)?)),
    }
}

/// How the entry of a number is asked, where the view has one.
///
/// # Errors
/// Want of memory.
fn use_at(alloc: Global, view: &View, number: u32) -> Result<Option<HostUse>, AllocError>
    ensures exact { IfOk result (λ u. u ≡ use_in view.now number) }
{
    match view.get(EntityNo(number)) {
        Some(entry) => entry_use(alloc, entry),
        None => Ok(None),
    }
}

/// How each entry of a view is asked, by number.
///
/// # Errors
/// Want of memory.
pub fn uses_of(alloc: Global, view: &View) -> Result<Vec<Option<HostUse>>, AllocError>
    ensures exact { IfOk result (λ uses. uses.items ≡ uses_of view.now) }
{
    let mut uses = Vec::with_capacity(alloc, view.len())?;
    for number in 0..view.len() {
        uses.push(use_at(alloc, view, number as u32)?)?;
    }
    Ok(uses)
}
