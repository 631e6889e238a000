//! Hidden entries by the names by which uses can mean them, so that few are looked at.
ghost use Rattle.std.specs.Prelude.{◌≡◌, IfOk, OnOk};
ghost use Rattle.ang_view.specs.Registration.{entry_at};
ghost use Rattle.ang_check_denials.specs.Names as spec;

use crate::masked::Masked;
use ang_index::Index;
use ang_kinds::EntityNo;
use ang_types::Asks;
use ang_view::{EntryKind, View};
use std::alloc::{AllocError, Global};

/// The scope of all names.
const NAMES: u64 = 0;

/// The name of the entry of this number.
fn own_name(whole: &View, number: u32) -> &[u8]
    ensures exact { result.now ≡ spec.own_name (entry_at whole.now number) }
{
    match whole.get(EntityNo(number)) {
        None => &[],
        Some(entry) => entry.signature.name.as_slice(),
    }
}

/// The name of the type to which an entry belongs.
fn owner_name(whole: &View, owner: Option<EntityNo>) -> &[u8]
    ensures exact { result.now ≡ spec.owner_name whole.now owner }
{
    match owner {
        None => &[],
        Some(EntityNo(number)) => own_name(whole, number),
    }
}

/// The name by which uses can mean the entry of this number: a factory is meant by its type's.
fn name_meant(whole: &View, number: u32) -> &[u8]
    ensures exact { result.now ≡ spec.name_meant whole.now (entry_at whole.now number) }
{
    match whole.get(EntityNo(number)) {
        None => &[],
        Some(entry) => {
            if matches!(entry.kind, EntryKind::Factory) {
                owner_name(whole, entry.owner)
            } else {
                entry.signature.name.as_slice()
            }
        }
    }
}

/// Puts the number of an entry in under the name by which uses can mean it, where it is hidden.
#[tactic(auto, using(crate::proofs::ByName::hidden_put, crate::proofs::ByName::seen_not_put))]
fn push_hidden(
    alloc: Global,
    rows: &mut Index<u32>,
    masked: &Masked<'_>,
    number: u32,
) -> Result<(), AllocError>
    ensures pushed { OnOk result
        (spec.PutsHidden masked.now.list masked.now.mask number rows.old rows.new) }
{
    if masked.hides(number) {
        rows.push(alloc, NAMES, name_meant(masked.whole(), number), number)?;
    }
    Ok(())
}

/// The hidden entries by the names by which uses can mean them. The only error is want of memory.
pub fn help_rows(alloc: Global, masked: &Masked<'_>) -> Result<Index<u32>, AllocError>
    ensures exact { IfOk result (λ rows. spec.HasHidden masked.now.list masked.now.mask rows) }
{
    let mut rows = Index::new(alloc);
    for number in 0..masked.len() {
        push_hidden(alloc, &mut rows, masked, number)?;
    }
    Ok(rows)
}

/// The name of the entries that a use of this name can mean.
fn name_sought<'n>(whole: &'n View, name: &'n [u8], asks: &Asks) -> &'n [u8]
    ensures exact { result.now ≡ spec.name_sought whole.now name.now asks.now }
{
    match asks {
        Asks::Make(number, _) | Asks::Default(number) => own_name(whole, *number),
        Asks::Value
        | Asks::Type
        | Asks::Enumeration
        | Asks::Call(_)
        | Asks::Property(_)
        | Asks::Method(_, _, _) => name,
    }
}

/// The numbers of the hidden entries that a use can mean, rising.
pub fn help_row<'r>(
    rows: &'r Index<u32>,
    masked: &Masked<'_>,
    name: &[u8],
    asks: &Asks,
) -> &'r [u32]
    requires rows { spec.HasHidden masked.now.list masked.now.mask rows.now }
    ensures exact { result.now
        ≡ spec.help_row masked.now.list masked.now.mask name.now asks.now }
{
    rows.find(NAMES, name_sought(masked.whole(), name, asks))
}
