//! The functions, factories and methods of a list as candidates, each made once for all uses.
ghost use Rattle.std.specs.Prelude.{◌≡◌, ◌++◌, ◌∷◌, [], option_copied, IfOk, OnOk, None, slice_index_or};
ghost use Rattle.ang_view.specs.Registration.{entry_at};
ghost use Rattle.ang_check_contest.specs.Host as host;
ghost use Rattle.ang_check_added.specs.Made as spec;

use ang_check_contest::{SeenFunction, Wanted, found_at, is_wanted};
use ang_check_uses::params_with_receiver;
use ang_kinds::EntityNo;
use ang_names_known::BorrowedText;
use ang_types::Candidate;
use ang_view::{Entry, EntryKind, View};
use std::alloc::{AllocError, Global};

/// Whether the entry of this number is wanted.
fn wants_at(whole: &View, wanted: &Wanted<'_>, number: u32) -> bool
    ensures exact { result ≡ host.wants_in wanted.now (entry_at whole.now number) }
{
    match whole.get(EntityNo(number)) {
        None => false,
        Some(entry) => is_wanted(wanted, entry),
    }
}

/// A function that is wanted, as a candidate.
fn candidate_of(wanted: &Wanted<'_>, function: SeenFunction) -> Result<Candidate, AllocError>
    ensures exact { IfOk result (λ c. c ≡ spec.candidate_of wanted.now function) }
{
    match wanted {
        Wanted::Function(_) => Ok(Candidate {
            params: function.params,
        }),
        Wanted::Factory(_) => Ok(Candidate {
            params: function.params,
        }),
        Wanted::Method(number, _) => Ok(Candidate {
            params: params_with_receiver(function.params, *number, function.read_only)?,
        }),
    }
}

/// The entry of this number as a candidate, where it is wanted.
fn candidate_at(
    alloc: Global,
    whole: &View,
    wanted: &Wanted<'_>,
    number: u32,
) -> Result<Option<Candidate>, AllocError>
    ensures exact { IfOk result (λ c. c ≡ spec.candidate_in whole.now number wanted.now) }
{
    match found_at(alloc, whole, wanted, EntityNo(number))? {
        None => Ok(None),
        Some(function) => Ok(Some(candidate_of(wanted, function)?)),
    }
}

/// The factory of this number, of this type, as a candidate.
fn factory_at(
    alloc: Global,
    whole: &View,
    owner: Option<EntityNo>,
    number: u32,
) -> Result<Option<Candidate>, AllocError>
    ensures exact { IfOk result (λ c. c ≡ spec.factory_in whole.now number owner) }
{
    match owner {
        None => Ok(None),
        Some(EntityNo(owner)) => candidate_at(alloc, whole, &Wanted::Factory(owner), number),
    }
}

/// The method of this number, of this type and name, as a candidate.
fn method_at(
    alloc: Global,
    whole: &View,
    name: &[u8],
    owner: Option<EntityNo>,
    number: u32,
) -> Result<Option<Candidate>, AllocError>
    ensures exact { IfOk result (λ c. c ≡ spec.method_in whole.now number name.now owner) }
{
    match owner {
        None => Ok(None),
        Some(EntityNo(owner)) => {
            let wanted = Wanted::Method(owner, BorrowedText::new(name));
            candidate_at(alloc, whole, &wanted, number)
        }
    }
}

/// The entry of this number as a candidate, where it can be one.
fn made_as(
    alloc: Global,
    whole: &View,
    entry: &Entry,
    number: u32,
) -> Result<Option<Candidate>, AllocError>
    ensures exact { IfOk result (λ c. c ≡ spec.made_as whole.now number
        entry.now.signature.name entry.now.owner entry.now.kind) }
{
    let name = entry.signature.name.as_slice();
    match entry.kind {
        EntryKind::Function => {
            let wanted = Wanted::Function(BorrowedText::new(name));
            candidate_at(alloc, whole, &wanted, number)
        }
        EntryKind::Factory => factory_at(alloc, whole, entry.owner, number),
        EntryKind::Method => method_at(alloc, whole, name, entry.owner, number),
        EntryKind::HostType
        | EntryKind::Property
        | EntryKind::Global
        | EntryKind::Enumeration
        | EntryKind::EnumValue(_) => Ok(None),
    }
}

/// The entry of this number as a candidate, where there is one that can be.
fn made_of(alloc: Global, whole: &View, number: u32) -> Result<Option<Candidate>, AllocError>
    ensures exact { IfOk result
        (λ c. c ≡ spec.made_of whole.now number (entry_at whole.now number)) }
{
    match whole.get(EntityNo(number)) {
        None => Ok(None),
        Some(entry) => made_as(alloc, whole, entry, number),
    }
}

/// Puts the entry of this number at the end, as a candidate.
fn push_made(
    alloc: Global,
    all: &mut Vec<Option<Candidate>>,
    whole: &View,
    number: u32,
) -> Result<(), AllocError>
    ensures pushed { OnOk result (all.new.items
        ≡ all.old.items ++ spec.made_of whole.now number (entry_at whole.now number) ∷ []) }
{
    let made = made_of(alloc, whole, number)?;
    all.push(made)?;
    Ok(())
}

/// All entries of a list as candidates, in order. The only error is want of memory.
pub fn all_made(alloc: Global, whole: &View) -> Result<Vec<Option<Candidate>>, AllocError>
    ensures exact { IfOk result (λ all. all.items ≡ spec.made whole.now) }
{
    let mut all = Vec::new(alloc);
    for number in 0..whole.len() as u32 {
        push_made(alloc, &mut all, whole, number)?;
    }
    Ok(all)
}

/// The candidate at a place, where there is one.
pub fn made_at(all: &[Option<Candidate>], number: u32) -> Option<&Candidate>
    ensures exact { option_copied result ≡ slice_index_or all.now number None }
{
    all.get(number as usize)?.as_ref()
}

/// The entry of this number as a candidate, where it is wanted. `all` are those that `made` gives.
#[tactic(auto, using(crate::proofs::Making::wanted_made, crate::proofs::Making::unwanted_made))]
pub fn candidate_among<'a>(
    whole: &View,
    all: &'a [Option<Candidate>],
    wanted: &Wanted<'_>,
    number: u32,
) -> Option<&'a Candidate>
    requires all { all.now ≡ spec.made whole.now }
    ensures exact { option_copied result ≡ spec.candidate_in whole.now number wanted.now }
{
    if wants_at(whole, wanted, number) {
        made_at(all, number)
    } else {
        None
    }
}
