//! Entries of which their rivals alone tell whether they help a use: functions, factories and methods, where the name of the
//! use means the same whichever of them is added. Each helps where it is the best of all.
ghost use Rattle.std.specs.Prelude.{◌≡◌, ◌==◌, if◌then◌else◌, List, IfOk, IfSome, None, Some, slice_index_or, map as list_map};
ghost use Rattle.ang_types.specs.declared.arg_type.ArgType.{ArgType};
ghost use Rattle.ang_types.specs.declared.candidate.Candidate.{Candidate};
ghost use Rattle.ang_types.specs.Ranks.{Ancestors};
ghost use Rattle.ang_names_known.specs.Kinds.{numbered};
ghost use Rattle.ang_view.specs.Registration.{seen};
ghost use Rattle.ang_check_contest.specs.Told.{IsTable, table_of};
ghost use Rattle.ang_check_added.specs.Verdicts.{Judge, verdicts_in};
ghost use Rattle.ang_check_denials.specs.Added as added;
ghost use Rattle.ang_check_denials.specs.Denials as denials;
ghost use Rattle.ang_check_added.specs.Made as candidates;
ghost use Rattle.ang_check_denials.specs.Names as names;
ghost use Rattle.ang_check_denials.specs.Others.{AreOthers};
ghost use Rattle.ang_check_denials.specs.Telling as spec;

use crate::beside::Beside;
use crate::masked::Masked;
use crate::named::{is_known, is_type_named};
use ang_check_added::{EntrySet, Verdicts};
use ang_check_contest::{Rivalry, Scope};
use ang_names_known::family_of_type;
use ang_types::{Asks, Refused};
use ang_view::{Entry, EntryKind, View};
use std::alloc::{AllocError, Global};

/// Which entries these are.
#[derive(Clone, Copy)]
pub enum Sought {
    /// Functions.
    Functions,
    /// Factories of the type of this number.
    Factories(u32),
    /// Methods of the type of this number.
    Methods(u32),
}

/// What tells of them whether they help.
#[derive(Drop)]
pub struct Told {
    /// Which entries are told of.
    pub sought: Sought,
    /// The verdicts beside their rivals.
    pub verdicts: Verdicts,
    /// The entries that win by them, where it is kept which candidates have which kinds of parameters.
    pub winners: Option<EntrySet>,
}

/// Which of these an entry is of.
fn sort_by(entry: &Entry) -> Option<Sought>
    ensures exact { result ≡ spec.sort_of (Some entry.now) }
{
    match entry.kind {
        EntryKind::Function => Some(Sought::Functions),
        EntryKind::Factory => Some(Sought::Factories(entry.owner?.0)),
        EntryKind::Method => Some(Sought::Methods(entry.owner?.0)),
        EntryKind::HostType
        | EntryKind::Property
        | EntryKind::Global
        | EntryKind::Enumeration
        | EntryKind::EnumValue(_) => None,
    }
}

fn sort_of(entry: &Option<Entry>) -> Option<Sought>
    ensures exact { result ≡ spec.sort_of entry.now }
{
    match entry {
        None => None,
        Some(entry) => sort_by(entry),
    }
}

/// The number of a sort: no two have the same.
#[inline(always)]
pub fn key_of(sort: Option<Sought>) -> u64
    ensures exact { result ≡ spec.key_of sort }
{
    match sort {
        None => 3,
        Some(Sought::Functions) => 0,
        Some(Sought::Factories(owner)) => 4 * (owner as u64) + 1,
        Some(Sought::Methods(owner)) => 4 * (owner as u64) + 2,
    }
}

/// The number of the sort of each entry of a list. The only error is want of memory.
pub fn all_sorts(alloc: Global, whole: &View) -> Result<Vec<u64>, AllocError>
    ensures exact { IfOk result (λ sorts. sorts.items ≡ list_map spec.sort_key whole.now) }
{
    let mut sorts = Vec::new(alloc);
    for entry in whole.entries() {
        sorts.push(key_of(sort_of(entry)))?;
    }
    Ok(sorts)
}

/// Whether what stands at a place is of the sort of this number.
#[inline(always)]
pub fn is_of_sort(sorts: &[u64], key: u64, number: u32) -> bool
    ensures exact { result ≡ (slice_index_or sorts.now number 3 == key) }
{
    match sorts.get(number as usize) {
        None => key_of(None) == key,
        Some(sort) => *sort == key,
    }
}

/// Whether the entry of this number, as a candidate, is the best of all.
#[inline(always)]
pub fn wins(masked: &Masked<'_>, told: &Told, number: u32) -> bool
    ensures exact { (ancestors : Ancestors) (cs : List Candidate) (args : List ArgType) →
        Judge ancestors (numbered 0 masked.now.kinds) cs args
        (verdicts_in told.now.verdicts.rows.items) told.now.verdicts.ahead →
        IfSome told.now.winners (spec.AreWinners masked.now.list ancestors cs args) →
        result ≡ candidates.is_won ancestors cs args
        (slice_index_or (candidates.made masked.now.list) number None) }
{
    if let Some(winners) = &told.winners {
        return winners.has(number);
    }
    let Some(numbers) = masked.row(number) else {
        return false;
    };
    told.verdicts.wins(numbers)
}

/// The entries that, as candidates, are the best of all, where it is kept which candidates have which kinds of parameters.
fn winners_of(masked: &Masked<'_>, verdicts: &Verdicts) -> Option<EntrySet>
    ensures exact { IfSome result (λ winners. (ancestors : Ancestors) (cs : List Candidate)
        (args : List ArgType) → Judge ancestors (numbered 0 masked.now.kinds) cs args
        (verdicts_in verdicts.now.rows.items) verdicts.now.ahead →
        spec.AreWinners masked.now.list ancestors cs args winners) }
{
    let Some(sets) = masked.sets() else {
        return None;
    };
    Some(verdicts.winners(sets))
}

fn if_so(is: bool, sought: Sought) -> Option<Sought>
    ensures exact { result ≡ (if is then Some sought else None) }
{
    if is { Some(sought) } else { None }
}

/// Whether the type of this number, the first of a name, is what the name means where a factory of it is added.
fn makes(masked: &Masked<'_>, name: &[u8], beside: &Beside, taken: bool, number: u32) -> bool
    ensures exact { result ≡ spec.makes masked.now.list name.now taken beside.now.made
        beside.now.named.family number }
{
    (!taken && !is_known(beside.named.family))
        && ((number == beside.made && family_of_type(number).is_none())
            && is_type_named(masked.whole(), number, name))
}

/// Of which entries it is told by a call of a name.
fn called_for(masked: &Masked<'_>, name: &[u8], beside: &Beside, taken: bool) -> Option<Sought>
    ensures exact { result ≡ spec.called_for masked.now.list name.now beside.now.joined taken
        beside.now.made beside.now.named.family beside.now.named.numbers.items }
{
    match beside.named.numbers.as_slice() {
        [] => if_so(
            !is_known(beside.named.family) && (beside.joined || !taken),
            Sought::Functions,
        ),
        [first, ..] => if_so(
            makes(masked, name, beside, taken, *first),
            Sought::Factories(*first),
        ),
    }
}

/// Of which entries it is told by a use of a name.
fn sought_for(
    masked: &Masked<'_>,
    name: &[u8],
    asks: &Asks,
    beside: &Beside,
    taken: bool,
) -> Option<Sought>
    ensures exact { result ≡ spec.sought_for masked.now.list name.now beside.now.joined taken
        beside.now.made beside.now.named.family beside.now.named.numbers.items asks.now }
{
    match asks {
        Asks::Value | Asks::Type | Asks::Enumeration | Asks::Property(_) => None,
        Asks::Call(_) => called_for(masked, name, beside, taken),
        Asks::Make(number, _) => if_so(!taken, Sought::Factories(*number)),
        Asks::Default(number) => if_so(!taken, Sought::Factories(*number)),
        Asks::Method(number, _, _) => Some(Sought::Methods(*number)),
    }
}

/// What is kept of their rivals where a name is called.
fn called_rivals(beside: &Beside, sought: Sought) -> &Rivalry
    ensures exact { result.now
        ≡ spec.called_rivals beside.now.rivals beside.now.makers sought }
{
    match sought {
        Sought::Functions | Sought::Methods(_) => &beside.rivals,
        Sought::Factories(_) => &beside.makers,
    }
}

/// What is kept of their rivals.
fn rivals_of<'b>(beside: &'b Beside, sought: Sought, asks: &Asks) -> &'b Rivalry
    ensures exact { result.now
        ≡ spec.rivals_kept beside.now.rivals beside.now.makers sought asks.now }
{
    match asks {
        Asks::Call(_) => called_rivals(beside, sought),
        Asks::Value
        | Asks::Type
        | Asks::Enumeration
        | Asks::Make(_, _)
        | Asks::Default(_)
        | Asks::Property(_)
        | Asks::Method(_, _, _) => &beside.rivals,
    }
}

/// What tells of the entries of a use's row, where the ranks of its arguments are known for all kinds of parameters. The only
/// error is want of memory.
pub fn told_of(
    alloc: Global,
    masked: &Masked<'_>,
    scope: &Scope<'_>,
    refused: &Refused,
    asks: &Asks,
    beside: &Beside,
    taken: bool,
    table: &Option<Vec<Vec<Option<u8>>>>,
) -> Result<Option<Told>, AllocError>
    requires view { scope.now.view ≡ seen masked.now.list masked.now.mask }
    requires taken { taken ≡ denials.is_taken scope.now refused.now asks.now }
    requires rivals { AreOthers beside.now.rivals scope.now.ancestors
        (added.candidates_for scope.now refused.now.error.name asks.now) beside.now.types.items }
    requires types { beside.now.types.items ≡ added.types_of asks.now }
    requires joined { beside.now.joined
        ≡ added.is_joined scope.now refused.now.error.name asks.now }
    requires makers { AreOthers beside.now.makers scope.now.ancestors
        (added.factories scope.now.view beside.now.made) beside.now.types.items }
    requires named { beside.now.named.numbers.items
        ≡ names.types_named masked.now.list refused.now.error.name }
    requires family { beside.now.named.family
        ≡ added.family_of_name scope.now refused.now.error.name }
    requires table { IsTable scope.now.ancestors (numbered 0 masked.now.kinds)
        beside.now.types.items (table_of table.now) }
    ensures told { IfOk result (λ told. IfSome told (spec.IsTold masked.now.list masked.now.mask
        masked.now.kinds scope.now refused.now asks.now)) }
{
    let Some(rows) = table else {
        return Ok(None);
    };
    let name = refused.error.name.as_slice();
    let Some(sought) = sought_for(masked, name, asks, beside, taken) else {
        return Ok(None);
    };
    let rivals = rivals_of(beside, sought, asks);
    let verdicts = Verdicts::of(alloc, rows.as_slice(), rivals)?;
    let winners = winners_of(masked, &verdicts);
    Ok(Some(Told {
        sought,
        verdicts,
        winners,
    }))
}
