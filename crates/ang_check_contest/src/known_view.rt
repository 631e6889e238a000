//! What a module sees of the host, with the numbers of the kinds of its functions' parameters.
ghost use Rattle.std.specs.Prelude.{◌≡◌, ◌++◌, ◌∷◌, [], ℕ, List, Option, IfOk, OnOk, Some, map as list_map, option_map};
ghost use Rattle.ang_types.specs.Overloads.{Params};
ghost use Rattle.ang_view.specs.Registration.{entry_at};
ghost use Rattle.ang_check_contest.specs.Host as host;
ghost use Rattle.ang_names_known.specs.Kinds as spec;
ghost use Rattle.ang_check_contest.specs.EntryKinds as seen;

use crate::host::host_type;
use ang_kinds::{EntityNo, Param, Pass};
use ang_names_known::{KindRows, KindTable, receiver_number};
use ang_types::ArgType;
use ang_view::{Entry, EntryKind, View};
use std::alloc::{AllocError, Global};
use std::marker::Model;

/// What a module sees of the host. Beside it stand the numbers of the kinds of the parameters of each function, factory and
/// method. Contracts see what the module sees.
#[derive(Drop)]
pub struct KnownView<'a> {
    view: &'a View,
    kinds: Vec<(ArgType, Pass)>,
    rows: KindRows,
}

impl<'a> Model for KnownView<'a> {
    ghost use Rattle.ang_names_known.specs.Kinds.{AreRows};
    ghost use Rattle.ang_check_contest.specs.EntryKinds.{view_params};
    ghost use Rattle.ang_view.specs.Registration.{RegistrationList};

    ghost Value = { RegistrationList };

    ghost view = { λ k. k.view.now };

    ghost invariant = { λ k. AreRows k.kinds.items k.rows (view_params k.view.now) };
}

/// The entries of a view, and for each the numbers of its parameters' kinds.
#[derive(Drop)]
pub struct KnownEntries<'a> {
    view: &'a View,
    kinds: &'a [(ArgType, Pass)],
    rows: &'a KindRows,
}

impl<'a> Model for KnownEntries<'a> {
    ghost use Rattle.ang_names_known.specs.Kinds.{AreRows};
    ghost use Rattle.ang_check_contest.specs.EntryKinds.{view_params};
    ghost use Rattle.ang_check_contest.specs.EntryKinds as seen;

    ghost Value = { seen.KnownEntries };

    ghost view = { λ k. record { view = k.view.now; kinds = k.kinds.now } };

    ghost invariant = { λ k. AreRows k.kinds.now k.rows.now (view_params k.view.now) };
}

/// Puts the number of an entry's receiver in, if it has one; whether the entry can be called at all.
///
/// The only error is want of memory.
fn push_receiver(entry: &Entry, row: &mut Vec<u32>) -> Result<bool, AllocError>
    requires empty { row.old.items ≡ [] }
    ensures pushed { IfOk result (λ all. seen.row_if all row.new.items
        ≡ seen.receiver_row entry.now.kind entry.now.signature.read_only) }
{
    match entry.kind {
        EntryKind::Function | EntryKind::Factory => Ok(true),
        EntryKind::Method => {
            row.push(receiver_number(entry.signature.read_only))?;
            Ok(true)
        }
        EntryKind::HostType
        | EntryKind::Property
        | EntryKind::Global
        | EntryKind::Enumeration
        | EntryKind::EnumValue(_) => Ok(false),
    }
}

/// Puts the numbers of the kinds of some parameters in after those that are there, up to the first of which the type is not
/// seen; whether all are.
///
/// The only error is want of memory.
fn push_seen(
    view: &View,
    table: &mut KindTable,
    params: &[Param],
    row: &mut Vec<u32>,
) -> Result<bool, AllocError>
    ensures keeps { OnOk result
        ((t : ℕ) → spec.Keeps (spec.numbered t table.old) (spec.numbered t table.new)) }
    ensures pushed { IfOk result (λ all. (t : ℕ) (front : Params) →
        spec.kinds_at (spec.numbered t table.old) row.old.items ≡ list_map Some front →
        seen.SaysIf all (spec.numbered t table.new) row.new.items
        (seen.after front (host.host_parameters view.now params.now))) }
{
    for param in params {
        let Some(ty) = host_type(view, &param.ty) else {
            return Ok(false);
        };
        let number = table.number(ty, param.pass)?;
        row.push(number)?;
    }
    Ok(true)
}

/// Puts the numbers of the kinds of an entry's parameters in; whether it can be called, and all of its types are seen.
fn push_entry(
    view: &View,
    table: &mut KindTable,
    entry: &Entry,
    row: &mut Vec<u32>,
) -> Result<bool, AllocError>
    requires empty { row.old.items ≡ [] }
    ensures keeps { OnOk result
        ((t : ℕ) → spec.Keeps (spec.numbered t table.old) (spec.numbered t table.new)) }
    ensures pushed { IfOk result (λ all. (t : ℕ) →
        seen.SaysIf all (spec.numbered t table.new) row.new.items
        (seen.entry_params view.now t (Some entry.now))) }
{
    if !push_receiver(entry, row)? {
        return Ok(false);
    }
    if host_type(view, &entry.signature.result).is_none() {
        return Ok(false);
    }
    push_seen(view, table, entry.signature.params.as_slice(), row)
}

/// Puts the row of an entry in at the end, or none.
fn push_row(
    view: &View,
    table: &mut KindTable,
    rows: &mut KindRows,
    entry: &Option<Entry>,
    row: &mut Vec<u32>,
) -> Result<(), AllocError>
    ensures keeps { OnOk result
        ((t : ℕ) → spec.Keeps (spec.numbered t table.old) (spec.numbered t table.new)) }
    ensures pushed { OnOk result ((t : ℕ) (rest all : List (Option Params)) →
        spec.kinds_of (spec.numbered t table.old) rows.old
        ++ spec.told_of (seen.entry_params view.now t entry.now ∷ rest)
        ≡ spec.told_of all →
        spec.kinds_of (spec.numbered t table.new) rows.new ++ spec.told_of rest
        ≡ spec.told_of all) }
{
    row.clear();
    let Some(entry) = entry else {
        return rows.leave_out();
    };
    if push_entry(view, table, entry, row)? {
        rows.push(row.as_slice())
    } else {
        rows.leave_out()
    }
}

impl<'a> KnownView<'a> {
    /// A view, with the numbers of its parameters' kinds.
    ///
    /// The only error is want of memory.
    pub fn new(alloc: Global, view: &'a View) -> Result<KnownView<'a>, AllocError>
        ensures same { IfOk result (λ known. known ≡ view.now) }
    {
        let entries = view.entries();
        let mut table = KindTable::new(alloc, entries.len())?;
        let mut rows = KindRows::new(alloc);
        let mut row = Vec::new(alloc);
        for entry in entries {
            push_row(view, &mut table, &mut rows, entry, &mut row)?;
        }
        Ok(KnownView {
            view,
            kinds: table.into_kinds(),
            rows,
        })
    }

    /// What the module sees.
    pub fn view(&self) -> &'a View
        ensures same { result.now ≡ self.now }
    {
        self.view
    }

    /// The entries, with their numbers.
    pub fn known_entries(&'a self) -> KnownEntries<'a>
        ensures view { result.view ≡ self.now }
    {
        KnownEntries {
            view: self.view,
            kinds: self.kinds.as_slice(),
            rows: &self.rows,
        }
    }
}

impl<'a> KnownEntries<'a> {
    /// The kinds, in the order of their numbers.
    pub fn kinds(&self) -> &'a [(ArgType, Pass)]
        ensures same { result.now ≡ self.now.kinds }
    {
        self.kinds
    }

    /// The numbers of the kinds of an entry's parameters, if it can be called and all of its types are seen. A method's receiver
    /// is the first. It takes no memory.
    #[inline(always)]
    pub fn row(&self, number: EntityNo) -> Option<&[u32]>
        ensures says { (t : ℕ) → spec.Says t self.now.kinds (option_map (λ row. row.now) result)
            (seen.entry_params self.now.view t (entry_at self.now.view number.0)) }
    {
        self.rows.row(number.0 as usize)
    }
}
