//! The numbers of the kinds of all candidates' parameters.
ghost use Rattle.std.specs.Prelude.{◌≡◌, ◌++◌, ◌∷◌, ℕ, List, Option, IfOk, IfSome, OnOk, Some, slice_get, map as list_map};
ghost use Rattle.ang_types.specs.Overloads.{Params};
ghost use Rattle.ang_names_known.specs.Kinds as spec;
ghost use Rattle.ang_check_added.specs.Made.{params_in, params_made};
ghost use Rattle.ang_check_added.specs.Sets.{AreSets};

use crate::kind_sets::{KindSets, sets_of};
use ang_kinds::Pass;
use ang_names_known::{KindRows, KindTable};
use ang_types::{ArgType, Candidate};
use std::alloc::{AllocError, Global};

/// Kinds of parameters, and for each candidate the numbers of its parameters' kinds.
#[derive(Drop)]
pub struct Numbered {
    pub kinds: Vec<(ArgType, Pass)>,
    pub rows: KindRows,
    /// The candidates by count and kinds, unless there are too many of them.
    pub sets: Option<KindSets>,
}

/// The number of a kind, a new one where none is found. The only error is want of memory.
fn number_of(table: &mut KindTable, kind: &(ArgType, Pass)) -> Result<u32, AllocError>
    ensures keeps { OnOk result
        ((t : ℕ) → spec.Keeps (spec.numbered t table.old) (spec.numbered t table.new)) }
    ensures is { IfOk result (λ n. (t : ℕ) →
        slice_get (spec.numbered t table.new) n ≡ Some (kind.now.0, kind.now.1)) }
{
    let number = table.number(kind.0, kind.1)?;
    Ok(number)
}

/// Puts the numbers of the kinds of some parameters in after those that are there. The only error is want of memory.
fn push_numbers(
    table: &mut KindTable,
    params: &[(ArgType, Pass)],
    row: &mut Vec<u32>,
) -> Result<(), AllocError>
    ensures keeps { OnOk result
        ((t : ℕ) → spec.Keeps (spec.numbered t table.old) (spec.numbered t table.new)) }
    ensures pushed { OnOk result ((t : ℕ) (front : Params) →
        spec.kinds_at (spec.numbered t table.old) row.old.items ≡ list_map Some front →
        spec.kinds_at (spec.numbered t table.new) row.new.items
        ≡ list_map Some (front ++ params.now)) }
{
    for param in params {
        let number = number_of(table, param)?;
        row.push(number)?;
    }
    Ok(())
}

/// Puts the row of a candidate in at the end, or none where there is none.
fn push_row(
    table: &mut KindTable,
    rows: &mut KindRows,
    candidate: &Option<Candidate>,
    row: &mut Vec<u32>,
) -> Result<(), AllocError>
    ensures keeps { OnOk result
        ((t : ℕ) → spec.Keeps (spec.numbered t table.old) (spec.numbered t table.new)) }
    ensures pushed { OnOk result ((t : ℕ) (rest all : List (Option Params)) →
        spec.kinds_of (spec.numbered t table.old) rows.old
        ++ spec.told_of (params_in candidate.now ∷ rest) ≡ spec.told_of all →
        spec.kinds_of (spec.numbered t table.new) rows.new ++ spec.told_of rest
        ≡ spec.told_of all) }
{
    row.clear();
    match candidate {
        None => rows.leave_out(),
        Some(candidate) => {
            push_numbers(table, candidate.params.as_slice(), row)?;
            rows.push(row.as_slice())
        }
    }
}

/// The kinds of the parameters of these candidates, by numbers. The only error is want of memory.
pub fn number_kinds(alloc: Global, all: &[Option<Candidate>]) -> Result<Numbered, AllocError>
    ensures rows { IfOk result (λ n. spec.AreRows n.kinds.items n.rows
        (λ t. params_made all.now)) }
    ensures sets { IfOk result (λ n. IfSome n.sets (λ sets. AreSets n.rows sets)) }
{
    let mut table = KindTable::new(alloc, all.len())?;
    let mut rows = KindRows::new(alloc);
    let mut row = Vec::new(alloc);
    for candidate in all {
        push_row(&mut table, &mut rows, candidate, &mut row)?;
    }
    let kinds = table.into_kinds();
    let sets = sets_of(alloc, kinds.len(), &rows, all.len())?;
    Ok(Numbered { kinds, rows, sets })
}
