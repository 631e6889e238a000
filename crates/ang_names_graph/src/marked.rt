//! Marks of a row, gone through block by block.
ghost use Rattle.std.specs.Prelude.{ℕ, false, ◌≡◌, ◌+◌, ◌++◌, ◌<◌, ◌≤◌, ◌||◌, List, Bool, length, OnOk, slice_index_or};
ghost use Rattle.ang_names_graph.specs.Graphs.{numbers_below, some_below};
ghost use Rattle.ang_names_graph.specs.Marks as spec;

use std::alloc::AllocError;

/// How many entries of a row make a block.
const BLOCK: usize = 16;

/// Puts the places in at the end that are marked in a row and were not near before, rising, and marks them as near. A block of
/// the row in which nothing is marked takes one look.
pub(crate) fn push_marked(
    row: &[bool],
    near: &mut [bool],
    places: &mut Vec<usize>,
) -> Result<(), AllocError>
    requires size { length near.old ≡ length row.now }
    ensures size { length near.new ≡ length near.old }
    ensures pushed { OnOk result (places.new.items
        ≡ places.old.items ++ numbers_below (spec.is_new row.now near.old) (length row.now)) }
    ensures marked { OnOk result ((j : ℕ) → j < length row.now → slice_index_or near.new j false
        ≡ (slice_index_or near.old j false || slice_index_or row.now j false)) }
{
    let blocks = row.len() / BLOCK;
    for block in 0..blocks {
        push_block(row, near, places, block * BLOCK)?;
    }
    let start = blocks * BLOCK;
    push_from(row, near, places, start, row.len() - start)
}

/// Goes on by the block that begins at a place.
fn push_block(
    row: &[bool],
    near: &mut [bool],
    places: &mut Vec<usize>,
    start: usize,
) -> Result<(), AllocError>
    requires within { start + 16 ≤ length row.now }
    requires size { length near.old ≡ length row.now }
    ensures size { length near.new ≡ length near.old }
    ensures further { OnOk result ((was : List Bool) (front : List ℕ) →
        spec.IsPart row.now was front start near.old places.old.items →
        spec.IsPart row.now was front (start + 16) near.new places.new.items) }
{
    if has_mark(row, start, BLOCK) {
        push_from(row, near, places, start, BLOCK)
    } else {
        Ok(())
    }
}

/// Whether some of the entries from a place on are marked. It looks at each of them, so that the processor can take them all at
/// once.
#[inline(always)]
fn has_mark(row: &[bool], start: usize, count: usize) -> bool
    requires within { start + count ≤ length row.now }
    ensures exact { result ≡ some_below (λ k. slice_index_or row.now (start + k) false) count }
{
    let mut any = false;
    for k in 0..count {
        any = any | row[start + k];
    }
    any
}

/// Goes on by so many entries from a place on, one by one.
fn push_from(
    row: &[bool],
    near: &mut [bool],
    places: &mut Vec<usize>,
    start: usize,
    count: usize,
) -> Result<(), AllocError>
    requires within { start + count ≤ length row.now }
    requires size { length near.old ≡ length row.now }
    ensures size { length near.new ≡ length near.old }
    ensures further { OnOk result ((was : List Bool) (front : List ℕ) →
        spec.IsPart row.now was front start near.old places.old.items →
        spec.IsPart row.now was front (start + count) near.new places.new.items) }
{
    for k in 0..count {
        let j = start + k;
        if row[j] && !near[j] {
            near[j] = true;
            places.push(j)?;
        }
    }
    Ok(())
}
