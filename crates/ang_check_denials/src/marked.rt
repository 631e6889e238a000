//! Numbers that are marked, and what comes with some entries, as it is marked where they don't come alone.
ghost use Rattle.std.specs.Prelude.{◌≡◌, ◌∷◌, [], false, filter, length, replicate, slice_index_or, IfOk};
ghost use Rattle.std.specs.List.{range_with_len};
ghost use Rattle.ang_typed.specs.Marked.{each_marks};
ghost use Rattle.ang_typed.specs.Uses.{marked};
ghost use Rattle.ang_check_added.specs.Brought.{brought};
ghost use Rattle.ang_check_added.specs.Brought as spec;

use crate::masked::Masked;
use ang_check_added::push_kept;
use std::alloc::{AllocError, Global};

/// Whether each of these entries comes alone.
pub fn are_alone(masked: &Masked<'_>, numbers: &[u32]) -> bool
    ensures exact { result ≡ spec.are_alone masked.now.list masked.now.mask numbers.now }
{
    for number in numbers {
        if !masked.is_alone(*number) {
            return false;
        }
    }
    true
}

/// Marks a number, where it is within the marks.
fn mark(marks: &mut Vec<bool>, number: u32)
    ensures exact { marks.new.items ≡ marked (number ∷ []) marks.old.items }
{
    let place = number as usize;
    if place < marks.len() {
        marks[place] = true;
    }
}

fn mark_all(marks: &mut Vec<bool>, numbers: &[u32])
    ensures exact { marks.new.items ≡ marked numbers.now marks.old.items }
{
    for number in numbers {
        mark(marks, *number);
    }
}

/// Marks what comes with these entries.
fn mark_brought(marks: &mut Vec<bool>, masked: &Masked<'_>, entries: &[u32])
    ensures exact { marks.new.items ≡ each_marks
        (λ x. marked (brought masked.now.list masked.now.mask x)) entries.now marks.old.items }
{
    for entry in entries {
        mark_all(marks, masked.brought(*entry));
    }
}

/// A mark for each entry of the list that comes with one of these and whose own mask does not meet the module's. The only
/// error is want of memory.
pub fn marks_of(
    alloc: Global,
    masked: &Masked<'_>,
    entries: &[u32],
) -> Result<Vec<bool>, AllocError>
    ensures exact { IfOk result (λ marks. marks.items ≡ each_marks
        (λ x. marked (brought masked.now.list masked.now.mask x)) entries.now
        (replicate (length masked.now.list) false)) }
{
    let mut marks = vec![in alloc; false; masked.len() as usize]?;
    mark_brought(&mut marks, masked, entries);
    Ok(marks)
}

/// Whether a number is marked.
pub fn is_marked(marks: &[bool], number: u32) -> bool
    ensures exact { result ≡ slice_index_or marks.now number false }
{
    match marks.get(number as usize) {
        None => false,
        Some(mark) => *mark,
    }
}

/// The numbers below a count that are marked, rising. The only error is want of memory.
pub fn numbers_marked(alloc: Global, marks: &[bool], count: u32) -> Result<Vec<u32>, AllocError>
    ensures exact { IfOk result (λ numbers. numbers.items
        ≡ filter (λ y. slice_index_or marks.now y false) (range_with_len 0 count)) }
{
    let mut numbers = Vec::new(alloc);
    for number in 0..count {
        push_kept(&mut numbers, is_marked(marks, number), number)?;
    }
    Ok(numbers)
}
