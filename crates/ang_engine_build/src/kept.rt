//! The view that a built module keeps.
ghost use Rattle.std.specs.Prelude.{◌≡◌, false, length, replicate, slice_index_or, IfOk};
ghost use Rattle.ang_view.specs.Only.{only};
ghost use Rattle.ang_typed.specs.View.{view_typed};
ghost use Rattle.ang_typed.specs.Uses.{marked, uses};
ghost use Rattle.ang_engine_build.specs.Narrowed.{narrowed};

use ang_typed::{Typed, mark_uses};
use ang_view::{View, kept_of};
use std::alloc::{AllocError, Global};

/// A mark for each entry that the module uses.
fn marks_of(alloc: Global, view: &View, module: &Typed) -> Result<Vec<bool>, AllocError>
    ensures exact { IfOk result (λ marks. marks.items
        ≡ marked (uses (view_typed module.now)) (replicate (length view.now) false)) }
{
    let mut marks = vec![in alloc; false; view.len()]?;
    mark_uses(&mut marks, module);
    Ok(marks)
}

/// Those entries of a view that are marked.
fn kept_by(alloc: Global, view: &View, marks: &Vec<bool>) -> Result<View, AllocError>
    ensures exact { IfOk result
        (λ kept. kept ≡ only (λ n. slice_index_or marks.now.items n false) view.now) }
{
    kept_of(alloc, view, marks.as_slice())
}

/// What a module uses of its view, as a view: every other entry is a blank.
///
/// The only error is want of memory.
pub fn narrow(alloc: Global, view: &View, module: &Typed) -> Result<View, AllocError>
    ensures exact { IfOk result (λ kept. kept ≡ narrowed view.now (view_typed module.now)) }
{
    let marks = marks_of(alloc, view, module)?;
    kept_by(alloc, view, &marks)
}
