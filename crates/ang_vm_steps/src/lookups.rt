//! What a run has to know of a body that it begins with, and of the value that a body gives.
ghost use Rattle.std.specs.Prelude.{◌≡◌};
ghost use Rattle.ang_code.specs.Weight.{left_in};
ghost use Rattle.ang_vm_stack.specs.Tables.{result_of, texts_of};

use ang_kinds::Prim;
use ang_meaning::Routine;
use ang_vm_stack::table::{Table, body_at};

/// How many values a body puts above its parameters at most; 0 where there is no such body.
pub fn height_at(table: &Table, body: Routine) -> usize
    ensures exact { result ≡ (texts_of table.now).height body }
{
    match body_at(table, body) {
        Some(code) => code.height(),
        None => 0,
    }
}

/// The primitive type of a body's value, where there is such a body and its value is of one.
pub fn result_type(table: &Table, body: Routine) -> Option<Prim>
    ensures exact { result ≡ result_of table.now body }
{
    body_at(table, body)?.result()
}

/// The instructions of a body from a place on; none where there is no such body.
pub fn left_from(table: &Table, body: Routine, at: usize) -> usize
    ensures exact { result ≡ left_in (texts_of table.now) body at }
{
    match body_at(table, body) {
        Some(code) => code.text().len().saturating_sub(at),
        None => 0,
    }
}
