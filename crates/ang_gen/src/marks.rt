//! Which instructions of a body are those of which of its statements. Contracts say of it that each mark stands where one of
//! the statements does.
//!
//! A body is written from its end, and so are its marks: an instruction is known by how many there are from it to the
//! end. An instruction is that of the innermost statement in whose code it stands. Until the body is written a statement is
//! known by its number in the list of their places.
ghost use Rattle.std.specs.Prelude.{IfOk, OnOk};
ghost use Rattle.ang_gen.specs.Marks.{AreAmong};

use ang_code::Mark;
use ang_kinds::Position;
use std::alloc::{AllocError, Global};

/// The number of the statement whose instructions begin so many from the body's end.
#[derive(Clone, Copy)]
struct EndMark {
    count: u32,
    statement: u32,
}

/// Whether instructions were written since the last mark.
fn has_grown(marks: &[EndMark], count: u32) -> bool {
    match marks.last() {
        None => true,
        Some(last) => last.count < count,
    }
}

/// Whether the last mark is that of the statement.
fn is_last(marks: &[EndMark], statement: u32) -> bool {
    match marks.last() {
        None => false,
        Some(last) => last.statement == statement,
    }
}

/// Marks the instructions since the last mark, which then stands at the first of them where it is that of the same
/// statement.
fn add_mark(marks: &mut Vec<EndMark>, mark: EndMark) -> Result<(), AllocError> {
    if is_last(marks.as_slice(), mark.statement) {
        let _ = marks.pop();
    }
    marks.push(mark)?;
    Ok(())
}

/// Marks the instructions since the last mark as those of the statement. Where there are none, or more than can be
/// counted, nothing is marked.
fn mark(
    marks: &mut Vec<EndMark>,
    written: usize,
    statement: Option<u32>,
) -> Result<(), AllocError> {
    let Ok(count) = u32::try_from(written) else {
        return Ok(());
    };
    match statement {
        None => Ok(()),
        Some(statement) => {
            if has_grown(marks.as_slice(), count) {
                add_mark(marks, EndMark { count, statement })?;
            }
            Ok(())
        }
    }
}

/// Whether the last mark stands there.
fn stands_at(marks: &[Mark], position: Position) -> bool {
    match marks.last() {
        None => false,
        Some(last) => {
            last.position.line == position.line && last.position.column == position.column
        }
    }
}

/// One mark more, of a statement that stands at one of these places, after those of the instructions before it. Those go on
/// where the statement before stands there too, and where there is no statement of that number.
///
/// # Errors
/// Want of memory.
fn add_placed(
    found: &mut Vec<Mark>,
    positions: &[Position],
    at: u32,
    statement: u32,
) -> Result<(), AllocError>
    ensures among { OnOk result (AreAmong positions.now found.old.items
        → AreAmong positions.now found.new.items) }
{
    let Some(position) = positions.get(statement as usize) else {
        return Ok(());
    };
    if stands_at(found.as_slice(), *position) {
        return Ok(());
    }
    found.push(Mark {
        at,
        position: *position,
    })?;
    Ok(())
}

/// Which instructions are those of which statement, as far as they are written.
#[derive(Drop)]
pub struct StatementMarks {
    marks: Vec<EndMark>,
    // how many statements are not begun: the first ones, of which the last is the next
    left: u32,
    // the statement that is being written
    statement: Option<u32>,
}

impl StatementMarks {
    /// Nothing is written of that number of statements, each of which is listed after those inside it. It takes no memory.
    pub fn new(alloc: Global, statements: usize) -> StatementMarks {
        StatementMarks {
            marks: Vec::new(alloc),
            left: u32::try_from(statements).unwrap_or(0),
            statement: None,
        }
    }

    /// A statement begins, at its end, where so many instructions are written: what is behind it is of the statement
    /// around it, which is the result. Of a body without places each statement is part of the one around it.
    ///
    /// # Errors
    /// Want of memory.
    pub fn begin(&mut self, written: usize) -> Result<Option<u32>, AllocError> {
        let outer = self.statement;
        mark(&mut self.marks, written, outer)?;
        self.statement = match self.left.checked_sub(1) {
            None => outer,
            Some(number) => {
                self.left = number;
                Some(number)
            }
        };
        Ok(outer)
    }

    /// The statement that was begun last is written.
    ///
    /// # Errors
    /// Want of memory.
    pub fn end(&mut self, written: usize, outer: Option<u32>) -> Result<(), AllocError> {
        mark(&mut self.marks, written, self.statement)?;
        self.statement = outer;
        Ok(())
    }

    /// The marks in the order of the body's instructions, `written` in all, whose statements stand at these places. It has room
    /// for no more.
    ///
    /// # Errors
    /// Want of memory.
    pub fn in_order(
        self,
        alloc: Global,
        written: usize,
        positions: &[Position],
    ) -> Result<Vec<Mark>, AllocError>
        ensures among { IfOk result (λ marks. AreAmong positions.now marks.items) }
    {
        let all = match u32::try_from(written) {
            Ok(all) => all,
            Err(_) => u32::MAX,
        };
        let mut found = Vec::with_capacity(alloc, self.marks.len())?;
        for mark in self.marks.iter().rev() {
            let at = all.saturating_sub(mark.count);
            add_placed(&mut found, positions, at, mark.statement)?;
        }
        found.shrink_to_fit();
        Ok(found)
    }
}
