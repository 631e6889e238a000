//! Where the statements of core bodies stand, read off the resolved tree apart from their lowering.
ghost use Rattle.std.specs.Prelude.{◌≡◌, ◌++◌, ◌∷◌, [], replicate, IfOk, OnOk};
ghost use Rattle.ang_typed.specs.View.{view_block, view_for, view_stmt, view_stmts};
ghost use Rattle.ang_lower.specs.Positions as spec;

use ang_kinds::Position;
use ang_typed::{TypedBlock, TypedFor, TypedStatement};
use std::alloc::{AllocError, Global};

/// What is left of the places of a resolved body's statements, which are in the order of the text, and the places of the
/// core body's statements so far, each after those inside it.
#[derive(Drop)]
struct Positions<'a> {
    left: &'a [Position],
    found: Vec<Position>,
}

impl<'a> Positions<'a> {
    /// The next one of the resolved body, which is then gone; the beginning of the section where none is left.
    fn next(&mut self) -> Position
        ensures first { result ≡ spec.first self.old.left.now }
        ensures left { self.new.left.now ≡ spec.others self.old.left.now }
        ensures found { self.new.found.items ≡ self.old.found.items }
    {
        let left = self.left;
        match left {
            [first, rest @ ..] => {
                self.left = rest;
                *first
            }
            [] => Position { line: 0, column: 0 },
        }
    }

    /// One more statement of the core body stands there.
    fn put(&mut self, position: Position) -> Result<(), AllocError>
        ensures found { OnOk result
            (self.new.found.items ≡ self.old.found.items ++ (position ∷ [])) }
        ensures left { self.new.left.now ≡ self.old.left.now }
    {
        self.found.push(position)?;
        Ok(())
    }

    /// `count` more stand there.
    fn put_each(&mut self, position: Position, count: usize) -> Result<(), AllocError>
        ensures found { OnOk result
            (self.new.found.items ≡ self.old.found.items ++ replicate count position) }
        ensures left { OnOk result (self.new.left.now ≡ self.old.left.now) }
    {
        for _ in 0..count {
            self.put(position)?;
        }
        Ok(())
    }
}

/// Statements in turn.
#[cycle(inside)]
fn place_each(
    positions: &mut Positions<'_>,
    statements: &[TypedStatement],
) -> Result<(), AllocError>
    ensures found { OnOk result (positions.new.found.items ≡ positions.old.found.items
        ++ spec.core_of (view_stmts statements.now) positions.old.left.now) }
    ensures left { OnOk result (positions.new.left.now
        ≡ spec.behind (view_stmts statements.now) positions.old.left.now) }
{
    for statement in statements {
        place(positions, statement)?;
    }
    Ok(())
}

#[cycle(inside)]
fn place_block(positions: &mut Positions<'_>, block: &TypedBlock) -> Result<(), AllocError>
    ensures found { OnOk result (positions.new.found.items ≡ positions.old.found.items
        ++ spec.core_of (view_block block.now) positions.old.left.now) }
    ensures left { OnOk result (positions.new.left.now
        ≡ spec.behind (view_block block.now) positions.old.left.now) }
{
    place_each(positions, block.statements.as_slice())
}

/// A `for`, which stands for a block with its start, a loop and the loop's steps.
#[cycle(inside)]
fn place_for(
    positions: &mut Positions<'_>,
    here: Position,
    written: &TypedFor,
) -> Result<(), AllocError>
    ensures found { OnOk result (positions.new.found.items ≡ positions.old.found.items
        ++ spec.core_in (view_for written.now) here positions.old.left.now) }
    ensures left { OnOk result (positions.new.left.now
        ≡ spec.behind_inside (view_for written.now) positions.old.left.now) }
{
    place_each(positions, written.start.as_slice())?;
    place_block(positions, &written.body)?;
    positions.put_each(here, written.steps.len())?;
    positions.put(here)?;
    positions.put(here)
}

/// The core statements that stand for a statement. A declaration is one for each of its variables.
#[cycle(inside)]
fn place(positions: &mut Positions<'_>, statement: &TypedStatement) -> Result<(), AllocError>
    ensures found { OnOk result (positions.new.found.items ≡ positions.old.found.items
        ++ spec.core_in (view_stmt statement.now) (spec.first positions.old.left.now)
        (spec.others positions.old.left.now)) }
    ensures left { OnOk result (positions.new.left.now
        ≡ spec.behind_inside (view_stmt statement.now) (spec.others positions.old.left.now)) }
{
    let here = positions.next();
    match statement {
        TypedStatement::Locals(locals) => positions.put_each(here, locals.len()),
        TypedStatement::Block(inner) => {
            place_block(positions, inner)?;
            positions.put(here)
        }
        TypedStatement::If(choice) => {
            place_block(positions, &choice.then)?;
            place_block(positions, &choice.otherwise)?;
            positions.put(here)
        }
        TypedStatement::While(inner) => {
            place_block(positions, &inner.body)?;
            positions.put(here)
        }
        TypedStatement::DoWhile(inner) => {
            place_block(positions, &inner.body)?;
            positions.put(here)
        }
        TypedStatement::For(inner) => place_for(positions, here, inner),
        TypedStatement::Expression(_)
        | TypedStatement::Break
        | TypedStatement::Continue
        | TypedStatement::Return(_) => positions.put(here),
    }
}

/// Where the statements of the blocks of a core body stand that is lowered from this one: each after those inside it.
///
/// # Errors
/// Want of memory.
pub fn core_positions(
    alloc: Global,
    body: &TypedBlock,
    written: &[Position],
) -> Result<Vec<Position>, AllocError>
    ensures exact { IfOk result (λ v. v.items ≡ spec.core_of (view_block body.now) written.now) }
{
    let mut positions = Positions {
        left: written,
        found: Vec::new(alloc),
    };
    place_block(&mut positions, body)?;
    let Positions { left: _, found } = positions;
    Ok(found)
}
