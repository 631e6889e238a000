//! Instructions, written from the last one to the first.
//!
//! So the distance of a forward jump is known when it is written.
ghost use Rattle.std.specs.Prelude.{◌≡◌, ◌<◌, ◌^◌, List, ◌∷◌, ◌++◌, [], length, IfOk, OnOk, OnErr};
ghost use Rattle.ang_code.specs.declared.instruction.Instruction.{Instruction};
ghost use Rattle.ang_code.specs.declared.instruction.Instruction.TheVariants.{LoopBack};
ghost use Rattle.ang_gen.specs.Marks.{AreAmong};

use crate::marks::StatementMarks;
use ang_code::{Instruction, Mark};
use ang_kinds::Position;
use std::alloc::{AllocError, Global};
use std::marker::Model;

/// A body's instructions, of which the first ones are still to be written. Contracts see these alone; beside them
/// stands which of them are those of which statement.
#[derive(Drop)]
pub struct InstructionBuffer {
    reversed: Vec<Instruction>,
    marks: StatementMarks,
}

impl Model for InstructionBuffer {
    ghost use Rattle.std.specs.Prelude.{List, reverse};
    ghost use Rattle.ang_code.specs.declared.instruction.Instruction.{Instruction};

    ghost Value = { List Instruction };

    ghost view = { λ a. reverse a.reversed.items };
}

impl InstructionBuffer {
    /// The text that is empty so far, with room for that many instructions, of a body with that many statements.
    ///
    /// # Errors
    /// Want of memory: there is no room for them.
    pub fn with_room(
        alloc: Global,
        room: usize,
        statements: usize,
    ) -> Result<InstructionBuffer, AllocError>
        ensures empty { IfOk result (λ text. text ≡ []) }
        ensures room { IfOk result (λ text. room < 2 ^ 63) }
    {
        let reversed = Vec::with_capacity(alloc, room)?;
        let marks = StatementMarks::new(alloc, statements);
        Ok(InstructionBuffer { reversed, marks })
    }

    /// How many instructions it has.
    pub fn len(&self) -> usize
        ensures count { result ≡ length self.now }
    {
        self.reversed.len()
    }

    /// Writes one instruction before those that are there.
    ///
    /// # Errors
    /// Want of memory, which leaves the text as it was.
    pub fn put(&mut self, instruction: Instruction) -> Result<(), AllocError>
        ensures before { OnOk result (self.new ≡ instruction ∷ self.old) }
        ensures unchanged { OnErr result (self.new ≡ self.old) }
    {
        self.reversed.push(instruction)?;
        Ok(())
    }

    /// Makes the instruction that has `behind` instructions after it a jump back by `distance`. The
    /// others stay.
    pub fn set_back(&mut self, behind: usize, distance: usize)
        requires there { behind < length self.old }
        ensures set { (front rest : List Instruction) (i : Instruction) →
            self.old ≡ front ++ i ∷ rest → length rest ≡ behind
            → self.new ≡ front ++ LoopBack distance ∷ rest }
    {
        self.reversed[behind] = Instruction::LoopBack(distance);
    }

    /// Begins a statement, of which nothing is written. Gives the statement around it.
    ///
    /// # Errors
    /// Want of memory.
    pub fn begin_statement(&mut self) -> Result<Option<u32>, AllocError>
        ensures same { self.new ≡ self.old }
    {
        let written = self.reversed.len();
        self.marks.begin(written)
    }

    /// Ends a statement, of which all is written, and goes back to the one around it.
    ///
    /// # Errors
    /// Want of memory.
    pub fn end_statement(&mut self, outer: Option<u32>) -> Result<(), AllocError>
        ensures same { self.new ≡ self.old }
    {
        let written = self.reversed.len();
        self.marks.end(written, outer)
    }

    /// The instructions in their order, with room for no more, and which of them are those of which statement, where these are
    /// the statements' places.
    ///
    /// # Errors
    /// Want of memory.
    pub fn into_code(
        self,
        alloc: Global,
        positions: &[Position],
    ) -> Result<(Vec<Instruction>, Vec<Mark>), AllocError>
        ensures same { IfOk result (λ code. code.0.items ≡ self) }
        ensures among { IfOk result (λ code. AreAmong positions.now code.1.items) }
    {
        let InstructionBuffer {
            mut reversed,
            marks,
        } = self;
        let marks = marks.in_order(alloc, reversed.len(), positions)?;
        reversed.reverse();
        reversed.shrink_to_fit();
        Ok((reversed, marks))
    }
}
