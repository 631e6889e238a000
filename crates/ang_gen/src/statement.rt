//! The code of statements, written from its end.
ghost use Rattle.std.specs.Prelude.{◌≡◌, ◌+◌, ◌-◌, ◌≤◌, ◌<◌, ◌^◌, List, [], ◌∷◌, ◌++◌, length, OnOk};
ghost use Rattle.ang_code.specs.declared.instruction.Instruction.{Instruction};
ghost use Rattle.ang_code.specs.declared.instruction.Instruction.TheVariants.{LoopBack as BackBy, Jump as GoOnBy, JumpIfFalse as SkipBy};
ghost use Rattle.ang_core.specs.Sound.{declared};
ghost use Rattle.ang_gen.specs.Code.{expr_code, past_code, leave_code, block_code, stmt_code, while_code};
ghost use Rattle.ang_gen.specs.Peaks.{peak, statement_peak, statements_peak};
ghost use Rattle.ang_gen.specs.Rows.{statements_code, declared_in};

use crate::expression::write_expression;
use crate::text::InstructionBuffer;
use ang_code::Instruction;
use ang_core::{CoreExpression, CoreStatement};
use std::alloc::AllocError;

/// Where the statements that are being written can leave to. A place is the number of instructions that
/// stand after it.
#[derive(Clone, Copy)]
pub struct Exits {
    /// The body's parameters.
    pub params: usize,
    /// The locals alive at the loop.
    pub alive: usize,
    /// After the loop.
    pub exit: usize,
    /// At the loop's step.
    pub again: usize,
}

/// How many locals a statement leaves alive.
pub fn declared_by(s: &CoreStatement) -> usize
    ensures count { result ≡ declared s.now }
    ensures few { result ≤ 1 }
{
    match s {
        CoreStatement::Declare(_) => 1,
        CoreStatement::Skip => 0,
        CoreStatement::Evaluate(_) => 0,
        CoreStatement::Block(_) => 0,
        CoreStatement::If(_, _, _) => 0,
        CoreStatement::While(_, _, _) => 0,
        CoreStatement::DoWhile(_, _) => 0,
        CoreStatement::Return(_) => 0,
        CoreStatement::Break => 0,
        CoreStatement::Continue => 0,
    }
}

// The same of statements in turn.
fn declared_by_all(statements: &[CoreStatement]) -> usize
    ensures exact { result ≡ declared_in statements.now }
{
    let mut count = 0;
    for s in statements {
        count += declared_by(s);
    }
    count
}

// `n` locals are given up.
fn write_leave(text: &mut InstructionBuffer, n: usize) -> Result<(), AllocError>
    ensures code { OnOk result (text.new ≡ leave_code n ++ text.old) }
{
    if n > 0 {
        text.put(Instruction::Leave(n))?;
    }
    Ok(())
}

// A jump past `n` instructions, where there are any.
fn write_past(text: &mut InstructionBuffer, n: usize) -> Result<(), AllocError>
    ensures code { OnOk result (text.new ≡ past_code n ++ text.old) }
{
    if n > 0 {
        text.put(Instruction::Jump(n))?;
    }
    Ok(())
}

// A test, which passes what was written since the mark where it is false.
fn write_test(
    text: &mut InstructionBuffer,
    mark: usize,
    test: &CoreExpression,
) -> Result<(), AllocError>
    requires room { peak 0 test.now < 2 ^ 64 }
    requires mark { mark ≤ length text.old }
    ensures code { OnOk result (text.new ≡ expr_code 0 test.now
        ++ (SkipBy (length text.old - mark) ∷ text.old)) }
{
    let here = text.len();
    text.put(Instruction::JumpIfFalse(here - mark))?;
    write_expression(text, 0, test)
}

// The beginning of a loop whose body and step are written, in front of its jump back, which has `behind`
// instructions after it.
fn begin_loop(
    text: &mut InstructionBuffer,
    behind: usize,
    test: &CoreExpression,
) -> Result<(), AllocError>
    requires room { peak 0 test.now < 2 ^ 64 }
    requires behind { behind < length text.old }
    ensures code { (body step rest : List Instruction) →
        text.old ≡ body ++ (step ++ BackBy 0 ∷ rest) → length rest ≡ behind
        → OnOk result (text.new ≡ while_code (expr_code 0 test.now) body step ++ rest) }
    ensures longer { OnOk result (length text.new
        ≡ length text.old + length (expr_code 0 test.now) + 2) }
{
    write_test(text, behind, test)?;
    let start = text.len();
    text.set_back(behind, start - behind - 1);
    text.put(Instruction::Tick)
}

// The same of a loop without a step that goes to its body first.
fn begin_at_body(
    text: &mut InstructionBuffer,
    behind: usize,
    test: &CoreExpression,
) -> Result<(), AllocError>
    requires room { peak 0 test.now < 2 ^ 64 }
    requires behind { behind < length text.old }
    ensures code { (body rest : List Instruction) → text.old ≡ body ++ BackBy 0 ∷ rest →
        length rest ≡ behind
        → OnOk result (text.new ≡ GoOnBy (length (expr_code 0 test.now) + 2)
        ∷ (while_code (expr_code 0 test.now) body [] ++ rest)) }
{
    let body = text.len();
    begin_loop(text, behind, test)?;
    let start = text.len();
    text.put(Instruction::Jump(start - body))
}

// `n` locals are given up, and the run goes on where `behind` instructions stand after it.
fn write_way_out(text: &mut InstructionBuffer, n: usize, behind: usize) -> Result<(), AllocError>
    requires behind { behind ≤ length text.old }
    ensures code { OnOk result (text.new ≡ (leave_code n ++ GoOnBy (length text.old - behind) ∷ [])
        ++ text.old) }
{
    let here = text.len();
    text.put(Instruction::Jump(here - behind))?;
    write_leave(text, n)
}

// A block: a statement, and what gives up its locals.
#[cycle(statement)]
fn write_block(
    text: &mut InstructionBuffer,
    exits: Exits,
    locals: usize,
    s: &CoreStatement,
) -> Result<(), AllocError>
    requires room { statement_peak locals s.now < 2 ^ 64 }
    requires params { exits.params ≤ locals }
    requires alive { exits.alive ≤ locals }
    requires exit { exits.exit ≤ length text.old }
    requires again { exits.again ≤ length text.old }
    ensures code { OnOk result (text.new ≡ block_code (stmt_code exits.params locals exits.alive
        (length text.old - exits.exit + length (leave_code (declared s.now)))
        (length text.old - exits.again + length (leave_code (declared s.now))) s.now)
        (declared s.now) ++ text.old) }
{
    write_leave(text, declared_by(s))?;
    write_statement(text, exits, locals, s)
}

// A loop's step, which is a block that leaves no loop.
#[cycle(statement)]
fn write_step(
    text: &mut InstructionBuffer,
    params: usize,
    locals: usize,
    s: &CoreStatement,
) -> Result<(), AllocError>
    requires room { statement_peak locals s.now < 2 ^ 64 }
    requires within { params ≤ locals }
    ensures code { OnOk result (text.new ≡ block_code (stmt_code params locals 0 0 0 s.now)
        (declared s.now) ++ text.old) }
{
    write_leave(text, declared_by(s))?;
    let end = text.len();
    let exits = Exits {
        params,
        alive: 0,
        exit: end,
        again: end,
    };
    write_statement(text, exits, locals, s)
}

// A loop's body, in front of the loop's step. `behind` instructions stand after the loop.
#[cycle(statement)]
fn write_body(
    text: &mut InstructionBuffer,
    params: usize,
    locals: usize,
    behind: usize,
    s: &CoreStatement,
) -> Result<(), AllocError>
    requires room { statement_peak locals s.now < 2 ^ 64 }
    requires params { params ≤ locals }
    requires behind { behind ≤ length text.old }
    ensures code { OnOk result (text.new ≡ block_code (stmt_code params locals locals
        (length text.old - behind + length (leave_code (declared s.now)))
        (length (leave_code (declared s.now))) s.now) (declared s.now) ++ text.old) }
{
    let again = text.len();
    let exits = Exits {
        params,
        alive: locals,
        exit: behind,
        again,
    };
    write_block(text, exits, locals, s)
}

// A statement in a block, with the mark that its instructions are its own.
#[cycle(statement)]
fn write_item(
    text: &mut InstructionBuffer,
    exits: Exits,
    locals: usize,
    s: &CoreStatement,
) -> Result<(), AllocError>
    requires room { statement_peak locals s.now < 2 ^ 64 }
    requires params { exits.params ≤ locals }
    requires alive { exits.alive ≤ locals }
    requires exit { exits.exit ≤ length text.old }
    requires again { exits.again ≤ length text.old }
    ensures code { OnOk result (text.new ≡ stmt_code exits.params locals exits.alive
        (length text.old - exits.exit) (length text.old - exits.again) s.now ++ text.old) }
{
    let outer = text.begin_statement()?;
    write_statement(text, exits, locals, s)?;
    text.end_statement(outer)
}

// Statements in turn.
#[cycle(statement)]
fn write_row(
    text: &mut InstructionBuffer,
    exits: Exits,
    locals: usize,
    row: &[CoreStatement],
) -> Result<(), AllocError>
    requires room { statements_peak locals row.now < 2 ^ 64 }
    requires params { exits.params ≤ locals }
    requires alive { exits.alive ≤ locals }
    requires exit { exits.exit ≤ length text.old }
    requires again { exits.again ≤ length text.old }
    ensures code { OnOk result (text.new ≡ statements_code exits.params locals exits.alive
        (length text.old - exits.exit) (length text.old - exits.again) row.now ++ text.old) }
{
    let mut here = declared_by_all(row) + locals;
    for s in row.iter().rev() {
        here -= declared_by(s);
        write_item(text, exits, here, s)?;
    }
    Ok(())
}

/// Writes the code of a statement where `alive` locals are alive.
#[cycle(statement)]
pub fn write_statement(
    text: &mut InstructionBuffer,
    exits: Exits,
    locals: usize,
    s: &CoreStatement,
) -> Result<(), AllocError>
    requires room { statement_peak locals s.now < 2 ^ 64 }
    requires params { exits.params ≤ locals }
    requires alive { exits.alive ≤ locals }
    requires exit { exits.exit ≤ length text.old }
    requires again { exits.again ≤ length text.old }
    ensures code { OnOk result (text.new ≡ stmt_code exits.params locals exits.alive
        (length text.old - exits.exit) (length text.old - exits.again) s.now ++ text.old) }
{
    match s {
        CoreStatement::Skip => Ok(()),
        CoreStatement::Evaluate(e) => {
            text.put(Instruction::Drop)?;
            write_expression(text, 0, e)
        }
        CoreStatement::Declare(e) => write_expression(text, 0, e),
        CoreStatement::Block(row) => {
            write_leave(text, declared_by_all(row))?;
            write_row(text, exits, locals, row)
        }
        CoreStatement::If(test, one, two) => {
            let end = text.len();
            write_block(text, exits, locals, two)?;
            let second = text.len();
            write_past(text, second - end)?;
            write_block(text, exits, locals, one)?;
            write_test(text, second, test)
        }
        CoreStatement::While(test, body, step) => {
            let behind = text.len();
            text.put(Instruction::LoopBack(0))?;
            write_step(text, exits.params, locals, step)?;
            write_body(text, exits.params, locals, behind, body)?;
            begin_loop(text, behind, test)
        }
        CoreStatement::DoWhile(test, body) => {
            let behind = text.len();
            text.put(Instruction::LoopBack(0))?;
            write_body(text, exits.params, locals, behind, body)?;
            begin_at_body(text, behind, test)
        }
        CoreStatement::Return(e) => {
            text.put(Instruction::Return(locals - exits.params))?;
            write_expression(text, 0, e)
        }
        CoreStatement::Break => write_way_out(text, locals - exits.alive, exits.exit),
        CoreStatement::Continue => write_way_out(text, locals - exits.alive, exits.again),
    }
}
