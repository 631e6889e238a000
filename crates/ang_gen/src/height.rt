//! How high the stack stands at most while a body runs. Nothing is answered where it can't be counted.
ghost use Rattle.std.specs.Prelude.{◌≡◌, ◌+◌, IfSome};
ghost use Rattle.ang_gen.specs.Peaks.{peak, list_peak, statement_peak, statements_peak};

use crate::room::higher;
use crate::statement::declared_by;
use ang_core::{CoreExpression, CoreStatement};

/// The greatest number of values in the frame while an expression is evaluated, where `below` stand there
/// already.
#[cycle(peak)]
pub fn expression_peak(below: usize, e: &CoreExpression) -> Option<usize>
    ensures exact { IfSome result (λ n. n ≡ peak below e.now) }
{
    match e {
        CoreExpression::Number(_) => higher(below, 1),
        CoreExpression::Null => higher(below, 1),
        CoreExpression::Local(_) => higher(below, 1),
        CoreExpression::Assign(_, value) => expression_peak(below, value),
        CoreExpression::Update(_, _, value) => expression_peak(below, value),
        CoreExpression::Apply(_, operands) => {
            let own = higher(below, 1)?;
            let inner = operands_peak(below, operands)?;
            Some(own.max(inner))
        }
        CoreExpression::Call(_, operands, targets) => {
            let outs = higher(targets.len(), below)?;
            let own = higher(outs, 1)?;
            let inner = operands_peak(below, operands)?;
            Some(own.max(inner))
        }
        CoreExpression::Choose(test, one, two) => {
            let test = expression_peak(below, test)?;
            let one = expression_peak(below, one)?;
            let two = expression_peak(below, two)?;
            Some(test.max(one.max(two)))
        }
    }
}

// The same of operands, each above the values of those before it.
#[cycle(peak)]
fn operands_peak(below: usize, operands: &[CoreExpression]) -> Option<usize>
    ensures exact { IfSome result (λ n. n ≡ list_peak below operands.now) }
{
    let mut highest = 0;
    let mut next = below;
    for e in operands {
        highest = highest.max(expression_peak(next, e)?);
        next = higher(next, 1)?;
    }
    Some(highest)
}

/// The greatest number of values in the frame while a statement runs, where `alive` locals stand there
/// already.
#[cycle(rise)]
pub fn statement_peak(alive: usize, s: &CoreStatement) -> Option<usize>
    ensures exact { IfSome result (λ n. n ≡ statement_peak alive s.now) }
{
    match s {
        CoreStatement::Skip => Some(0),
        CoreStatement::Evaluate(e) => expression_peak(alive, e),
        CoreStatement::Declare(e) => expression_peak(alive, e),
        CoreStatement::Block(row) => row_peak(alive, row),
        CoreStatement::If(test, one, two) => {
            let test = expression_peak(alive, test)?;
            let one = statement_peak(alive, one)?;
            let two = statement_peak(alive, two)?;
            Some(test.max(one.max(two)))
        }
        CoreStatement::While(test, body, step) => {
            let test = expression_peak(alive, test)?;
            let body = statement_peak(alive, body)?;
            let step = statement_peak(alive, step)?;
            Some(test.max(body.max(step)))
        }
        CoreStatement::DoWhile(test, body) => {
            let test = expression_peak(alive, test)?;
            let body = statement_peak(alive, body)?;
            Some(test.max(body))
        }
        CoreStatement::Return(e) => expression_peak(alive, e),
        CoreStatement::Break => Some(0),
        CoreStatement::Continue => Some(0),
    }
}

// The same of statements in turn, each with the locals of those before it.
#[cycle(rise)]
fn row_peak(alive: usize, row: &[CoreStatement]) -> Option<usize>
    ensures exact { IfSome result (λ n. n ≡ statements_peak alive row.now) }
{
    let mut highest = 0;
    let mut here = alive;
    for s in row {
        highest = highest.max(statement_peak(here, s)?);
        here = higher(declared_by(s), here)?;
    }
    Some(highest)
}
