//! Parsing all of a list of tokens as one statement.
ghost use Rattle.std.specs.Prelude.{◌≡◌, List, [], IfOk, IfErr, Ok};
ghost use Rattle.ang_lex.specs.declared.token.Token.{Token};
ghost use Rattle.ang_parse_read.specs.Gives.{Gives};
ghost use Rattle.ang_parse_read.specs.Law.{Faulty, all_of, finish};
ghost use Rattle.ang_tree.specs.Stmt.{Stmt, SpellsStmt};
ghost use Rattle.ang_tree.specs.View.{view_stmt};
ghost use Rattle.ang_parse_stmt.specs.ReadStmt as read;

use crate::stmt::statement;
use ang_lex::Token;
use ang_parse_read::ReadError;
use ang_tree::Statement;
use std::alloc::Global;

/// What was read, where no tokens are left after it.
fn finished(found: Statement, rest: &[Token]) -> Result<Statement, ReadError<'_>>
    ensures reads { Gives (λ x. (view_stmt x, [])) result (finish (view_stmt found) rest.now) }
{
    if !rest.is_empty() {
        drop(found);
        return Err(ReadError::Syntax(rest));
    }
    Ok(found)
}

#[tactic(auto, unfolding(ang_parse_read::specs::Law::all_of))]
fn all(alloc: Global, tokens: &[Token]) -> Result<Statement, ReadError<'_>>
    ensures reads { Gives (λ x. (view_stmt x, [])) result (all_of (λ n. read.stmt n n) tokens.now) }
{
    let bound = tokens.len() + 1;
    let (found, rest) = statement(alloc, tokens, bound, bound)?;
    finished(found, rest)
}

/// The statement that the tokens spell, all of them, by the grammar of docs/LANGUAGE.md.
///
/// # Errors
///
/// `Syntax` where no statement spells the tokens: with those from the first that cannot stand there,
/// so that no list that a statement spells begins with the tokens up to and including it.
/// `Memory` where memory runs out. `Deep` never comes.
pub fn parse_statement(alloc: Global, tokens: &[Token]) -> Result<Statement, ReadError<'_>>
    // What is read is spelled so.
    ensures found { IfOk result (λ x. SpellsStmt (view_stmt x) tokens.now) }
    // What is spelled so is read, unless memory runs out.
    ensures only { (x : Stmt) → SpellsStmt x tokens.now →
        Gives (λ x. (view_stmt x, [])) result (Ok (x, [])) }
    // Where nothing is read, no tree spells the tokens.
    ensures fault { IfErr result (λ f. Faulty SpellsStmt tokens.now f) }
{
    all(alloc, tokens)
}

/// No tokens are spelled by two statements.
pub fn one_tree()
    ensures unique { (x y : Stmt) (tokens : List Token) → SpellsStmt x tokens →
        SpellsStmt y tokens → x ≡ y }
{}
