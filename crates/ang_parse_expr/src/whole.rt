//! Parsing all of a list of tokens as one expression.
ghost use Rattle.std.specs.Prelude.{◌≡◌, List, [], IfOk, IfErr, Ok};
ghost use Rattle.ang_lex.specs.declared.token.Token.{Token};
ghost use Rattle.ang_parse_read.specs.Gives.{Gives};
ghost use Rattle.ang_parse_read.specs.Law.{Faulty, all_of};
ghost use Rattle.ang_tree.specs.Tree.{Tree, Spells};
ghost use Rattle.ang_tree.specs.View.{view_expr};
ghost use Rattle.ang_parse_expr.specs.ReadExpr as read;

use crate::expr::expression;
use ang_lex::Token;
use ang_parse_read::ReadError;
use ang_tree::Expression;
use std::alloc::Global;

#[tactic(auto, unfolding(ang_parse_read::specs::Law::all_of))]
fn all(alloc: Global, tokens: &[Token]) -> Result<Expression, ReadError<'_>>
    ensures reads { Gives (λ x. (view_expr x, [])) result (all_of (λ n. read.expr n 0) tokens.now) }
{
    let (found, rest) = expression(alloc, tokens, tokens.len() + 1, 0)?;
    if !rest.is_empty() {
        drop(found);
        return Err(ReadError::Syntax(rest));
    }
    Ok(found)
}

/// The expression that the tokens spell, all of them, by the grammar of docs/LANGUAGE.md.
///
/// # Errors
///
/// `Syntax` where no expression spells the tokens: with those from the first that cannot stand there,
/// so that no list that an expression spells begins with the tokens up to and including it.
/// `Memory` where memory runs out. `Deep` never comes.
pub fn parse_expression(alloc: Global, tokens: &[Token]) -> Result<Expression, ReadError<'_>>
    // What is read is spelled so.
    ensures found { IfOk result (λ x. Spells (view_expr x) tokens.now) }
    // What is spelled so is read, unless memory runs out.
    ensures only { (x : Tree) → Spells x tokens.now →
        Gives (λ x. (view_expr x, [])) result (Ok (x, [])) }
    // Where nothing is read, no tree spells the tokens.
    ensures fault { IfErr result (λ f. Faulty Spells tokens.now f) }
{
    all(alloc, tokens)
}

/// No tokens are spelled by two expressions.
pub fn one_tree()
    ensures unique { (x y : Tree) (tokens : List Token) → Spells x tokens → Spells y tokens →
        x ≡ y }
{}
