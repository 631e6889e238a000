//! Parsing all of a list of tokens as parameters.
ghost use Rattle.std.specs.Prelude.{◌≡◌, List, [], IfOk, IfErr, Ok};
ghost use Rattle.ang_lex.specs.declared.token.Token.{Token};
ghost use Rattle.ang_parse_read.specs.Gives.{Gives};
ghost use Rattle.ang_parse_read.specs.Law.{Faulty, all_of};
ghost use Rattle.ang_tree.specs.Declarations.{Params};
ghost use Rattle.ang_tree.specs.View.{view_params};
ghost use Rattle.ang_parse_stmt.specs.Params.{SpellsParams};
ghost use Rattle.ang_parse_stmt.specs.ReadParams as read;

use crate::params::a_parameters;
use ang_lex::Token;
use ang_parse_read::ReadError;
use ang_tree::Parameters;
use std::alloc::Global;

#[tactic(auto, unfolding(ang_parse_read::specs::Law::all_of))]
fn all(alloc: Global, tokens: &[Token]) -> Result<Parameters, ReadError<'_>>
    ensures reads { Gives (λ x. (view_params x, [])) result (all_of read.a_params tokens.now) }
{
    let (found, rest) = a_parameters(alloc, tokens, tokens.len() + 1)?;
    if !rest.is_empty() {
        return Err(ReadError::Syntax(rest));
    }
    Ok(found)
}

/// The parameters that the tokens spell, all of them, by the grammar of docs/LANGUAGE.md.
///
/// # Errors
///
/// `Syntax` where no parameters spell the tokens: with those from the first that cannot stand there,
/// so that no list that parameters spell begins with the tokens up to and including it.
/// `Memory` where memory runs out. `Deep` never comes.
pub fn parse_parameters(alloc: Global, tokens: &[Token]) -> Result<Parameters, ReadError<'_>>
    // What is read is spelled so.
    ensures found { IfOk result (λ x. SpellsParams (view_params x) tokens.now) }
    // What is spelled so is read, unless memory runs out.
    ensures only { (x : Params) → SpellsParams x tokens.now →
        Gives (λ x. (view_params x, [])) result (Ok (x, [])) }
    // Where nothing is read, no tree spells the tokens.
    ensures fault { IfErr result (λ f. Faulty SpellsParams tokens.now f) }
{
    all(alloc, tokens)
}

/// No tokens are spelled by two lists of parameters.
pub fn one_tree()
    ensures unique { (x y : Params) (tokens : List Token) → SpellsParams x tokens →
        SpellsParams y tokens → x ≡ y }
{}
