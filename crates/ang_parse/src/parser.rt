//! Parsing a section.
ghost use Rattle.std.specs.Prelude.{◌≡◌, ◌≢◌, ◌^◌, ◌<◌, List, [], map, Result, Ok, Err, All, IfOk, IfErr, MatchOption, MatchResult};
ghost use Rattle.ang_kinds.specs.declared.place.Place.{Place};
ghost use Rattle.ang_tree.specs.Depth as depth;
ghost use Rattle.ang_tree.specs.Declarations.{Decl, SpellsScript};
ghost use Rattle.ang_tree.specs.View.{view_decl, view_script};
ghost use Rattle.ang_parse_read.specs.Gives.{Gives};
ghost use Rattle.ang_parse_read.specs.Law.{all_of};
ghost use Rattle.ang_parse.specs.Faults.{AreTokensOf, HasColumns, place_at};
ghost use Rattle.ang_parse.specs.Answers.{script_of, IfSyntax, IsSyntaxError};
ghost use Rattle.ang_parse.specs.ReadScript as read;

use crate::depth::too_deep;
use crate::error::ParseError;
use crate::fault::syntax_error;
use crate::script::script;
use ang_lex::Token;
use ang_parse_read::ReadError;
use ang_tree::{Declaration, Script};
use std::alloc::Global;

/// The declarations that the tokens spell, all of them.
#[tactic(auto, unfolding(ang_parse_read::specs::Law::all_of))]
fn all(alloc: Global, tokens: &[Token]) -> Result<Vec<Declaration>, ReadError<'_>>
    ensures reads { Gives (λ x. (map view_decl x.items, [])) result
        (all_of read.script tokens.now) }
{
    let (found, rest) = script(alloc, tokens, tokens.len() + 1)?;
    if !rest.is_empty() {
        return Err(ReadError::Syntax(rest));
    }
    Ok(found)
}

/// The declarations that the tokens spell, where they do not lie too deep.
#[tactic(auto, unfolding(crate::specs::Answers::script_of))]
fn declarations(
    alloc: Global,
    text: &[u8],
    tokens: &[Token],
) -> Result<Vec<Declaration>, ParseError>
    requires columns { All HasColumns tokens.now }
    ensures script { IfOk result (λ v. script_of text.now tokens.now ≡ Ok (map view_decl v.items)) }
    ensures fault { IfErr result (λ f. f ≢ ParseError.Memory →
        script_of text.now tokens.now ≡ Err f) }
    ensures deep { (rest : List Token) → depth.too_deep tokens.now ≡ Some rest →
        result ≡ Err (ParseError.TooDeep (place_at tokens.now rest)) }
{
    if let Some(place) = too_deep(tokens) {
        return Err(ParseError::TooDeep(place));
    }
    match all(alloc, tokens) {
        Ok(found) => Ok(found),
        Err(ReadError::Memory) => Err(ParseError::Memory),
        Err(ReadError::Syntax(rest)) => Err(syntax_error(alloc, text, tokens, rest)?),
        Err(ReadError::Deep) => unreachable!(),
    }
}

/// The script that the tokens of a section spell, by the grammar of docs/LANGUAGE.md.
///
/// `tokens` are those that `ang_lex::lex` gives for `text`, under any number of the section. The script
/// keeps a copy of `text`, in which a token's text is the slice at its span.
///
/// # Errors
///
/// `TooDeep` where more than 64 of `(` and `{` are open, or more than 256 operators, and words that
/// nest statements, stand since the last `;`, `{` or `}`: with the place of the first token after
/// which it is so. This is judged over all the tokens, before the grammar.
///
/// `Syntax` where no script has these tokens: with the place and the text of a token such that no
/// script's tokens begin with those up to and including it, or with the place one column past the last
/// token and an empty text.
///
/// `Memory` where memory runs out.
pub fn parse(alloc: Global, text: &[u8], tokens: &[Token]) -> Result<Script, ParseError>
    requires tokens { AreTokensOf text.now tokens.now }
    // What is read is spelled by the tokens.
    ensures found { IfOk result (λ s. SpellsScript (view_script s) tokens.now) }
    ensures source { IfOk result (λ s. s.source.items ≡ text.now) }
    // What is spelled by the tokens is read, unless memory runs out.
    ensures only { (ds : List Decl) → SpellsScript ds tokens.now →
        MatchResult result (λ s. view_script s ≡ ds) (λ f. f ≡ ParseError.Memory) }
    // Tokens that lie too deep are refused, at the first that does, and no others are.
    ensures deep { MatchOption (depth.too_deep tokens.now)
        ((place : Place) → result ≢ Err (ParseError.TooDeep place))
        (λ rest. result ≡ Err (ParseError.TooDeep (place_at tokens.now rest))) }
    // A syntax error comes only where no script has the tokens, nor others after the one it is at.
    ensures syntax { IfErr result (λ f. IfSyntax f (IsSyntaxError text.now tokens.now)) }
    // So the answer is a function of the tokens and their text, unless memory runs out.
    ensures script { IfOk result (λ s. script_of text.now tokens.now ≡ Ok (view_script s)) }
    ensures fault { IfErr result (λ f. f ≢ ParseError.Memory →
        script_of text.now tokens.now ≡ Err f) }
{
    let declarations = declarations(alloc, text, tokens)?;
    let source = Vec::from_slice(alloc, text)?;
    Ok(Script {
        source,
        declarations,
    })
}
