//! Laws on the definitions that the lexer's contract cites.
ghost use Rattle.std.specs.Prelude.{◌≡◌, ◌↔◌, ℕ, List, Ok, Err};
ghost use Rattle.ang_lex.specs.declared.error.LexError.{LexError};
ghost use Rattle.ang_lex.specs.declared.token.Token.{Token};
ghost use Rattle.ang_lex.specs.Cuts.{IsSection, IsFirstFault};
ghost use Rattle.ang_lex.specs.Tokens.{tokens_of};

/// What `lex` computes is what the manual says: the tokens of a section are the spans that it is cut
/// into, with gaps between them, and its fault is the first one in it. So a section has one list of
/// tokens, or one first fault, and never both.
pub fn one_reading()
    ensures tokens { (sect : ℕ) (text : List ℕ) (ts : List Token) →
        (tokens_of sect text ≡ Ok ts) ↔ IsSection sect text ts }
    ensures fault { (sect : ℕ) (text : List ℕ) (e : LexError) →
        (tokens_of sect text ≡ Err e) ↔ IsFirstFault sect text e }
{}
