//! Laws on the definitions that the parser's contract cites.
ghost use Rattle.std.specs.Prelude.{◌≡◌, ◌≢◌, ◌↔◌, ℕ, List, Some, None, Ok, Err};
ghost use Rattle.ang_kinds.specs.declared.place.Place.{Place};
ghost use Rattle.ang_lex.specs.declared.token.Token.{Token};
ghost use Rattle.ang_tree.specs.Depth.{too_deep};
ghost use Rattle.ang_tree.specs.Declarations.{Decl, SpellsScript};
ghost use Rattle.ang_parse.specs.declared.error.ParseError.TheVariants as error;
ghost use Rattle.ang_parse.specs.Faults.{place_at};
ghost use Rattle.ang_parse.specs.Answers.{script_of, IsSyntaxError};

/// No tokens are spelled by two scripts.
pub fn one_script()
    ensures unique { (x y : List Decl) (tokens : List Token) → SpellsScript x tokens →
        SpellsScript y tokens → x ≡ y }
{}

/// What `script_of` computes is what the grammar says: the script that the tokens spell, if there is
/// one; the place where they lie too deep, if they do; and else the place of a syntax error.
pub fn one_answer()
    ensures script { (text : List ℕ) (tokens : List Token) (ds : List Decl) →
        (script_of text tokens ≡ Ok ds) ↔ SpellsScript ds tokens }
    ensures deep { (text : List ℕ) (tokens rest : List Token) → too_deep tokens ≡ Some rest →
        script_of text tokens ≡ Err (error.TooDeep (place_at tokens rest)) }
    ensures deep_only { (text : List ℕ) (tokens : List Token) (place : Place) →
        too_deep tokens ≡ None →
        script_of text tokens ≢ Err (error.TooDeep place) }
    ensures syntax { (text : List ℕ) (tokens : List Token) (place : Place) (name : List ℕ) →
        script_of text tokens ≡ Err (error.Syntax place name) →
        IsSyntaxError text tokens place name }
    ensures memory { (text : List ℕ) (tokens : List Token) →
        script_of text tokens ≢ Err error.Memory }
{}
