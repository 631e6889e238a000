//! Reading imports: `"import" type NAME params "from" TEXT ";"`.
//!
//! `limit` bounds the turns of each loop. One more than the number of tokens is always enough.
ghost use Rattle.ang_parse_read.specs.Gives.{Gives, NeedsNoMemory};
ghost use Rattle.ang_tree.specs.View.{view_decl};
ghost use Rattle.ang_parse.specs.ReadFunction as read;

use ang_lex::Token;
use ang_parse_expr::type_name;
use ang_parse_read::{ReadError, a_from, a_name, a_semicolon, a_text};
use ang_parse_stmt::a_parameters;
use ang_tree::{Declaration, Import};
use std::alloc::Global;

/// Reads `"from" TEXT ";"`.
#[tactic(auto, unfolding(crate::specs::ReadFunction::origin))]
fn origin(tokens: &[Token]) -> Result<((Token, Token, Token), &[Token]), ReadError<'_>>
    ensures reads { Gives (λ x. ((x.0.0, x.0.1, x.0.2), x.1.now)) result (read.origin tokens.now) }
    ensures no_memory { NeedsNoMemory result }
{
    let (from_word, rest) = a_from(tokens)?;
    let (module, rest) = a_text(rest)?;
    let (semicolon, rest) = a_semicolon(rest)?;
    Ok(((from_word, module, semicolon), rest))
}

/// Reads an import, after the word `import`.
///
/// # Errors
///
/// `Syntax` with the tokens from the first that cannot stand there, `Memory` where memory runs out, and
/// `Deep` where `limit` is too small.
#[tactic(auto, unfolding(crate::specs::ReadFunction::import))]
pub fn import<'a>(
    alloc: Global,
    word: Token,
    tokens: &'a [Token],
    limit: usize,
) -> Result<(Declaration, &'a [Token]), ReadError<'a>>
    ensures reads { Gives (λ x. (view_decl x.0, x.1.now)) result
        (read.import limit word tokens.now) }
{
    let (result_type, rest) = type_name(tokens)?;
    let (name, rest) = a_name(rest)?;
    let (parameters, rest) = a_parameters(alloc, rest, limit)?;
    let ((from_word, module, semicolon), rest) = origin(rest)?;
    let import = Import {
        word,
        result: result_type,
        name,
        parameters,
        from_word,
        module,
        semicolon,
    };
    let import = Box::new(alloc, import)?;
    Ok((Declaration::Import(import), rest))
}
