//! Copies of tokens' texts, and errors at tokens.
ghost use Rattle.std.specs.Prelude.{◌≡◌, IfOk};
ghost use Rattle.ang_lex.specs.Text.{name_of, text_of};
ghost use Rattle.ang_names_listed.specs.Sources as spec;

use ang_kinds::{Error, ErrorKind, List, Place};
use ang_lex::{Token, text_of};
use std::alloc::{AllocError, Global};

/// A copy of a token's text, or an empty one where no token is written.
///
/// The only error is want of memory.
pub fn name_at(alloc: Global, text: &[u8], token: &Option<Token>) -> Result<List<u8>, AllocError>
    ensures exact { IfOk result (λ name. name ≡ name_of text.now token.now) }
{
    match token {
        None => Ok(List::from_vec(Vec::new(alloc))),
        Some(token) => copy_at(alloc, text, token),
    }
}

/// A copy of a token's text.
///
/// The only error is want of memory.
pub fn copy_at(alloc: Global, text: &[u8], token: &Token) -> Result<List<u8>, AllocError>
    ensures exact { IfOk result (λ name. name ≡ text_of text.now token.now) }
{
    let copy = Vec::from_slice(alloc, text_of(text, token))?;
    Ok(List::from_vec(copy))
}

/// An error of this kind at a token, with the token's text as its name.
///
/// The only error is want of memory.
pub fn error_at(
    alloc: Global,
    text: &[u8],
    kind: ErrorKind,
    token: &Token,
) -> Result<Error, AllocError>
    ensures exact { IfOk result (λ error. error ≡ spec.error_at kind text.now token.now) }
{
    Ok(Error {
        kind,
        place: token.place,
        name: copy_at(alloc, text, token)?,
    })
}

/// An error without a name.
pub fn fault_at(alloc: Global, kind: ErrorKind, place: Place) -> Error
    ensures exact { result ≡ spec.fault_at kind place }
{
    Error {
        kind,
        place,
        name: List::from_vec(Vec::new(alloc)),
    }
}
