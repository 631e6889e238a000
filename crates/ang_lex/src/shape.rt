//! Pieces of a section, and why there is none.

use crate::token::TokenKind;

/// A gap or a token, with its length in bytes.
#[derive(Clone, Copy)]
pub enum Piece {
    /// White space or a comment.
    Gap(usize),
    Token(TokenKind, usize),
}

/// Why no gap and no token stands at a point.
#[derive(Clone, Copy)]
pub enum Fault {
    TooLong,
    BadByte,
    BadNumber,
    OpenComment,
}
