//! Parts of sections, which contracts see without where they lie in memory.
use std::marker::Model;

/// Bytes of a section, which contracts see as the list of them.
#[derive(Drop)]
pub struct BorrowedText<'a> {
    bytes: &'a [u8],
}

impl<'a> Model for BorrowedText<'a> {
    ghost use Rattle.std.specs.Prelude.{List, ℕ};

    ghost Value = { List ℕ };

    ghost view = { λ t. t.bytes.now };
}

impl<'a> BorrowedText<'a> {
    ghost use Rattle.std.specs.Prelude.{◌≡◌};

    /// Borrows these bytes, which are neither copied nor checked.
    pub fn new(bytes: &'a [u8]) -> BorrowedText<'a>
        ensures exact { result ≡ bytes.now }
    {
        BorrowedText { bytes }
    }

    /// The bytes that were borrowed, which can be kept when this value is gone.
    pub fn bytes(&self) -> &'a [u8]
        ensures exact { result.now ≡ self.now }
    {
        self.bytes
    }
}
