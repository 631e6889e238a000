//! Places within one section.
ghost use Rattle.std.specs.Prelude.{◌≡◌};
ghost use Rattle.ang_kinds.specs.Positions as spec;

use crate::place::Place;

/// A place within one section, in four bytes. A section has at most 65,536 bytes, so no line and no column of it is
/// further from 0.
#[derive(Clone, Copy)]
pub struct Position {
    /// The line, from 0.
    pub line: u16,
    /// The column, from 0, counted in bytes.
    pub column: u16,
}

/// What is kept for each statement of a body has at most four bytes.
const _: () = prove!(std::mem::size_of::<Position>() <= 4);

/// A number that counts from 1 as one that counts from 0: 65,535 where it is greater.
fn from_zero(number: u32) -> u16
    ensures exact { result ≡ spec.from_zero number }
{
    let number = number.saturating_sub(1);
    if number < 65_536 {
        number as u16
    } else {
        u16::MAX
    }
}

/// The line and the column of a place, without its section.
pub fn position_of(place: Place) -> Position
    ensures exact { result ≡ spec.position_of place }
{
    Position {
        line: from_zero(place.line),
        column: from_zero(place.column),
    }
}
