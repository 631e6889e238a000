//! What a host's limits are in a line.
ghost use Rattle.std.specs.Prelude.{◌≡◌};
ghost use Rattle.asrun_lines.specs.Limits.{kind_of, most_of, limit_of};

use crate::fields::{decimal, field};

/// The first number that no limit may be.
const ABOVE: u64 = 9_223_372_036_854_775_808;

/// What a limit counts.
#[derive(Clone, Copy)]
pub enum LimitKind {
    /// The events that a command may list.
    Events,
    /// The slots that script objects may take.
    Slots,
    /// The host objects that may live.
    Objects,
}

/// A limit, as `limit slots 100000` says it.
#[derive(Clone, Copy)]
pub struct LimitLine {
    /// What it counts.
    pub kind: LimitKind,
    /// The most of them, below 2^63.
    pub most: u64,
}

#[tactic(auto, unfolding(crate::specs::Limits::kind_of))]
fn kind(word: &[u8]) -> Option<LimitKind>
    ensures exact { result ≡ kind_of word.now }
{
    if word == b"events".as_slice() {
        return Some(LimitKind::Events);
    }
    if word == b"slots".as_slice() {
        return Some(LimitKind::Slots);
    }
    if word == b"objects".as_slice() {
        return Some(LimitKind::Objects);
    }
    None
}

#[tactic(auto, unfolding(crate::specs::Limits::most_of))]
fn most(text: &[u8]) -> Option<u64>
    ensures exact { result ≡ most_of text.now }
{
    let most = decimal(text, 19)?;
    if most < ABOVE { Some(most) } else { None }
}

/// The limit that `KIND N` spells, which stands after the word `limit`: `events`, `slots` or `objects`, and 1 to 19
/// decimal digits of a number below 2^63.
#[tactic(auto, unfolding(crate::specs::Limits::limit_of))]
pub fn limit(text: &[u8]) -> Option<LimitLine>
    ensures exact { result ≡ limit_of text.now }
{
    let (word, text) = field(text)?;
    let kind = kind(word)?;
    let most = most(text)?;
    Some(LimitLine { kind, most })
}
