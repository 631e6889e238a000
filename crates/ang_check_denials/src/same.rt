//! Refused uses that ask the same.
ghost use Rattle.std.specs.Prelude.{◌≡◌, IsTrue};
ghost use Rattle.std.specs.Cmp.Lexicographic.{pointwise};
ghost use Rattle.ang_names_known.specs.Lookup as lookup;
ghost use Rattle.ang_check_denials.specs.Denials.{IsSameUse};

use ang_names_known::same_type;
use ang_types::{ArgType, Asks, Refused};

fn all_same(types: &[ArgType], others: &[ArgType]) -> bool
    ensures exact { result ≡ pointwise lookup.same_type types.now others.now }
{
    types.len() == others.len()
        && types
            .iter()
            .zip(others)
            .all(|(one, other)| same_type(*one, *other))
}

#[tactic(auto, using(crate::proofs::SameUses::same_types))]
fn are_same(types: &[ArgType], others: &[ArgType]) -> bool
    ensures same { IsTrue result → types.now ≡ others.now }
{
    all_same(types, others)
}

fn is_same_question(one: &Asks, other: &Asks) -> bool
    ensures same { IsTrue result → one.now ≡ other.now }
{
    match (one, other) {
        (Asks::Value, Asks::Value) => true,
        (Asks::Type, Asks::Type) => true,
        (Asks::Enumeration, Asks::Enumeration) => true,
        (Asks::Call(types), Asks::Call(others)) => are_same(types.as_slice(), others.as_slice()),
        (Asks::Make(number, types), Asks::Make(own, others)) => {
            *number == *own && are_same(types.as_slice(), others.as_slice())
        }
        (Asks::Default(number), Asks::Default(own)) => *number == *own,
        (Asks::Property(number), Asks::Property(own)) => *number == *own,
        (Asks::Method(number, read_only, types), Asks::Method(own, is_read_only, others)) => {
            *number == *own
                && *read_only == *is_read_only
                && are_same(types.as_slice(), others.as_slice())
        }
        _ => false,
    }
}

fn asks_same(one: &Option<Asks>, other: &Option<Asks>) -> bool
    ensures same { IsTrue result → one.now ≡ other.now }
{
    match (one, other) {
        (None, None) => true,
        (Some(one), Some(other)) => is_same_question(one, other),
        _ => false,
    }
}

/// Whether two refused uses ask the same of the same name.
pub fn is_same_use(one: &Refused, other: &Refused) -> bool
    ensures same { IsTrue result → IsSameUse one.now other.now }
{
    one.is_there == other.is_there
        && one.error.name.as_slice() == other.error.name.as_slice()
        && asks_same(&one.asks, &other.asks)
}
