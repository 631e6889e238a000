//! Variables changed by an operand.
ghost use Rattle.std.specs.Prelude.{◌≡◌};
ghost use Rattle.ang_meaning.specs.Numbers.{changed};
ghost use Rattle.ang_meaning.specs.Perform.{change_of};
ghost use Rattle.ang_vm_numbers.specs.Answers.{altered_of};

use crate::conversions::convert;
use crate::operators::work;
use ang_kinds::Fault;
use ang_meaning::{Slot, Update};

/// What a change stores into its variable, and what its expression gives.
#[derive(Clone, Copy)]
pub struct Updated {
    /// The variable's new value.
    pub stored: u64,
    /// The expression's value.
    pub given: u64,
}

/// A variable's value `x` changed by `y`, as in a compound assignment, `++` or `--`.
///
/// # Errors
/// Those of the change's operation: `DivideByZero` and `DivideOverflow`.
#[inline(always)]
#[tactic(auto, unfolding(ang_meaning::specs::Numbers::changed))]
pub fn change(by: Update, x: u64, y: u64) -> Result<Updated, Fault>
    ensures exact { result ≡ altered_of (changed by x y) }
{
    let worked = work(by.operator, by.at, convert(by.at, x), y)?;
    let stored = convert(by.to, worked);
    let given = if by.old { x } else { stored };
    Ok(Updated { stored, given })
}

/// A variable's value changed by an operand: both have to be numbers.
///
/// # Errors
/// `Null` where one is no number, and the faults of the change.
#[tactic(auto, unfolding(ang_meaning::specs::Perform::change_of))]
pub fn change_slot(by: Update, old: Slot, operand: Slot) -> Result<Updated, Fault>
    ensures exact { result ≡ altered_of (change_of by old operand) }
{
    match old {
        Slot::Bits(x) => match operand {
            Slot::Bits(y) => change(by, x, y),
            Slot::Script(_) | Slot::Host(_, _) => Err(Fault::Null),
        },
        Slot::Script(_) | Slot::Host(_, _) => Err(Fault::Null),
    }
}
