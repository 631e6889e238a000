//! Strict operations on numbers, which touch nothing but the stack.
ghost use Rattle.std.specs.Prelude.{◌≡◌, ℕ, ◌∷◌, []};
ghost use Rattle.ang_meaning.specs.declared.operation.Operation.TheVariants.{Binary, Compare, Convert, Negate, Complement, Not};
ghost use Rattle.ang_meaning.specs.declared.slot.Slot.TheVariants.{Bits};
ghost use Rattle.ang_meaning.specs.World.{World};
ghost use Rattle.ang_meaning.specs.Environment.{Environment};
ghost use Rattle.ang_meaning.specs.Perform.{perform};
ghost use Rattle.ang_vm_stack.specs.Arms.{done};

use ang_kinds::{Comparison, Fault, Operator, Prim};
use ang_meaning::Slot;
use ang_vm_numbers::{compare, complement, convert, deny, negate, work};

/// A binary operator on two slots: both have to be numbers.
///
/// # Errors
/// `Null` where one is no number, and the faults of the operator.
#[inline(always)]
#[tactic(auto, unfolding(ang_meaning::specs::Perform::perform))]
pub(crate) fn work_slots(what: Operator, at: Prim, x: Slot, y: Slot) -> Result<Slot, Fault>
    ensures exact { (z : Environment) (m : ℕ) (w : World)
        → perform z m (Binary what at) (y ∷ x ∷ []) w ≡ done result w }
{
    match y {
        Slot::Bits(second) => match x {
            Slot::Bits(first) => work_bits(what, at, first, second),
            Slot::Script(_) | Slot::Host(_, _) => Err(Fault::Null),
        },
        Slot::Script(_) | Slot::Host(_, _) => Err(Fault::Null),
    }
}

/// A comparison of two slots: both have to be numbers.
///
/// # Errors
/// `Null` where one is no number.
#[inline(always)]
#[tactic(auto, unfolding(ang_meaning::specs::Perform::perform))]
pub(crate) fn compare_slots(what: Comparison, signed: bool, x: Slot, y: Slot) -> Result<Slot, Fault>
    ensures exact { (z : Environment) (m : ℕ) (w : World)
        → perform z m (Compare what signed) (y ∷ x ∷ []) w ≡ done result w }
{
    match y {
        Slot::Bits(second) => match x {
            Slot::Bits(first) => Ok(Slot::Bits(compare(what, signed, first, second))),
            Slot::Script(_) | Slot::Host(_, _) => Err(Fault::Null),
        },
        Slot::Script(_) | Slot::Host(_, _) => Err(Fault::Null),
    }
}

/// The conversion of a slot to a type: it has to be a number.
///
/// # Errors
/// `Null` where it is none.
#[inline(always)]
#[tactic(auto, unfolding(ang_meaning::specs::Perform::perform))]
pub(crate) fn convert_slot(to: Prim, x: Slot) -> Result<Slot, Fault>
    ensures exact { (z : Environment) (m : ℕ) (w : World)
        → perform z m (Convert to) (x ∷ []) w ≡ done result w }
{
    match x {
        Slot::Bits(n) => Ok(Slot::Bits(convert(to, n))),
        Slot::Script(_) | Slot::Host(_, _) => Err(Fault::Null),
    }
}

/// Unary `-` of a slot: it has to be a number.
///
/// # Errors
/// `Null` where it is none.
#[inline(always)]
#[tactic(auto, unfolding(ang_meaning::specs::Perform::perform))]
pub(crate) fn negate_slot(at: Prim, x: Slot) -> Result<Slot, Fault>
    ensures exact { (z : Environment) (m : ℕ) (w : World)
        → perform z m (Negate at) (x ∷ []) w ≡ done result w }
{
    match x {
        Slot::Bits(n) => Ok(Slot::Bits(negate(at, n))),
        Slot::Script(_) | Slot::Host(_, _) => Err(Fault::Null),
    }
}

/// `~` of a slot: it has to be a number.
///
/// # Errors
/// `Null` where it is none.
#[inline(always)]
#[tactic(auto, unfolding(ang_meaning::specs::Perform::perform))]
pub(crate) fn complement_slot(at: Prim, x: Slot) -> Result<Slot, Fault>
    ensures exact { (z : Environment) (m : ℕ) (w : World)
        → perform z m (Complement at) (x ∷ []) w ≡ done result w }
{
    match x {
        Slot::Bits(n) => Ok(Slot::Bits(complement(at, n))),
        Slot::Script(_) | Slot::Host(_, _) => Err(Fault::Null),
    }
}

/// `!` of a slot: it has to be a truth value.
///
/// # Errors
/// `Null` where it is no number.
#[inline(always)]
#[tactic(auto, unfolding(ang_meaning::specs::Perform::perform))]
pub(crate) fn deny_slot(x: Slot) -> Result<Slot, Fault>
    ensures exact { (z : Environment) (m : ℕ) (w : World) → perform z m Not (x ∷ []) w ≡ done result w }
{
    match x {
        Slot::Bits(n) => Ok(Slot::Bits(deny(n))),
        Slot::Script(_) | Slot::Host(_, _) => Err(Fault::Null),
    }
}

#[inline(always)]
#[tactic(auto, unfolding(ang_meaning::specs::Perform::perform), using(ang_vm_numbers::proofs::Working::work_ends))]
fn work_bits(what: Operator, at: Prim, x: u64, y: u64) -> Result<Slot, Fault>
    ensures exact { (z : Environment) (m : ℕ) (w : World)
        → perform z m (Binary what at) (Bits y ∷ Bits x ∷ []) w ≡ done result w }
{
    match work(what, at, x, y) {
        Ok(n) => Ok(Slot::Bits(n)),
        Err(fault) => Err(fault),
    }
}
