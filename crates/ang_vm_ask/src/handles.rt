//! Handles: which are null, and which name one object.
//!
//! Here two values are compared, without a stack. `handles.rt` of `ang_vm_steps` has the instruction, with its operands
//! on the stack; that of `ang_vm_fields` has steps that move and give up handles.
ghost use Rattle.std.specs.Prelude.{◌≡◌, ℕ, ◌∷◌, []};
ghost use Rattle.ang_meaning.specs.declared.slot.Slot.TheVariants.{Bits as Number};
ghost use Rattle.ang_meaning.specs.declared.operation.Operation.TheVariants.{Same};
ghost use Rattle.ang_meaning.specs.Environment.{Environment, is_null as is_null_slot};
ghost use Rattle.ang_meaning.specs.Numbers.{truth as truth_of};
ghost use Rattle.ang_meaning.specs.Hosts.{Fine};
ghost use Rattle.ang_meaning.specs.Perform.{perform, is_same, name_one};
ghost use Rattle.ang_heap.specs.Stores.{world_of, IsReady, StoreTold, HasMoved};
ghost use Rattle.ang_vm_ask.specs.Counts.{StandCounted};

use ang_heap::{Store, give};
use ang_host::Driver;
use ang_meaning::Slot;

/// Whether a handle is null; a number is not.
#[tactic(auto, unfolding(ang_meaning::specs::Environment::is_null))]
pub fn is_null(value: Slot) -> bool
    ensures exact { result ≡ is_null_slot value }
{
    match value {
        Slot::Bits(_) => false,
        Slot::Script(None) => true,
        Slot::Script(Some(_)) => false,
        Slot::Host(_, None) => true,
        Slot::Host(_, Some(_)) => false,
    }
}

/// Whether two handles name one object; a null handle names none.
fn are_one(x: Slot, y: Slot) -> bool
    ensures exact { result ≡ name_one x y }
{
    match x {
        Slot::Bits(_) => false,
        Slot::Script(None) => false,
        Slot::Script(Some(j)) => match y {
            Slot::Bits(_) => false,
            Slot::Script(None) => false,
            Slot::Script(Some(k)) => j == k,
            Slot::Host(_, _) => false,
        },
        Slot::Host(_, None) => false,
        Slot::Host(d, Some(j)) => match y {
            Slot::Bits(_) => false,
            Slot::Script(_) => false,
            Slot::Host(_, None) => false,
            Slot::Host(e, Some(k)) => d == e && j == k,
        },
    }
}

/// `is`: whether two handles name one object, or are both null.
#[tactic(auto, unfolding(ang_meaning::specs::Perform::is_same))]
fn are_same(x: Slot, y: Slot) -> bool
    ensures exact { result ≡ is_same x y }
{
    is_null(x) && is_null(y) || are_one(x, y)
}

fn truth(value: bool) -> u64
    ensures exact { result ≡ truth_of value }
{
    if value { 1 } else { 0 }
}

/// `is` on two values, which stay where they are.
pub fn same(first: Slot, second: Slot) -> Slot
    ensures exact { result ≡ Number (truth_of (is_same first second)) }
{
    Slot::Bits(truth(are_same(first, second)))
}

/// `is` on two values, which are given up, the second one first.
pub fn compare_handles(store: &mut Store, first: Slot, second: Slot) -> Slot
    requires ready { IsReady ⟦<dyn Driver as Driver>⟧ store.old }
    requires counted { StandCounted (second ∷ first ∷ [])
        (world_of ⟦<dyn Driver as Driver>⟧ store.old) }
    ensures told { (z : Environment) (home : ℕ)
        → StoreTold ⟦<dyn Driver as Driver>⟧ (perform z home Same (second ∷ first ∷ [])) store.old
        (Fine result) store.new }
    ensures moves { HasMoved ⟦<dyn Driver as Driver>⟧ store.old store.new }
{
    let answer = same(first, second);
    give(store, second);
    give(store, first);
    answer
}
