//! `Apply`: whether two handles name one object.
//!
//! It is one instruction, with its operands on the stack. How two values are compared is in `handles.rt` of `ang_vm_ask`;
//! `compared.rt` of `ang_vm_fields` compares handles where they stand, and `handles.rt` there moves and gives them up.
ghost use Rattle.std.specs.Prelude.{◌≡◌, ℕ, ◌≤◌, ◌∷◌, List, [], length, IfOk};
ghost use Rattle.ang_meaning.specs.declared.operation.Operation.TheVariants.{Same};
ghost use Rattle.ang_code.specs.declared.instruction.Instruction.TheVariants.{Apply};
ghost use Rattle.ang_heap.specs.Stores.{IsReady, HasMoved};
ghost use Rattle.ang_vm_stack.specs.Stacks.{values};
ghost use Rattle.ang_vm_steps.specs.Arms.{AreCounted, ActsOn};

use crate::doing::put_answer;
use ang_heap::Store;
use ang_host::Driver;
use ang_meaning::Slot;
use ang_vm_ask::handles::compare_handles;
use ang_vm_stack::stack::peek;
use ang_vm_stack::stop::Trap;

/// `is` of the two top values.
pub(crate) fn do_same(
    stack: &mut [Slot],
    store: &mut Store,
    top: usize,
    room: usize,
) -> Result<usize, Trap>
    requires in_room { top ≤ room }
    requires within { room ≤ length stack.old }
    requires ready { IsReady ⟦<dyn Driver as Driver>⟧ store.old }
    requires counted { AreCounted ⟦<dyn Driver as Driver>⟧ stack.old top store.old }
    ensures acts { ActsOn ⟦<dyn Driver as Driver>⟧ (Apply Same) room top stack.old store.old result
        stack.new store.new }
    ensures in_room { IfOk result (λ n. n ≤ room) }
    ensures moves { HasMoved ⟦<dyn Driver as Driver>⟧ store.old store.new }
{
    if top < 2 {
        return Err(Trap::Stuck);
    }
    let second = peek(stack, top, 0);
    let first = peek(stack, top, 1);
    let same = compare_handles(store, first, second);
    put_answer(stack, top, 2, Ok(same))
}
