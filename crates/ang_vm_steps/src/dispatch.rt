//! `Apply`: each operation by its function.
ghost use Rattle.std.specs.Prelude.{◌≡◌, ℕ, ◌<◌, ◌≤◌, List, length, IfOk};
ghost use Rattle.ang_host.specs.Boxes.{members};
ghost use Rattle.ang_code.specs.declared.instruction.Instruction.TheVariants.{Apply};
ghost use Rattle.ang_heap.specs.Stores.{world_of, IsReady, HasMade};
ghost use Rattle.ang_meaning.specs.declared.operation.Operation.TheVariants.{Make};
ghost use Rattle.ang_vm_ask.specs.Entities.{DriversThere};
ghost use Rattle.ang_vm_steps.specs.Turns.{Turned, IsNext};
ghost use Rattle.ang_vm_ask.specs.Askings.{HasMovedOver};
ghost use Rattle.ang_vm_steps.specs.Arms.{AreCounted};

use crate::asks::ask_host;
use crate::doing::{do_compare, do_complement, do_convert, do_negate, do_not, do_work};
use crate::fields::{cast, change_field, get_field, make_object, set_field};
use crate::globals::{change_global, get_global, set_global};
use crate::handles::do_same;
use crate::jumps::next;
use ang_heap::Store;
use ang_host::Driver;
use ang_meaning::{Operation, Routine, Slot};
use ang_vm_stack::place::{Cursor, Pause};
use ang_vm_stack::table::Table;

/// `Apply`: an operation takes its operands from the stack, and puts its value there.
#[inline(always)]
pub fn do_operation(
    table: &Table,
    body: Routine,
    stack: &mut [Slot],
    store: &mut Store,
    here: Cursor,
    room: usize,
    operation: &Operation,
    size: usize,
) -> Result<Cursor, Pause>
    requires inside { here.at < size }
    requires in_room { here.top ≤ room }
    requires within { room ≤ length stack.old }
    requires ready { IsReady ⟦<dyn Driver as Driver>⟧ store.old }
    requires counted { AreCounted ⟦<dyn Driver as Driver>⟧ stack.old here.top store.old }
    requires drivers { DriversThere table.now (length (members store.old.drivers)) }
    ensures turned { IsNext table.now body here (Apply operation.now) size
        → Turned table.now body room here stack.old (world_of ⟦<dyn Driver as Driver>⟧ store.old)
        result stack.new (world_of ⟦<dyn Driver as Driver>⟧ store.new) }
    ensures made { (class : ℕ) → operation.now ≡ Make class
        → IfOk result (λ next. (fields : ℕ) × HasMade here.ticks fields store.old store.new) }
    ensures moves { HasMovedOver ⟦<dyn Driver as Driver>⟧ table.now store.old store.new }
    ensures ready { IsReady ⟦<dyn Driver as Driver>⟧ store.new }
    ensures count { length (members store.new.drivers) ≡ length (members store.old.drivers) }
{
    let top = here.top;
    match *operation {
        Operation::Binary(what, at) => next(here, do_work(stack, top, room, what, at)),
        Operation::Compare(what, signed) => next(here, do_compare(stack, top, room, what, signed)),
        Operation::Convert(to) => next(here, do_convert(stack, top, room, to)),
        Operation::Negate(at) => next(here, do_negate(stack, top, room, at)),
        Operation::Complement(at) => next(here, do_complement(stack, top, room, at)),
        Operation::Not => next(here, do_not(stack, top, room)),
        Operation::Same => next(here, do_same(stack, store, top, room)),
        Operation::GlobalGet(number) => {
            next(here, get_global(body, stack, store, top, room, number))
        }
        Operation::GlobalSet(number) => {
            next(here, set_global(body, stack, store, top, room, number))
        }
        Operation::GlobalChange(by, number) => next(
            here,
            change_global(body, stack, store, top, room, number, by),
        ),
        Operation::Make(class) => {
            next(
                here,
                make_object(table, body, stack, store, top, room, class, here.ticks),
            )
        }
        Operation::FieldGet(number) => next(here, get_field(stack, store, top, room, number)),
        Operation::FieldSet(number) => next(here, set_field(stack, store, top, room, number)),
        Operation::FieldChange(by, number) => {
            next(here, change_field(stack, store, top, room, number, by))
        }
        Operation::Cast(class) => next(here, cast(table, body, stack, store, top, room, class)),
        Operation::Ask(_) => next(
            here,
            ask_host(table, body, stack, store, top, room, *operation),
        ),
        Operation::Read(_) => next(
            here,
            ask_host(table, body, stack, store, top, room, *operation),
        ),
        Operation::Write(_) => next(
            here,
            ask_host(table, body, stack, store, top, room, *operation),
        ),
        Operation::Alter(_, _) => next(
            here,
            ask_host(table, body, stack, store, top, room, *operation),
        ),
    }
}
