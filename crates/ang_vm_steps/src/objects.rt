//! Whether a call's parameters have the objects that they want.
ghost use Rattle.std.specs.Prelude.{◌≡◌, ◌≤◌, length};
ghost use Rattle.ang_meaning.specs.Environment.{has_objects};
ghost use Rattle.ang_vm_stack.specs.Parameters.{
  want_objects as do_want_objects,
  only_receiver as is_only_receiver,
};
ghost use Rattle.ang_vm_stack.specs.Stacks.{values};
ghost use Rattle.ang_vm_steps.specs.Objects.{misses};

use ang_meaning::{Passing, Slot};
use ang_vm_ask::handles::is_null;
use ang_vm_stack::stack::peek;

/// Whether a parameter misses its object.
#[inline(always)]
fn misses_object(passing: Passing, value: Slot) -> bool
    ensures exact { result ≡ misses passing value }
{
    match passing {
        Passing::In => false,
        Passing::Out => false,
        Passing::Object => is_null(value),
    }
}

/// Whether each parameter that wants an object has one among the top values, of which there are enough.
pub fn have_objects(params: &[Passing], stack: &[Slot], top: usize) -> bool
    requires enough { length params.now ≤ top }
    requires within { top ≤ length stack.now }
    ensures exact { result ≡ has_objects params.now (values stack.now top) }
{
    for (i, passing) in params.iter().enumerate() {
        let value = peek(stack, top - i, 0);
        if misses_object(*passing, value) {
            return false;
        }
    }
    true
}

/// The same, where it is known whether a parameter wants an object, and whether the first parameter alone does.
#[inline(always)]
pub fn objects_there(
    wants_objects: bool,
    only_receiver: bool,
    params: &[Passing],
    stack: &[Slot],
    top: usize,
) -> bool
    requires enough { length params.now ≤ top }
    requires within { top ≤ length stack.now }
    requires known { wants_objects ≡ do_want_objects params.now }
    requires known_receiver { only_receiver ≡ is_only_receiver params.now }
    ensures exact { result ≡ has_objects params.now (values stack.now top) }
{
    if !wants_objects {
        return true;
    }
    if only_receiver {
        return !is_null(peek(stack, top, params.len() - 1));
    }
    have_objects(params, stack, top)
}
