//! Room on the stack for a body's values.
ghost use Rattle.std.specs.Prelude.{◌≡◌, ◌+◌, ◌<◌, ◌≤◌, length, true};
ghost use Rattle.ang_vm_stack.specs.Stacks.{values};

use ang_meaning::Slot;

/// Makes room above the values in use for `height` more, for which the stack has to grow; false where there is no memory
/// for it. It stays apart, so that entering a body stays small.
#[inline(never)]
fn grow(stack: &mut Vec<Slot>, top: usize, height: usize) -> bool
    requires within { top ≤ length stack.old.items }
    requires short { length stack.old.items < top + height }
    ensures room { result ≡ true → top + height ≤ length stack.new.items }
    ensures same { values stack.new.items top ≡ values stack.old.items top }
    ensures grows { length stack.old.items ≤ length stack.new.items }
{
    match stack.resize(top.saturating_add(height), Slot::Bits(0)) {
        Ok(()) => true,
        Err(_) => false,
    }
}

/// Makes room above the values in use for `height` more; false where there is no memory for it.
#[inline(always)]
pub fn reserve(stack: &mut Vec<Slot>, top: usize, height: usize) -> bool
    requires within { top ≤ length stack.old.items }
    ensures room { result ≡ true → top + height ≤ length stack.new.items }
    ensures same { values stack.new.items top ≡ values stack.old.items top }
    ensures grows { length stack.old.items ≤ length stack.new.items }
{
    if height <= stack.len() - top {
        return true;
    }
    grow(stack, top, height)
}
