//! The machine's stack: a slice of which the first `top` places are in use, the top value last.
ghost use Rattle.std.specs.Prelude.{◌≡◌, ◌<◌, ◌≤◌, ◌+◌, ◌-◌, ◌∷◌, length, slice_set};
ghost use Rattle.ang_meaning.specs.declared.slot.Slot.TheVariants.{Bits};
ghost use Rattle.ang_meaning.specs.Results.{local_at, local_set, drop_some};
ghost use Rattle.ang_vm_stack.specs.Stacks.{values};

use ang_meaning::Slot;

/// The value at a place, counted from the top value, which is 0.
#[inline(always)]
pub fn peek(stack: &[Slot], top: usize, place: usize) -> Slot
    requires in_use { place < top }
    requires within { top ≤ length stack.now }
    ensures exact { result ≡ local_at (values stack.now top) place }
{
    let at = top - 1 - place;
    stack[at]
}

/// Puts a value at a place, counted from the top value, which is 0.
#[inline(always)]
pub fn poke(stack: &mut [Slot], top: usize, place: usize, value: Slot)
    requires in_use { place < top }
    requires within { top ≤ length stack.old }
    ensures exact { values stack.new top ≡ local_set (values stack.old top) place value }
{
    stack[top - 1 - place] = value;
}

/// Makes a value that number. Where one stands already its bits alone are written.
#[inline(always)]
fn renumber(slot: &mut Slot, number: u64)
    ensures exact { slot.new ≡ Bits number }
{
    match slot {
        Slot::Bits(bits) => *bits = number,
        Slot::Script(_) | Slot::Host(_, _) => *slot = Slot::Bits(number),
    }
}

/// Puts a number at a place, counted from the top value, which is 0. Where one stands already its bits alone are written.
#[inline(always)]
pub fn poke_number(stack: &mut [Slot], top: usize, place: usize, number: u64)
    requires in_use { place < top }
    requires within { top ≤ length stack.old }
    ensures exact { values stack.new top ≡ local_set (values stack.old top) place (Bits number) }
{
    renumber(&mut stack[top - 1 - place], number);
}

/// Puts a value on top of the first `top` values; it is the only place that changes.
#[inline(always)]
pub fn push(stack: &mut [Slot], top: usize, value: Slot)
    requires room { top < length stack.old }
    ensures pushed { values stack.new (top + 1) ≡ value ∷ values stack.old top }
    ensures written { stack.new ≡ slice_set stack.old top value }
{
    stack[top] = value;
}
