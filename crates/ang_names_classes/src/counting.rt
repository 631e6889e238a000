//! Counting by lists that grow. What is numbered has a byte each, and its number is the length of such a list
//! or the sum of two. No list has 2^63 bytes, so that this fits, and want of memory is a growth that was
//! refused and nothing else.
ghost use Rattle.std.specs.Prelude.{◌≡◌, ◌+◌, length, OnOk};

use std::alloc::AllocError;

/// Puts that number of bytes at the end.
///
/// The only error is want of memory.
pub fn add_bytes(more: usize, bytes: &mut Vec<u8>) -> Result<(), AllocError>
    ensures exact { OnOk result (length bytes.new.items ≡ length bytes.old.items + more) }
{
    for _ in 0..more {
        bytes.push(0)?;
    }
    Ok(())
}
