//! Lists of names, each of which stands there once.
ghost use Rattle.std.specs.Prelude.{◌≡◌, ◌++◌, ◌∷◌, [], IsTrue, IfSome, IfOk, OnErr, OnOk, Some, slice_get, length};

use ang_kinds::List;
use std::alloc::{AllocError, Global};

fn is_same(one: &[u8], other: &[u8]) -> bool
    ensures same { IsTrue result → one.now ≡ other.now }
{
    one == other
}

/// Whether the name of that number is this one.
pub fn is_named(names: &[List<u8>], number: usize, name: &[u8]) -> bool
    ensures found { IsTrue result → slice_get names.now number ≡ Some name.now }
{
    match names.get(number) {
        Some(found) => is_same(found.as_slice(), name),
        None => false,
    }
}

/// The number of this name.
pub fn number_of(names: &[List<u8>], name: &[u8]) -> Option<usize>
    ensures found { IfSome result (λ n. slice_get names.now n ≡ Some name.now) }
{
    for number in 0..names.len() {
        if is_named(names, number, name) {
            return Some(number);
        }
    }
    None
}

/// Adds a copy of this name, and answers its number.
///
/// # Errors
/// There is no memory. The names stay.
pub fn add_name(alloc: Global, names: &mut Vec<List<u8>>, name: &[u8]) -> Result<usize, AllocError>
    ensures added { OnOk result (names.new.items ≡ names.old.items ++ name.now ∷ []) }
    ensures number { IfOk result (λ n. n ≡ length names.old.items) }
    ensures unchanged { OnErr result (names.new.items ≡ names.old.items) }
{
    let number = names.len();
    let copy = Vec::from_slice(alloc, name)?;
    names.push(List::from_vec(copy))?;
    Ok(number)
}
