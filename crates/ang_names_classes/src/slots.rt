//! The number of the first method of a signature, which is found by its key.
ghost use Rattle.std.specs.Prelude.{◌≡◌, find, IfOk};
ghost use Rattle.ang_names_classes.specs.Headings as spec;
ghost use Rattle.ang_names_classes.specs.Keys as keys;
ghost use Rattle.ang_names_classes.specs.Slots as slots;

use crate::keys::method_key;
use crate::signatures::{MethodSignature, all_signatures, is_same};
use ang_index::Index;
use ang_names_known::{ScriptFunction, Space};
use ang_names_listed::Declaring;
use std::alloc::{AllocError, Global};
use std::marker::Model;

/// The scope of all keys.
const METHODS: u64 = 0;

/// All methods of all classes and interfaces, in order, which contracts see as the list of them.
/// Beside them stand their numbers by key, so that a method is compared with those of its signature alone.
#[derive(Drop)]
pub struct Signatures {
    items: Vec<MethodSignature>,
    numbers: Index<usize>,
}

impl Model for Signatures {
    ghost use Rattle.std.specs.Prelude.{Bool, List};
    ghost use Rattle.ang_names_known.specs.declared.names.ScriptFunction.{ScriptFunction};
    ghost use Rattle.ang_names_classes.specs.Slots.{HasNumbers};

    ghost Value = { List (ScriptFunction × Bool) };

    ghost view = { λ s. s.items.items };

    ghost invariant = { λ s. HasNumbers s.items.items s.numbers };
}

/// The numbers of all methods by key.
fn numbers_by_key(alloc: Global, signatures: &[MethodSignature]) -> Result<Index<usize>, AllocError>
    ensures exact { IfOk result (λ numbers. slots.HasNumbers signatures.now numbers) }
{
    let mut numbers = Index::new(alloc);
    for (number, signature) in signatures.iter().enumerate() {
        let key = method_key(alloc, &signature.0, signature.1)?;
        numbers.push(alloc, METHODS, key.as_slice(), number)?;
    }
    Ok(numbers)
}

/// All methods of all classes and interfaces, in order: their places are their numbers.
///
/// The only error is want of memory.
pub fn signatures_of(
    alloc: Global,
    space: &Space<'_>,
    families: &[Declaring<'_, '_>],
) -> Result<Signatures, AllocError>
    ensures exact { IfOk result (λ found. found ≡ spec.signatures_of space.now families.now) }
{
    let items = all_signatures(alloc, space, families)?;
    let numbers = numbers_by_key(alloc, items.as_slice())?;
    Ok(Signatures { items, numbers })
}

/// Whether the method of this number is of this signature.
fn is_same_at(
    signatures: &[MethodSignature],
    function: &ScriptFunction,
    read_only: bool,
    number: usize,
) -> bool
    ensures exact { result ≡ slots.is_same_at signatures.now (function.now, read_only) number }
{
    match signatures.get(number) {
        None => false,
        Some(other) => is_same(function, read_only, other),
    }
}

/// The first of some numbers whose method is of this signature.
fn first_same(
    signatures: &[MethodSignature],
    function: &ScriptFunction,
    read_only: bool,
    numbers: &[usize],
) -> Option<usize>
    ensures exact { result
        ≡ find (slots.is_same_at signatures.now (function.now, read_only)) numbers.now }
{
    for number in numbers {
        if is_same_at(signatures, function, read_only, *number) {
            return Some(*number);
        }
    }
    None
}

impl Signatures {
    ghost use Rattle.std.specs.Prelude.{◌≡◌};

    /// The numbers of the methods of this key, rising.
    fn keyed(&self, key: &[u8]) -> &[usize]
        ensures exact { result.now ≡ slots.methods_keyed self.now key.now }
    {
        self.numbers.find(METHODS, key)
    }

    fn items(&self) -> &[MethodSignature]
        ensures exact { result.now ≡ self.now }
    {
        self.items.as_slice()
    }
}

/// The first of these numbers whose method is of this signature, or how many methods there are where none is.
fn first_or_count(
    items: &[MethodSignature],
    function: &ScriptFunction,
    read_only: bool,
    keyed: &[usize],
) -> usize
    requires keyed { keyed.now
        ≡ slots.methods_keyed items.now (keys.method_key (function.now, read_only)) }
    ensures exact { result ≡ spec.slot_of items.now (function.now, read_only) }
{
    first_same(items, function, read_only, keyed).unwrap_or(items.len())
}

/// The number of the first method of this signature, or how many there are where none is.
///
/// The only error is want of memory.
pub fn slot_of(
    alloc: Global,
    signatures: &Signatures,
    function: &ScriptFunction,
    read_only: bool,
) -> Result<usize, AllocError>
    ensures exact { IfOk result
        (λ slot. slot ≡ spec.slot_of signatures.now (function.now, read_only)) }
{
    let key = method_key(alloc, function, read_only)?;
    let keyed = signatures.keyed(key.as_slice());
    Ok(first_or_count(signatures.items(), function, read_only, keyed))
}
