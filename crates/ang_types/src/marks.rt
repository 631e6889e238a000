//! Which numbers a long list has, as bits.
ghost use Rattle.std.specs.Prelude.{◌≡◌, ◌<◌, ◌==◌, ◌/◌, ◌||◌, ℕ, IfOk, IfSome, EachIndex, length, slice_index};
ghost use Rattle.ang_types.specs.Marks.{AreMarksOf, IsWithin, bit_of, has, is_marked, is_marked_in};

use std::alloc::{AllocError, Global};

/// As many numbers are looked through.
const FEW: usize = 4;

/// Which numbers a list has: a bit for each number from its least one on, in words of 64.
#[derive(Drop)]
pub(crate) struct Marks {
    least: u32,
    words: Vec<u64>,
}

/// Whether a list is looked through, since it has few numbers.
pub(crate) fn is_short(numbers: &[u32]) -> bool {
    numbers.len() <= FEW
}

/// The marks of a list, with at most a word for each of its numbers. There are none of a short one, and none of one whose
/// numbers stand too far apart.
///
/// The only error is want of memory.
pub(crate) fn marks_of(alloc: Global, numbers: &[u32]) -> Result<Option<Marks>, AllocError>
    ensures marks { IfOk result (AreMarksOf numbers.now) }
{
    match span(numbers) {
        Some((least, count)) if count <= numbers.len() && !is_short(numbers) => {
            let words = words_of(alloc, least, count, numbers)?;
            Ok(Some(Marks { least, words }))
        }
        _ => Ok(None),
    }
}

/// The least of some numbers, and how many words have a bit for each number from it up to the greatest.
fn span(numbers: &[u32]) -> Option<(u32, usize)>
    ensures within { IfSome result
        (λ s. EachIndex numbers.now (λ k. IsWithin s.0 s.1 (slice_index numbers.now k))) }
{
    let least = numbers.iter().copied().min()?;
    let most = numbers.iter().copied().max()?;
    Some((least, (most - least) as usize / 64 + 1))
}

/// That many words, with the bits of some numbers.
fn words_of(
    alloc: Global,
    least: u32,
    count: usize,
    numbers: &[u32],
) -> Result<Vec<u64>, AllocError>
    requires within { EachIndex numbers.now (λ k. IsWithin least count (slice_index numbers.now k)) }
    ensures exact { IfOk result
        (λ words. (n : ℕ) → is_marked_in least words.items n ≡ has numbers.now n) }
{
    let mut words = vec![in alloc; 0; count]?;
    for number in numbers {
        set_bit(&mut words, (*number - least) as usize);
    }
    Ok(words)
}

fn set_bit(words: &mut Vec<u64>, at: usize)
    requires there { at / 64 < length words.old.items }
    ensures size { length words.new.items ≡ length words.old.items }
    ensures set { (n : ℕ) → bit_of words.new.items n ≡ (bit_of words.old.items n || (at == n)) }
{
    words[at / 64] |= 1 << (at % 64);
}

fn is_bit_set(words: &[u64], at: usize) -> bool
    ensures exact { result ≡ bit_of words.now at }
{
    match words.get(at / 64) {
        None => false,
        Some(word) => (*word >> (at % 64)) & 1 == 1,
    }
}

impl Marks {
    /// Whether the list has the number.
    pub(crate) fn has(&self, number: u32) -> bool
        ensures exact { result ≡ is_marked self.now number }
    {
        if number < self.least {
            return false;
        }
        is_bit_set(self.words.as_slice(), (number - self.least) as usize)
    }
}
