//! What stands above each object type.
ghost use Rattle.std.specs.Prelude.{◌≡◌, ◌≤◌, map, slice_index_or, [], length, IfOk, IfSome, ℕ};
ghost use Rattle.ang_types.specs.Ranks.{types_above, is_above, class_rank};
ghost use Rattle.ang_types.specs.Marks.{AreMarked, is_marked};

use crate::marks::{Marks, is_short, marks_of};
use std::alloc::{AllocError, Global};
use std::marker::Model;

/// For each object type, by its number, the numbers of the types above it: of a class its base classes
/// and their bases, and all its interfaces and theirs; of an interface the interfaces that it extends.
/// Whether a type is listed above itself makes no difference.
///
/// Beside each long list stand its marks, so that no list is looked through that has many of the numbers that there are.
#[derive(Drop)]
pub struct Lineage {
    above: Vec<Vec<u32>>,
    // the first type whose list is not short, or how many lists there are
    first: usize,
    // of the lists from that one on
    marks: Vec<Option<Marks>>,
}

impl Model for Lineage {
    ghost use Rattle.std.specs.Prelude.{ℕ, List, map};
    ghost use Rattle.ang_types.specs.Marks.{AreMarked};

    ghost Value = { List (List ℕ) };

    ghost view = { λ l. map (λ v. v.items) l.above.items };

    ghost invariant = { λ l. AreMarked l.first l.marks.items (map (λ v. v.items) l.above.items) };
}

impl Lineage {
    /// The lineage with these lists: the first is that of type 0. It takes no memory where each has four numbers at most, and
    /// beside longer ones at most a word for each of their numbers, and one for each list from the first of them on.
    ///
    /// The only error is want of memory.
    pub fn new(alloc: Global, above: Vec<Vec<u32>>) -> Result<Lineage, AllocError>
        ensures same { IfOk result (λ l. l ≡ map (λ v. v.items) above.items) }
    {
        let first = short_in_front(above.as_slice());
        let marks = marks_from(alloc, above.as_slice(), first)?;
        Ok(Self {
            above,
            first,
            marks,
        })
    }

    /// The types above this one; none for a number without a list.
    pub(crate) fn types_above(&self, number: u32) -> &[u32]
        ensures exact { result.now ≡ types_above self.now number }
    {
        match self.above.get(number as usize) {
            Some(types) => types.as_slice(),
            None => &[],
        }
    }

    /// The marks of the types above this one, where there are any.
    pub(crate) fn marks(&self, number: u32) -> Option<&Marks>
        ensures exact { IfSome result
            (λ m. (n : ℕ) → is_marked m.now n ≡ is_above self.now number n) }
    {
        let number = number as usize;
        if number < self.first {
            return None;
        }
        match self.marks.get(number - self.first) {
            None => None,
            Some(marks) => marks.as_ref(),
        }
    }

    /// Whether the one type stands above the other.
    fn is_above(&self, from: u32, to: u32) -> bool
        ensures exact { result ≡ is_above self.now from to }
    {
        match self.marks(from) {
            Some(marks) => marks.has(to),
            None => self.types_above(from).contains(&to),
        }
    }

    /// The rank of a conversion from objects of one type to those of another.
    pub(crate) fn class_rank(&self, from: u32, to: u32) -> Option<u8>
        ensures exact { result ≡ class_rank self.now from to }
    {
        if from == to {
            Some(0)
        } else if self.is_above(from, to) {
            Some(4)
        } else {
            None
        }
    }
}

/// How many short lists stand in front of the first other one.
fn short_in_front(above: &[Vec<u32>]) -> usize
    ensures within { result ≤ length above.now }
{
    above
        .iter()
        .take_while(|types| is_short(types.as_slice()))
        .count()
}

/// The marks of the lists from this one on.
fn marks_from(
    alloc: Global,
    above: &[Vec<u32>],
    first: usize,
) -> Result<Vec<Option<Marks>>, AllocError>
    requires within { first ≤ length above.now }
    ensures marked { IfOk result
        (λ marks. AreMarked first marks.items (map (λ v. v.items) above.now)) }
{
    let mut all = Vec::with_capacity(alloc, above.len() - first)?;
    for number in first..above.len() {
        let marks = marks_of(alloc, above[number].as_slice())?;
        all.push(marks)?;
    }
    Ok(all)
}
