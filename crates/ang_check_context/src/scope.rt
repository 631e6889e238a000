//! The parameters and locals that are alive, and their names.
ghost use Rattle.std.specs.Prelude.{◌≡◌, ◌-◌, ◌++◌, ◌∷◌, [], OnErr, OnOk, length, slice_get, take};
ghost use Rattle.ang_check_context.specs.Numbered.{AreNumbered};

use ang_index::Index;
use ang_names_known::BorrowedText;
use ang_types::ArgType;
use std::alloc::{AllocError, Global};
use std::marker::Model;

/// A parameter or a local.
#[derive(Drop)]
pub struct LocalVariable<'a> {
    /// Its name, empty for a parameter without one and for `this`.
    pub name: BorrowedText<'a>,
    /// Its type.
    pub ty: ArgType,
    /// Whether it can't be assigned.
    pub read_only: bool,
}

/// The class in whose body an expression stands.
#[derive(Clone, Copy)]
pub struct Within {
    /// The class's number among the families.
    pub family: usize,
    /// Whether `this` may not be changed.
    pub read_only: bool,
}

/// The scope under whose number names stand in the index of locals.
const LOCALS: u64 = 0;

/// Puts a local after the others. After want of memory the list is as before.
#[tactic(auto, using(crate::proofs::NumberedLocals::numbered_more, crate::proofs::NumberedLocals::numbered_same))]
fn push_numbered<'a>(
    alloc: Global,
    list: &mut Vec<LocalVariable<'a>>,
    numbers: &mut Index<usize>,
    local: LocalVariable<'a>,
) -> Result<(), AllocError>
    requires numbered { AreNumbered list.old.items numbers.old }
    ensures pushed { OnOk result (list.new.items ≡ list.old.items ++ local.entry ∷ []) }
    ensures unchanged { OnErr result (list.new.items ≡ list.old.items) }
    ensures numbered { AreNumbered list.new.items numbers.new }
{
    list.reserve(1)?;
    numbers.push(alloc, LOCALS, local.name.bytes(), list.len())?;
    list.push_reserved(local);
    Ok(())
}

/// Takes the last local away.
fn pop_numbered(list: &mut Vec<LocalVariable<'_>>, numbers: &mut Index<usize>)
    requires numbered { AreNumbered list.old.items numbers.old }
    ensures popped { list.new.items ≡ take (length list.old.items - 1) list.old.items }
    ensures numbered { AreNumbered list.new.items numbers.new }
{
    if let Some(local) = list.pop() {
        numbers.pop(LOCALS, local.name.bytes());
    }
}

/// Takes away the locals from number `left` on, the last one first.
fn cut(list: &mut Vec<LocalVariable<'_>>, numbers: &mut Index<usize>, left: usize)
    requires numbered { AreNumbered list.old.items numbers.old }
    ensures cut { list.new.items ≡ take left list.old.items }
    ensures numbered { AreNumbered list.new.items numbers.new }
{
    while left < list.len() {
        pop_numbered(list, numbers);
    }
}

/// The last of some numbers.
fn last_of(numbers: &[usize]) -> Option<usize>
    ensures exact { result ≡ slice_get numbers.now (length numbers.now - 1) }
{
    numbers.last().copied()
}

/// The parameters and locals that are alive, the innermost last. Contracts see the list of them.
///
/// Beside it stand their numbers by name, so that no call that looks for one goes through the list.
#[derive(Drop)]
pub struct Locals<'a> {
    list: Vec<LocalVariable<'a>>,
    numbers: Index<usize>,
}

impl<'a> Model for Locals<'a> {
    ghost use Rattle.std.specs.Prelude.{List};
    ghost use Rattle.ang_check_context.specs.declared.scope.LocalVariable.{LocalVariable as Variable};
    ghost use Rattle.ang_check_context.specs.Numbered.{AreNumbered};

    ghost Value = { List Variable };

    ghost view = { λ l. l.list.items };

    ghost invariant = { λ l. AreNumbered l.list.items l.numbers };
}

impl<'a> Locals<'a> {
    ghost use Rattle.std.specs.List.{list_any};
    ghost use Rattle.std.specs.Prelude.{◌≡◌, ◌++◌, ◌∷◌, [], OnErr, OnOk};
    ghost use Rattle.std.specs.Prelude.{bytes_eq, drop, length, option_copied, slice_get, take};
    ghost use Rattle.ang_check_context.specs.Scope as spec;

    /// None is alive yet. It takes no memory.
    #[tactic(auto, using(crate::proofs::NumberedLocals::numbered_none))]
    pub fn new(alloc: Global) -> Locals<'a>
        ensures none { result ≡ [] }
    {
        Locals {
            list: Vec::new(alloc),
            numbers: Index::new(alloc),
        }
    }

    /// How many are alive.
    pub fn len(&self) -> usize
        ensures exact { result ≡ length self.now }
    {
        self.list.len()
    }

    /// One more is alive, the innermost. After want of memory they are as before.
    ///
    /// The only error is want of memory.
    pub fn push(&mut self, alloc: Global, local: LocalVariable<'a>) -> Result<(), AllocError>
        ensures pushed { OnOk result (self.new ≡ self.old ++ local.entry ∷ []) }
        ensures unchanged { OnErr result (self.new ≡ self.old) }
    {
        push_numbered(alloc, &mut self.list, &mut self.numbers, local)
    }

    /// The `left` outermost stay alive, and the others end; where there are no more than `left`, all stay.
    /// Its time goes by how many end, and it takes no memory.
    pub fn truncate(&mut self, left: usize)
        ensures cut { self.new ≡ take left self.old }
    {
        cut(&mut self.list, &mut self.numbers, left)
    }

    /// The one with this number.
    pub(crate) fn get(&self, number: usize) -> Option<&LocalVariable<'a>>
        ensures exact { option_copied result ≡ slice_get self.now number }
    {
        self.list.get(number)
    }

    /// The number of the innermost local or parameter of the name. It takes no memory.
    #[tactic(auto, using(crate::proofs::NumberedLocals::last_found))]
    pub fn last_named(&self, name: &[u8]) -> Option<usize>
        ensures exact { result ≡ spec.last_named name.now 0 self.now }
    {
        last_of(self.numbers.find(LOCALS, name))
    }

    /// Whether one of those from number `start` on has the name. It takes no memory.
    #[tactic(auto, using(crate::proofs::NumberedLocals::any_none, crate::proofs::NumberedLocals::any_some))]
    pub fn has_from(&self, start: usize, name: &[u8]) -> bool
        ensures exact { result ≡ list_any (λ p. bytes_eq p.name name.now) (drop start self.now) }
    {
        match self.last_named(name) {
            None => false,
            Some(number) => start <= number,
        }
    }
}
