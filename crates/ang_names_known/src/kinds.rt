//! The kinds of parameters by number, so that what is found out of a kind serves each parameter of it.
ghost use Rattle.std.specs.Prelude.{◌≡◌, ◌<◌, ◌+◌, ◌++◌, ◌∷◌, ℕ, [], IfOk, IfSome, None, OnOk, Some};
ghost use Rattle.std.specs.Prelude.{option_map, slice_get};
ghost use Rattle.ang_names_known.specs.Kinds as spec;
ghost use Rattle.ang_names_known.specs.KindRows as rows_spec;

use crate::lookup::same_type;
use ang_kinds::{Pass, Prim};
use ang_types::ArgType;
use std::alloc::{AllocError, Global};
use std::marker::Model;

/// Where a row stands among the numbers of all rows.
#[derive(Clone, Copy)]
pub(crate) struct Span {
    start: usize,
    count: usize,
}

/// For each of some functions the numbers of its parameters' kinds (`KindTable`), if it is one that can be called. All
/// lie together.
#[derive(Drop)]
pub struct KindRows {
    spans: Vec<Option<Span>>,
    numbers: Vec<u32>,
}

impl Model for KindRows {
    ghost use Rattle.ang_names_known.specs.Kinds.{Rows};
    ghost use Rattle.ang_names_known.specs.KindRows.{AreWithin, rows_of};

    ghost Value = { Rows };

    ghost view = { λ r. rows_of r.numbers.items r.spans.items };

    ghost invariant = { λ r. AreWithin r.numbers.items r.spans.items };
}

impl KindRows {
    /// No row yet. It takes no memory.
    pub fn new(alloc: Global) -> KindRows
        ensures none { result ≡ [] }
    {
        KindRows {
            spans: Vec::new(alloc),
            numbers: Vec::new(alloc),
        }
    }

    /// The row at a place. It takes no memory.
    #[tactic(auto, using(crate::proofs::KeptNumbers::row_is, crate::proofs::KeptNumbers::no_row))]
    #[inline(always)]
    pub fn row(&self, place: usize) -> Option<&[u32]>
        ensures exact { option_map (λ row. row.now) result ≡ rows_spec.row_at self.now place }
    {
        let span = (*self.spans.get(place)?)?;
        let after = &self.numbers.as_slice()[span.start..];
        Some(&after[..span.count])
    }

    /// Puts a row in at the end.
    ///
    /// The only error is want of memory.
    #[tactic(auto, using(crate::proofs::KeptNumbers::rows_more, crate::proofs::KeptNumbers::within_more))]
    pub fn push(&mut self, row: &[u32]) -> Result<(), AllocError>
        ensures pushed { OnOk result (self.new ≡ self.old ++ Some row.now ∷ []) }
    {
        let start = self.numbers.len();
        let count = row.len();
        self.numbers.extend_from_slice(row)?;
        self.spans.push(Some(Span { start, count }))?;
        Ok(())
    }

    /// Puts no row in at the end, for what can't be called.
    ///
    /// The only error is want of memory.
    #[tactic(auto, using(crate::proofs::KeptNumbers::within_none))]
    pub fn leave_out(&mut self) -> Result<(), AllocError>
        ensures pushed { OnOk result (self.new ≡ self.old ++ None ∷ []) }
    {
        self.spans.push(None)?;
        Ok(())
    }
}

/// How many hints there are: one for each type of a build and each passing.
const HINTS: usize = 20_544;
/// How many functions are few, so that no call has many of them to choose from.
const FEW: usize = 16;
/// The number of the first kind after those of receivers.
const FIRST: u32 = 2;

/// Kinds that have numbers, as they are met. A kind is a type and a passing; one may have several numbers. They rise
/// from 2, since 0 and 1 are those of receivers (`receiver_number`).
#[derive(Drop)]
pub struct KindTable {
    kinds: Vec<(ArgType, Pass)>,
    /// By a kind's hint the number of the last one that was met.
    hints: Vec<u32>,
}

impl Model for KindTable {
    ghost use Rattle.std.specs.Prelude.{List};
    ghost use Rattle.ang_names_known.specs.Kinds.{Kind};

    ghost Value = { List Kind };

    ghost view = { λ t. t.kinds.items };
}

fn primitive_hint(primitive: Prim) -> usize
    ensures few { result < 16 }
{
    match primitive {
        Prim::Bool => 2,
        Prim::I8 => 3,
        Prim::I16 => 4,
        Prim::I32 => 5,
        Prim::I64 => 6,
        Prim::U8 => 7,
        Prim::U16 => 8,
        Prim::U32 => 9,
        Prim::U64 => 10,
    }
}

fn pass_hint(pass: Pass) -> usize
    ensures few { result < 4 }
{
    match pass {
        Pass::Value => 0,
        Pass::RefIn => 1,
        Pass::RefOut => 2,
        Pass::RefInOut => 3,
    }
}

/// One of 1,280 numbers. No build has types of more.
fn among_types(number: u32) -> usize
    ensures few { result < 1280 }
{
    number as usize % 1280
}

/// A number of each type, below 5,136: no build has a type and an enumeration of one number.
fn type_hint(ty: ArgType) -> usize
    ensures few { result < 5136 }
{
    match ty {
        ArgType::Void => 0,
        ArgType::Null => 1,
        ArgType::Plain(primitive) => primitive_hint(primitive),
        ArgType::Enumeration { number } => 16 + among_types(number) * 2,
        ArgType::Object { number, read_only } => 16 + among_types(number) * 2 + read_only as usize,
        ArgType::Handle { number, read_only } => {
            2576 + among_types(number) * 2 + read_only as usize
        }
    }
}

/// Where to look for a kind.
fn hint_of(ty: ArgType, pass: Pass) -> usize {
    type_hint(ty) * 4 + pass_hint(pass)
}

/// The number of the kind at a place, if a number can be as great.
fn number_of_place(place: usize) -> Option<u32>
    ensures exact { IfSome result (λ number. number ≡ place + 2) }
{
    let place = u32::try_from(place).ok()?;
    place.checked_add(FIRST)
}

fn is_kind(kind: &(ArgType, Pass), ty: ArgType, pass: Pass) -> bool
    ensures exact { result ≡ spec.is_kind kind.now ty pass }
{
    same_type(kind.0, ty) && kind.1 == pass
}

impl KindTable {
    /// No kind yet, for so many functions. Where these are few, less memory is taken, and a kind gets a new number each
    /// time.
    ///
    /// The only error is want of memory.
    pub fn new(alloc: Global, functions: usize) -> Result<KindTable, AllocError>
        ensures none { IfOk result (λ table. table ≡ []) }
    {
        let count = if functions < FEW { 0 } else { HINTS };
        Ok(KindTable {
            kinds: Vec::new(alloc),
            hints: vec![in alloc; 0; count]?,
        })
    }

    /// The kinds, in the order of their numbers.
    pub fn into_kinds(self) -> Vec<(ArgType, Pass)>
        ensures same { result.items ≡ self }
    {
        self.kinds
    }

    /// The number that a hint gives a kind, if it is one of this kind.
    #[tactic(auto, using(crate::proofs::KeptNumbers::behind_receivers, crate::proofs::SameKinds::kind_is))]
    fn hinted(&self, hint: usize, ty: ArgType, pass: Pass) -> Option<u32>
        ensures is { IfSome result
            (λ n. (t : ℕ) → slice_get (spec.numbered t self.now) n ≡ Some (ty, pass)) }
    {
        let number = *self.hints.get(hint)?;
        let place = number.checked_sub(FIRST)?;
        let kind = self.kinds.get(place as usize)?;
        if is_kind(kind, ty, pass) {
            Some(number)
        } else {
            None
        }
    }

    fn note(&mut self, hint: usize, number: u32)
        ensures unchanged { self.new ≡ self.old }
    {
        if let Some(noted) = self.hints.get_mut(hint) {
            *noted = number;
        }
    }

    /// A new number of a kind.
    #[tactic(auto, using(crate::proofs::KeptNumbers::keeps_more, crate::proofs::KeptNumbers::last_is))]
    fn add(&mut self, hint: usize, ty: ArgType, pass: Pass) -> Result<u32, AllocError>
        ensures keeps { OnOk result
            ((t : ℕ) → spec.Keeps (spec.numbered t self.old) (spec.numbered t self.new)) }
        ensures is { IfOk result
            (λ n. (t : ℕ) → slice_get (spec.numbered t self.new) n ≡ Some (ty, pass)) }
    {
        let Some(number) = number_of_place(self.kinds.len()) else {
            return Err(AllocError);
        };
        self.kinds.push((ty, pass))?;
        self.note(hint, number);
        Ok(number)
    }

    /// A number of a kind, a new one where none is found.
    ///
    /// The only error is want of memory; it is answered too where no `u32` is left for a new number.
    #[tactic(auto, using(crate::proofs::KeptNumbers::keeps_itself))]
    pub fn number(&mut self, ty: ArgType, pass: Pass) -> Result<u32, AllocError>
        ensures keeps { OnOk result
            ((t : ℕ) → spec.Keeps (spec.numbered t self.old) (spec.numbered t self.new)) }
        ensures is { IfOk result
            (λ n. (t : ℕ) → slice_get (spec.numbered t self.new) n ≡ Some (ty, pass)) }
    {
        let hint = hint_of(ty, pass);
        match self.hinted(hint, ty, pass) {
            Some(number) => Ok(number),
            None => self.add(hint, ty, pass),
        }
    }
}
