//! What a module of a mask sees of a registration list.
ghost use Rattle.std.specs.Prelude.{◌≡◌, ◌<◌, ◌≤◌, false, length, map, slice_index_or, Some, IfOk, IfSome, IsTrue, option_map};
ghost use Rattle.std.specs.Option.{option_copied};
ghost use Rattle.std.specs.List.{list_all};
ghost use Rattle.ang_view.specs.Hidden.{hidden, hidden_entry};
ghost use Rattle.ang_view.specs.Named as spec;
ghost use Rattle.ang_view.specs.Only.{kept_entry, only};
ghost use Rattle.ang_view.specs.SeenTypes as types;
ghost use Rattle.ang_view.specs.Types.{enumeration_named, is_enumeration_named, is_type_named, type_named};
ghost use Rattle.ang_view.specs.Registration.{entry_at, is_type, is_function, is_spelled_with, mentions, is_number, is_named_by, named, has_mask_for, is_seen, seen_entry, seen, is_function_named, function_named};

use crate::by_name::{
    BARE, index_of, maker_scope, member_scope, push_names, take_names, values_of,
};
use crate::copy::{copy_entries, copy_entry, copy_of};
use crate::lookup::{is_enumeration_named, is_type_named};
use crate::{Entry, EntryKind};
use ang_index::Index;
use ang_kinds::{EntityNo, Mask, Signature, TypeRef};
use std::alloc::{AllocError, Global};
use std::marker::Model;

/// What a module of a mask sees of a registration list: the list, in which each entry that it does not
/// see is a blank. Numbers are those of the list (docs/HOST.md, "Masks").
///
/// Contracts see the list. Beside it stand the numbers of its entries by name, of members and factories by type, and of
/// values by their own names, so that none of the calls that look for them goes through the list, and none takes memory.
#[derive(Drop)]
pub struct View {
    entries: Vec<Option<Entry>>,
    index: Index<EntityNo>,
    values: Index<EntityNo>,
}

impl Model for View {
    ghost use Rattle.std.specs.Prelude.{◌≤◌, length};
    ghost use Rattle.ang_view.specs.Named.{Indexes, scope_in, value_scope_in};
    ghost use Rattle.ang_view.specs.Registration.{RegistrationList};

    ghost Value = { RegistrationList };

    ghost view = { λ v. v.entries.items };

    ghost invariant = { λ v. (length v.entries.items ≤ 1024)
        × Indexes scope_in v.entries.items v.index
        × Indexes value_scope_in v.entries.items v.values };
}

impl View {
    ghost use Rattle.std.specs.Prelude.{◌≡◌, ◌<◌, ◌≤◌, ◌++◌, ◌∷◌, [], length, map, OnErr, OnOk};
    ghost use Rattle.ang_view.specs.Blanks.{blanked, left_outside_range};
    ghost use Rattle.ang_view.specs.Only.{only};

    /// A list without entries. It takes no memory.
    #[tactic(auto, using(crate::proofs::Named::none_indexed))]
    pub fn new(alloc: Global) -> View
        ensures empty { result ≡ [] }
    {
        View {
            entries: Vec::new(alloc),
            index: Index::new(alloc),
            values: Index::new(alloc),
        }
    }

    /// Puts an entry or a blank last, which then has the number that was the list's length. After want of memory the list is
    /// as before.
    ///
    /// The only error is want of memory.
    #[tactic(auto, using(crate::proofs::Named::one_more_indexed, crate::proofs::Named::same_indexed))]
    pub fn push(&mut self, alloc: Global, entry: Option<Entry>) -> Result<(), AllocError>
        requires room { length self.old < 1024 }
        ensures pushed { OnOk result (self.new ≡ self.old ++ entry ∷ []) }
        ensures unchanged { OnErr result (self.new ≡ self.old) }
    {
        let number = EntityNo(self.entries.len() as u32);
        self.entries.reserve(1)?;
        push_names(alloc, &mut self.index, &mut self.values, &entry, number)?;
        self.entries.push_reserved(entry);
        Ok(())
    }

    /// The number of entries, blanks included: at most 1,024.
    pub fn len(&self) -> usize
        ensures exact { result ≡ length self.now }
        ensures most { result ≤ 1024 }
    {
        self.entries.len()
    }

    /// The entry of a number, or none where it is not seen, at a blank and past the end.
    pub fn get(&self, number: EntityNo) -> Option<&Entry>
        ensures exact { option_copied result ≡ entry_at self.now number.0 }
    {
        self.entries.get(number.0 as usize)?.as_ref()
    }

    /// The numbers of the seen types, enumerations, functions and global properties of this name, rising. It takes no memory.
    #[tactic(auto, using(crate::proofs::Named::names_are))]
    pub fn find(&self, name: &[u8]) -> &[EntityNo]
        ensures exact { map (λ number. number.0) result.now ≡ spec.find self.now name.now }
    {
        self.index.find(BARE, name)
    }

    /// Whether the entry of this number is a type or enumeration that is seen.
    pub(crate) fn has_type(&self, ty: EntityNo) -> bool
        ensures exact { result ≡ spec.is_type_entry (entry_at self.now ty.0) }
    {
        match self.get(ty) {
            None => false,
            Some(entry) => is_type(entry),
        }
    }

    /// The numbers of the seen methods and properties of this name of the type of this number, or of the seen values of this
    /// name of the enumeration of this number, rising; none where that is no type or enumeration that is seen. It takes no
    /// memory.
    pub fn members(&self, ty: EntityNo, name: &[u8]) -> &[EntityNo]
        ensures exact { map (λ number. number.0) result.now
            ≡ spec.members self.now ty.0 name.now }
    {
        if self.has_type(ty) {
            self.owned(ty, name)
        } else {
            &[]
        }
    }

    /// The numbers of the seen factories of the type of this number, rising; none where that is no type that is seen. It
    /// takes no memory.
    pub fn factories(&self, ty: EntityNo) -> &[EntityNo]
        ensures exact { map (λ number. number.0) result.now ≡ spec.factories self.now ty.0 }
    {
        if self.has_type(ty) {
            self.makers(ty)
        } else {
            &[]
        }
    }

    /// What `members` answers, whether or not the type itself is seen: hidden members of a type that is seen stand in a list
    /// without it. It takes no memory.
    #[tactic(auto, using(crate::proofs::Named::owned_are))]
    pub fn owned(&self, owner: EntityNo, name: &[u8]) -> &[EntityNo]
        ensures exact { map (λ number. number.0) result.now
            ≡ spec.owned self.now owner.0 name.now }
    {
        self.index.find(member_scope(owner), name)
    }

    /// What `factories` answers, whether or not the type itself is seen. It takes no memory.
    #[tactic(auto, using(crate::proofs::Named::makers_are))]
    pub fn makers(&self, owner: EntityNo) -> &[EntityNo]
        ensures exact { map (λ number. number.0) result.now ≡ spec.makers self.now owner.0 }
    {
        self.index.find(maker_scope(owner), &[])
    }

    /// The numbers of the seen values of this name, of whatever enumerations, rising. It takes no memory.
    #[tactic(auto, using(crate::proofs::Named::values_are))]
    pub fn values(&self, name: &[u8]) -> &[EntityNo]
        ensures exact { map (λ number. number.0) result.now ≡ spec.values_named self.now name.now }
    {
        self.values.find(BARE, name)
    }

    /// The number of the type of host objects of this name, or none where it is not seen. What a seen entry names is seen,
    /// and has the number here that it has in the whole list (`laws::types_are_seen`). It takes no memory.
    pub fn find_type(&self, name: &[u8]) -> Option<EntityNo>
        ensures exact { option_map (λ number. number.0) result ≡ type_named self.now name.now }
    {
        first_type(&self.entries, self.find(name), name)
    }

    /// The number of the enumeration of this name, or none where it is not seen. It takes no memory.
    pub fn find_enumeration(&self, name: &[u8]) -> Option<EntityNo>
        ensures exact { option_map (λ number. number.0) result ≡ enumeration_named self.now name.now }
    {
        first_enumeration(&self.entries, self.find(name), name)
    }

    /// The number of the first function of this name that a module of the mask sees. It takes no memory.
    pub fn find_function(&self, mask: Mask, name: &[u8]) -> Option<EntityNo>
        ensures exact { option_map (λ number. number.0) result
            ≡ function_named (seen self.now mask.0) name.now }
    {
        first_function(self, mask, name, self.find(name))
    }

    /// Makes blanks of the entries from one number up to another, which is left out. All others stay, under their numbers.
    /// It takes no memory.
    pub fn blank(&mut self, first: usize, after: usize)
        requires within { after ≤ length self.old }
        ensures blanked { self.new ≡ only (left_outside_range first after) self.old }
    {
        for number in first..after {
            self.blank_one(number);
        }
    }

    /// Makes a blank of the entry of a number.
    fn blank_one(&mut self, number: usize)
        requires there { number < length self.old }
        ensures blanked { self.new ≡ blanked self.old number }
    {
        take_names(
            &mut self.index,
            &mut self.values,
            &self.entries[number],
            EntityNo(number as u32),
        );
        self.entries[number] = None;
    }

    /// All entries and blanks, in order: at most 1,024.
    pub fn entries(&self) -> &[Option<Entry>]
        ensures same { result.now ≡ self.now }
        ensures most { length result.now ≤ 1024 }
    {
        self.entries.as_slice()
    }
}

/// Whether the entry of this number is the type of this name.
fn is_type_at(entries: &[Option<Entry>], number: usize, name: &[u8]) -> bool
    ensures exact { result ≡ is_type_named name.now (entry_at entries.now number) }
{
    match entries.get(number) {
        None => false,
        Some(entry) => is_type_named(entry, name),
    }
}

/// The first of these numbers whose entry is the type of this name.
fn first_type(entries: &[Option<Entry>], numbers: &[EntityNo], name: &[u8]) -> Option<EntityNo>
    ensures exact { option_map (λ number. number.0) result
        ≡ spec.first_of (λ n. is_type_named name.now (entry_at entries.now n)) numbers.now }
{
    for number in numbers {
        if is_type_at(entries, number.0 as usize, name) {
            return Some(*number);
        }
    }
    None
}

/// Whether the entry of this number is the enumeration of this name.
fn is_enumeration_at(entries: &[Option<Entry>], number: usize, name: &[u8]) -> bool
    ensures exact { result ≡ is_enumeration_named name.now (entry_at entries.now number) }
{
    match entries.get(number) {
        None => false,
        Some(entry) => is_enumeration_named(entry, name),
    }
}

/// The first of these numbers whose entry is the enumeration of this name.
fn first_enumeration(
    entries: &[Option<Entry>],
    numbers: &[EntityNo],
    name: &[u8],
) -> Option<EntityNo>
    ensures exact { option_map (λ number. number.0) result
        ≡ spec.first_of (λ n. is_enumeration_named name.now (entry_at entries.now n)) numbers.now }
{
    for number in numbers {
        if is_enumeration_at(entries, number.0 as usize, name) {
            return Some(*number);
        }
    }
    None
}

/// These entries as a view.
fn view_with(alloc: Global, entries: Vec<Option<Entry>>) -> Result<View, AllocError>
    requires few { length entries.items ≤ 1024 }
    ensures same { IfOk result (λ view. view ≡ entries.items) }
{
    let index = index_of(alloc, entries.as_slice())?;
    let values = values_of(alloc, entries.as_slice())?;
    Ok(View {
        entries,
        index,
        values,
    })
}

/// The view of the mask of a whole list.
///
/// The only error is want of memory.
#[tactic(auto, unfolding(crate::specs::Registration::seen))]
pub fn view_of(alloc: Global, list: &View, mask: Mask) -> Result<View, AllocError>
    ensures exact { IfOk result (λ view. view ≡ seen list.now mask.0) }
{
    let view = seen_entries(alloc, list, list.entries(), mask)?;
    view_with(alloc, view)
}

/// What a module of the mask sees of some entries of a list.
fn seen_entries(
    alloc: Global,
    list: &View,
    entries: &[Option<Entry>],
    mask: Mask,
) -> Result<Vec<Option<Entry>>, AllocError>
    ensures exact { IfOk result
        (λ view. view.items ≡ map (seen_entry list.now mask.0) entries.now) }
{
    let mut view = Vec::new(alloc);
    for entry in entries {
        let sight = sight_of(alloc, list, mask, entry)?;
        view.push(sight)?;
    }
    Ok(view)
}

/// A copy of the entry where the mask sees it, else a blank.
fn sight_of(
    alloc: Global,
    list: &View,
    mask: Mask,
    entry: &Option<Entry>,
) -> Result<Option<Entry>, AllocError>
    ensures exact { IfOk result (λ sight. sight ≡ seen_entry list.now mask.0 entry.now) }
{
    let Some(entry) = entry else {
        return Ok(None);
    };
    if !sees(list, mask, entry) {
        return Ok(None);
    }
    Ok(Some(copy_entry(alloc, entry)?))
}

/// What the mask does not see of the list: a view in which each entry that a module of the mask sees is a blank.
/// Denials look there for what a refused use lacks.
///
/// The only error is want of memory.
#[tactic(auto, unfolding(crate::specs::Hidden::hidden))]
pub fn hidden_of(alloc: Global, list: &View, mask: Mask) -> Result<View, AllocError>
    ensures exact { IfOk result (λ view. view ≡ hidden list.now mask.0) }
{
    let view = hidden_entries(alloc, list, list.entries(), mask)?;
    view_with(alloc, view)
}

/// What a module of the mask does not see of some entries of a list.
fn hidden_entries(
    alloc: Global,
    list: &View,
    entries: &[Option<Entry>],
    mask: Mask,
) -> Result<Vec<Option<Entry>>, AllocError>
    ensures exact { IfOk result
        (λ view. view.items ≡ map (hidden_entry list.now mask.0) entries.now) }
{
    let mut view = Vec::new(alloc);
    for entry in entries {
        let rest = rest_of(alloc, list, mask, entry)?;
        view.push(rest)?;
    }
    Ok(view)
}

/// A copy of the entry where the mask does not see it, else a blank.
fn rest_of(
    alloc: Global,
    list: &View,
    mask: Mask,
    entry: &Option<Entry>,
) -> Result<Option<Entry>, AllocError>
    ensures exact { IfOk result (λ rest. rest ≡ hidden_entry list.now mask.0 entry.now) }
{
    let Some(entry) = entry else {
        return Ok(None);
    };
    if sees(list, mask, entry) {
        return Ok(None);
    }
    Ok(Some(copy_entry(alloc, entry)?))
}

/// A copy of the entry where it is to be kept, else a blank.
fn kept_one(
    alloc: Global,
    marks: &[bool],
    number: usize,
    entry: &Option<Entry>,
) -> Result<Option<Entry>, AllocError>
    ensures exact { IfOk result
        (λ kept. kept ≡ kept_entry (λ n. slice_index_or marks.now n false) number entry.now) }
{
    match marks.get(number) {
        Some(true) => copy_of(alloc, entry),
        Some(false) | None => Ok(None),
    }
}

/// Those entries of a list that are marked: each other one is a blank.
#[tactic(auto, unfolding(crate::specs::Only::only))]
fn kept_entries(
    alloc: Global,
    entries: &[Option<Entry>],
    marks: &[bool],
) -> Result<Vec<Option<Entry>>, AllocError>
    ensures exact { IfOk result
        (λ kept. kept.items ≡ only (λ n. slice_index_or marks.now n false) entries.now) }
{
    let mut kept = Vec::new(alloc);
    for (number, entry) in entries.iter().enumerate() {
        let one = kept_one(alloc, marks, number, entry)?;
        kept.push(one)?;
    }
    Ok(kept)
}

/// A view of those entries of a list that are marked: each other one is a blank. Numbers stay.
///
/// The only error is want of memory.
pub fn kept_of(alloc: Global, list: &View, marks: &[bool]) -> Result<View, AllocError>
    ensures exact { IfOk result
        (λ view. view ≡ only (λ n. slice_index_or marks.now n false) list.now) }
{
    let view = kept_entries(alloc, list.entries(), marks)?;
    view_with(alloc, view)
}

/// The whole list as a view, whatever the masks. Denials look up in it the types of what is hidden.
///
/// The only error is want of memory.
pub fn whole_of(alloc: Global, entries: &[Option<Entry>]) -> Result<View, AllocError>
    requires few { length entries.now ≤ 1024 }
    ensures exact { IfOk result (λ view. view ≡ entries.now) }
{
    let view = copy_entries(alloc, entries)?;
    view_with(alloc, view)
}

/// The first of these numbers whose entry is a function of this name that a module of the mask sees.
fn first_function(list: &View, mask: Mask, name: &[u8], numbers: &[EntityNo]) -> Option<EntityNo>
    ensures exact { option_map (λ number. number.0) result
        ≡ spec.first_of (λ n. is_function_named name.now
        (seen_entry list.now mask.0 (entry_at list.now n))) numbers.now }
{
    for number in numbers {
        if sees_function(list, mask, name, list.get(*number)) {
            return Some(*number);
        }
    }
    None
}

fn sees_function(list: &View, mask: Mask, name: &[u8], found: Option<&Entry>) -> bool
    ensures exact { result
        ≡ is_function_named name.now (seen_entry list.now mask.0 (option_copied found.entry)) }
{
    match found {
        None => false,
        Some(entry) => {
            matches!(entry.kind, EntryKind::Function)
                && entry.signature.name.as_slice() == name
                && sees(list, mask, entry)
        }
    }
}

/// Whether a module of the mask sees the entry.
fn sees(list: &View, mask: Mask, entry: &Entry) -> bool
    ensures exact { result ≡ is_seen list.now mask.0 entry.now }
{
    entry.mask.meets(mask) && sees_types(list, mask, entry)
}

/// Whether the masks of all types that the entry's declaration names meet the mask.
fn sees_types(list: &View, mask: Mask, entry: &Entry) -> bool
    ensures exact { result
        ≡ list_all (λ n. has_mask_for mask.0 (entry_at list.now n))
        (named list.now entry.now) }
{
    is_type(entry)
        || sees_owner(list, mask, entry.owner) && sees_signature(list, mask, &entry.signature)
}

/// Whether the entry is a type that declarations can name: a type of host objects, or an enumeration.
pub(crate) fn is_type(entry: &Entry) -> bool
    ensures exact { result ≡ is_type entry.now.kind }
{
    matches!(entry.kind, EntryKind::HostType | EntryKind::Enumeration)
}

fn sees_owner(list: &View, mask: Mask, owner: Option<EntityNo>) -> bool
    ensures exact { result ≡ types.meets_owner list.now mask.0 owner }
{
    match owner {
        None => true,
        Some(number) => !list.has_type(number) || meets(list.get(number), mask),
    }
}

fn sees_signature(list: &View, mask: Mask, signature: &Signature) -> bool
    ensures exact { result ≡ types.meets_signature list.now mask.0 signature.now }
{
    sees_type(list, mask, &signature.result)
        && signature
            .params
            .as_slice()
            .iter()
            .all(|param| sees_type(list, mask, &param.ty))
}

/// Whether each type that is spelled so has a mask that meets the mask.
fn sees_type(list: &View, mask: Mask, ty: &TypeRef) -> bool
    ensures exact { result ≡ types.meets_spelled list.now mask.0 ty.now }
{
    match ty {
        TypeRef::Void | TypeRef::Plain(_) => true,
        TypeRef::Enumeration { name } | TypeRef::Object { name, .. } => list
            .find(name.as_slice())
            .iter()
            .all(|number| sees_spelled(list.get(*number), mask, ty)),
    }
}

/// Whether an entry is no type that is spelled so, or has a mask that meets the mask.
fn sees_spelled(found: Option<&Entry>, mask: Mask, ty: &TypeRef) -> bool
    ensures exact { result
        ≡ types.meets_if_spelled mask.0 ty.now (option_copied found.entry) }
{
    match found {
        None => true,
        Some(entry) => {
            !(is_type(entry) && spells(ty, entry.signature.name.as_slice()))
                || entry.mask.meets(mask)
        }
    }
}

fn meets(found: Option<&Entry>, mask: Mask) -> bool
    ensures exact { result ≡ has_mask_for mask.0 (option_copied found.entry) }
{
    match found {
        None => false,
        Some(entry) => entry.mask.meets(mask),
    }
}

/// Whether the declaration of an entry names another one, which has this number.
pub fn names_entry(entry: &Entry, number: usize, other: &Entry) -> bool
    ensures exact { result ≡ is_named_by entry.now number (Some other.now) }
{
    !is_type(entry)
        && is_type(other)
        && (belongs_to(entry.owner, number)
            || mentions_type(&entry.signature, other.signature.name.as_slice()))
}

/// Whether the owner of an entry is the one of this number.
pub fn belongs_to(owner: Option<EntityNo>, number: usize) -> bool
    ensures exact { result ≡ is_number number owner }
{
    match owner {
        None => false,
        Some(EntityNo(own)) => own as usize == number,
    }
}

/// Whether the signature names the type of this name.
pub fn mentions_type(signature: &Signature, name: &[u8]) -> bool
    ensures exact { result ≡ mentions signature.now name.now }
{
    spells(&signature.result, name)
        || signature
            .params
            .as_slice()
            .iter()
            .any(|param| spells(&param.ty, name))
}

/// Whether the type is spelled with this name.
pub fn spells(ty: &TypeRef, name: &[u8]) -> bool
    ensures exact { result ≡ is_spelled_with name.now ty.now }
{
    match ty {
        TypeRef::Void | TypeRef::Plain(_) => false,
        TypeRef::Enumeration { name: own } | TypeRef::Object { name: own, .. } => {
            own.as_slice() == name
        }
    }
}
