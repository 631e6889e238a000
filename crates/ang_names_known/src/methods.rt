//! The methods that a family has, own and inherited.
ghost use Rattle.std.specs.Prelude.{◌≡◌, ◌++◌, ◌∷◌, List, [], option_map, slice_get, take, IfOk, OnOk};
ghost use Rattle.std.specs.List.{list_any};
ghost use Rattle.ang_names_known.specs.Items.{each_after};
ghost use Rattle.ang_names_known.specs.Lookup as spec;
ghost use Rattle.ang_names_known.specs.NameIndex.{IndexesMethods};
ghost use Rattle.ang_names_known.specs.MethodPlaces as places_spec;
ghost use Rattle.ang_names_known.specs.Nearest.{HasSlots, at_places, methods_declared, nearest_at, of_owner};

use crate::lookup::order_of;
use crate::names::{Family, ScriptMethod};
use ang_index::Index;
use std::alloc::{AllocError, Global};
use std::collections::HashSet;
use std::marker::Model;

/// A method, with the family that declares it.
#[derive(Drop)]
pub struct FoundMethod<'a> {
    owner: usize,
    method: &'a ScriptMethod,
}

impl<'a> Model for FoundMethod<'a> {
    ghost use Rattle.ang_names_known.specs.Lookup as spec;

    ghost Value = { spec.FoundMethod };

    ghost view = { λ f. record { owner = f.owner; method = f.method.now } };
}

impl<'a> FoundMethod<'a> {
    /// The number of the family that declares it.
    pub fn owner(&self) -> usize
        ensures same { result ≡ self.now.owner }
    {
        self.owner
    }

    /// The method.
    #[inline(always)]
    pub fn method(&self) -> &'a ScriptMethod
        ensures same { result.now ≡ self.now.method }
    {
        self.method
    }
}

/// Where a method stands: the number of the family that declares it, and its place among the methods of that. There are
/// lists of very many, and a section has room for far fewer methods than 16 bits number.
#[derive(Clone, Copy)]
pub(crate) struct MethodPlace {
    pub(crate) owner: u16,
    pub(crate) place: u16,
}

/// The method at a place.
#[inline(always)]
pub(crate) fn method_at(families: &[Family], at: MethodPlace) -> Option<FoundMethod<'_>>
    ensures exact { result ≡ places_spec.found_at families.now at }
{
    let owner = at.owner as usize;
    let method = own_methods(families, owner).get(at.place as usize)?;
    Some(FoundMethod { owner, method })
}

/// How many of the methods that were found are gone through for a slot. A set has the slots of all others.
const FEW: usize = 8;

/// The places of the methods of this name that objects of a family have, own and inherited.
pub(crate) fn methods_in(
    alloc: Global,
    families: &[Family],
    index: &Index<usize>,
    family: usize,
    name: &[u8],
) -> Result<Vec<MethodPlace>, AllocError>
    requires indexed { IndexesMethods families.now index.now }
    ensures there { IfOk result (λ found. places_spec.AreFound families.now found.items) }
    ensures exact { IfOk result (λ found. places_spec.found_in families.now found.items
        ≡ spec.methods_named families.now family name.now) }
{
    let mut found = Vec::new(alloc);
    let mut slots = HashSet::new(alloc);
    let order = order_of(families, family);
    for number in order {
        let owner = *number as usize;
        let places = index.find(owner as u64, name);
        push_methods(families, &mut found, &mut slots, owner, places)?;
    }
    Ok(found)
}

/// The methods that a family declares itself.
fn own_methods(families: &[Family], number: usize) -> &[ScriptMethod]
    ensures exact { result.now ≡ methods_declared (slice_get families.now number) }
{
    match families.get(number) {
        None => &[],
        Some(family) => family.methods.as_slice(),
    }
}

/// Puts the methods at these places, of those that a family declares, after those of the families below it.
fn push_methods(
    families: &[Family],
    found: &mut Vec<MethodPlace>,
    slots: &mut HashSet<usize>,
    owner: usize,
    places: &[usize],
) -> Result<(), AllocError>
    requires there { places_spec.AreFound families.now found.old.items }
    requires slots { HasSlots slots.old (places_spec.found_in families.now found.old.items) }
    ensures pushed { OnOk result ((before : List spec.FoundMethod) →
        places_spec.found_in families.now found.old.items
        ≡ each_after spec.if_nearest [] before →
        places_spec.found_in families.now found.new.items
        ≡ each_after spec.if_nearest [] (before
        ++ at_places owner (methods_declared (slice_get families.now owner)) places.now)) }
    ensures there { OnOk result (places_spec.AreFound families.now found.new.items) }
    ensures slots { OnOk result
        (HasSlots slots.new (places_spec.found_in families.now found.new.items)) }
{
    for place in places {
        push_method(families, found, slots, owner, *place)?;
    }
    Ok(())
}

/// Puts a method of a family in, where none of its slot is in front.
fn push_method(
    families: &[Family],
    found: &mut Vec<MethodPlace>,
    slots: &mut HashSet<usize>,
    owner: usize,
    place: usize,
) -> Result<(), AllocError>
    requires there { places_spec.AreFound families.now found.old.items }
    requires slots { HasSlots slots.old (places_spec.found_in families.now found.old.items) }
    ensures pushed { OnOk result (places_spec.found_in families.now found.new.items
        ≡ places_spec.found_in families.now found.old.items
        ++ nearest_at (places_spec.found_in families.now found.old.items)
        (option_map (of_owner owner)
        (slice_get (methods_declared (slice_get families.now owner)) place))) }
    ensures there { OnOk result (places_spec.AreFound families.now found.new.items) }
    ensures slots { OnOk result
        (HasSlots slots.new (places_spec.found_in families.now found.new.items)) }
{
    let Some(method) = own_methods(families, owner).get(place) else {
        return Ok(());
    };
    if has_slot(families, found, slots, method.slot) {
        return Ok(());
    }
    let at = place_of(owner, place)?;
    push_nearest(families, found, slots, at, method.slot)
}

/// A place, if its numbers are no greater than they can be.
fn place_of(owner: usize, place: usize) -> Result<MethodPlace, AllocError>
    ensures owner { IfOk result (λ at. at.owner ≡ owner) }
    ensures place { IfOk result (λ at. at.place ≡ place) }
{
    let Ok(owner) = u16::try_from(owner) else {
        return Err(AllocError);
    };
    let Ok(place) = u16::try_from(place) else {
        return Err(AllocError);
    };
    Ok(MethodPlace { owner, place })
}

/// Puts the method at a place in after all others.
fn push_nearest(
    families: &[Family],
    found: &mut Vec<MethodPlace>,
    slots: &mut HashSet<usize>,
    at: MethodPlace,
    slot: usize,
) -> Result<(), AllocError>
    requires there { places_spec.AreFound families.now found.old.items }
    requires slots { HasSlots slots.old (places_spec.found_in families.now found.old.items) }
    requires method { places_spec.HasMethodOfSlot families.now at slot }
    ensures pushed { OnOk result (found.new.items ≡ found.old.items ++ at ∷ []) }
    ensures slots { OnOk result
        (HasSlots slots.new (places_spec.found_in families.now found.new.items)) }
{
    if found.len() >= FEW {
        slots.insert(slot)?;
    }
    found.push(at)?;
    Ok(())
}

/// Whether some method that was found has this slot.
#[tactic(auto, using(crate::proofs::MethodPlaces::slot_of_both))]
fn has_slot(families: &[Family], found: &[MethodPlace], slots: &HashSet<usize>, slot: usize) -> bool
    requires there { places_spec.AreFound families.now found.now }
    requires slots { HasSlots slots.now (places_spec.found_in families.now found.now) }
    ensures exact { result
        ≡ list_any (spec.stands_in slot) (places_spec.found_in families.now found.now) }
{
    is_among_few(families, found, slot) || slots.contains(&slot)
}

/// Whether the method at a place has this slot.
fn stands_in(families: &[Family], at: MethodPlace, slot: usize) -> bool
    ensures exact { result ≡ places_spec.stands_at families.now slot at }
{
    match method_at(families, at) {
        None => false,
        Some(found) => found.method.slot == slot,
    }
}

fn is_among_few(families: &[Family], found: &[MethodPlace], slot: usize) -> bool
    ensures exact { result
        ≡ list_any (places_spec.stands_at families.now slot) (take 8 found.now) }
{
    found
        .iter()
        .take(FEW)
        .any(|at| stands_in(families, *at, slot))
}
