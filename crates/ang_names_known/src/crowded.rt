//! The methods of names that very many methods have: what each family has of them is listed once.
ghost use Rattle.std.specs.Prelude.{◌≡◌, IfOk, IfSome, OnOk, List};
ghost use Rattle.ang_names_known.specs.Crowded as spec;
ghost use Rattle.ang_names_known.specs.MethodPlaces.{AreFound, found_in};
ghost use Rattle.ang_names_known.specs.NameIndex.{IndexesMethods};
ghost use Rattle.ang_names_known.specs.Lookup as lookup;

use crate::borrowed::BorrowedText;
use crate::methods::{MethodPlace, methods_in};
use crate::names::Family;
use crate::numbering::method_count;
use ang_index::Index;
use std::alloc::{AllocError, Global};

/// How many methods of a name are many: families have lists of them as long as there is room.
const MANY: usize = 64;
/// How many are very many: each family has a list of them.
const VERY_MANY: usize = 256;
/// As many places as a list takes the memory of beside its own.
const PLACES_BESIDE: usize = 54;
/// For so many places there is room in the lists of many, and for so many more for each method of a build.
const ROOM: usize = 327_680;

const ROOM_FOR_EACH: usize = 48;

/// For names that very many methods have, the methods that each family has.
#[derive(Drop)]
pub(crate) struct CrowdedMethods {
    lists: Vec<Vec<MethodPlace>>,
    /// The numbers of the lists, by the family's number and the name.
    numbers: Index<usize>,
}

/// The names that so many of the methods have. Where fewer methods are in all, none is looked at.
///
/// The only error is want of memory.
fn crowded_names<'a>(
    alloc: Global,
    families: &'a [Family],
    many: usize,
) -> Result<Vec<BorrowedText<'a>>, AllocError> {
    let mut names = Vec::new(alloc);
    if method_count(families) < many {
        return Ok(names);
    }
    let mut counted = Index::new(alloc);
    for family in families {
        push_crowded(alloc, family, many, &mut counted, &mut names)?;
    }
    Ok(names)
}

/// Counts the names of a family's methods, and puts those in that are met so often now.
fn push_crowded<'a>(
    alloc: Global,
    family: &'a Family,
    many: usize,
    counted: &mut Index<usize>,
    names: &mut Vec<BorrowedText<'a>>,
) -> Result<(), AllocError> {
    let methods = family.methods.as_slice();
    for method in methods {
        let name = method.function.name.as_slice();
        counted.push(alloc, 0, name, 0)?;
        if counted.find(0, name).len() == many {
            names.push(BorrowedText::new(name))?;
        }
    }
    Ok(())
}

/// Puts the methods of a name in that a family has. The list has no room for more.
fn put(
    alloc: Global,
    crowded: &mut CrowdedMethods,
    families: &[Family],
    index: &Index<usize>,
    family: usize,
    name: &[u8],
) -> Result<(), AllocError>
    requires indexed { IndexesMethods families.now index.now }
    requires right { spec.AreRight families.now crowded.old }
    ensures right { OnOk result (spec.AreRight families.now crowded.new) }
{
    let found = methods_in(alloc, families, index, family, name)?;
    let list = Vec::from_slice(alloc, found.as_slice())?;
    let number = crowded.lists.len();
    crowded.lists.push(list)?;
    crowded.numbers.push(alloc, family as u64, name, number)
}

/// How many places the last list takes the memory of.
fn last_size(crowded: &CrowdedMethods) -> usize {
    match crowded.lists.last() {
        None => 0,
        Some(list) => list.len().saturating_add(PLACES_BESIDE),
    }
}

/// The same while there is room for places. What is not listed is looked for at each call.
fn put_where_room(
    alloc: Global,
    crowded: &mut CrowdedMethods,
    families: &[Family],
    index: &Index<usize>,
    family: usize,
    name: &[u8],
    room: &mut usize,
) -> Result<(), AllocError>
    requires indexed { IndexesMethods families.now index.now }
    requires right { spec.AreRight families.now crowded.old }
    ensures right { OnOk result (spec.AreRight families.now crowded.new) }
{
    if *room == 0 {
        return Ok(());
    }
    put(alloc, crowded, families, index, family, name)?;
    *room = room.saturating_sub(last_size(crowded));
    Ok(())
}

/// Puts the methods of a name in that each family has.
fn put_name(
    alloc: Global,
    crowded: &mut CrowdedMethods,
    families: &[Family],
    index: &Index<usize>,
    name: &[u8],
    room: &mut usize,
) -> Result<(), AllocError>
    requires indexed { IndexesMethods families.now index.now }
    requires right { spec.AreRight families.now crowded.old }
    ensures right { OnOk result (spec.AreRight families.now crowded.new) }
{
    for family in 0..families.len() {
        put_where_room(alloc, crowded, families, index, family, name, room)?;
    }
    Ok(())
}

/// Puts the methods of a name in that each family has, where those of the first are not there yet.
fn put_new_name(
    alloc: Global,
    crowded: &mut CrowdedMethods,
    families: &[Family],
    index: &Index<usize>,
    name: &[u8],
    room: &mut usize,
) -> Result<(), AllocError>
    requires indexed { IndexesMethods families.now index.now }
    requires right { spec.AreRight families.now crowded.old }
    ensures right { OnOk result (spec.AreRight families.now crowded.new) }
{
    if listed(crowded, 0, name).is_some() {
        return Ok(());
    }
    put_name(alloc, crowded, families, index, name, room)
}

/// Puts the methods of names in that so many have.
fn put_names(
    alloc: Global,
    crowded: &mut CrowdedMethods,
    families: &[Family],
    index: &Index<usize>,
    many: usize,
    room: &mut usize,
) -> Result<(), AllocError>
    requires indexed { IndexesMethods families.now index.now }
    requires right { spec.AreRight families.now crowded.old }
    ensures right { OnOk result (spec.AreRight families.now crowded.new) }
{
    let names = crowded_names(alloc, families, many)?;
    for name in names.as_slice() {
        put_new_name(alloc, crowded, families, index, name.bytes(), room)?;
    }
    Ok(())
}

/// For how many places there is room in the lists of many.
fn room_for(families: &[Family]) -> usize {
    method_count(families)
        .saturating_mul(ROOM_FOR_EACH)
        .saturating_add(ROOM)
}

/// No lists: what is looked for is looked for at each call. It takes no memory.
pub(crate) fn no_lists(alloc: Global) -> CrowdedMethods
    ensures right { (fs : List Family) → spec.AreRight fs result }
{
    CrowdedMethods {
        lists: Vec::new(alloc),
        numbers: Index::new(alloc),
    }
}

/// The methods of names that very many have, and of those that many have as long as there is room.
///
/// The only error is want of memory.
pub(crate) fn crowded_methods(
    alloc: Global,
    families: &[Family],
    index: &Index<usize>,
) -> Result<CrowdedMethods, AllocError>
    requires indexed { IndexesMethods families.now index.now }
    ensures right { IfOk result (λ crowded. spec.AreRight families.now crowded) }
{
    let mut crowded = no_lists(alloc);
    let mut all = usize::MAX;
    put_names(alloc, &mut crowded, families, index, VERY_MANY, &mut all)?;
    let used = usize::MAX.saturating_sub(all);
    let mut room = room_for(families).saturating_sub(used);
    put_names(alloc, &mut crowded, families, index, MANY, &mut room)?;
    Ok(crowded)
}

/// The list of the methods of a name that a family has, if there is one. It takes no memory.
pub(crate) fn listed<'a>(
    crowded: &'a CrowdedMethods,
    family: usize,
    name: &[u8],
) -> Option<&'a [MethodPlace]>
    ensures there { (fs : List Family) → spec.AreRight fs crowded.now →
        IfSome result (λ list. AreFound fs list.now) }
    ensures exact { (fs : List Family) → spec.AreRight fs crowded.now →
        IfSome result (λ list. found_in fs list.now ≡ lookup.methods_named fs family name.now) }
{
    let number = crowded.numbers.find(family as u64, name).first()?;
    let list = crowded.lists.get(*number)?;
    Some(list.as_slice())
}
