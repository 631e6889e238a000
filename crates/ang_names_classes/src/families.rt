//! The classes and interfaces of a build, with what stands above each.
ghost use Rattle.std.specs.Prelude.{◌≡◌, ◌≤◌, ◌<◌, [], All, length, slice_get, IfOk};
ghost use Rattle.std.specs.Option.{option_map_or};
ghost use Rattle.ang_names_graph.specs.Graphs as graphs;
ghost use Rattle.ang_names_graph.specs.Graphs.{leads};
ghost use Rattle.ang_names_graph.specs.Tables.{Shows};
ghost use Rattle.ang_names_known.specs.Items.{each_after};
ghost use Rattle.ang_names_known.specs.Spaces as spaces;
ghost use Rattle.ang_names_classes.specs.Headings as headings;
ghost use Rattle.ang_names_classes.specs.Hierarchy as hierarchy;
ghost use Rattle.ang_names_classes.specs.Tables as tables;
ghost use Rattle.ang_names_classes.specs.Resolved as spec;

use crate::counting::add_bytes;
use crate::members::{add_bodies, constructors_of, fields_of, methods_of};
use crate::{Tables, field_count};
use ang_kinds::List;
use ang_names_graph::{above_of, after_first, first_of, order_of, reach_of};
use ang_names_known::{Family, Field, Space};
use ang_names_listed::{Declaring, copy_at};
use std::alloc::{AllocError, Global};

/// The base class of a class or an interface, by the table of base classes.
fn base_of(families: &[Declaring<'_, '_>], bases: &[bool], number: usize) -> Option<usize>
    requires few { length families.now ≤ 256 }
    requires there { number < length families.now }
    requires bases { Shows bases.now (length families.now) (hierarchy.is_base families.now) }
    ensures exact { result ≡ spec.first_below (hierarchy.is_base families.now number)
        (length families.now) }
{
    first_of(bases, families.len(), number)
}

/// All that stands above one, by the table of it.
fn all_above(
    alloc: Global,
    families: &[Declaring<'_, '_>],
    above: &[bool],
    number: usize,
) -> Result<Vec<usize>, AllocError>
    requires few { length families.now ≤ 256 }
    requires there { number < length families.now }
    requires above { Shows above.now (length families.now)
        (leads (hierarchy.is_parent families.now) (length families.now)) }
    ensures exact { IfOk result (λ places. places.items
        ≡ graphs.above (hierarchy.is_parent families.now) (length families.now) number) }
    ensures few { IfOk result (λ places. All (λ k. k < 256) places.items) }
{
    above_of(alloc, above, families.len(), number)
}

/// Itself and the base classes of a class or an interface, the nearest first, by the table of base classes.
fn chain_of(
    alloc: Global,
    families: &[Declaring<'_, '_>],
    bases: &[bool],
    number: usize,
) -> Result<Vec<usize>, AllocError>
    requires few { length families.now ≤ 256 }
    requires there { number < length families.now }
    requires bases { Shows bases.now (length families.now) (hierarchy.is_base families.now) }
    ensures exact { IfOk result (λ places. places.items
        ≡ graphs.order_of (hierarchy.is_base families.now) (length families.now) number) }
    ensures few { IfOk result (λ places. All (λ k. k < 256) places.items) }
{
    order_of(alloc, bases, families.len(), number)
}

/// Itself and all that stands above one, the nearest first, by the table of bases.
fn ancestors_of(
    alloc: Global,
    families: &[Declaring<'_, '_>],
    parents: &[bool],
    number: usize,
) -> Result<Vec<usize>, AllocError>
    requires few { length families.now ≤ 256 }
    requires there { number < length families.now }
    requires parents { Shows parents.now (length families.now) (hierarchy.is_parent families.now) }
    ensures exact { IfOk result (λ places. places.items
        ≡ graphs.order_of (hierarchy.is_parent families.now) (length families.now) number) }
    ensures few { IfOk result (λ places. All (λ k. k < 256) places.items) }
{
    order_of(alloc, parents, families.len(), number)
}

/// Itself and the families from which it has methods, the nearest first.
fn order_in(
    alloc: Global,
    space: &Space<'_>,
    families: &[Declaring<'_, '_>],
    known: &Tables,
    is_class: bool,
    number: usize,
) -> Result<Vec<usize>, AllocError>
    requires few { length families.now ≤ 256 }
    requires there { number < length families.now }
    requires known { tables.AreTables space.now families.now known.now }
    ensures exact { IfOk result (λ places. places.items ≡ graphs.order_of
        (spec.gives_members families.now is_class) (length families.now) number) }
    ensures few { IfOk result (λ places. All (λ k. k < 256) places.items) }
{
    if is_class {
        chain_of(alloc, families, &known.bases, number)
    } else {
        ancestors_of(alloc, families, &known.parents, number)
    }
}

/// The number of a family as a byte.
fn byte_of(place: usize) -> u8
    requires few { place < 256 }
    ensures same { result ≡ place }
{
    place as u8
}

/// The same places, a byte each, with room for no more: each family of a chain keeps a list of all those above it.
fn as_bytes(alloc: Global, places: &[usize]) -> Result<List<u8>, AllocError>
    requires few { All (λ k. k < 256) places.now }
    ensures same { IfOk result (λ bytes. bytes ≡ places.now) }
{
    let mut bytes = Vec::with_capacity(alloc, places.len())?;
    for place in places {
        bytes.push(byte_of(*place))?;
    }
    Ok(List::from_vec(bytes))
}

/// To how many it leads through what its fields can hold, by the table of what each one reaches.
fn rank_of(
    space: &Space<'_>,
    families: &[Declaring<'_, '_>],
    reach: &[bool],
    number: usize,
) -> usize
    requires few { length families.now ≤ 256 }
    requires there { number < length families.now }
    requires reach { Shows reach.now (length families.now)
        (leads (hierarchy.holds space.now families.now) (length families.now)) }
    ensures exact { result
        ≡ graphs.reach_of (hierarchy.holds space.now families.now) (length families.now) number }
{
    reach_of(reach, families.len(), number)
}

/// How many fields the class or interface of this number declares itself.
fn field_count_at(families: &[Declaring<'_, '_>], number: usize) -> usize
    ensures exact { (E : spaces.Space) →
        result
        ≡ length (option_map_or (hierarchy.field_types E) (slice_get families.now number) []) }
{
    match families.get(number) {
        None => 0,
        Some(family) => field_count(family),
    }
}

/// A byte for each field that the classes and interfaces of these numbers declare.
fn fields_at(
    alloc: Global,
    families: &[Declaring<'_, '_>],
    places: &[usize],
) -> Result<Vec<u8>, AllocError>
    ensures exact { (E : spaces.Space) → IfOk result (λ fields. length fields.items
        ≡ length (hierarchy.field_types_at E families.now places.now)) }
{
    let mut fields = Vec::new(alloc);
    for place in places {
        add_bytes(field_count_at(families, *place), &mut fields)?;
    }
    Ok(fields)
}

/// A byte for each field that the base classes of a class have.
fn inherited_fields(
    alloc: Global,
    families: &[Declaring<'_, '_>],
    bases: &[bool],
    number: usize,
) -> Result<Vec<u8>, AllocError>
    requires few { length families.now ≤ 256 }
    requires there { number < length families.now }
    requires bases { Shows bases.now (length families.now) (hierarchy.is_base families.now) }
    ensures exact { (E : spaces.Space) → IfOk result
        (λ fields. length fields.items ≡ spec.inherited_fields E families.now number) }
{
    let chain = chain_of(alloc, families, bases, number)?;
    fields_at(alloc, families, after_first(&chain))
}

/// The fields that the class of this number declares itself, numbered after those of its base classes.
fn own_fields(
    alloc: Global,
    space: &Space<'_>,
    families: &[Declaring<'_, '_>],
    bases: &[bool],
    number: usize,
    family: &Declaring<'_, '_>,
) -> Result<List<Field>, AllocError>
    requires few { length families.now ≤ 256 }
    requires there { number < length families.now }
    requires bases { Shows bases.now (length families.now) (hierarchy.is_base families.now) }
    ensures exact { IfOk result (λ fs. fs ≡ each_after (spec.fields_after space.now family.now
        (spec.inherited_fields space.now families.now number)) [] family.now.shape.members) }
{
    let inherited = inherited_fields(alloc, families, bases, number)?;
    fields_of(alloc, space, family, &inherited)
}

/// The class or interface of this number, before whose bodies stand these, a byte each.
fn family_with(
    alloc: Global,
    space: &Space<'_>,
    families: &[Declaring<'_, '_>],
    known: &Tables,
    number: usize,
    before: &[u8],
    family: &Declaring<'_, '_>,
) -> Result<Family, AllocError>
    requires few { length families.now ≤ 256 }
    requires there { number < length families.now }
    requires known { tables.AreTables space.now families.now known.now }
    ensures exact { IfOk result (λ f. f ≡ spec.family_with space.now families.now
        (headings.signatures_of space.now families.now) number (length before.now) family.now) }
{
    let is_class = family.shape().is_class;
    let name = copy_at(alloc, family.text(), &family.name())?;
    let places = all_above(alloc, families, &known.above, number)?;
    let above = as_bytes(alloc, places.as_slice())?;
    let nearest = order_in(alloc, space, families, known, is_class, number)?;
    let order = as_bytes(alloc, nearest.as_slice())?;
    let fields = own_fields(alloc, space, families, &known.bases, number, family)?;
    let methods = methods_of(alloc, space, &known.signatures, family, before)?;
    let constructors = constructors_of(alloc, space, family, before)?;
    Ok(Family {
        name,
        place: family.name().place,
        is_class,
        base: base_of(families, &known.bases, number),
        above,
        order,
        rank: rank_of(space, families, &known.reach, number),
        fields,
        methods,
        constructors,
        origin: family.origin(),
    })
}

/// The classes and interfaces of these declarations, whose tables these are. Their bodies, a byte each, come
/// after those that there are.
///
/// The only error is want of memory.
pub fn families_in(
    alloc: Global,
    space: &Space<'_>,
    families: &[Declaring<'_, '_>],
    known: &Tables,
    bodies: &mut Vec<u8>,
) -> Result<List<Family>, AllocError>
    requires few { length families.now ≤ 256 }
    requires known { tables.AreTables space.now families.now known.now }
    ensures exact { IfOk result (λ fs. fs ≡ each_after (spec.families_after
        space.now families.now (headings.signatures_of space.now families.now)
        (length bodies.old.items)) [] families.now) }
{
    let mut found = Vec::new(alloc);
    for (number, family) in families.iter().enumerate() {
        found.push(family_with(alloc, space, families, known, number, bodies, family)?)?;
        add_bodies(family, bodies)?;
    }
    Ok(List::from_vec(found))
}
