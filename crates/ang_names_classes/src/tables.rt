//! What stands above what, and what reaches what, as tables over the numbers of classes and interfaces.
ghost use Rattle.std.specs.Prelude.{◌≡◌, ◌≤◌, ◌<◌, ◌*◌, ◌++◌, length, filter, IfOk, OnOk};
ghost use Rattle.ang_names_graph.specs.Tables.{Shows, is_reached, row_below};
ghost use Rattle.ang_names_graph.specs.Graphs as graphs;
ghost use Rattle.ang_names_graph.specs.Graphs.{leads};
ghost use Rattle.ang_names_classes.specs.Hierarchy as spec;
ghost use Rattle.ang_names_classes.specs.Tables as tables;

use crate::held::held_places;
use crate::placed::Placed;
use crate::slots::{Signatures, signatures_of};
use ang_lex::text_of;
use ang_names_graph::{closed, order_of, push_joined_row, push_row, push_spread_row};
use ang_names_known::Space;
use ang_names_listed::Declaring;
use std::alloc::{AllocError, Global};

/// What the families of a build are made by: what stands above what, and what reaches what, as tables
/// of a row for each class or interface with an entry for each; and the methods of all.
#[derive(Drop)]
pub struct Tables {
    /// The bases that one names.
    pub parents: Vec<bool>,
    /// Of these the classes.
    pub bases: Vec<bool>,
    /// All that stands above one.
    pub above: Vec<bool>,
    /// All that one reaches through what its fields can hold.
    pub reach: Vec<bool>,
    /// The methods of all, in order.
    pub signatures: Signatures,
}

/// The numbers of the classes and interfaces that one names as its bases.
fn base_places(
    alloc: Global,
    families: &Placed<'_, '_, '_>,
    family: &Declaring<'_, '_>,
) -> Result<Vec<usize>, AllocError>
    ensures exact { IfOk result
        (λ places. places.items ≡ tables.base_places families.now family.now) }
{
    let mut places = Vec::new(alloc);
    let bases = family.shape().bases.as_slice();
    for base in bases {
        if let Some(place) = families.place_of(text_of(family.text(), base)) {
            places.push(place)?;
        }
    }
    Ok(places)
}

fn is_class_at(families: &[Declaring<'_, '_>], number: usize) -> bool
    ensures exact { result ≡ spec.is_class_at families.now number }
{
    match families.get(number) {
        None => false,
        Some(family) => family.shape().is_class,
    }
}

/// Those of some numbers that are of classes.
fn classes_among(
    alloc: Global,
    families: &[Declaring<'_, '_>],
    places: &[usize],
) -> Result<Vec<usize>, AllocError>
    ensures exact { IfOk result
        (λ found. found.items ≡ filter (spec.is_class_at families.now) places.now) }
{
    let mut found = Vec::new(alloc);
    for place in places {
        if is_class_at(families, *place) {
            found.push(*place)?;
        }
    }
    Ok(found)
}

/// The numbers of the classes that a class or an interface names as its bases.
fn class_places(
    alloc: Global,
    families: &Placed<'_, '_, '_>,
    family: &Declaring<'_, '_>,
) -> Result<Vec<usize>, AllocError>
    ensures exact { IfOk result
        (λ places. places.items ≡ tables.class_places families.now family.now) }
{
    let places = base_places(alloc, families, family)?;
    classes_among(alloc, families.families(), &places)
}

/// The table of all bases.
fn parents_of(alloc: Global, placed: &Placed<'_, '_, '_>) -> Result<Vec<bool>, AllocError>
    ensures exact { IfOk result (λ table.
        Shows table.items (length placed.now) (spec.is_parent placed.now)) }
{
    let families = placed.families();
    let mut table = Vec::new(alloc);
    for family in families {
        let places = base_places(alloc, placed, family)?;
        push_row(&mut table, families.len(), &places)?;
    }
    Ok(table)
}

/// The table of base classes.
fn bases_of(alloc: Global, placed: &Placed<'_, '_, '_>) -> Result<Vec<bool>, AllocError>
    ensures exact { IfOk result (λ table.
        Shows table.items (length placed.now) (spec.is_base placed.now)) }
{
    let families = placed.families();
    let mut table = Vec::new(alloc);
    for family in families {
        let places = class_places(alloc, placed, family)?;
        push_row(&mut table, families.len(), &places)?;
    }
    Ok(table)
}

/// The table of what each one's own fields can hold.
fn held_of(
    alloc: Global,
    space: &Space<'_>,
    families: &[Declaring<'_, '_>],
) -> Result<Vec<bool>, AllocError>
    ensures exact { IfOk result (λ table.
        Shows table.items (length families.now) (tables.holds_itself space.now families.now)) }
{
    let mut table = Vec::new(alloc);
    for family in families {
        let places = held_places(alloc, space, family)?;
        push_row(&mut table, families.len(), &places)?;
    }
    Ok(table)
}

/// Puts the next row after: the handles among all fields of one class, those of its base classes included.
fn push_carried(
    alloc: Global,
    table: &mut Vec<bool>,
    families: &[Declaring<'_, '_>],
    bases: &[bool],
    held: &[bool],
    number: usize,
) -> Result<(), AllocError>
    requires few { length families.now ≤ 256 }
    requires there { number < length families.now }
    requires bases { Shows bases.now (length families.now) (spec.is_base families.now) }
    requires held { length held.now ≡ length families.now * length families.now }
    ensures pushed { OnOk result (table.new.items ≡ table.old.items ++ row_below
        (is_reached held.now (length families.now)
        (graphs.order_of (spec.is_base families.now) (length families.now) number))
        (length families.now)) }
{
    let n = families.len();
    let order = order_of(alloc, bases, n, number)?;
    push_joined_row(table, held, n, &order)
}

/// The table of the handles among all fields of each one.
fn carried_of(
    alloc: Global,
    space: &Space<'_>,
    families: &[Declaring<'_, '_>],
    bases: &[bool],
) -> Result<Vec<bool>, AllocError>
    requires few { length families.now ≤ 256 }
    requires bases { Shows bases.now (length families.now) (spec.is_base families.now) }
    ensures exact { IfOk result (λ table.
        Shows table.items (length families.now) (tables.carries space.now families.now)) }
{
    let held = held_of(alloc, space, families)?;
    let mut table = Vec::new(alloc);
    for number in 0..families.len() {
        push_carried(alloc, &mut table, families, bases, &held, number)?;
    }
    Ok(table)
}

/// The table of what each one's fields can hold an object of.
fn holding_of(
    alloc: Global,
    space: &Space<'_>,
    families: &[Declaring<'_, '_>],
    carried: &[bool],
    above: &[bool],
) -> Result<Vec<bool>, AllocError>
    requires few { length families.now ≤ 256 }
    requires carried { Shows carried.now (length families.now)
        (tables.carries space.now families.now) }
    requires above { Shows above.now (length families.now)
        (leads (spec.is_parent families.now) (length families.now)) }
    ensures exact { IfOk result (λ table.
        Shows table.items (length families.now) (spec.holds space.now families.now)) }
{
    let n = families.len();
    let mut table = Vec::new(alloc);
    for number in 0..n {
        push_spread_row(&mut table, carried, above, n, number)?;
    }
    Ok(table)
}

/// The table of what each one reaches.
fn reach_of(
    alloc: Global,
    space: &Space<'_>,
    families: &[Declaring<'_, '_>],
    bases: &[bool],
    above: &[bool],
) -> Result<Vec<bool>, AllocError>
    requires few { length families.now ≤ 256 }
    requires bases { Shows bases.now (length families.now) (spec.is_base families.now) }
    requires above { Shows above.now (length families.now)
        (leads (spec.is_parent families.now) (length families.now)) }
    ensures exact { IfOk result (λ table. Shows table.items (length families.now)
        (leads (spec.holds space.now families.now) (length families.now))) }
{
    let carried = carried_of(alloc, space, families, bases)?;
    let holding = holding_of(alloc, space, families, &carried, above)?;
    closed(alloc, &holding, families.len())
}

/// The table of what stands above each one.
fn above_of(
    alloc: Global,
    families: &[Declaring<'_, '_>],
    parents: &[bool],
) -> Result<Vec<bool>, AllocError>
    requires few { length families.now ≤ 256 }
    requires parents { Shows parents.now (length families.now) (spec.is_parent families.now) }
    ensures exact { IfOk result (λ table. Shows table.items (length families.now)
        (leads (spec.is_parent families.now) (length families.now))) }
{
    closed(alloc, parents, families.len())
}

/// The table of all bases, and that of base classes.
fn tables_of_bases(
    alloc: Global,
    families: &[Declaring<'_, '_>],
) -> Result<(Vec<bool>, Vec<bool>), AllocError>
    ensures parents { IfOk result (λ t.
        Shows t.0.items (length families.now) (spec.is_parent families.now)) }
    ensures bases { IfOk result (λ t.
        Shows t.1.items (length families.now) (spec.is_base families.now)) }
{
    let placed = Placed::new(alloc, families)?;
    let parents = parents_of(alloc, &placed)?;
    let bases = bases_of(alloc, &placed)?;
    Ok((parents, bases))
}

/// The tables of these classes and interfaces.
///
/// The only error is want of memory.
pub fn tables_of(
    alloc: Global,
    space: &Space<'_>,
    families: &[Declaring<'_, '_>],
) -> Result<Tables, AllocError>
    requires few { length families.now ≤ 256 }
    ensures exact { IfOk result (λ t. tables.AreTables space.now families.now t) }
{
    let (parents, bases) = tables_of_bases(alloc, families)?;
    let above = above_of(alloc, families, &parents)?;
    let reach = reach_of(alloc, space, families, &bases, &above)?;
    let signatures = signatures_of(alloc, space, families)?;
    Ok(Tables {
        parents,
        bases,
        above,
        reach,
        signatures,
    })
}
