//! The classes and interfaces of a build, found by name.
ghost use Rattle.std.specs.Prelude.{◌≡◌, IfOk};
ghost use Rattle.ang_names_known.specs.NameIndex.{first_place};
ghost use Rattle.ang_names_classes.specs.Placed.{HasPlaces};

use ang_index::Index;
use ang_names_listed::Declaring;
use std::alloc::{AllocError, Global};
use std::marker::Model;

/// The scope of all names.
const FAMILIES: u64 = 0;

/// Classes and interfaces, which contracts see as the list of them. Beside them stand their numbers by name, so that looking
/// for one goes through no list.
#[derive(Drop)]
pub struct Placed<'f, 'l, 'a> {
    families: &'f [Declaring<'l, 'a>],
    places: Index<usize>,
}

impl<'f, 'l, 'a> Model for Placed<'f, 'l, 'a> {
    ghost use Rattle.std.specs.Prelude.{List};
    ghost use Rattle.ang_names_listed.specs.Declarations.{Declaring};
    ghost use Rattle.ang_names_classes.specs.Placed.{HasPlaces};

    ghost Value = { List Declaring };

    ghost view = { λ p. p.families.now };

    ghost invariant = { λ p. HasPlaces p.families.now p.places };
}

/// The numbers of all classes and interfaces by name.
fn places_by_name(alloc: Global, families: &[Declaring<'_, '_>]) -> Result<Index<usize>, AllocError>
    ensures exact { IfOk result (λ places. HasPlaces families.now places) }
{
    let mut places = Index::new(alloc);
    for (number, family) in families.iter().enumerate() {
        places.push(alloc, FAMILIES, family.family_name(), number)?;
    }
    Ok(places)
}

/// The first of some numbers.
fn first_of(places: &[usize]) -> Option<usize>
    ensures exact { result ≡ first_place places.now }
{
    match places.first() {
        None => None,
        Some(place) => Some(*place),
    }
}

impl<'f, 'l, 'a> Placed<'f, 'l, 'a> {
    ghost use Rattle.std.specs.Prelude.{◌≡◌, IfOk};
    ghost use Rattle.ang_names_classes.specs.Hierarchy as spec;

    /// These classes and interfaces, with the number of each.
    ///
    /// The only error is want of memory.
    pub fn new(
        alloc: Global,
        families: &'f [Declaring<'l, 'a>],
    ) -> Result<Placed<'f, 'l, 'a>, AllocError>
        ensures same { IfOk result (λ placed. placed ≡ families.now) }
    {
        let places = places_by_name(alloc, families)?;
        Ok(Placed { families, places })
    }

    /// The classes and interfaces.
    pub fn families(&self) -> &'f [Declaring<'l, 'a>]
        ensures same { result.now ≡ self.now }
    {
        self.families
    }

    /// The number of the class or interface of this name. It takes no memory.
    pub fn place_of(&self, name: &[u8]) -> Option<usize>
        ensures exact { result ≡ spec.place_of self.now name.now }
    {
        first_of(self.places.find(FAMILIES, name))
    }
}
