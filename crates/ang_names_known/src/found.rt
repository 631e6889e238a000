//! Methods that were found, where they lie.
ghost use Rattle.std.specs.Prelude.{◌≡◌, ◌==◌, ℕ, length, option_map, slice_get};
ghost use Rattle.ang_names_known.specs.Kinds.{Says, params_on};

use crate::methods::{FoundMethod, MethodPlace, method_at};
use crate::names::Family;
use crate::numbering::ParameterKinds;
use ang_kinds::Pass;
use ang_types::ArgType;
use std::marker::Model;

/// Places of methods that are kept, or that were looked for.
#[derive(Drop)]
pub(crate) enum MethodPlaces<'a> {
    Kept(&'a [MethodPlace]),
    Listed(Vec<MethodPlace>),
}

impl<'a> MethodPlaces<'a> {
    ghost use Rattle.ang_names_known.specs.Known as spec;

    #[inline(always)]
    fn as_slice(&self) -> &[MethodPlace]
        ensures same { result.now ≡ spec.places_in self.now }
    {
        match self {
            MethodPlaces::Kept(places) => places,
            MethodPlaces::Listed(places) => places.as_slice(),
        }
    }
}

/// Methods of one name that objects of a family have, own and inherited, and for each the numbers of its parameters'
/// kinds.
#[derive(Drop)]
pub struct FoundMethods<'a> {
    families: &'a [Family],
    numbering: &'a ParameterKinds,
    places: MethodPlaces<'a>,
}

impl<'a> Model for FoundMethods<'a> {
    ghost use Rattle.ang_names_known.specs.Known as spec;
    ghost use Rattle.ang_names_known.specs.MethodPlaces.{AreFound, found_in};
    ghost use Rattle.ang_names_known.specs.Numbering.{AreMethodRows};

    ghost Value = { spec.KnownMethods };

    ghost view = { λ f. record {
      methods = found_in f.families.now (spec.places_in f.places);
      kinds = f.numbering.now.kinds.items;
    } };

    ghost invariant = { λ f. AreFound f.families.now (spec.places_in f.places)
        × AreMethodRows f.numbering.now.kinds.items f.numbering.now.methods.items f.families.now };
}

impl<'a> FoundMethods<'a> {
    ghost use Rattle.ang_names_known.specs.Known as spec;
    ghost use Rattle.ang_names_known.specs.MethodPlaces.{AreFound, found_in};
    ghost use Rattle.ang_names_known.specs.Numbering.{AreMethodRows};

    /// The methods at these places. It takes no memory.
    pub(crate) fn new(
        families: &'a [Family],
        numbering: &'a ParameterKinds,
        places: MethodPlaces<'a>,
    ) -> FoundMethods<'a>
        requires there { AreFound families.now (spec.places_in places) }
        requires rows { AreMethodRows numbering.now.kinds.items numbering.now.methods.items
            families.now }
        ensures methods { result.methods ≡ found_in families.now (spec.places_in places.entry) }
    {
        FoundMethods {
            families,
            numbering,
            places,
        }
    }

    /// How many there are.
    #[inline(always)]
    pub fn len(&self) -> usize
        ensures exact { result ≡ length self.now.methods }
    {
        self.places.as_slice().len()
    }

    /// Whether there are none.
    pub fn is_empty(&self) -> bool
        ensures exact { result ≡ (length self.now.methods == 0) }
    {
        self.len() == 0
    }

    /// The one at a place among them, from 0.
    #[inline(always)]
    pub fn get(&self, place: usize) -> Option<FoundMethod<'a>>
        ensures exact { result ≡ slice_get self.now.methods place }
    {
        let at = self.places.as_slice().get(place)?;
        method_at(self.families, *at)
    }

    /// The kinds, in the order of their numbers.
    pub fn kinds(&self) -> &'a [(ArgType, Pass)]
        ensures same { result.now ≡ self.now.kinds }
    {
        self.numbering.kinds.as_slice()
    }

    /// The numbers of the kinds of a method's parameters, its receiver's first. It takes no memory.
    #[inline(always)]
    pub fn row(&self, place: usize) -> Option<&[u32]>
        ensures says { (t : ℕ) → Says t self.now.kinds (option_map (λ row. row.now) result)
            (option_map (λ m. params_on t m.method) (slice_get self.now.methods place)) }
    {
        let at = self.places.as_slice().get(place)?;
        let rows = self.numbering.methods.get(at.owner as usize)?;
        rows.row(at.place as usize)
    }
}
