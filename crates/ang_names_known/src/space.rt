//! The types that a name can mean.
ghost use Rattle.std.specs.Prelude.{◌≡◌, ◌≤◌, ◌<◌, None, length, bytes_eq, map, IfSome};
ghost use Rattle.std.specs.List.{position};
ghost use Rattle.ang_view.specs.Types.{enumeration_named, type_named};
ghost use Rattle.ang_names_known.specs.Spaces as spaces;

use crate::borrowed::BorrowedText;
use crate::family_types::family_type;
use crate::indexed::IndexedNames;
use ang_kinds::EntityNo;
use ang_view::View;
use std::marker::Model;

/// What a name means as a type.
#[derive(Clone, Copy)]
pub enum Named {
    /// Nothing.
    Unknown,
    /// The object type of this number: a host type's entry, or 1,024 and the number of a family.
    Object(u32),
    /// The enumeration of the host of this number, which is that of its entry.
    Enumeration(u32),
}

/// The number of the host type of this name that the module sees. It takes no memory.
pub fn type_number(view: &View, name: &[u8]) -> Option<u32>
    ensures exact { result ≡ type_named view.now name.now }
{
    let EntityNo(number) = view.find_type(name)?;
    Some(number)
}

/// The number of the enumeration of this name that the module sees. It takes no memory.
pub fn enumeration_number(view: &View, name: &[u8]) -> Option<u32>
    ensures exact { result ≡ enumeration_named view.now name.now }
{
    let EntityNo(number) = view.find_enumeration(name)?;
    Some(number)
}

/// The names of families, in the order of their numbers.
#[derive(Drop)]
enum FamilyNames<'a> {
    /// Of families that are only listed so far.
    Listed(Vec<BorrowedText<'a>>),
    /// Of known ones.
    Known(&'a IndexedNames),
}

/// The types that names mean: what a module sees of the host, and the names of the scripts' families.
#[derive(Drop)]
pub struct Space<'a> {
    view: &'a View,
    families: FamilyNames<'a>,
}

impl<'a> Model for Space<'a> {
    ghost use Rattle.std.specs.Prelude.{◌≤◌, length};
    ghost use Rattle.ang_names_known.specs.Spaces as spaces;

    ghost Value = { spaces.Space };

    ghost view = { λ s. record { view = s.view.now; families = spaces.family_names s.families } };

    ghost invariant = { λ s. length (spaces.family_names s.families) ≤ 256 };
}

impl<'a> Space<'a> {
    /// The types of a view, and the families of these names, in the order of their numbers. It takes no memory.
    pub fn new(view: &'a View, families: Vec<BorrowedText<'a>>) -> Space<'a>
        requires few { length families.items ≤ 256 }
        ensures view { result.view ≡ view.now }
        ensures families { result.families ≡ families.entry.items }
    {
        Space {
            view,
            families: FamilyNames::Listed(families),
        }
    }

    /// The types of a view and of names. It takes no memory.
    #[tactic(auto, using(crate::proofs::Kin::number_of_names))]
    pub fn of_names(view: &'a View, names: &'a IndexedNames) -> Space<'a>
        requires few { length names.now.families ≤ 256 }
        ensures exact { result ≡ spaces.space_of_names view.now names.now }
    {
        Space {
            view,
            families: FamilyNames::Known(names),
        }
    }

    /// What the module sees of the host.
    pub fn view(&self) -> &'a View
        ensures same { result.now ≡ self.now.view }
    {
        self.view
    }

    /// The number of the script's family of this name.
    #[tactic(auto, using(crate::proofs::Kin::number_of_names))]
    fn family_named(&self, name: &[u8]) -> Option<usize>
        ensures exact { result ≡ position (bytes_eq name.now) self.now.families }
        ensures few { IfSome result (λ c. c < 256) }
    {
        match &self.families {
            FamilyNames::Listed(names) => listed_as(names, name),
            FamilyNames::Known(names) => known_as(names, name),
        }
    }

    /// What a name means as a type. A name that the scripts declare is theirs, whatever the module sees of the host.
    /// It takes no memory.
    #[tactic(auto, unfolding(crate::specs::Spaces::type_of_name))]
    pub fn named(&self, name: &[u8]) -> Named
        ensures exact { result ≡ spaces.type_of_name self.now name.now }
    {
        let host = type_number(self.view, name);
        let enumeration = enumeration_number(self.view, name);
        family_or_host(self.family_named(name), host, enumeration)
    }
}

fn listed_as(names: &[BorrowedText<'_>], name: &[u8]) -> Option<usize>
    ensures exact { result ≡ position (bytes_eq name.now) names.now }
    ensures within { IfSome result (λ c. c < length names.now) }
{
    names.iter().position(|family| name == family.bytes())
}

fn known_as(names: &IndexedNames, name: &[u8]) -> Option<usize>
    ensures exact { result
        ≡ position (bytes_eq name.now) (map (λ f. f.name) names.now.families) }
    ensures within { IfSome result (λ c. c < length names.now.families) }
{
    names.family_named(name)
}

fn enumeration_or_none(enumeration: Option<u32>) -> Named
    ensures exact { result ≡ spaces.family_or_host None None enumeration }
{
    match enumeration {
        Some(number) => Named::Enumeration(number),
        None => Named::Unknown,
    }
}

/// What a name means as a type that is the name of this family, or else of this host type, or else of
/// this enumeration. It takes no memory.
pub fn family_or_host(family: Option<usize>, host: Option<u32>, enumeration: Option<u32>) -> Named
    requires few { IfSome family (λ c. c < 256) }
    ensures exact { result ≡ spaces.family_or_host family host enumeration }
{
    match family {
        Some(family) => Named::Object(family_type(family)),
        None => match host {
            Some(number) => Named::Object(number),
            None => enumeration_or_none(enumeration),
        },
    }
}
