//! Members of families, found by name.
ghost use Rattle.std.specs.Prelude.{◌≡◌, false, bytes_eq, find, option_and_then, option_map, slice_get};
ghost use Rattle.std.specs.Option.{option_map_or};
ghost use Rattle.ang_names_known.specs.Lookup as spec;
ghost use Rattle.ang_names_known.specs.NameIndex.{IndexesFields, IndexesMethods};

use crate::lookup::order_of;
use crate::names::{Family, Field, FoundField};
use crate::places::first_of;
use ang_index::Index;

/// The fields that a family declares itself.
fn fields_of(families: &[Family], family: usize) -> &[Field]
    ensures exact { result.now ≡ spec.fields_in (slice_get families.now family) }
{
    match families.get(family) {
        None => &[],
        Some(family) => family.fields.as_slice(),
    }
}

/// The field at a place among those of the family of this number.
fn field_at(fields: &[Field], owner: usize, place: Option<usize>) -> Option<FoundField>
    ensures exact { result
        ≡ option_map (spec.field_of owner) (option_and_then (slice_get fields.now) place) }
{
    let field = fields.get(place?)?;
    Some(FoundField {
        owner,
        number: field.number,
        written: field.written,
        access: field.access,
    })
}

/// The field of this name that a family declares itself.
fn own_field(
    families: &[Family],
    fields: &Index<usize>,
    family: usize,
    name: &[u8],
) -> Option<FoundField>
    requires indexed { IndexesFields families.now fields.now }
    ensures exact { result ≡ option_map (spec.field_of family)
        (find (λ x. bytes_eq x.name name.now) (spec.fields_in (slice_get families.now family))) }
{
    let place = first_of(fields.find(family as u64, name));
    field_at(fields_of(families, family), family, place)
}

/// The field of this name that objects of a family have.
#[tactic(auto, unfolding(crate::specs::Lookup::field_named), using(crate::proofs::Kin::first_field_with))]
pub(crate) fn field_in(
    families: &[Family],
    fields: &Index<usize>,
    family: usize,
    name: &[u8],
) -> Option<FoundField>
    requires indexed { IndexesFields families.now fields.now }
    ensures exact { result ≡ spec.field_named families.now family name.now }
{
    let order = order_of(families, family);
    for number in order {
        if let Some(found) = own_field(families, fields, *number as usize, name) {
            return Some(found);
        }
    }
    None
}

/// Whether a family declares a method of this name itself.
fn has_own_method(families: &[Family], methods: &Index<usize>, family: usize, name: &[u8]) -> bool
    requires indexed { IndexesMethods families.now methods.now }
    ensures exact { result ≡ option_map_or (λ f. spec.declares_method name.now (family, f))
        (slice_get families.now family) false }
{
    !methods.find(family as u64, name).is_empty()
}

/// Whether a family has a method of this name, own or inherited.
#[tactic(auto, unfolding(crate::specs::Lookup::has_method), using(crate::proofs::Kin::any_method_with))]
pub(crate) fn has_method_in(
    families: &[Family],
    methods: &Index<usize>,
    family: usize,
    name: &[u8],
) -> bool
    requires indexed { IndexesMethods families.now methods.now }
    ensures exact { result ≡ spec.has_method families.now family name.now }
{
    let order = order_of(families, family);
    for number in order {
        if has_own_method(families, methods, *number as usize, name) {
            return true;
        }
    }
    false
}
