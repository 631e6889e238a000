//! Classes and interfaces by name.
ghost use Rattle.std.specs.Prelude.{◌≡◌, option_copied, option_map, slice_get};
ghost use Rattle.ang_names.specs.Refusals as spec;

use ang_names_classes::Placed;
use ang_names_listed::{Declaring, ListedFamily};

/// What the class or interface of this number declares.
fn shape_at<'l, 'a>(families: &[Declaring<'l, 'a>], number: usize) -> Option<&'l ListedFamily<'a>>
    ensures exact { option_copied result
        ≡ option_map (λ d. d.shape) (slice_get families.now number) }
{
    match families.get(number) {
        None => None,
        Some(family) => Some(family.shape()),
    }
}

/// What the class or interface of this name declares, if there is one.
#[tactic(auto, using(crate::proofs::Named::no_shape, crate::proofs::Named::shape_there))]
fn shape_named<'l, 'a>(families: &Placed<'_, 'l, 'a>, name: &[u8]) -> Option<&'l ListedFamily<'a>>
    ensures exact { option_copied result ≡ spec.shape_named families.now name.now }
{
    match families.place_of(name) {
        None => None,
        Some(number) => shape_at(families.families(), number),
    }
}

/// Whether a name can't be that of a base of a class or an interface, one of whose bases so far may be a class; and whether it
/// is a class's.
pub fn base_named(
    families: &Placed<'_, '_, '_>,
    is_class: bool,
    has_class: bool,
    name: &[u8],
) -> (bool, bool)
    ensures bad { result.0
        ≡ spec.is_bad_base is_class has_class (spec.shape_named families.now name.now) }
    ensures class { result.1 ≡ spec.names_class (spec.shape_named families.now name.now) }
{
    match shape_named(families, name) {
        None => (true, false),
        Some(shape) => {
            let is_bad = shape.is_class && (!is_class || has_class || shape.is_final);
            (is_bad, shape.is_class)
        }
    }
}
