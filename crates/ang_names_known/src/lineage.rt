//! What stands above each object type of a build whose names are there.
ghost use Rattle.std.specs.Prelude.{◌≡◌, ◌<◌, All, map, replicate, [], IfOk};
ghost use Rattle.ang_names_known.specs.Spaces as spaces;

use crate::family_types::{FIRST_FAMILY, family_type};
use crate::indexed::IndexedNames;
use ang_types::Lineage;
use std::alloc::{AllocError, Global};

/// What stands above each object type.
///
/// The only error is want of memory.
#[tactic(auto, unfolding(crate::specs::Spaces::ancestors_of))]
pub fn lineage_of(alloc: Global, names: &IndexedNames) -> Result<Lineage, AllocError>
    requires families { spaces.AreFamilies names.now.families }
    ensures exact { IfOk result (λ l. l ≡ spaces.ancestors_of names.now) }
{
    let mut above = above_host_types(alloc)?;
    let all = names.families();
    for family in all {
        let types = types_of(alloc, family.above.as_slice())?;
        above.push(types)?;
    }
    Lineage::new(alloc, above)
}

/// Nothing stands above a host type.
fn above_host_types(alloc: Global) -> Result<Vec<Vec<u32>>, AllocError>
    ensures exact { IfOk result
        (λ above. map (λ v. v.items) above.items ≡ replicate spaces.first_family []) }
{
    let mut above = Vec::new(alloc);
    for _number in 0..FIRST_FAMILY {
        above.push(Vec::new(alloc))?;
    }
    Ok(above)
}

/// The numbers of some families as types.
fn types_of(alloc: Global, families: &[u8]) -> Result<Vec<u32>, AllocError>
    requires within { All (λ k. k < 256) families.now }
    ensures exact { IfOk result (λ types. types.items ≡ map spaces.family_type families.now) }
{
    let mut types = Vec::with_capacity(alloc, families.len())?;
    for family in families {
        types.push(family_type(*family as usize))?;
    }
    Ok(types)
}
