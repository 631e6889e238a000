//! The first rows of the table of refusals, which speak of the list, the mask and the declaration.
ghost use Rattle.std.specs.Prelude.{◌≡◌, ◌<◌, ◌==◌, false, [], ◌∷◌, length, OnOk, IfErr, Some};
ghost use Rattle.ang_registry.specs.Refusals as spec;

use crate::{EntryKind, RegError};
use ang_kinds::{Mask, Signature};
use ang_view::{View, spells};

/// The most entries of a registration list.
pub const MOST_ENTRIES: usize = 1024;

/// The most parameters of a declaration.
const MOST_PARAMETERS: usize = 32;

fn has_many_parameters(declared: &Option<Signature>) -> bool
    ensures exact { result ≡ spec.where_declared spec.has_many_parameters declared.now }
{
    match declared {
        None => false,
        Some(signature) => signature.params.as_slice().len() > MOST_PARAMETERS,
    }
}

#[tactic(auto, unfolding(crate::specs::Refusals::is_over_limit))]
/// Whether 1,024 entries are there, or the declaration has more than 32 parameters.
pub fn is_over_limit(list: &View, declared: &Option<Signature>) -> bool
    ensures exact { result ≡ spec.is_over_limit list.now declared.now }
    ensures room { result ≡ false → length list.now < 1024 }
{
    list.len() >= MOST_ENTRIES || has_many_parameters(declared)
}

/// Refuses where the list is full, the declaration too long or the mask empty, in that order.
pub fn check_room(list: &View, mask: Mask, declared: &Option<Signature>) -> Result<(), RegError>
    ensures room { OnOk result (length list.now < 1024) }
    ensures limit { OnOk result (spec.is_over_limit list.now declared.now ≡ false) }
    ensures mask { OnOk result ((mask.0 == 0) ≡ false) }
    ensures refused { IfErr result (λ why. spec.first_row (
        (spec.is_over_limit list.now declared.now, RegError.Limit) ∷
        (mask.0 == 0, RegError.EmptyMask) ∷ []) ≡ Some why) }
{
    if is_over_limit(list, declared) {
        return Err(RegError::Limit);
    }
    if mask.0 == 0 {
        return Err(RegError::EmptyMask);
    }
    Ok(())
}

/// Whether a factory gives its own type, the one of this name. What is no factory may give any.
#[tactic(auto, unfolding(crate::specs::Refusals::gives_own))]
pub fn gives_own(kind: EntryKind, type_name: &[u8], signature: &Signature) -> bool
    ensures exact { result ≡ spec.gives_own kind type_name.now signature.now }
{
    !matches!(kind, EntryKind::Factory) || spells(&signature.result, type_name)
}
