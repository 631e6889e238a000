//! The best of the functions that a call can mean.
ghost use Rattle.std.specs.Prelude.{◌≡◌, ◌∷◌, IfOk};
ghost use Rattle.ang_types.specs.declared.arg_type.ArgType.TheVariants.{Object};
ghost use Rattle.ang_check_uses.specs.Uses as spec;

use crate::callables::Callables;
use crate::uses::{Callable, Resolution};
use ang_kinds::ErrorKind;
use ang_types::{ArgType, Lineage, Pick, resolve};
use std::alloc::{AllocError, Global};

/// A function that a call can mean as what it means; where there is none no such name is known. It takes no memory.
pub fn called_at(callable: Option<Callable>) -> Resolution
    ensures exact { result ≡ spec.called_at callable }
{
    match callable {
        None => Resolution::Refused(ErrorKind::UnknownName),
        Some(callable) => Resolution::Call(callable),
    }
}

fn picked(unviable: ErrorKind, callables: Callables, pick: Pick) -> Resolution
    ensures exact { result ≡ spec.picked unviable callables pick }
{
    match pick {
        Pick::NoViable => Resolution::Refused(unviable),
        Pick::Ambiguous => Resolution::Refused(ErrorKind::Ambiguous),
        Pick::One(place) => called_at(callables.take(place)),
    }
}

/// The best of some callables for arguments of these types, or this kind of refusal where none takes them. It takes no
/// memory.
#[tactic(auto, unfolding(crate::specs::Uses::best_of_those))]
pub fn best_of_those(
    lineage: &Lineage,
    unviable: ErrorKind,
    callables: Callables,
    args: &[ArgType],
) -> Resolution
    ensures exact { result ≡ spec.best_of_those lineage.now unviable callables args.now }
{
    let pick = resolve(lineage, callables.candidates(), args);
    picked(unviable, callables, pick)
}

/// The types of a receiver of the type of this number, and of the arguments after it.
///
/// The only error is want of memory.
pub fn types_with_receiver(
    alloc: Global,
    number: u32,
    read_only: bool,
    args: &[ArgType],
) -> Result<Vec<ArgType>, AllocError>
    ensures exact { IfOk result (λ types. types.items ≡ Object number read_only ∷ args.now) }
{
    let mut types = Vec::from_slice(alloc, args)?;
    types.insert(0, ArgType::Object { number, read_only })?;
    Ok(types)
}
