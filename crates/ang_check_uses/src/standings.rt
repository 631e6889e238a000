//! How the candidates that a use can mean stand against one another. None of them is copied.
ghost use Rattle.std.specs.Prelude.{◌≡◌, ◌∷◌, IfOk};
ghost use Rattle.ang_types.specs.declared.arg_type.ArgType.TheVariants.{Object};
ghost use Rattle.ang_names_known.specs.Items.{is_empty};
ghost use Rattle.ang_check_contest.specs.Contest.{IsContest};
ghost use Rattle.ang_check_uses.specs.Uses as uses;

use crate::choosing::{functions_entered, hosts_entered, methods_entered};
use crate::hosts::HostCallKind;
use ang_check_contest::{Contest, Scope, Wanted};
use ang_kinds::EntityNo;
use ang_types::ArgType;
use std::alloc::{AllocError, Global};

/// The contest of the functions of a name, for arguments of these types.
///
/// The only error is want of memory.
pub fn contest_of_functions(
    alloc: Global,
    scope: &Scope<'_>,
    name: &[u8],
    args: &[ArgType],
) -> Result<Contest, AllocError>
    ensures contest { IfOk result (λ contest. IsContest scope.now.ancestors
        (uses.candidates_of (uses.functions_of scope.now name.now)) args.now contest) }
    ensures empty { IfOk result
        (λ contest. contest.empty ≡ is_empty (uses.functions_of scope.now name.now)) }
{
    let contest = functions_entered(alloc, scope, name, args)?;
    Ok(contest)
}

/// The contest of the factories of a host type, for arguments of these types.
///
/// The only error is want of memory.
pub fn contest_of_factories(
    alloc: Global,
    scope: &Scope<'_>,
    number: u32,
    args: &[ArgType],
) -> Result<Contest, AllocError>
    ensures contest { IfOk result (λ contest. IsContest scope.now.ancestors
        (uses.candidates_of (uses.factories_of scope.now.view number)) args.now contest) }
{
    let wanted = Wanted::Factory(number);
    let usage = HostCallKind::Maker(number);
    let numbers = scope.view().makers(EntityNo(number));
    let contest = hosts_entered(alloc, scope, args, &wanted, usage, numbers)?;
    Ok(contest)
}

/// The contest of the host's methods of a name, for arguments of these types on a receiver that is read only or not.
///
/// The only error is want of memory.
pub fn contest_of_methods(
    alloc: Global,
    scope: &Scope<'_>,
    number: u32,
    name: &[u8],
    read_only: bool,
    args: &[ArgType],
) -> Result<Contest, AllocError>
    ensures contest { IfOk result (λ contest. IsContest scope.now.ancestors
        (uses.candidates_of (uses.host_methods scope.now.view number name.now))
        (Object number read_only ∷ args.now) contest) }
{
    let contest = methods_entered(alloc, scope, number, name, read_only, args)?;
    Ok(contest)
}
