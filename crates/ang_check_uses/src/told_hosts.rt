//! The functions, factories and methods of the host that a call can mean, as they are taken in.
ghost use Rattle.std.specs.Prelude.{◌≡◌, true, Some, is_some, IfOk, OnOk};
ghost use Rattle.std.specs.List.{flat_map};
ghost use Rattle.ang_types.specs.Overloads.{Params};
ghost use Rattle.ang_check_contest.specs.Host as host;
ghost use Rattle.ang_names_known.specs.Kinds.{numbered};
ghost use Rattle.ang_check_contest.specs.declared.score.Contender.TheVariants as contender;
ghost use Rattle.ang_check_uses.specs.Choosing as spec;
ghost use Rattle.ang_check_contest.specs.Contest as contests;

use crate::hosts::HostCallKind;
use ang_check_contest::{
    Contender, Contest, KnownEntries, Scope, ToldContest, Wanted, host_type, is_wanted,
    is_worth_telling,
};
use ang_kinds::{EntityNo, Param};
use ang_types::ArgType;
use ang_view::{Entry, View};
use std::alloc::{AllocError, Global};

/// Whether the types of all parameters of a host's function are seen.
#[tactic(auto, using(crate::proofs::ChosenLaws::all_seen, crate::proofs::ChosenLaws::none_seen))]
fn are_seen(view: &View, params: &[Param]) -> bool
    ensures exact { result ≡ is_some (host.host_parameters view.now params.now) }
{
    for param in params {
        if host_type(view, &param.ty).is_none() {
            return false;
        }
    }
    true
}

/// Whether all types of a host's function are seen.
fn is_seen(view: &View, entry: &Entry) -> bool
    ensures exact { result ≡ spec.is_seen view.now entry.now }
{
    host_type(view, &entry.signature.result).is_some()
        && are_seen(view, entry.signature.params.as_slice())
}

/// Takes in a function of the host that is used so, and all of whose types are seen.
fn enter_seen(
    contest: &mut Contest,
    alloc: Global,
    scope: &Scope<'_>,
    args: &[ArgType],
    usage: HostCallKind,
    number: EntityNo,
    entry: &Entry,
) -> Result<(), AllocError>
    ensures entered { OnOk result ((seen : Params) →
        host.host_parameters scope.now.view entry.now.signature.params ≡ Some seen → contest.new
        ≡ contests.entered scope.now.ancestors args.now contest.old (contender.Entry number)
        (spec.params_as usage entry.now.signature.read_only seen)) }
{
    let params = entry.signature.params.as_slice();
    let contender = Contender::Entry(number);
    match usage {
        HostCallKind::Function | HostCallKind::Maker(_) => {
            contest.enter_host(alloc, scope, args, contender, params)
        }
        HostCallKind::Method(number) => {
            let receiver = ArgType::Object {
                number,
                read_only: entry.signature.read_only,
            };
            contest.enter_host_method(alloc, scope, args, contender, receiver, params)
        }
    }
}

/// Takes in the entry of this number, where it is wanted and all of its types are seen.
#[tactic(auto, using(crate::proofs::ChosenLaws::host_entered, crate::proofs::ChosenLaws::not_wanted, crate::proofs::ChosenLaws::not_seen, crate::proofs::ChosenLaws::not_there))]
fn enter_entry(
    contest: &mut Contest,
    alloc: Global,
    scope: &Scope<'_>,
    args: &[ArgType],
    wanted: &Wanted<'_>,
    usage: HostCallKind,
    number: EntityNo,
) -> Result<(), AllocError>
    ensures entered { OnOk result (contest.new ≡ contests.after scope.now.ancestors args.now
        contest.old (spec.host_entry usage wanted.now scope.now.view number)) }
{
    let Some(entry) = scope.view().get(number) else {
        return Ok(());
    };
    if !is_wanted(wanted, entry) {
        return Ok(());
    }
    if !is_seen(scope.view(), entry) {
        return Ok(());
    }
    enter_seen(contest, alloc, scope, args, usage, number, entry)?;
    Ok(())
}

/// Takes in those of these entries that are wanted.
#[tactic(auto, using(crate::proofs::Contests::after_append))]
fn enter_entries(
    contest: &mut Contest,
    alloc: Global,
    scope: &Scope<'_>,
    args: &[ArgType],
    wanted: &Wanted<'_>,
    usage: HostCallKind,
    numbers: &[EntityNo],
) -> Result<(), AllocError>
    ensures entered { OnOk result (contest.new ≡ contests.after scope.now.ancestors args.now
        contest.old (flat_map (spec.host_entry usage wanted.now scope.now.view) numbers.now)) }
{
    for number in numbers {
        enter_entry(contest, alloc, scope, args, wanted, usage, *number)?;
    }
    Ok(())
}

/// Takes in the entry of this number, where it is wanted and all of its types are seen, by the ranks that are told.
#[inline(always)]
fn enter_told_entry(
    contest: &mut ToldContest<'_>,
    alloc: Global,
    wanted: &Wanted<'_>,
    usage: HostCallKind,
    view: &View,
    entries: &KnownEntries<'_>,
    number: EntityNo,
) -> Result<(), AllocError>
    requires usage { spec.is_used_as usage wanted.now ≡ true }
    requires view { entries.now.view ≡ view.now }
    requires kinds { contest.old.telling.kinds
        ≡ numbered (spec.receiver_as usage) entries.now.kinds }
    ensures same { OnOk result (contest.new.telling ≡ contest.old.telling) }
    ensures entered { OnOk result (contest.new.standing ≡ contests.after
        contest.old.telling.ancestors contest.old.telling.args contest.old.standing
        (spec.host_entry usage wanted.now view.now number)) }
{
    let Some(entry) = view.get(number) else {
        return Ok(());
    };
    if !is_wanted(wanted, entry) {
        return Ok(());
    }
    let Some(row) = entries.row(number) else {
        return Ok(());
    };
    if contest.passes(row) {
        return Ok(());
    }
    contest.enter(alloc, Contender::Entry(number), row)?;
    Ok(())
}

/// Takes in those of these entries that are wanted, by the ranks that are told.
#[tactic(auto, using(crate::proofs::Contests::after_append))]
fn enter_told_entries(
    contest: &mut ToldContest<'_>,
    alloc: Global,
    wanted: &Wanted<'_>,
    usage: HostCallKind,
    view: &View,
    entries: &KnownEntries<'_>,
    numbers: &[EntityNo],
) -> Result<(), AllocError>
    requires usage { spec.is_used_as usage wanted.now ≡ true }
    requires view { entries.now.view ≡ view.now }
    requires kinds { contest.old.telling.kinds
        ≡ numbered (spec.receiver_as usage) entries.now.kinds }
    ensures same { OnOk result (contest.new.telling ≡ contest.old.telling) }
    ensures entered { OnOk result (contest.new.standing ≡ contests.after
        contest.old.telling.ancestors contest.old.telling.args contest.old.standing
        (flat_map (spec.host_entry usage wanted.now view.now) numbers.now)) }
{
    for number in numbers {
        enter_told_entry(contest, alloc, wanted, usage, view, entries, *number)?;
    }
    Ok(())
}

/// The type of a receiver, where there is one.
fn receiver_as(usage: HostCallKind) -> u32
    ensures exact { result ≡ spec.receiver_as usage }
{
    match usage {
        HostCallKind::Function | HostCallKind::Maker(_) => 0,
        HostCallKind::Method(number) => number,
    }
}

/// Takes in those of these entries that are wanted, by ranks that are found out at once.
fn enter_at_once(
    contest: Contest,
    alloc: Global,
    scope: &Scope<'_>,
    args: &[ArgType],
    wanted: &Wanted<'_>,
    usage: HostCallKind,
    entries: &KnownEntries<'_>,
    numbers: &[EntityNo],
) -> Result<Contest, AllocError>
    requires usage { spec.is_used_as usage wanted.now ≡ true }
    requires view { entries.now.view ≡ scope.now.view }
    ensures entered { IfOk result (λ entered. entered
        ≡ contests.after scope.now.ancestors args.now contest
        (flat_map (spec.host_entry usage wanted.now scope.now.view) numbers.now)) }
{
    let (lineage, receiver) = (scope.lineage(), receiver_as(usage));
    let mut told = ToldContest::new(alloc, contest, lineage, receiver, entries.kinds(), args)?;
    let view = scope.view();
    enter_told_entries(&mut told, alloc, wanted, usage, view, entries, numbers)?;
    Ok(told.into_contest())
}

/// Takes in those of these entries that are wanted: few of them one by one, many by ranks that are found out at once.
///
/// The only error is want of memory.
pub fn enter_hosts(
    contest: Contest,
    alloc: Global,
    scope: &Scope<'_>,
    args: &[ArgType],
    wanted: &Wanted<'_>,
    usage: HostCallKind,
    numbers: &[EntityNo],
) -> Result<Contest, AllocError>
    requires usage { spec.is_used_as usage wanted.now ≡ true }
    ensures entered { IfOk result (λ entered. entered
        ≡ contests.after scope.now.ancestors args.now contest
        (flat_map (spec.host_entry usage wanted.now scope.now.view) numbers.now)) }
{
    let entries = scope.known_view().known_entries();
    if is_worth_telling(numbers.len(), entries.kinds().len()) {
        return enter_at_once(
            contest, alloc, scope, args, wanted, usage, &entries, numbers,
        );
    }
    let mut contest = contest;
    enter_entries(&mut contest, alloc, scope, args, wanted, usage, numbers)?;
    Ok(contest)
}
