//! The functions and imports of the scripts that a call can mean, as they are taken in.
ghost use Rattle.std.specs.Prelude.{◌≡◌, ℕ, IfOk, OnOk, option_map, slice_get};
ghost use Rattle.std.specs.List.{flat_map};
ghost use Rattle.ang_names_known.specs.Kinds.{Says, numbered};
ghost use Rattle.ang_names_known.specs.Lookup.{functions_named as numbers_named, parameters_of};
ghost use Rattle.ang_check_uses.specs.declared.scripts.FunctionList.TheVariants as list;
ghost use Rattle.ang_check_uses.specs.Choosing as spec;
ghost use Rattle.ang_check_contest.specs.Contest as contests;

use crate::scripts::FunctionList;
use ang_check_contest::{Contender, Contest, Scope, ToldContest, is_worth_telling};
use ang_names_known::{KnownFunctions, ScriptFunction};
use ang_types::{ArgType, Lineage};
use std::alloc::{AllocError, Global};

fn contender_in(declared: FunctionList, number: usize) -> Contender
    ensures exact { result ≡ spec.contender_in declared number }
{
    match declared {
        FunctionList::Functions => Contender::Function(number),
        FunctionList::Imports => Contender::Import(number),
    }
}

/// Takes in the function of this number, where there is one.
#[tactic(auto, using(crate::proofs::ChosenLaws::function_params))]
fn enter_function(
    contest: &mut Contest,
    alloc: Global,
    lineage: &Lineage,
    args: &[ArgType],
    declared: FunctionList,
    functions: &[ScriptFunction],
    number: usize,
) -> Result<(), AllocError>
    ensures entered { OnOk result (contest.new ≡ contests.after lineage.now args.now contest.old
        (spec.function_entry declared functions.now number)) }
{
    match functions.get(number) {
        None => Ok(()),
        Some(function) => {
            let contender = contender_in(declared, number);
            contest.enter(alloc, lineage, args, contender, function)
        }
    }
}

/// Takes in the functions of these numbers.
#[tactic(auto, using(crate::proofs::Contests::after_append))]
fn enter_functions(
    contest: &mut Contest,
    alloc: Global,
    lineage: &Lineage,
    args: &[ArgType],
    declared: FunctionList,
    functions: &[ScriptFunction],
    numbers: &[usize],
) -> Result<(), AllocError>
    ensures entered { OnOk result (contest.new ≡ contests.after lineage.now args.now contest.old
        (flat_map (spec.function_entry declared functions.now) numbers.now)) }
{
    for number in numbers {
        enter_function(contest, alloc, lineage, args, declared, functions, *number)?;
    }
    Ok(())
}

/// The numbers of the kinds of a function's parameters.
#[inline(always)]
fn row_of<'a>(
    functions: &'a KnownFunctions<'_>,
    declared: FunctionList,
    number: usize,
) -> Option<&'a [u32]>
    ensures says { (t : ℕ) → Says t functions.now.kinds (option_map (λ row. row.now) result)
        (option_map parameters_of
        (slice_get (spec.functions_in declared functions.now) number)) }
{
    match declared {
        FunctionList::Functions => functions.of_function(number),
        FunctionList::Imports => functions.of_import(number),
    }
}

/// Takes in the function of this number, where there is one, by the ranks that are told.
#[inline(always)]
fn enter_told_function(
    contest: &mut ToldContest<'_>,
    alloc: Global,
    declared: FunctionList,
    functions: &KnownFunctions<'_>,
    number: usize,
) -> Result<(), AllocError>
    requires kinds { contest.old.telling.kinds ≡ numbered 0 functions.now.kinds }
    ensures same { OnOk result (contest.new.telling ≡ contest.old.telling) }
    ensures entered { OnOk result (contest.new.standing ≡ contests.after
        contest.old.telling.ancestors contest.old.telling.args contest.old.standing
        (spec.function_entry declared (spec.functions_in declared functions.now) number)) }
{
    let Some(row) = row_of(functions, declared, number) else {
        return Ok(());
    };
    if contest.passes(row) {
        return Ok(());
    }
    contest.enter(alloc, contender_in(declared, number), row)?;
    Ok(())
}

/// Takes in the functions of these numbers, by the ranks that are told.
#[tactic(auto, using(crate::proofs::Contests::after_append))]
fn enter_told_functions(
    contest: &mut ToldContest<'_>,
    alloc: Global,
    declared: FunctionList,
    functions: &KnownFunctions<'_>,
    numbers: &[usize],
) -> Result<(), AllocError>
    requires kinds { contest.old.telling.kinds ≡ numbered 0 functions.now.kinds }
    ensures same { OnOk result (contest.new.telling ≡ contest.old.telling) }
    ensures entered { OnOk result (contest.new.standing ≡ contests.after
        contest.old.telling.ancestors contest.old.telling.args contest.old.standing
        (flat_map (spec.function_entry declared (spec.functions_in declared functions.now))
        numbers.now)) }
{
    for number in numbers {
        enter_told_function(contest, alloc, declared, functions, *number)?;
    }
    Ok(())
}

/// Takes in functions and imports of these numbers, by ranks that are found out at once.
fn enter_at_once(
    contest: Contest,
    alloc: Global,
    lineage: &Lineage,
    args: &[ArgType],
    known: &KnownFunctions<'_>,
    functions: &[usize],
    imports: &[usize],
) -> Result<Contest, AllocError>
    ensures entered { IfOk result (λ entered. entered ≡ contests.after lineage.now args.now
        (contests.after lineage.now args.now contest
        (flat_map (spec.function_entry list.Functions known.now.functions) functions.now))
        (flat_map (spec.function_entry list.Imports known.now.imports) imports.now)) }
{
    let mut told = ToldContest::new(alloc, contest, lineage, 0, known.kinds(), args)?;
    enter_told_functions(&mut told, alloc, FunctionList::Functions, known, functions)?;
    enter_told_functions(&mut told, alloc, FunctionList::Imports, known, imports)?;
    Ok(told.into_contest())
}

/// Takes in functions and imports of these numbers, one by one.
fn enter_one_by_one(
    contest: Contest,
    alloc: Global,
    scope: &Scope<'_>,
    args: &[ArgType],
    functions: &[usize],
    imports: &[usize],
) -> Result<Contest, AllocError>
    ensures entered { IfOk result (λ entered. entered
        ≡ contests.after scope.now.ancestors args.now
        (contests.after scope.now.ancestors args.now contest
        (flat_map (spec.function_entry list.Functions scope.now.names.functions) functions.now))
        (flat_map (spec.function_entry list.Imports scope.now.names.imports) imports.now)) }
{
    let lineage = scope.lineage();
    let names = scope.names();
    let mut contest = contest;
    enter_functions(
        &mut contest,
        alloc,
        lineage,
        args,
        FunctionList::Functions,
        names.functions(),
        functions,
    )?;
    enter_functions(
        &mut contest,
        alloc,
        lineage,
        args,
        FunctionList::Imports,
        names.imports(),
        imports,
    )?;
    Ok(contest)
}

/// Takes in all functions and imports of a name: few of them one by one, many by ranks that are found out at once.
///
/// The only error is want of memory.
pub fn enter_scripts(
    contest: Contest,
    alloc: Global,
    scope: &Scope<'_>,
    args: &[ArgType],
    name: &[u8],
) -> Result<Contest, AllocError>
    ensures entered { IfOk result (λ entered. entered
        ≡ contests.after scope.now.ancestors args.now
        (contests.after scope.now.ancestors args.now contest
        (flat_map (spec.function_entry list.Functions scope.now.names.functions)
        (numbers_named scope.now.names.functions name.now)))
        (flat_map (spec.function_entry list.Imports scope.now.names.imports)
        (numbers_named scope.now.names.imports name.now))) }
{
    let names = scope.names();
    let functions = names.functions_named(name);
    let imports = names.imports_named(name);
    let known = names.known_functions();
    let count = functions.len().saturating_add(imports.len());
    if is_worth_telling(count, known.kinds().len()) {
        let lineage = scope.lineage();
        enter_at_once(contest, alloc, lineage, args, &known, functions, imports)
    } else {
        enter_one_by_one(contest, alloc, scope, args, functions, imports)
    }
}
