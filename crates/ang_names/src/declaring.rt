//! What a build declares, or why it declares nothing.
ghost use Rattle.std.specs.Prelude.{◌≡◌, ◌≢◌, ◌≤◌, [], length, IfOk, IfErr, OnOk, map as list_map};
ghost use Rattle.ang_names_listed.specs.Declarations as listed;
ghost use Rattle.ang_names_listed.specs.Declarations.{families_of};
ghost use Rattle.ang_names_listed.specs.Sources.{source_of};
ghost use Rattle.ang_names.specs.Phases as spec;
ghost use Rattle.ang_names_classes.specs.Resolved as resolved;

use crate::phases::{errors_in, refusals_over};
use ang_kinds::{List, Unbuilt};
use ang_names_classes::names_of;
use ang_names_known::Names;
use ang_names_listed::{ListedDeclaration, declarations_of};
use ang_tree::Script;
use ang_types::Refused;
use ang_view::View;
use std::alloc::{AllocError, Global};

/// Why scripts don't build of which something is refused: the errors of what is refused, in their order, or want of memory.
#[tactic(auto, using(crate::proofs::Few::some_errors))]
pub fn unbuilt(alloc: Global, refused: Vec<Refused>) -> Unbuilt
    requires some { refused.items ≢ [] }
    ensures exact { spec.IsRefused result (spec.errors_in refused.items) }
{
    match errors_in(alloc, refused) {
        Ok(errors) => Unbuilt::Errors(List::from_vec(errors)),
        Err(_) => Unbuilt::Memory,
    }
}

/// The names of declarations where nothing is refused of them.
fn declared_by<'a>(
    alloc: Global,
    view: &'a View,
    scripts: &[Script],
    all: &[ListedDeclaration<'a>],
) -> Result<Names, Unbuilt>
    requires listed { all.now ≡ listed.declarations_of (list_map source_of scripts.now) }
    ensures accepted { OnOk result (spec.refusals_of view.now (list_map source_of scripts.now)
        ≡ []) }
    ensures names { IfOk result (λ names. names ≡ resolved.names_of view.now all.now) }
    ensures refused { IfErr result (λ why. spec.IsRefused why
        (spec.errors_in (spec.refusals_of view.now (list_map source_of scripts.now)))) }
{
    let Ok(refused) = refusals_over(alloc, view, scripts, all) else {
        return Err(Unbuilt::Memory);
    };
    if !refused.is_empty() {
        return Err(unbuilt(alloc, refused));
    }
    match names_of(alloc, view, all) {
        Ok(names) => Ok(names),
        Err(_) => Err(Unbuilt::Memory),
    }
}

/// What scripts declare, over what their module sees of the host; or the errors of the first phase that
/// refuses some of the declarations, in their order.
///
/// `Errors` are those, of which there is one at least; `Memory` is want of memory.
pub fn declare<'a>(alloc: Global, view: &'a View, scripts: &'a [Script]) -> Result<Names, Unbuilt>
    ensures accepted { OnOk result (spec.refusals_of view.now (list_map source_of scripts.now)
        ≡ []) }
    ensures names { IfOk result (λ names. names
        ≡ resolved.names_of view.now (listed.declarations_of (list_map source_of scripts.now))) }
    ensures refused { IfErr result (λ why. spec.IsRefused why
        (spec.errors_in (spec.refusals_of view.now (list_map source_of scripts.now)))) }
{
    let Ok(all) = declarations_of(alloc, scripts) else {
        return Err(Unbuilt::Memory);
    };
    declared_by(alloc, view, scripts, all.as_slice())
}

/// The names of all declarations, whatever is refused of them: denials ask over these. There are few enough classes and
/// interfaces wherever a refused declaration asks for a name (`laws::few_families`).
///
/// The only error is want of memory.
pub fn names_over<'a>(
    alloc: Global,
    view: &'a View,
    scripts: &'a [Script],
) -> Result<Names, AllocError>
    requires few { length (families_of
        (listed.declarations_of (list_map source_of scripts.now))) ≤ 256 }
    ensures exact { IfOk result (λ names. names
        ≡ resolved.names_of view.now (listed.declarations_of (list_map source_of scripts.now))) }
{
    let all = declarations_of(alloc, scripts)?;
    names_of(alloc, view, all.as_slice())
}

/// What the first phase that refuses some declarations refuses, with what each refused use asks. Denials ask it again.
///
/// The only error is want of memory.
pub fn phase_refusals<'a>(
    alloc: Global,
    view: &'a View,
    scripts: &'a [Script],
) -> Result<Vec<Refused>, AllocError>
    ensures exact { IfOk result
        (λ found. found.items ≡ spec.refusals_of view.now (list_map source_of scripts.now)) }
{
    let all = declarations_of(alloc, scripts)?;
    refusals_over(alloc, view, scripts, all.as_slice())
}
