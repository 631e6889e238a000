//! The resolved tree of a build, or its errors.
ghost use Rattle.std.specs.Prelude.{◌≡◌, [], IfOk, IfErr, OnOk, map as list_map};
ghost use Rattle.ang_typed.specs.View.{view_typed};
ghost use Rattle.ang_check.specs.Bodies as bodies;
ghost use Rattle.ang_names_listed.specs.Declarations.{declarations_of};
ghost use Rattle.ang_names.specs.Phases.{IsRefused, errors_in, refusals_of};
ghost use Rattle.ang_names_classes.specs.Resolved.{names_of};
ghost use Rattle.ang_names_listed.specs.Sources.{source_of};

use crate::{CheckedBuild, judge};
use ang_kinds::Unbuilt;
use ang_names::unbuilt;
use ang_names_known::Names;
use ang_tree::Script;
use ang_typed::Typed;
use ang_view::View;
use std::alloc::Global;

/// The resolved tree of the scripts of a build, where `names` are those that `declare` gives for them over the
/// view; or the first error of each body and each initializer, in the order of the declarations.
///
/// `Errors` are those, of which there is one at least; `Memory` is want of memory.
#[tactic(auto, using(ang_names::proofs::Few::accepted_families, ang_names::proofs::Few::some_errors))]
pub fn check(
    alloc: Global,
    view: &View,
    names: &Names,
    scripts: &[Script],
) -> Result<Typed, Unbuilt>
    requires accepted { refusals_of view.now (list_map source_of scripts.now) ≡ [] }
    requires names { names.now ≡ names_of view.now
        (declarations_of (list_map source_of scripts.now)) }
    ensures accepted { OnOk result
        (bodies.body_refusals view.now names.now (list_map source_of scripts.now) ≡ []) }
    ensures typed { IfOk result (λ t. view_typed t
        ≡ bodies.program_of view.now names.now (list_map source_of scripts.now)) }
    ensures refused { IfErr result (λ why. IsRefused why
        (errors_in (bodies.body_refusals view.now names.now (list_map source_of scripts.now)))) }
{
    let Ok(judged) = judge(alloc, view, names, scripts) else {
        return Err(Unbuilt::Memory);
    };
    let CheckedBuild { typed, refused } = judged;
    if refused.as_slice().is_empty() {
        return Ok(typed);
    }
    Err(unbuilt(alloc, refused.into_vec()))
}
