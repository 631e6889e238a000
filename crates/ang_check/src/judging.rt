//! All bodies and initializers of a build.
ghost use Rattle.std.specs.Prelude.{◌≡◌, ◌≤◌, ◌++◌, [], length, IfOk, map as list_map};
ghost use Rattle.ang_typed.specs.View.{view_function, view_typed};
ghost use Rattle.ang_names_known.specs.Spaces.{AreFamilies, ancestors_of};
ghost use Rattle.ang_names_listed.specs.Sources.{source_of};
ghost use Rattle.ang_check.specs.Bodies as bodies;
ghost use Rattle.ang_check.specs.Judging as spec;

use crate::found::Found;
use crate::parts::{Build, Left, add_script};
use crate::program::{import_headings, method_headings, typed_classes};
use ang_check_contest::KnownView;
use ang_kinds::List;
use ang_names_known::{Names, lineage_of};
use ang_tree::Script;
use ang_typed::{Typed, TypedFunction};
use ang_types::Refused;
use ang_view::View;
use std::alloc::{AllocError, Global};

/// What judging the bodies and initializers of a build gives.
#[derive(Drop)]
pub struct CheckedBuild {
    /// The resolved tree, where nothing is refused.
    pub typed: Typed,
    /// Of each body and each initializer that is refused the first refusal, in their order.
    pub refused: List<Refused>,
}

/// What the bodies and initializers of all sections give.
#[tactic(auto, unfolding(crate::specs::Bodies::judgements, crate::specs::Bodies::parts_of))]
fn found_in(alloc: Global, build: &Build<'_>, scripts: &[Script]) -> Result<Found, AllocError>
    requires few { length build.now.names.now.families ≤ 256 }
    requires ancestors { build.now.lineage.now ≡ ancestors_of build.now.names.now }
    ensures all { IfOk result (λ found. spec.Holds found (bodies.judgements build.now.view.now
        build.now.names.now (list_map source_of scripts.now))) }
{
    let mut left = Left {
        functions: build.names.functions(),
        globals: build.names.globals(),
        families: build.names.families(),
    };
    let mut found = Found {
        functions: Vec::new(alloc),
        members: Vec::new(alloc),
        globals: Vec::new(alloc),
        refused: Vec::new(alloc),
    };
    for script in scripts {
        add_script(alloc, build, script, &mut left, &mut found)?;
    }
    Ok(found)
}

/// What the bodies and initializers of all sections give, by what is made to judge them alone: it is let go before there is a
/// resolved tree.
fn found_by(
    alloc: Global,
    view: &View,
    names: &Names,
    scripts: &[Script],
) -> Result<Found, AllocError>
    requires families { AreFamilies names.now.families }
    ensures all { IfOk result (λ found. spec.Holds found (bodies.judgements view.now names.now
        (list_map source_of scripts.now))) }
{
    let lineage = lineage_of(alloc, names)?;
    let known = KnownView::new(alloc, view)?;
    let build = Build {
        view: &known,
        names,
        lineage: &lineage,
    };
    found_in(alloc, &build, scripts)
}

/// Functions, with the bodies of members after them.
fn with_members(
    functions: Vec<TypedFunction>,
    members: Vec<TypedFunction>,
) -> Result<Vec<TypedFunction>, AllocError>
    ensures exact { IfOk result (λ v. list_map view_function v.items
        ≡ list_map view_function functions.items ++ list_map view_function members.items) }
{
    let mut all = functions;
    let mut others = members;
    all.append(&mut others)?;
    Ok(all)
}

/// The resolved tree of what was found, and what was refused.
fn judged_of(alloc: Global, names: &Names, found: Found) -> Result<CheckedBuild, AllocError>
    requires few { length names.now.families ≤ 256 }
    ensures typed { IfOk result (λ j. spec.IsTreeOf names.now found (view_typed j.typed)) }
    ensures refused { IfOk result (λ j. j.refused ≡ found.refused.items) }
{
    let Found {
        functions,
        members,
        globals,
        refused,
    } = found;
    let functions = with_members(functions, members)?;
    let classes = typed_classes(alloc, names.families())?;
    let methods = method_headings(alloc, names.families())?;
    let imports = import_headings(alloc, names.imports())?;
    Ok(CheckedBuild {
        typed: Typed {
            functions: List::from_vec(functions),
            globals: List::from_vec(globals),
            classes: List::from_vec(classes),
            methods: List::from_vec(methods),
            imports: List::from_vec(imports),
        },
        refused: List::from_vec(refused),
    })
}

/// Judges all bodies and initializers, in the order of sections and text, where `names` are those of the scripts over the
/// view.
///
/// The only error is want of memory.
#[tactic(auto, unfolding(crate::specs::Bodies::body_refusals, crate::specs::Bodies::program_of))]
pub fn judge(
    alloc: Global,
    view: &View,
    names: &Names,
    scripts: &[Script],
) -> Result<CheckedBuild, AllocError>
    requires families { AreFamilies names.now.families }
    ensures typed { IfOk result (λ j. j.refused ≡ [] → view_typed j.typed
        ≡ bodies.program_of view.now names.now (list_map source_of scripts.now)) }
    ensures refused { IfOk result (λ j. j.refused
        ≡ bodies.body_refusals view.now names.now (list_map source_of scripts.now)) }
{
    let found = found_by(alloc, view, names, scripts)?;
    judged_of(alloc, names, found)
}
