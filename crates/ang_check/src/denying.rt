//! The denials of a build that was refused.
ghost use Rattle.std.specs.Prelude.{◌≡◌, List, [], IfOk, is_some, option_copied, map as list_map};
ghost use Rattle.std.specs.List.{flat_map, list_any};
ghost use Rattle.ang_kinds.specs.declared.error.Error.{Error as ErrorValue};
ghost use Rattle.ang_view.specs.Hidden as views;
ghost use Rattle.ang_view.specs.Registration.{seen};
ghost use Rattle.ang_names_listed.specs.Declarations.{declarations_of};
ghost use Rattle.ang_names_known.specs.Spaces.{AreFamilies};
ghost use Rattle.ang_names_listed.specs.Sources.{source_of};
ghost use Rattle.ang_names.specs.Phases.{refusals_of};
ghost use Rattle.ang_names_classes.specs.Resolved.{names_of};
ghost use Rattle.ang_check.specs.Bodies.{body_refusals};
ghost use Rattle.ang_check_denials.specs.Denials.{rows_for};
ghost use Rattle.ang_check.specs.Denials as spec;

use crate::judge;
use ang_check_contest::{KnownView, Scope};
use ang_check_denials::{Masked, denied};
use ang_kinds::{Denial, Error, Mask};
use ang_names::{names_over, phase_refusals};
use ang_names_known::{Names, lineage_of};
use ang_registry::Registry;
use ang_tree::Script;
use ang_types::Refused;
use ang_view::View;
use std::alloc::{AllocError, Global};

/// Whether some refused use asks for a name where an entry of the host could help.
fn some_ask(refused: &[Refused]) -> bool
    ensures exact { result ≡ spec.some_ask refused.now }
{
    refused.iter().any(|one| one.asks.is_some())
}

/// The rows of refused uses of scripts with these names.
fn rows_over(
    alloc: Global,
    masked: &Masked<'_>,
    view: &View,
    names: &Names,
    refused: &[Refused],
) -> Result<Vec<Denial>, AllocError>
    requires view { view.now ≡ seen masked.now.list masked.now.mask }
    requires families { AreFamilies names.now.families }
    ensures exact { IfOk result (λ rows. rows.items ≡ flat_map (rows_for masked.now.list
        masked.now.mask (spec.scope_of view.now names.now)) refused.now) }
{
    let lineage = lineage_of(alloc, names)?;
    let known = KnownView::new(alloc, view)?;
    let scope = Scope::new(&known, names, &lineage);
    denied(alloc, masked, &scope, refused)
}

/// The rows of what is refused of declarations.
#[tactic(auto, using(crate::proofs::Asking::no_rows, crate::proofs::Asking::few_where_asked, ang_names::proofs::Few::are_families))]
fn rows_of_phases(
    alloc: Global,
    masked: &Masked<'_>,
    view: &View,
    scripts: &[Script],
) -> Result<Vec<Denial>, AllocError>
    requires view { view.now ≡ seen masked.now.list masked.now.mask }
    ensures exact { IfOk result (λ rows. rows.items ≡ flat_map
        (rows_for masked.now.list masked.now.mask
        (spec.scope_over view.now (list_map source_of scripts.now)))
        (refusals_of view.now (list_map source_of scripts.now))) }
{
    let refused = phase_refusals(alloc, view, scripts)?;
    if !some_ask(refused.as_slice()) {
        return Ok(Vec::new(alloc));
    }
    let names = names_over(alloc, view, scripts)?;
    let rows = rows_over(alloc, masked, view, &names, refused.as_slice());
    drop(names);
    rows
}

/// The rows of what is refused of bodies and initializers.
#[tactic(auto, using(ang_names::proofs::Few::accepted_families))]
fn rows_of_bodies(
    alloc: Global,
    masked: &Masked<'_>,
    view: &View,
    names: &Names,
    scripts: &[Script],
) -> Result<Vec<Denial>, AllocError>
    requires view { view.now ≡ seen masked.now.list masked.now.mask }
    requires accepted { refusals_of view.now (list_map source_of scripts.now) ≡ [] }
    requires names { names.now ≡ names_of view.now
        (declarations_of (list_map source_of scripts.now)) }
    ensures exact { IfOk result (λ rows. rows.items ≡ flat_map
        (rows_for masked.now.list masked.now.mask
        (spec.scope_over view.now (list_map source_of scripts.now)))
        (body_refusals view.now names.now (list_map source_of scripts.now))) }
{
    let judged = judge(alloc, view, names, scripts)?;
    rows_over(alloc, masked, view, names, judged.refused.as_slice())
}

/// Which entries of a view are there.
fn marks_of(alloc: Global, view: &View) -> Result<Vec<bool>, AllocError>
    ensures exact { IfOk result (λ marks. marks.items ≡ list_map is_some view.now) }
{
    let mut marks = Vec::new(alloc);
    for entry in view.entries() {
        marks.push(entry.is_some())?;
    }
    Ok(marks)
}

/// Which entries of a list a module of the mask does not see. What they are is let go of at once.
fn hidden_marks(alloc: Global, registry: &Registry, mask: Mask) -> Result<Vec<bool>, AllocError>
    ensures exact { IfOk result
        (λ marks. marks.items ≡ list_map is_some (views.hidden registry.now.entries mask.0)) }
{
    let hidden = registry.hidden(alloc, mask)?;
    let marks = marks_of(alloc, &hidden);
    drop(hidden);
    marks
}

/// Whether something is hidden: `hidden` has a mark for each entry of a list, whether a mask hides it.
fn hides_any(hidden: &[bool]) -> bool
    ensures exact { result ≡ list_any (λ hides. hides) hidden.now }
{
    hidden.iter().any(|hides| *hides)
}

fn no_rows(alloc: Global) -> Vec<Denial>
    ensures none { result.items ≡ [] }
{
    Vec::new(alloc)
}

/// The rows of what is refused over what the mask shows of a list. There are errors, as of `denials`.
#[tactic(auto, using(crate::proofs::Asking::phases_refuse, crate::proofs::Asking::bodies_refuse))]
fn rows_masked(
    alloc: Global,
    registry: &Registry,
    mask: Mask,
    masked: &Masked<'_>,
    scripts: &[Script],
    names: Option<&Names>,
) -> Result<Vec<Denial>, AllocError>
    requires list { masked.now.list ≡ registry.now.entries }
    requires mask { masked.now.mask ≡ mask.0 }
    requires errors { (es : List ErrorValue)
        × spec.AreErrors (seen registry.now.entries mask.0) (list_map source_of scripts.now)
        (option_copied names) es }
    ensures exact { IfOk result (λ rows. rows.items
        ≡ spec.denials_of registry.now.entries mask.0 (list_map source_of scripts.now)) }
{
    let view = registry.seen(alloc, mask)?;
    match names {
        None => rows_of_phases(alloc, masked, &view, scripts),
        Some(names) => rows_of_bodies(alloc, masked, &view, names, scripts),
    }
}

/// The same over a whole list, of which this is hidden.
fn rows_of_list(
    alloc: Global,
    registry: &Registry,
    mask: Mask,
    whole: &View,
    hidden: &[bool],
    scripts: &[Script],
    names: Option<&Names>,
) -> Result<Vec<Denial>, AllocError>
    requires whole { whole.now ≡ registry.now.entries }
    requires hidden { hidden.now
        ≡ list_map is_some (views.hidden registry.now.entries mask.0) }
    requires errors { (es : List ErrorValue)
        × spec.AreErrors (seen registry.now.entries mask.0) (list_map source_of scripts.now)
        (option_copied names) es }
    ensures exact { IfOk result (λ rows. rows.items
        ≡ spec.denials_of registry.now.entries mask.0 (list_map source_of scripts.now)) }
{
    let masked = Masked::new(alloc, whole, hidden, mask)?;
    let rows = rows_masked(alloc, registry, mask, &masked, scripts, names);
    drop(masked);
    rows
}

/// The same where this is hidden of a list, and nothing may be.
fn rows_hidden(
    alloc: Global,
    registry: &Registry,
    mask: Mask,
    hidden: &[bool],
    scripts: &[Script],
    names: Option<&Names>,
) -> Result<Vec<Denial>, AllocError>
    requires hidden { hidden.now
        ≡ list_map is_some (views.hidden registry.now.entries mask.0) }
    requires errors { (es : List ErrorValue)
        × spec.AreErrors (seen registry.now.entries mask.0) (list_map source_of scripts.now)
        (option_copied names) es }
    ensures exact { IfOk result (λ rows. rows.items
        ≡ spec.denials_of registry.now.entries mask.0 (list_map source_of scripts.now)) }
{
    if !hides_any(hidden) {
        return Ok(no_rows(alloc));
    }
    let whole = registry.whole(alloc)?;
    let rows = rows_of_list(alloc, registry, mask, &whole, hidden, scripts, names);
    drop(whole);
    rows
}

/// The denials of a build of these scripts for a module of this mask: for each refused use the hidden entries by which it
/// would have been resolved, and the types that come with them, in the order of the errors, and of each in the order of
/// entries (docs/LANGUAGE.md, "Denials").
///
/// `names` are those that `declare` gave, if it did; the errors are those of `declare`, or else those of `check`, over what
/// the mask shows. Where the mask hides nothing, nothing is judged again. The only error is want of memory.
pub fn denials(
    alloc: Global,
    registry: &Registry,
    mask: Mask,
    scripts: &[Script],
    names: Option<&Names>,
    errors: &[Error],
) -> Result<Vec<Denial>, AllocError>
    requires errors { spec.AreErrors (seen registry.now.entries mask.0)
        (list_map source_of scripts.now) (option_copied names) errors.now }
    ensures exact { IfOk result (λ rows. rows.items
        ≡ spec.denials_of registry.now.entries mask.0 (list_map source_of scripts.now)) }
{
    if errors.is_empty() {
        return Ok(Vec::new(alloc));
    }
    let hidden = hidden_marks(alloc, registry, mask)?;
    let rows = rows_hidden(alloc, registry, mask, hidden.as_slice(), scripts, names);
    drop(hidden);
    rows
}
