//! Builds a program from its sections: the declarations first, then the bodies over the names that they give.
ghost use Rattle.std.specs.Prelude.{◌≡◌, ◌<◌, ◌^◌, length, option_copied, map as list_map};
ghost use Rattle.ang_view.specs.Registration.{seen};
ghost use Rattle.ang_names_listed.specs.Sources.{source_of};
ghost use Rattle.ang_check.specs.Denials.{denials_of};
ghost use Rattle.ang_engine_build.specs.Build.{build_of_scripts, build_of, denials_in};
ghost use Rattle.ang_engine_build.specs.Answer.{IsBuilt, HasDenials, IsOneError, HasErrorsOf, IsDenied};

use crate::program::{NoProgram, Program};
use crate::section::read_sections;
use crate::stop::SourceError;
use ang_check::{check, denials};
use ang_kinds::{List, Mask, Unbuilt};
use ang_names::declare;
use ang_names_known::Names;
use ang_registry::Registry;
use ang_tree::Script;
use ang_view::View;
use std::alloc::Global;

/// The one error at which a build stops. It has no denials.
fn one_error(alloc: Global, stop: SourceError) -> NoProgram
    ensures exact { IsOneError result stop }
{
    let SourceError::Fault(error) = stop else {
        return NoProgram::Memory;
    };
    let mut errors = Vec::new(alloc);
    match errors.push(error) {
        Ok(()) => NoProgram::Errors {
            errors: List::from_vec(errors),
            denials: List::from_vec(Vec::new(alloc)),
        },
        Err(_) => NoProgram::Memory,
    }
}

/// The errors of scripts, with their denials for a module of this mask. `names` are those that `declare` gave, if it did.
fn with_denials(
    alloc: Global,
    registry: &Registry,
    mask: Mask,
    scripts: &[Script],
    names: Option<&Names>,
    unbuilt: Unbuilt,
) -> NoProgram
    requires errors { HasErrorsOf (seen registry.now.entries mask.0)
        (list_map source_of scripts.now) (option_copied names) unbuilt }
    ensures exact { IsDenied result unbuilt
        (denials_of registry.now.entries mask.0 (list_map source_of scripts.now)) }
{
    let Unbuilt::Errors(errors) = unbuilt else {
        return NoProgram::Memory;
    };
    match denials(alloc, registry, mask, scripts, names, errors.as_slice()) {
        Ok(rows) => NoProgram::Errors {
            errors,
            denials: List::from_vec(rows),
        },
        Err(_) => NoProgram::Memory,
    }
}

/// The program that the scripts build to, over what their module sees of the host, or why they do not.
fn build_scripts(
    alloc: Global,
    registry: &Registry,
    mask: Mask,
    view: &View,
    scripts: &[Script],
) -> Result<Program, NoProgram>
    requires view { view.now ≡ seen registry.now.entries mask.0 }
    ensures built { IsBuilt result (build_of_scripts view.now (list_map source_of scripts.now)) }
    ensures denials { HasDenials result
        (denials_of registry.now.entries mask.0 (list_map source_of scripts.now)) }
{
    let names = match declare(alloc, view, scripts) {
        Ok(names) => names,
        Err(unbuilt) => return Err(with_denials(alloc, registry, mask, scripts, None, unbuilt)),
    };
    match check(alloc, view, &names, scripts) {
        Ok(tree) => Ok(Program { names, tree }),
        Err(unbuilt) => {
            let why = with_denials(alloc, registry, mask, scripts, Some(&names), unbuilt);
            drop(names);
            Err(why)
        }
    }
}

/// The program of sections, in their order, over what a module of this mask sees of the registration list: `view` is
/// what `registry.seen` gives for the mask.
///
/// # Errors
/// `Errors` has what is refused, in order of sections and text: the first section that is not read, with
/// its fault alone; else the errors of the declarations (`ang_names::declare`); else the first error of each
/// body and of each initializer (`ang_check::check`). It has the denials of these (`ang_check::denials`), none of a
/// section that is not read. `Memory` comes where a growth was refused, in the place of any answer.
pub fn build_sections(
    alloc: Global,
    registry: &Registry,
    mask: Mask,
    view: &View,
    sections: &[List<u8>],
) -> Result<Program, NoProgram>
    requires few { length sections.now < 2 ^ 32 }
    requires view { view.now ≡ seen registry.now.entries mask.0 }
    ensures built { IsBuilt result (build_of view.now sections.now) }
    ensures denials { HasDenials result
        (denials_in registry.now.entries mask.0 sections.now) }
{
    match read_sections(alloc, sections) {
        Ok(scripts) => build_scripts(alloc, registry, mask, view, &scripts),
        Err(stop) => Err(one_error(alloc, stop)),
    }
}
