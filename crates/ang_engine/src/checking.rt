//! Checks of the sections that wait, without a build.
ghost use Rattle.std.specs.Prelude.{ℕ, ◌≡◌, ◌≢◌, ◌<◌, ◌^◌, [], Option, Some, length, IsSome};
ghost use Rattle.ang_view.specs.Registration.{seen};
ghost use Rattle.ang_meaning.specs.World.{World as RunWorld};
ghost use Rattle.ang_engine_build.specs.Answer.{HasDenials};
ghost use Rattle.ang_engine_build.specs.Build.{build_of, denials_in};
ghost use Rattle.ang_engine_modules.specs.declared.modules.LoadedModule.{LoadedModule};
ghost use Rattle.ang_engine_modules.specs.Sound.{IsKept, ArePlacesKept};
ghost use Rattle.ang_engine_modules.specs.States.{states_in, state_of, place_of, build_in, HaveSameBuilds};
ghost use Rattle.ang_engine_modules.specs.World.{module_named, module_at, module_in, left_to};
ghost use Rattle.ang_engine.specs.Checking.{checking, beside_sections, IsJudged, state_after};
ghost use Rattle.ang_engine.specs.Outcomes.{reply_to_build};
ghost use Rattle.ang_engine.specs.Step.{Leads};
ghost use Rattle.ang_engine.specs.Sound.{IsSound};

use crate::building::{BuildRefused, compile, refused_by};
use crate::engine::Engine;
use crate::replies::{build_reply, heard_reply};
use ang_engine_build::NoProgram;
use ang_engine_modules::{Module, ModuleList, Refusal, Reply, find, no_events};
use ang_host::Driver;
use ang_kinds::{List, Mask};
use ang_registry::Registry;
use std::alloc::Global;

/// Whether sections build to a program over what the mask sees.
///
/// # Errors
/// Their errors with the denials, or want of memory.
fn judge(
    alloc: Global,
    registry: &Registry,
    name: &[u8],
    mask: Mask,
    sections: &[List<u8>],
) -> Result<(), NoProgram>
    requires few { length sections.now < 2 ^ 32 }
    ensures judged { IsJudged result
        (build_of (seen registry.now.entries mask.0) sections.now) }
    ensures denials { HasDenials result (denials_in registry.now.entries mask.0 sections.now) }
{
    match compile(alloc, registry, name, mask, sections) {
        Ok(compiled) => {
            drop(compiled);
            Ok(())
        }
        Err(why) => Err(why),
    }
}

/// Judges the sections that wait in a module, which wait no more where they have errors.
fn judge_waiting(alloc: Global, registry: &Registry, waiting: &mut Module) -> Result<(), NoProgram>
    ensures judged { IsJudged result
        (build_of (seen registry.now.entries waiting.old.mask.0) waiting.old.sections.items) }
    ensures denials { HasDenials result
        (denials_in registry.now.entries waiting.old.mask.0 waiting.old.sections.items) }
    ensures after { (l : Option LoadedModule) → state_of waiting.new l
        ≡ state_after result (state_of waiting.old l) }
    ensures name { waiting.new.name ≡ waiting.old.name }
    ensures built_mask { waiting.new.built_mask ≡ waiting.old.built_mask }
    ensures build { waiting.new.build ≡ waiting.old.build }
{
    let judged = judge(
        alloc,
        registry,
        waiting.name.as_slice(),
        waiting.mask,
        &waiting.sections,
    );
    match judged {
        Ok(()) => Ok(()),
        Err(NoProgram::Errors { errors, denials }) => {
            waiting.sections = Vec::new(alloc);
            Err(NoProgram::Errors { errors, denials })
        }
        Err(NoProgram::Memory) => Err(NoProgram::Memory),
    }
}

/// The same of the module in a place.
fn judge_place(
    alloc: Global,
    registry: &Registry,
    place: &mut Option<Module>,
) -> Result<(), NoProgram>
    requires there { IsSome place.old }
    ensures judged { (l : Option LoadedModule) → IsJudged result
        (build_of (seen registry.now.entries (module_in (place_of place.old l)).mask)
        (module_in (place_of place.old l)).sections) }
    ensures denials { (l : Option LoadedModule) → HasDenials result
        (denials_in registry.now.entries (module_in (place_of place.old l)).mask
        (module_in (place_of place.old l)).sections) }
    ensures after { (l : Option LoadedModule) → place_of place.new l
        ≡ Some (state_after result (module_in (place_of place.old l))) }
    ensures kept { IsKept place.old place.new }
    ensures build { build_in place.new ≡ build_in place.old }
{
    match place {
        Some(module) => judge_waiting(alloc, registry, module),
        None => unreachable!(),
    }
}

/// Judges the sections that wait in the module of that name: `Engine::check`.
fn check_named(
    alloc: Global,
    registry: &Registry,
    list: &mut ModuleList,
    name: &[u8],
) -> Result<(), BuildRefused>
    requires few { length list.old.places.items < 2 ^ 32 }
    ensures done { (r : RunWorld) → Leads (checking registry.now.entries name.now
        (left_to (states_in list.old) r)) (reply_to_build result [])
        (left_to (states_in list.new) r) }
    ensures alone { (r : RunWorld) → beside_sections (left_to (states_in list.new) r)
        ≡ beside_sections (left_to (states_in list.old) r) }
    ensures others { (r : RunWorld) (i : ℕ)
        → module_named name.now (left_to (states_in list.old) r) ≢ Some i
        → module_at (left_to (states_in list.new) r) i
        ≡ module_at (left_to (states_in list.old) r) i }
    ensures kept { ArePlacesKept list.old list.new }
    ensures builds { HaveSameBuilds list.old list.new }
{
    let Some(home) = find(&list.places, name) else {
        return Err(BuildRefused::Before(Refusal::NoModule));
    };
    match judge_place(alloc, registry, &mut list.places[home as usize]) {
        Ok(()) => Ok(()),
        Err(why) => Err(refused_by(why)),
    }
}

impl Engine {
    ghost use Rattle.ang_engine.specs.Engines.{list_in, registrations, world_in, drivers_in, limits_in, held_in, builds_in, last_build};
    ghost use Rattle.ang_engine.specs.Trace.{trace_in, ticks_in};

    /// Judges the sections that wait in a module as its build would, over what its mask sees now, and
    /// builds nothing: what the module has stays built and goes on. The reply is `Done(None)` where the
    /// sections are a program, and lists the same errors and denials as the build would where they are
    /// none. It makes no host call, and takes no ticks.
    ///
    /// Sections with errors wait no more, as after a build. All others wait still, and a build can
    /// follow. It is no command: `trace` and `ticks_used` go on to speak of the last one.
    ///
    /// Refused as `NoModule` where there is no module of that name, as `BuildErrors` where the sections
    /// have errors, and as `BuildMemory` where a growth of memory was refused. After `NoModule` and
    /// `BuildMemory` all is as it was.
    pub fn check(&mut self, name: &[u8]) -> Reply
        requires sound { IsSound ⟦<dyn Driver as Driver>⟧ self.old }
        ensures checks { Leads (checking (registrations self.old) name.now
            (world_in ⟦<dyn Driver as Driver>⟧ self.old)) result
            (world_in ⟦<dyn Driver as Driver>⟧ self.new) }
        ensures alone { beside_sections (world_in ⟦<dyn Driver as Driver>⟧ self.new)
            ≡ beside_sections (world_in ⟦<dyn Driver as Driver>⟧ self.old) }
        ensures others { (i : ℕ)
            → module_named name.now (world_in ⟦<dyn Driver as Driver>⟧ self.old) ≢ Some i
            → module_at (world_in ⟦<dyn Driver as Driver>⟧ self.new) i
            ≡ module_at (world_in ⟦<dyn Driver as Driver>⟧ self.old) i }
        ensures silent { result.events ≡ [] }
        ensures drivers { drivers_in self.new ≡ drivers_in self.old }
        ensures held { held_in ⟦<dyn Driver as Driver>⟧ self.new
            ≡ held_in ⟦<dyn Driver as Driver>⟧ self.old }
        ensures limits { limits_in self.new ≡ limits_in self.old }
        ensures builds { (i : ℕ) → builds_in self.new i ≡ builds_in self.old i }
        ensures last { last_build self.new ≡ last_build self.old }
        ensures trace { trace_in self.new ≡ trace_in self.old }
        ensures ticks { ticks_in self.new ≡ ticks_in self.old }
        ensures sound { IsSound ⟦<dyn Driver as Driver>⟧ self.new }
        ensures list { list_in self.new ≡ list_in self.old }
    {
        let alloc = self.alloc;
        let done = check_named(alloc, &self.registry, &mut self.modules, name);
        heard_reply(build_reply(alloc, true, done, no_events(alloc, true)))
    }
}
