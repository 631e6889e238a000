//! Registering what a profile says.
ghost use Rattle.std.specs.Prelude.{◌≡◌, ◌<◌, ◌^◌, length, OnOk};
ghost use Rattle.ang_view.specs.Registration.{entry_at};
ghost use Rattle.ang_engine.specs.Limited.{no_limits};
ghost use Rattle.asrun_lines.specs.Lines.{lines_of};
ghost use Rattle.asrun_session.specs.Limits.{entry_limits, line_limits, limits_of};
ghost use Rattle.asrun_session.specs.Profile.{line_entered, loaded, Loads, entered, IsJudged, IsJudgedPosted, IsGroupJudged, is_void, gives_none};
ghost use Rattle.asrun_session.specs.Whole.{fresh};
ghost use Rattle.asrun_lines.specs.ProfileLines.{entry_of};

use crate::limits::with_limit;
use ang_engine::Limits;
use ang_kinds::{EntityNo, TypeRef};
use ang_registry::{GroupError, RegError, Registry};
use asrun_lines::{ProfileLine, first_line, is_skipped, profile_line, shown};
use std::alloc::Global;

/// What a profile says.
#[derive(Drop)]
pub struct LoadedProfile {
    /// What the host registers.
    pub registry: Registry,
    /// How much scripts may hold, and a command may list.
    pub limits: Limits,
}

impl LoadedProfile {
    /// That of a profile without lines: nothing is registered, and there are no limits.
    pub fn new(alloc: Global) -> LoadedProfile
        ensures registry { result.registry ≡ fresh }
        ensures limits { result.limits ≡ no_limits }
    {
        LoadedProfile {
            registry: Registry::new(alloc),
            limits: Limits::none(),
        }
    }
}

/// What ends a run at a line of a profile. Lines are numbered from 1.
#[derive(Clone, Copy)]
pub enum ProfileFault {
    /// The line is of another form.
    BadLine(u64),
    /// The registration of the line was refused, for another cause than memory.
    Refused(u64, RegError),
    /// The line begins or ends a group, and was refused, for another cause than memory.
    GroupRefused(u64, GroupError),
    /// The line posts a function that has a result.
    NotVoid(u64),
}

/// Why a profile was not loaded.
#[derive(Clone, Copy)]
pub enum ProfileStop {
    /// One of its lines ends the run.
    Fault(ProfileFault),
    /// A growth of memory was refused.
    Memory,
}

/// How line `number` ends, of which this is the registration's answer.
fn judged(number: u64, answer: Result<EntityNo, RegError>) -> Result<(), ProfileStop>
    ensures exact { IsJudged result number answer }
{
    match answer {
        Ok(_) => Ok(()),
        Err(RegError::Memory) => Err(ProfileStop::Memory),
        Err(why) => Err(ProfileStop::Fault(ProfileFault::Refused(number, why))),
    }
}

/// How line `number`, which begins or ends a group, ends, of which this is the registry's answer.
fn judged_group(number: u64, answer: Result<(), GroupError>) -> Result<(), ProfileStop>
    ensures exact { IsGroupJudged result number answer }
{
    match answer {
        Ok(()) => Ok(()),
        Err(GroupError::Memory) => Err(ProfileStop::Memory),
        Err(why) => Err(ProfileStop::Fault(ProfileFault::GroupRefused(number, why))),
    }
}

fn is_void(ty: &TypeRef) -> bool
    ensures exact { result ≡ is_void ty.now }
{
    match ty {
        TypeRef::Void => true,
        TypeRef::Plain(_) => false,
        TypeRef::Enumeration { name: _ } => false,
        TypeRef::Object {
            name: _,
            shape: _,
            const_object: _,
            const_handle: _,
        } => false,
    }
}

/// Whether an entry of this number is there, and has no result.
fn gives_none(registry: &Registry, number: EntityNo) -> bool
    ensures exact { result ≡ gives_none (entry_at registry.now.entries number.0) }
{
    match registry.get(number) {
        Some(entry) => is_void(&entry.signature.result),
        None => false,
    }
}

/// How line `number`, which posts a function, ends, of which this is the registration's answer.
fn judged_posted(
    registry: &Registry,
    number: u64,
    answer: Result<EntityNo, RegError>,
) -> Result<(), ProfileStop>
    ensures exact { IsJudgedPosted result number registry.now.entries answer }
{
    match answer {
        Ok(entry) => {
            if gives_none(registry, entry) {
                Ok(())
            } else {
                Err(ProfileStop::Fault(ProfileFault::NotVoid(number)))
            }
        }
        Err(why) => judged(number, Err(why)),
    }
}

/// Registers what line `number` says, or sets the limit that it says.
#[tactic(auto, using(crate::proofs::Loading::loads_judged, crate::proofs::Loading::loads_posted, crate::proofs::Loading::loads_grouped, crate::proofs::Loading::loads_ended))]
fn enter(profile: &mut LoadedProfile, number: u64, line: &[u8]) -> Result<(), ProfileStop>
    ensures exact { Loads result profile.new.registry
        (entered number profile.old.registry (entry_of line.now)) }
    ensures limits { OnOk result
        (profile.new.limits ≡ entry_limits profile.old.limits (entry_of line.now)) }
{
    let Some(line) = profile_line(line) else {
        return Err(ProfileStop::Fault(ProfileFault::BadLine(number)));
    };
    match line {
        ProfileLine::Mask(mask) => {
            profile.registry.set_default_mask(mask);
            Ok(())
        }
        ProfileLine::Limit(limit) => {
            profile.limits = with_limit(profile.limits, limit);
            Ok(())
        }
        ProfileLine::HostType { name, driver } => judged(
            number,
            profile.registry.type_(name, driver),
        ),
        ProfileLine::Factory { type_name, f, decl } => {
            judged(number, profile.registry.factory(type_name, f, decl))
        }
        ProfileLine::Method { type_name, f, decl } => {
            judged(number, profile.registry.method(type_name, f, decl))
        }
        ProfileLine::Property { type_name, f, decl } => {
            judged(number, profile.registry.property(type_name, f, decl))
        }
        ProfileLine::Function { driver, f, decl } => {
            judged(number, profile.registry.function(driver, f, decl))
        }
        ProfileLine::Posted { driver, f, decl } => {
            let answer = profile.registry.function(driver, f, decl);
            judged_posted(&profile.registry, number, answer)
        }
        ProfileLine::Global { driver, f, decl } => {
            judged(number, profile.registry.global_property(driver, f, decl))
        }
        ProfileLine::Enumeration { name } => judged(number, profile.registry.enum_(name)),
        ProfileLine::EnumValue {
            enumeration,
            name,
            value,
        } => judged(
            number,
            profile.registry.enum_value(enumeration, name, value),
        ),
        ProfileLine::Group { name } => { judged_group(number, profile.registry.begin_group(name)) }
        ProfileLine::EndGroup => judged_group(number, profile.registry.end_group()),
        ProfileLine::Blank => judged(number, profile.registry.blank()),
    }
}

fn enter_line(profile: &mut LoadedProfile, number: u64, line: &[u8]) -> Result<(), ProfileStop>
    ensures exact { Loads result profile.new.registry
        (line_entered number profile.old.registry line.now) }
    ensures limits { OnOk result (profile.new.limits ≡ line_limits profile.old.limits line.now) }
{
    if is_skipped(line) {
        return Ok(());
    }
    enter(profile, number, line)
}

/// Registers what the profile says and sets its limits, line by line, until one of them ends the run.
pub fn load(profile: &mut LoadedProfile, text: &[u8]) -> Result<(), ProfileStop>
    requires few { length text.now < 2 ^ 32 }
    ensures exact { Loads result profile.new.registry
        (loaded 1 profile.old.registry (lines_of text.now)) }
    ensures limits { OnOk result
        (profile.new.limits ≡ limits_of profile.old.limits (lines_of text.now)) }
{
    let mut rest = text;
    let mut number = 1;
    while let Some((line, after)) = first_line(rest) {
        enter_line(profile, number, shown(line))?;
        number += 1;
        rest = after;
    }
    Ok(())
}
