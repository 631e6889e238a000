//! The texts of lines that end the run, and of what is told between commands.
ghost use Rattle.std.specs.Prelude.{◌≡◌, ◌++◌, OnOk, Some};
ghost use Rattle.asrun_session.specs.Deeds.{bad_line_text};
ghost use Rattle.asrun_session.specs.Inquiries.{used_text, prepared_text};
ghost use Rattle.asrun_session.specs.Whole.{why_text, group_why_text, profile_fault_text};

use crate::profile::ProfileFault;
use ang_engine::Held;
use ang_registry::{GroupError, RegError};
use asrun_lines::{push_number, push_text};
use std::alloc::AllocError;

/// `line N BadLine`, put after what stands in `out`.
#[tactic(auto, using(crate::proofs::Texts::texts))]
pub fn push_bad_line(out: &mut Vec<u8>, number: u64) -> Result<(), AllocError>
    ensures added { OnOk result (out.new.items ≡ out.old.items ++ bad_line_text (Some number)) }
{
    push_text(out, "line ")?;
    push_number(out, number)?;
    push_text(out, " BadLine\n")
}

#[tactic(auto, unfolding(crate::specs::Whole::why_text))]
fn registration_error_name(why: RegError) -> &'static str
    ensures exact { result.now ≡ why_text why }
{
    match why {
        RegError::Limit => "Limit",
        RegError::EmptyMask => "EmptyMask",
        RegError::BadDeclaration => "BadDeclaration",
        RegError::UnknownType => "UnknownType",
        RegError::WrongDriver => "WrongDriver",
        RegError::Duplicate => "Duplicate",
        RegError::Memory => "Memory",
    }
}

#[tactic(auto, unfolding(crate::specs::Whole::group_why_text))]
fn group_error_name(why: GroupError) -> &'static str
    ensures exact { result.now ≡ group_why_text why }
{
    match why {
        GroupError::GroupOpen => "GroupOpen",
        GroupError::BadName => "BadName",
        GroupError::Duplicate => "Duplicate",
        GroupError::Limit => "Limit",
        GroupError::NoGroup => "NoGroup",
        GroupError::InUse => "InUse",
        GroupError::Memory => "Memory",
    }
}

/// `profile LINE BadLine`, `profile LINE NotVoid` or `profile LINE REFUSAL`, put after what stands in `out`.
#[tactic(auto, using(crate::proofs::Texts::texts), unfolding(crate::specs::Whole::profile_fault_text))]
pub fn push_profile_fault(out: &mut Vec<u8>, fault: ProfileFault) -> Result<(), AllocError>
    ensures added { OnOk result (out.new.items ≡ out.old.items ++ profile_fault_text fault) }
{
    push_text(out, "profile ")?;
    match fault {
        ProfileFault::BadLine(number) => {
            push_number(out, number)?;
            push_text(out, " BadLine\n")
        }
        ProfileFault::Refused(number, why) => {
            push_number(out, number)?;
            push_text(out, " ")?;
            push_text(out, registration_error_name(why))?;
            push_text(out, "\n")
        }
        ProfileFault::GroupRefused(number, why) => {
            push_number(out, number)?;
            push_text(out, " ")?;
            push_text(out, group_error_name(why))?;
            push_text(out, "\n")
        }
        ProfileFault::NotVoid(number) => {
            push_number(out, number)?;
            push_text(out, " NotVoid\n")
        }
    }
}

/// `ticks N`, `slots N`, `objects N` and `ok`, put after what stands in `out`.
#[tactic(auto, using(crate::proofs::Texts::texts), unfolding(crate::specs::Inquiries::used_text))]
pub fn push_used(out: &mut Vec<u8>, ticks: u64, held: Held) -> Result<(), AllocError>
    ensures added { OnOk result (out.new.items ≡ out.old.items ++ used_text ticks held) }
{
    push_text(out, "ticks ")?;
    push_number(out, ticks)?;
    push_text(out, "\nslots ")?;
    push_number(out, held.slots as u64)?;
    push_text(out, "\nobjects ")?;
    push_number(out, held.objects as u64)?;
    push_text(out, "\nok\n")
}

/// `prepared N` and `ok`, put after what stands in `out`.
#[tactic(auto, using(crate::proofs::Texts::texts), unfolding(crate::specs::Inquiries::prepared_text))]
pub fn push_prepared(out: &mut Vec<u8>, number: u64) -> Result<(), AllocError>
    ensures added { OnOk result (out.new.items ≡ out.old.items ++ prepared_text number) }
{
    push_text(out, "prepared ")?;
    push_number(out, number)?;
    push_text(out, "\nok\n")
}
