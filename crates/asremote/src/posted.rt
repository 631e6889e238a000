//! Which functions a profile has posted.
ghost use Rattle.std.specs.Prelude.{◌≡◌, ◌++◌, flat_map, IfOk, OnOk};
ghost use Rattle.asrun_lines.specs.Lines.{lines_of};
ghost use Rattle.asrun_lines.specs.ProfileLines.{entry_of};
ghost use Rattle.asremote.specs.Posted.{posted_by, posted_in, number_for};

use asrun_lines::{ProfileLine, first_line, profile_line, shown};
use std::alloc::{AllocError, Global};

/// A function whose calls are posted.
#[derive(Clone, Copy)]
pub struct PostedFunction {
    /// The driver that is told.
    pub driver: u32,
    /// The driver's number of the function.
    pub f: u32,
}

/// Puts the function that the line has posted, if there is one, after the others.
fn push_posted(posted: &mut Vec<PostedFunction>, line: &[u8]) -> Result<(), AllocError>
    ensures added { OnOk result
        (posted.new.items ≡ posted.old.items ++ posted_by (entry_of line.now)) }
{
    let Some(line) = profile_line(line) else {
        return Ok(());
    };
    match line {
        ProfileLine::Posted { driver, f, decl: _ } => {
            posted.push(PostedFunction { driver, f })?;
            Ok(())
        }
        ProfileLine::Mask(_)
        | ProfileLine::Limit(_)
        | ProfileLine::HostType { .. }
        | ProfileLine::Factory { .. }
        | ProfileLine::Method { .. }
        | ProfileLine::Property { .. }
        | ProfileLine::Function { .. }
        | ProfileLine::Global { .. }
        | ProfileLine::Enumeration { .. }
        | ProfileLine::EnumValue { .. }
        | ProfileLine::Group { .. }
        | ProfileLine::EndGroup
        | ProfileLine::Blank => Ok(()),
    }
}

/// The functions that the profile has posted, in the order of their lines.
///
/// # Errors
/// A growth of memory was refused.
pub fn posted_in(alloc: Global, text: &[u8]) -> Result<Vec<PostedFunction>, AllocError>
    ensures exact { IfOk result (λ posted. posted.items ≡ posted_in (lines_of text.now)) }
{
    let mut posted = Vec::new(alloc);
    let mut rest = text;
    while let Some((line, after)) = first_line(rest) {
        push_posted(&mut posted, shown(line))?;
        rest = after;
    }
    Ok(posted)
}

/// Puts the number of a function after others, if it is posted to this driver.
fn push_number(
    numbers: &mut Vec<u32>,
    driver: u32,
    posted: &PostedFunction,
) -> Result<(), AllocError>
    ensures added { OnOk result
        (numbers.new.items ≡ numbers.old.items ++ number_for driver posted.now) }
{
    if posted.driver == driver {
        numbers.push(posted.f)?;
    }
    Ok(())
}

/// The numbers of those of these functions that are posted to a driver, in their order.
///
/// # Errors
/// A growth of memory was refused.
pub fn numbers_for(
    alloc: Global,
    driver: u32,
    functions: &[PostedFunction],
) -> Result<Vec<u32>, AllocError>
    ensures exact { IfOk result
        (λ numbers. numbers.items ≡ flat_map (number_for driver) functions.now) }
{
    let mut numbers = Vec::new(alloc);
    for function in functions {
        push_number(&mut numbers, driver, function)?;
    }
    Ok(numbers)
}
