//! The lines of a session.
ghost use Rattle.std.specs.Prelude.{◌≡◌, ◌<◌, IfOk, IfSome, codes, length, position};
ghost use Rattle.std.specs.Char.{is_ascii_alphabetic};
ghost use Rattle.std.specs.Str.{str_eq_ignore_ascii_case};
ghost use Rattle.asrun_lines.specs.SessionLines.{Reads, module_of, masked_of, section_of, build_of, bind_of, unbind_of, call_of, discard_of, remove_of, budget_of, session_line_of, begins_section, is_header};

use crate::fields::{decimal, field, last_field, mask, number, rest};
use crate::values::arguments;
use ang_kinds::{List, Mask, Value};
use std::alloc::{AllocError, Global};
use thiserror::Error;

/// A line of a session that is neither empty nor a comment.
#[derive(Drop)]
pub enum SessionLine {
    /// `module NAME M`: makes a module.
    Module {
        /// The module.
        name: List<u8>,
        /// Its mask.
        mask: Mask,
    },
    /// `mask NAME M`: gives the module another mask.
    Mask {
        /// The module.
        name: List<u8>,
        /// Its new mask.
        mask: Mask,
    },
    /// `section NAME N`: the lines that follow are a section of the module.
    Section {
        /// The module.
        name: List<u8>,
        /// How many lines.
        lines: u64,
    },
    /// `build NAME`: builds the module.
    Build {
        /// The module.
        name: List<u8>,
    },
    /// `bind NAME INDEX EXPORTER DECL`: binds an import of the module.
    Bind {
        /// The module.
        name: List<u8>,
        /// The import's number.
        index: u32,
        /// The module that has the function.
        exporter: List<u8>,
        /// The function's declaration.
        decl: List<u8>,
    },
    /// `unbind NAME INDEX`: unbinds an import of the module.
    Unbind {
        /// The module.
        name: List<u8>,
        /// The import's number.
        index: u32,
    },
    /// `call NAME (V,V) DECL`: calls a function of the module.
    Call {
        /// The module.
        name: List<u8>,
        /// The arguments.
        args: List<Value>,
        /// The function's declaration.
        decl: List<u8>,
    },
    /// `discard NAME`: discards the module.
    Discard {
        /// The module.
        name: List<u8>,
    },
    /// `remove NAME`: removes a group of entries.
    Remove {
        /// The group.
        name: List<u8>,
    },
    /// `budget N`: the ticks that each later command may take.
    Budget(u64),
}

/// Why a line gave nothing.
#[derive(Debug, Drop, Error)]
pub enum LineError {
    /// The line is of another form.
    #[error("a line of another form")]
    BadLine,
    /// A growth of memory was refused.
    #[error("out of memory")]
    Memory,
}

impl From<AllocError> for LineError {
    ghost use Rattle.asrun_lines.specs.declared.session_lines.LineError.TheVariants.{Memory};

    ghost from_gives = { λ _ e. e ≡ Memory };

    fn from(_e: AllocError) -> LineError {
        LineError::Memory
    }
}

fn copied(alloc: Global, bytes: &[u8]) -> Result<List<u8>, AllocError>
    ensures exact { IfOk result (λ l. l ≡ bytes.now) }
{
    Ok(List::from_vec(Vec::from_slice(alloc, bytes)?))
}

#[tactic(auto, unfolding(crate::specs::SessionLines::module_of))]
fn module_line(alloc: Global, text: &[u8]) -> Result<SessionLine, LineError>
    ensures exact { Reads result (module_of text.now) }
{
    let (name, text) = field(text).ok_or(LineError::BadLine)?;
    let mask = mask(text).ok_or(LineError::BadLine)?;
    let name = copied(alloc, name)?;
    Ok(SessionLine::Module { name, mask })
}

#[tactic(auto, unfolding(crate::specs::SessionLines::masked_of))]
fn mask_line(alloc: Global, text: &[u8]) -> Result<SessionLine, LineError>
    ensures exact { Reads result (masked_of text.now) }
{
    let (name, text) = field(text).ok_or(LineError::BadLine)?;
    let mask = mask(text).ok_or(LineError::BadLine)?;
    let name = copied(alloc, name)?;
    Ok(SessionLine::Mask { name, mask })
}

#[tactic(auto, unfolding(crate::specs::SessionLines::section_of))]
fn section_line(alloc: Global, text: &[u8]) -> Result<SessionLine, LineError>
    ensures exact { Reads result (section_of text.now) }
{
    let (name, text) = field(text).ok_or(LineError::BadLine)?;
    let lines = decimal(text, 10).ok_or(LineError::BadLine)?;
    let name = copied(alloc, name)?;
    Ok(SessionLine::Section { name, lines })
}

#[tactic(auto, unfolding(crate::specs::SessionLines::build_of))]
fn build_line(alloc: Global, text: &[u8]) -> Result<SessionLine, LineError>
    ensures exact { Reads result (build_of text.now) }
{
    let name = last_field(text).ok_or(LineError::BadLine)?;
    let name = copied(alloc, name)?;
    Ok(SessionLine::Build { name })
}

#[tactic(auto, unfolding(crate::specs::SessionLines::bind_of))]
fn bind_line(alloc: Global, text: &[u8]) -> Result<SessionLine, LineError>
    ensures exact { Reads result (bind_of text.now) }
{
    let (name, text) = field(text).ok_or(LineError::BadLine)?;
    let (index, text) = field(text).ok_or(LineError::BadLine)?;
    let index = number(index).ok_or(LineError::BadLine)?;
    let (exporter, text) = field(text).ok_or(LineError::BadLine)?;
    let decl = rest(text).ok_or(LineError::BadLine)?;
    Ok(SessionLine::Bind {
        name: copied(alloc, name)?,
        index,
        exporter: copied(alloc, exporter)?,
        decl: copied(alloc, decl)?,
    })
}

#[tactic(auto, unfolding(crate::specs::SessionLines::unbind_of))]
fn unbind_line(alloc: Global, text: &[u8]) -> Result<SessionLine, LineError>
    ensures exact { Reads result (unbind_of text.now) }
{
    let (name, text) = field(text).ok_or(LineError::BadLine)?;
    let index = number(text).ok_or(LineError::BadLine)?;
    let name = copied(alloc, name)?;
    Ok(SessionLine::Unbind { name, index })
}

#[tactic(auto, unfolding(crate::specs::SessionLines::discard_of))]
fn discard_line(alloc: Global, text: &[u8]) -> Result<SessionLine, LineError>
    ensures exact { Reads result (discard_of text.now) }
{
    let name = last_field(text).ok_or(LineError::BadLine)?;
    let name = copied(alloc, name)?;
    Ok(SessionLine::Discard { name })
}

#[tactic(auto, unfolding(crate::specs::SessionLines::remove_of))]
fn remove_line(alloc: Global, text: &[u8]) -> Result<SessionLine, LineError>
    ensures exact { Reads result (remove_of text.now) }
{
    let name = last_field(text).ok_or(LineError::BadLine)?;
    let name = copied(alloc, name)?;
    Ok(SessionLine::Remove { name })
}

#[tactic(auto, unfolding(crate::specs::SessionLines::call_of))]
fn call_line(alloc: Global, text: &[u8]) -> Result<SessionLine, LineError>
    ensures exact { Reads result (call_of text.now) }
{
    let (name, text) = field(text).ok_or(LineError::BadLine)?;
    let (args, text) = field(text).ok_or(LineError::BadLine)?;
    let args = arguments(alloc, args)?.ok_or(LineError::BadLine)?;
    let decl = rest(text).ok_or(LineError::BadLine)?;
    Ok(SessionLine::Call {
        name: copied(alloc, name)?,
        args: List::from_vec(args),
        decl: copied(alloc, decl)?,
    })
}

#[tactic(auto, unfolding(crate::specs::SessionLines::budget_of))]
fn budget_line(text: &[u8]) -> Result<SessionLine, LineError>
    ensures exact { Reads result (budget_of text.now) }
{
    let ticks = decimal(text, 10).ok_or(LineError::BadLine)?;
    Ok(SessionLine::Budget(ticks))
}

/// What the line spells.
#[tactic(auto, unfolding(crate::specs::SessionLines::session_line_of))]
pub fn session_line(alloc: Global, line: &[u8]) -> Result<SessionLine, LineError>
    ensures exact { Reads result (session_line_of line.now) }
{
    let (word, text) = field(line).ok_or(LineError::BadLine)?;
    if word == b"module".as_slice() {
        return module_line(alloc, text);
    }
    if word == b"mask".as_slice() {
        return mask_line(alloc, text);
    }
    if word == b"section".as_slice() {
        return section_line(alloc, text);
    }
    if word == b"build".as_slice() {
        return build_line(alloc, text);
    }
    if word == b"bind".as_slice() {
        return bind_line(alloc, text);
    }
    if word == b"unbind".as_slice() {
        return unbind_line(alloc, text);
    }
    if word == b"call".as_slice() {
        return call_line(alloc, text);
    }
    if word == b"discard".as_slice() {
        return discard_line(alloc, text);
    }
    if word == b"remove".as_slice() {
        return remove_line(alloc, text);
    }
    if word == b"budget".as_slice() {
        return budget_line(text);
    }
    Err(LineError::BadLine)
}

/// Whether this is `section`, in either case.
fn is_section(word: &[u8]) -> bool
    ensures exact { result ≡ str_eq_ignore_ascii_case word.now (codes "section") }
{
    word.eq_ignore_ascii_case(b"section")
}

/// Whether a text begins with `section`, in either case.
#[tactic(auto, unfolding(crate::specs::SessionLines::begins_section))]
fn begins_section(text: &[u8]) -> bool
    ensures exact { result ≡ begins_section text.now }
{
    if text.len() < 7 {
        return false;
    }
    is_section(&text[..7])
}

/// The place of the first letter.
fn first_letter(line: &[u8]) -> Option<usize>
    ensures exact { result ≡ position is_ascii_alphabetic line.now }
    ensures within { IfSome result (λ at. at < length line.now) }
{
    line.iter().position(|b| b.is_ascii_alphabetic())
}

/// Whether the first letters of the line are `section`, in either case, whatever stands before them: a line that may have
/// been meant for the head of a section, whether it is one or not.
#[tactic(auto, unfolding(crate::specs::SessionLines::is_header))]
pub fn is_header(line: &[u8]) -> bool
    ensures exact { result ≡ is_header line.now }
{
    match first_letter(line) {
        Some(at) => begins_section(&line[at..]),
        None => false,
    }
}
