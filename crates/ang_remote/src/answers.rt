//! What a line spells as an answer.
ghost use Rattle.std.specs.Prelude.{◌≡◌, option_map};
ghost use Rattle.ang_remote.specs.Said.{key_of, handle_of, spoken_of, spelled_of, said_in};

use ang_kinds::Value;
use asrun_lines::{decimal, field, number, shown, value};

/// The fault where the ask could not be written whole. No answer was read.
pub const NOT_WRITTEN: u32 = 4_294_967_280;

/// The fault where reading the answer failed.
pub const NOT_READ: u32 = 4_294_967_281;

/// The fault where the input ended in the place of an answer.
pub const INPUT_ENDED: u32 = 4_294_967_282;

/// The fault where the line is no answer.
pub const BAD_FORM: u32 = 4_294_967_283;

/// The fault where the answer is one to another kind of host call.
pub const OTHER_KIND: u32 = 4_294_967_284;

/// The fault where a key that is live was made.
pub const KEY_LIVE: u32 = 4_294_967_285;

/// The fault where a key that is not live was answered.
pub const NOT_LIVE: u32 = 4_294_967_286;

/// The most bytes of an answer, with its LF.
pub const MOST_ANSWER: usize = 64;

/// What the host says to a host call, or what is taken for it where it says nothing of a right form.
#[derive(Clone, Copy)]
pub enum Said {
    /// `void`.
    Void,
    /// A value.
    Gave(Value),
    /// `made #KEY`.
    Made(u64),
    /// `nothing`.
    Nothing,
    /// `fault N`, or a fault of the conversation.
    Fault(u32),
    /// `memory`, or want of memory here.
    Memory,
}

/// The key that `#7` spells.
#[tactic(auto, unfolding(crate::specs::Said::key_of))]
fn key(text: &[u8]) -> Option<u64>
    ensures exact { result ≡ key_of text.now }
{
    if text.is_empty() {
        return None;
    }
    if text[0] == b'#' {
        decimal(&text[1..], 20)
    } else {
        None
    }
}

/// The value that `null` or `#7` spells, or one without a handle.
#[tactic(auto, unfolding(crate::specs::Said::handle_of))]
fn handle(text: &[u8]) -> Option<Value>
    ensures exact { result ≡ handle_of text.now }
{
    if text == b"null".as_slice() {
        return Some(Value::Key(None));
    }
    match key(text) {
        Some(key) => Some(Value::Key(Some(key))),
        None => value(text),
    }
}

/// What a first word and the rest after it spell.
#[tactic(auto, unfolding(crate::specs::Said::spoken_of))]
fn spoken(word: &[u8], rest: &[u8]) -> Option<Said>
    ensures exact { result ≡ spoken_of word.now rest.now }
{
    if word == b"made".as_slice() {
        return key(rest).map(Said::Made);
    }
    if word == b"fault".as_slice() {
        return number(rest).map(Said::Fault);
    }
    None
}

/// The answer that the text spells.
#[tactic(auto, unfolding(crate::specs::Said::spelled_of))]
fn spelled(text: &[u8]) -> Option<Said>
    ensures exact { result ≡ spelled_of text.now }
{
    if text == b"void".as_slice() {
        return Some(Said::Void);
    }
    if text == b"nothing".as_slice() {
        return Some(Said::Nothing);
    }
    if text == b"memory".as_slice() {
        return Some(Said::Memory);
    }
    match field(text) {
        Some((word, rest)) => spoken(word, rest),
        None => handle(text).map(Said::Gave),
    }
}

/// The answer that a line spells, and the fault `BAD_FORM` where it spells none.
#[tactic(auto, unfolding(crate::specs::Said::said_in))]
pub fn said_by(line: &[u8]) -> Said
    ensures exact { result ≡ said_in line.now }
{
    match spelled(shown(line)) {
        Some(said) => said,
        None => Said::Fault(BAD_FORM),
    }
}
