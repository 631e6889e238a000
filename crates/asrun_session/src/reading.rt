//! Reading a text whole.
ghost use Rattle.std.specs.Prelude.{◌≡◌, ◌≢◌, ◌≤◌, ◌<◌, ◌^◌, ◌+◌, ◌++◌, ℕ, List, length, IfOk, IfErr, IfSome};
ghost use Rattle.std.specs.Io.KnownBytes.{Consumes, IsAtEnd};
ghost use Rattle.asrun_session.specs.Reading.{WasRead, IsReadThrough, IsTextOf};
ghost use Rattle.asrun_session.specs.Writing.{unwritten};

use crate::ending::{IoFault, SessionError};
use std::alloc::Global;
use std::io::Read;

/// The most bytes of a profile.
pub const MOST_PROFILE: usize = 1_048_576;

/// The most bytes of a session.
pub const MOST_SESSION: usize = 16_777_216;

/// The most calls of `read` that one text may take.
const MOST_READS: u32 = 1_048_576;

/// The most bytes that one call of `read` is asked for.
const CHUNK: usize = 4096;

/// What a reader gave.
#[derive(Drop)]
pub enum BoundedText {
    /// The whole text.
    Whole(Vec<u8>),
    /// More bytes than the limit.
    TooLong,
}

/// One call of `read`, for at most `room` bytes, which go after the text. Gives how many came.
fn read_more<R: Read>(
    reader: &mut R,
    text: &mut Vec<u8>,
    room: usize,
) -> Result<usize, SessionError>
    requires some { 0 < room }
    ensures taken { IfOk result (λ count. (bytes : List ℕ) × (length bytes ≡ count)
        × (text.new.items ≡ text.old.items ++ bytes)
        × Consumes (R.remaining reader.old) (R.remaining reader.new) bytes) }
    ensures few { IfOk result (λ count. count ≤ room) }
    ensures end { IfOk result (λ count. count ≡ 0 → IsAtEnd (R.remaining reader.new)) }
    ensures fault { IfErr result (λ e. e ≢ unwritten) }
{
    let mut chunk = [0; CHUNK];
    let most = room.min(CHUNK);
    let count = match reader.read(&mut chunk[..most]) {
        Ok(count) => count,
        Err(_) => return Err(SessionError::Fault(IoFault::Read)),
    };
    text.extend_from_slice(&chunk[..count])?;
    Ok(count)
}

/// Reads the text whole, up to one byte above the limit. It is whole at the first read that gives 0 bytes.
///
/// # Errors
/// A read fault where `read` fails, interrupted too, or where the text is neither whole nor above its
/// limit after 1,048,576 calls; and want of memory.
pub fn read_text<R: Read>(
    alloc: Global,
    reader: &mut R,
    limit: usize,
) -> Result<BoundedText, SessionError>
    requires small { limit < 2 ^ 32 }
    ensures read { IfOk result (WasRead limit (R.remaining reader.old) (R.remaining reader.new)) }
    ensures text { IfOk result (λ text. IfSome (R.remaining reader.old) (IsTextOf limit text)) }
    ensures through { IfOk result
        (λ _. IsReadThrough limit (R.remaining reader.old) (R.remaining reader.new)) }
    ensures fault { IfErr result (λ e. e ≢ unwritten) }
{
    let mut text = Vec::new(alloc);
    for _ in 0..MOST_READS {
        let room = limit + 1 - text.len();
        if read_more(reader, &mut text, room)? == 0 {
            return Ok(BoundedText::Whole(text));
        }
        if limit < text.len() {
            return Ok(BoundedText::TooLong);
        }
    }
    Err(SessionError::Fault(IoFault::Read))
}
