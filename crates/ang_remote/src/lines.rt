//! Reading a line, byte by byte, so that nothing is read that stands after it.
ghost use Rattle.std.specs.Prelude.{◌≡◌, [], ◌∷◌, IfOk, IfNone, IfSome, OnErr};
ghost use Rattle.std.specs.Io.KnownBytes.{Consumes, IsAtEnd};
ghost use Rattle.ang_remote.specs.Lines.{IsHeard, IsKeeping, last_of};

use std::io::Read;

/// What a stream gave in the place of a line.
#[derive(Clone, Copy, PartialEq, Eq)]
pub enum Heard {
    /// A line with its LF, which stands after the text that was there.
    Line,
    /// A line without an LF, after which the stream ends, likewise.
    Last,
    /// A line that would make the text longer than it may be.
    Long,
    /// A line for which memory was refused.
    Memory,
    /// Nothing: the stream is at its end.
    End,
    /// Nothing or a front of a line: the stream failed.
    Failed,
}

/// Why no byte came.
#[derive(Clone, Copy)]
struct NotRead;

/// The next byte. None at the end of the stream.
fn read_byte<R: Read>(reader: &mut R) -> Result<Option<u8>, NotRead>
    ensures byte { IfOk result (λ next. IfSome next
        (λ b. Consumes (R.remaining reader.old) (R.remaining reader.new) (b ∷ []))) }
    ensures none { IfOk result (λ next. IfNone next
        (Consumes (R.remaining reader.old) (R.remaining reader.new) [])) }
    ensures end { IfOk result (λ next. IfNone next (IsAtEnd (R.remaining reader.new))) }
    ensures failed { OnErr result
        (Consumes (R.remaining reader.old) (R.remaining reader.new) []) }
{
    let mut byte = [0];
    match reader.read(&mut byte) {
        Ok(0) => Ok(None),
        Ok(_) => Ok(Some(byte[0])),
        Err(_) => Err(NotRead),
    }
}

/// Puts a byte of a line after the text, where its other bytes were kept and the text is not longer than `most`
/// then.
fn keep(kept: Heard, text: &mut Vec<u8>, byte: u8, most: usize) -> Heard
    ensures kept { IsKeeping most kept text.old.items byte result text.new.items }
{
    if kept != Heard::Line {
        return kept;
    }
    if most <= text.len() {
        return Heard::Long;
    }
    match text.push(byte) {
        Ok(()) => Heard::Line,
        Err(_) => Heard::Memory,
    }
}

/// What was read, where the stream ends after some bytes of a line.
fn last(kept: Heard) -> Heard
    ensures exact { result ≡ last_of kept }
{
    match kept {
        Heard::Line => Heard::Last,
        Heard::Last | Heard::Long | Heard::Memory | Heard::End | Heard::Failed => kept,
    }
}

/// Reads one line, to its LF or to the end of the stream, and puts it after the text, which is to have no more than
/// `most` bytes. It is read whole in any case, if the stream does not fail, and nothing after it is read.
pub fn read_line<R: Read>(reader: &mut R, text: &mut Vec<u8>, most: usize) -> Heard
    ensures heard { IsHeard most text.old.items text.new.items (R.remaining reader.old)
        (R.remaining reader.new) result }
{
    let mut kept = Heard::Line;
    let mut begun = false;
    for _ in 0..u64::MAX {
        match read_byte(reader) {
            Err(_) => return Heard::Failed,
            Ok(None) => return if begun { last(kept) } else { Heard::End },
            Ok(Some(byte)) => {
                kept = keep(kept, text, byte, most);
                begun = true;
                if byte == b'\n' {
                    return kept;
                }
            }
        }
    }
    Heard::Failed
}
