//! Writing a text.
ghost use Rattle.ang_remote.specs.Wires.{IsWritten};

use std::io::Write;

/// Writes the whole text, in as many calls of `write` as it takes, and flushes the writer. False where one of these
/// failed, interrupted too, or took 0 bytes of what was left: a front of the text is written then.
#[inline(always)]
pub fn write_text<W: Write>(writer: &mut W, text: &[u8]) -> bool
    ensures written { IsWritten (W.contents writer.old) (W.contents writer.new) text.now result }
{
    let mut written = 0;
    while written < text.len() {
        match writer.write(&text[written..]) {
            Ok(0) | Err(_) => return false,
            Ok(count) => written += count,
        }
    }
    writer.flush().is_ok()
}
