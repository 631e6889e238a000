//! Printing the reply of a line that no session has.
ghost use Rattle.std.specs.Prelude.{◌≡◌, IfOk, OnOk, OnErr};
ghost use Rattle.std.specs.Io.KnownBytes.{Appends};
ghost use Rattle.asrun_session.specs.Deeds.{is_done};
ghost use Rattle.asrun_session.specs.Writing.{HasFront};
ghost use Rattle.asrun_text.specs.Text.{reply_text};

use ang_engine::Reply;
use asrun_session::{ReplyBuffer, SessionError, is_done, print_reply};
use std::io::Write;

/// Prints a reply. Answers whether it ended in `ok`.
///
/// # Errors
/// A write fault, and want of memory.
pub fn tell_reply<W: Write>(
    writer: &mut W,
    buffer: &mut ReplyBuffer,
    reply: Reply,
) -> Result<bool, SessionError>
    ensures told { OnOk result
        (Appends (W.contents writer.old) (W.contents writer.new) (reply_text reply)) }
    ensures ended { IfOk result (λ ok. ok ≡ is_done reply.outcome) }
    ensures front { OnErr result
        (HasFront (W.contents writer.old) (W.contents writer.new) (reply_text reply)) }
{
    let ok = is_done(reply.outcome);
    let printed = print_reply(writer, buffer, &reply);
    drop(reply);
    match printed {
        Ok(()) => Ok(ok),
        Err(error) => Err(error),
    }
}
