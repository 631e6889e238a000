//! Readers that never end, and a writer that fails in the middle of a long reply.

use crate::harness::{PROFILE, SESSION, run, run_to};
use asrun_session::{IoFault, Status};
use std::alloc::{AllocError, Global};
use std::io;
use std::io::{Error, ErrorKind, Read, Write};

/// The calls of `read` after which a text that has not ended is given up.
const MOST_READS: u64 = 1_048_576;

/// Gives one LF for ever, and counts how often it was asked.
#[derive(Drop)]
struct LineFeeds {
    calls: u64,
}

impl Read for LineFeeds {
    fn read(&mut self, buffer: &mut [u8]) -> io::Result<usize> {
        self.calls = self.calls.saturating_add(1);
        if buffer.is_empty() {
            return Ok(0);
        }
        buffer[0] = b'\n';
        Ok(1)
    }
}

/// Whether a run over endless line feeds as its profile, or as its session, is a read fault after that many calls, and
/// writes nothing.
fn faults(alloc: Global, as_profile: bool) -> Result<bool, AllocError> {
    let mut endless = LineFeeds { calls: 0 };
    let ran = if as_profile {
        run(alloc, &mut endless, &mut SESSION.as_bytes())?
    } else {
        run(alloc, &mut PROFILE.as_bytes(), &mut endless)?
    };
    let is_fault = ran.is_some_and(|(out, outcome)| out.is_empty()
        && outcome == Err(IoFault::Read));
    Ok(is_fault && endless.calls == MOST_READS)
}

#[test]
fn line_feeds_for_ever_are_a_read_fault(rt: HostRuntime) -> Result<(), AllocError> {
    for as_profile in [true, false] {
        assert!(rt; faults(rt.alloc(), as_profile)?, "{as_profile}");
    }
    Ok(())
}

/// The host calls of a reply of some 73,000 bytes.
const MANY: u32 = 3000;

const LONG_SESSION: &str = "module a 00000001
section a 1
void main() { for (int i = 0; i < 3000; i++) print(i); }
build a
call a () void main()
";

/// What the long session writes.
fn long_output(alloc: Global) -> Result<Vec<u8>, AllocError> {
    let mut text = Vec::from_slice(alloc, b"ok\nok\nok\n")?;
    for i in 0..MANY {
        let line = format!(in alloc; "host a 0 0 - ({i}) void\n")?;
        text.extend_from_slice(line.as_bytes())?;
    }
    text.extend_from_slice(b"ok\n")?;
    Ok(text)
}

/// Keeps what it is given, and fails at one call, counted from 1.
#[derive(Drop)]
struct FailingAt {
    kept: Vec<u8>,
    calls: u64,
    stops: u64,
}

impl Write for FailingAt {
    fn write(&mut self, buffer: &[u8]) -> io::Result<usize> {
        self.calls = self.calls.saturating_add(1);
        if self.calls == self.stops {
            return Err(Error::from(ErrorKind::Other));
        }
        self.kept.extend_from_slice(buffer)?;
        Ok(buffer.len())
    }

    fn flush(&mut self) -> io::Result<()> {
        Ok(())
    }
}

/// The outcome of the long session, with a writer that fails at a call, and how much it leaves unwritten of its output;
/// nothing where what stands written is no front of it, or a driver is not idle.
fn long_run(
    alloc: Global,
    stops: u64,
) -> Result<Option<(Result<Status, IoFault>, usize)>, AllocError> {
    let mut out = FailingAt {
        kept: Vec::new(alloc),
        calls: 0,
        stops,
    };
    let mut profile = PROFILE.as_bytes();
    let mut text = LONG_SESSION.as_bytes();
    let Some(outcome) = run_to(alloc, &mut profile, &mut text, &mut out)? else {
        return Ok(None);
    };
    let output = long_output(alloc)?;
    let is_front = output.as_slice().starts_with(out.kept.as_slice());
    let left = output.len().saturating_sub(out.kept.len());
    Ok(is_front.then_some((outcome, left)))
}

/// Whether the long session is written whole, or is a write fault where one of the first six calls of `write` fails.
fn ends_so(alloc: Global, stops: u64) -> Result<bool, AllocError> {
    let Some((outcome, left)) = long_run(alloc, stops)? else {
        return Ok(false);
    };
    Ok(if 0 < stops && stops < 7 {
        outcome == Err(IoFault::Write) && 0 < left
    } else {
        outcome == Ok(Status::AllOk) && left == 0
    })
}

/// A reply that is written in three pieces, after three short ones. Each call of `write` fails in turn, which is a write
/// fault each time.
#[test]
fn a_long_reply_is_written_whole(rt: HostRuntime) -> Result<(), AllocError> {
    for stops in 0..=7u64 {
        assert!(rt; ends_so(rt.alloc(), stops)?, "call {stops}");
    }
    Ok(())
}
