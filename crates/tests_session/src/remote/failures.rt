//! Streams that fail.

use crate::remote::harness::{Host, Sink, failing};
use ang_host::Answer;
use ang_remote::{NOT_READ, NOT_WRITTEN};
use std::alloc::AllocError;

/// Each of the 3 calls of `read` fails in turn.
#[test]
fn a_reader_fails_at_each_call(rt: HostRuntime) -> Result<(), AllocError> {
    for fails in 1..=3u64 {
        let mut host = Host::new("-7\n", fails);
        let mut sink = Sink::new(rt.alloc(), 0, false, false);
        let answer = failing(&mut host, &mut sink, rt.alloc());
        assert!(rt; answer == Answer::Fault(NOT_READ), "call {fails}");
    }
    Ok(())
}

/// Each of the 3 calls of `write` fails or takes nothing in turn: what stands written is a front, and nothing is read.
#[test]
fn a_writer_stops_at_each_call(rt: HostRuntime) -> Result<(), AllocError> {
    for stops in 1..=3u64 {
        for fails in [false, true] {
            let mut host = Host::new("7\n", 0);
            let mut sink = Sink::new(rt.alloc(), stops, fails, false);
            let answer = failing(&mut host, &mut sink, rt.alloc());
            let is_front = b"ask 0 read 1 - ()\n".starts_with(sink.kept.as_slice());
            let is_right = answer == Answer::Fault(NOT_WRITTEN) && host.calls == 0 && is_front;
            assert!(rt; is_right, "call {stops}");
        }
    }
    Ok(())
}

#[test]
fn a_writer_that_is_not_flushed(rt: HostRuntime) -> Result<(), AllocError> {
    let mut host = Host::new("7\n", 0);
    let mut sink = Sink::new(rt.alloc(), 0, false, true);
    let answer = failing(&mut host, &mut sink, rt.alloc());
    let is_right = answer == Answer::Fault(NOT_WRITTEN) && host.calls == 0;
    assert!(rt; is_right);
    Ok(())
}
