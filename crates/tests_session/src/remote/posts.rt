//! Functions that are posted.

use crate::remote::harness::{Host, Sink};
use ang_host::{Answer, Driver};
use ang_kinds::Value;
use ang_remote::Remote;
use std::alloc::AllocError;

/// What comes of a call of the function 8, and then of one of 9.
fn called<D: Driver>(driver: &mut D) -> (Answer, Answer) {
    let first = driver.call(8, None, &[Value::Int(5)]);
    (first, driver.call(9, None, &[]))
}

/// What is posted is `void` at once, and the answer that comes is to what is asked after it.
#[test]
fn a_post_has_no_answer(rt: HostRuntime) -> Result<(), AllocError> {
    let mut host = Host::new("7\n", 0);
    let mut sink = Sink::new(rt.alloc(), 0, false, false);
    let mut posted = Vec::new(rt.alloc());
    posted.push(8)?;
    let mut driver = Remote::new(rt.alloc(), 0, posted, &mut host, &mut sink);
    let answers = called(&mut driver);
    drop(driver);
    let text = b"post 0 call 8 - (5)\nask 0 call 9 - ()\n";
    let told = sink.kept.as_slice() == text.as_slice();
    assert!(rt; told && answers == (Answer::Void, Answer::Gave(Value::Int(7))));
    Ok(())
}
