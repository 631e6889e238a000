//! Keys that are made, held, given up and made again.
ghost use Rattle.std.specs.Prelude.{IfSome};
ghost use Rattle.ang_host.specs.Laws.{IsLive, AreLive};

use crate::remote::harness::{Host, Sink};
use ang_host::{Answer, Driver, Made};
use ang_kinds::Value;
use ang_remote::{KEY_LIVE, Remote};
use std::alloc::AllocError;

/// The key of a new object, where one is made.
fn made<D: Driver>(driver: &mut D) -> Option<u64>
    ensures live { IfSome result (λ key. IsLive (D.meaning.state driver.new) key) }
{
    match driver.make(0, &[]) {
        Made::Key(key) => Some(key),
        _ => None,
    }
}

/// Whether the key ends at the second release, after a reference was added, and the driver is idle then.
fn ends<D: Driver>(driver: &mut D, key: u64) -> bool
    requires live { IsLive (D.meaning.state driver.old) key }
{
    if !driver.add_ref(key) {
        return false;
    }
    if driver.release(key) {
        return false;
    }
    driver.release(key)
}

/// Whether a key that was made ends.
fn made_and_ended<D: Driver>(driver: &mut D, want: u64) -> bool {
    match made(driver) {
        Some(key) => key == want && !is_idle(driver) && ends(driver, key) && is_idle(driver),
        None => false,
    }
}

fn is_idle<D: Driver>(driver: &D) -> bool {
    driver.idle()
}

/// A key is made again after its end.
#[test]
fn a_key_is_used_again(rt: HostRuntime) -> Result<(), AllocError> {
    let mut host = Host::new("made #9\nmade #9\n", 0);
    let mut sink = Sink::new(rt.alloc(), 0, false, false);
    let mut driver = Remote::new(rt.alloc(), 0, Vec::new(rt.alloc()), &mut host, &mut sink);
    let is_idle_before = is_idle(&driver);
    let once = made_and_ended(&mut driver, 9);
    let again = made_and_ended(&mut driver, 9);
    drop(driver);
    let told = sink.kept.as_slice() == b"ask 0 make 0 - ()\nask 0 make 0 - ()\n".as_slice();
    assert!(rt; is_idle_before && once && again && told);
    Ok(())
}

/// What is answered for a live key: it itself, and what a making of it comes to.
fn live_answers<D: Driver>(driver: &mut D) -> Option<(u64, Answer, Made)> {
    let key = made(driver)?;
    let answer = driver.call(1, Some(key), &[Value::Key(Some(key))]);
    Some((key, answer, driver.make(0, &[])))
}

/// A live key can be answered, and can't be made.
#[test]
fn a_key_is_live(rt: HostRuntime) -> Result<(), AllocError> {
    let mut host = Host::new("made #9\n#9\nmade #9\n", 0);
    let mut sink = Sink::new(rt.alloc(), 0, false, false);
    let mut driver = Remote::new(rt.alloc(), 0, Vec::new(rt.alloc()), &mut host, &mut sink);
    let answers = live_answers(&mut driver);
    drop(driver);
    let text = b"ask 0 make 0 - ()\nask 0 call 1 #9 (#9)\nask 0 make 0 - ()\n";
    let told = sink.kept.as_slice() == text.as_slice();
    let same = Answer::Gave(Value::Key(Some(9)));
    assert!(rt; answers == Some((9, same, Made::Fault(KEY_LIVE))));
    assert!(rt; told);
    Ok(())
}
