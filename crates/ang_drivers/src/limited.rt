//! A driver around a driver, which lets no more host calls through than its limit.
ghost use Rattle.std.specs.Prelude.{◌≡◌, ◌<◌, ◌^◌, ◌-◌, ◌+◌, ◌↔◌, IsTrue, cond};
ghost use Rattle.ang_host.specs.declared.answer.HostReply.TheVariants.{Making, Asking};
ghost use Rattle.ang_host.specs.Events.{is_full};

use crate::values::LIMIT;
use ang_host::{Answer, Driver, Made};
use ang_kinds::Value;
use std::marker::Model;

/// How many host calls a `Limited` lets through, and the numbers by which it speaks for itself.
#[derive(Clone, Copy)]
pub struct CallLimit {
    /// How many host calls reach the driver inside, from one reset to the next.
    pub calls: u64,
    /// The fault by which each host call above these is answered.
    pub fault: u32,
    /// The number of the function that resets the count. The driver inside is never called by it.
    pub reset: u32,
}

/// The host calls of a limited driver: how many are left, and how many were counted in all.
#[derive(Clone, Copy)]
struct Calls {
    limit: CallLimit,
    left: u64,
    asked: u64,
}

impl Calls {
    // Whether the tally of host calls is full.
    fn is_full(&self) -> bool
        ensures exact { IsTrue result ↔ (self.now.asked ≡ 2 ^ 63 - 1) }
    {
        self.asked == LIMIT
    }

    // Counts a host call that is refused, and answers the fault.
    fn refuse(&mut self) -> u32
        requires few { self.old.asked < 2 ^ 63 }
        ensures fault { result ≡ self.old.limit.fault }
        ensures counted { self.new ≡ record self.old { asked = self.old.asked + 1 } }
    {
        self.asked += 1;
        self.limit.fault
    }

    // Counts the host call by which the count begins anew.
    fn reset(&mut self)
        requires few { self.old.asked < 2 ^ 63 }
        ensures counted { self.new
            ≡ record self.old { left = self.old.limit.calls; asked = self.old.asked + 1 } }
    {
        self.left = self.limit.calls;
        self.asked += 1;
    }

    // Counts a host call that the driver inside was asked, but where that one refused it as `Full`.
    fn pass(&mut self, was_full: bool)
        requires few { self.old.asked < 2 ^ 63 }
        requires left { 0 < self.old.left }
        ensures limit { self.new.limit ≡ self.old.limit }
        ensures left { self.new.left ≡ cond was_full self.old.left (self.old.left - 1) }
        ensures asked { self.new.asked ≡ cond was_full self.old.asked (self.old.asked + 1) }
    {
        if !was_full {
            self.left -= 1;
            self.asked += 1;
        }
    }
}

// Whether a driver refused to be asked.
fn is_full(answer: Answer) -> bool
    ensures exact { result ≡ is_full (Asking answer) }
{
    match answer {
        Answer::Full => true,
        Answer::Void => false,
        Answer::Gave(_) => false,
        Answer::Fault(_) => false,
        Answer::Memory => false,
    }
}

// Whether a driver refused to be asked for an object.
fn is_full_making(made: Made) -> bool
    ensures exact { result ≡ is_full (Making made) }
{
    match made {
        Made::Full => true,
        Made::Key(_) => false,
        Made::Nothing => false,
        Made::Fault(_) => false,
        Made::Memory => false,
    }
}

/// A driver around a driver, for hosts that run scripts of strangers (docs/SECURITY.md, "Host calls and
/// events").
///
/// It does and answers what the driver inside does, until that was asked as often as the limit allows. Each
/// `make`, `call`, `read` and `write` after that is answered by the fault of the limit, and the driver inside
/// is not asked, so that nothing changes there. Objects keep their references: `add_ref` and `release` always
/// reach the driver inside, and are not counted.
///
/// `call` of the number `CallLimit::reset` begins the count anew and answers `Void`, whatever its object and
/// arguments, also where no host call is left. Register it as a function, under a mask that no stranger's
/// module meets. The method `reset` does the same for who holds the driver itself.
///
/// Its core is how many host calls are left, the three numbers of its limit, and then the core of the driver
/// inside.
#[derive(Drop)]
pub struct Limited<D: Driver> {
    driver: D,
    calls: Calls,
}

impl<D: Driver> Model for Limited<D> {
    ghost use Rattle.ang_drivers.specs.Limited.{Limits, IsWithin};

    ghost Value = { Limits D };

    ghost view = { λ l. record {
      driver = l.driver;
      limit = l.calls.limit;
      left = l.calls.left;
      asked = l.calls.asked;
    } };

    ghost invariant = { λ l. IsWithin (D.meaning.state l.driver) l.calls.asked };
}

impl<D: Driver> Limited<D> {
    ghost use Rattle.ang_drivers.specs.Limited.{fresh_limits};

    /// The driver with this limit, of which nothing is used up. It is one that was never asked: its tally
    /// `asked` is 0, as that of a new `Console`, `Counter` or `Cell` is. It takes no memory.
    pub fn new(driver: D, limit: CallLimit) -> Limited<D>
        requires never_asked { (D.meaning.state driver).tally.asked ≡ 0 }
        ensures fresh { result ≡ fresh_limits driver limit }
    {
        // A driver that tells whether it is idle is known to keep right tallies.
        let _ = driver.idle();
        Limited {
            driver,
            calls: Calls {
                limit,
                left: limit.calls,
                asked: 0,
            },
        }
    }

    /// How many host calls are left until the next reset.
    pub fn remaining(&self) -> u64
        ensures exact { result ≡ self.now.left }
    {
        self.calls.left
    }

    /// Begins the count anew, and changes nothing else.
    pub fn reset(&mut self)
        ensures reset { self.new ≡ record self.old { left = self.old.limit.calls } }
    {
        self.calls.left = self.calls.limit.calls;
    }

    /// The driver inside, as it is.
    pub fn into_inner(self) -> D
        ensures same { result ≡ self.driver }
    {
        self.driver
    }
}

impl<D: Driver> Driver for Limited<D> {
    ghost use Rattle.ang_drivers.specs.Limited.{limited_state, LimitedFits};

    ghost meaning = { record { state = limited_state D.meaning.state; fits = LimitedFits D.meaning.fits } };

    fn idle(&self) -> bool {
        self.driver.idle()
    }

    fn make(&mut self, f: u32, args: &[Value]) -> Made {
        if self.calls.is_full() {
            return Made::Full;
        }
        if self.calls.left == 0 {
            return Made::Fault(self.calls.refuse());
        }
        let made = self.driver.make(f, args);
        self.calls.pass(is_full_making(made));
        made
    }

    fn call(&mut self, f: u32, object: Option<u64>, args: &[Value]) -> Answer {
        if self.calls.is_full() {
            return Answer::Full;
        }
        if f == self.calls.limit.reset {
            self.calls.reset();
            return Answer::Void;
        }
        if self.calls.left == 0 {
            return Answer::Fault(self.calls.refuse());
        }
        let answer = self.driver.call(f, object, args);
        self.calls.pass(is_full(answer));
        answer
    }

    fn read(&mut self, f: u32, object: Option<u64>) -> Answer {
        if self.calls.is_full() {
            return Answer::Full;
        }
        if self.calls.left == 0 {
            return Answer::Fault(self.calls.refuse());
        }
        let answer = self.driver.read(f, object);
        self.calls.pass(is_full(answer));
        answer
    }

    fn write(&mut self, f: u32, object: Option<u64>, value: Value) -> Answer {
        if self.calls.is_full() {
            return Answer::Full;
        }
        if self.calls.left == 0 {
            return Answer::Fault(self.calls.refuse());
        }
        let answer = self.driver.write(f, object, value);
        self.calls.pass(is_full(answer));
        answer
    }

    fn add_ref(&mut self, key: u64) -> bool {
        self.driver.add_ref(key)
    }

    fn release(&mut self, key: u64) -> bool {
        self.driver.release(key)
    }
}
