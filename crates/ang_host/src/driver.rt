//! The trait that the host implements.
ghost use Rattle.ang_host.specs.State.{make, call, read, write};
ghost use Rattle.ang_host.specs.Laws.{Meaning, IsLive, IsLiveOption, IsLiveValue, AreLive, Answered, WasMade, WasAdded, WasReleased, IsIdleTest};

use crate::answer::{Answer, Made};
use ang_kinds::Value;

/// A part of the host: functions, properties, and objects that scripts reach by keys
/// (the AngelScript manual, "Registering the application interface"; docs/RATTLE_HOST.md). A host implements
/// this trait for types of its own, and gives the engine boxed values of them in a list, `Drivers`.
///
/// Crate example_first_driver is a driver to start from: its `fits`, explained below, holds of everything.
///
/// `make`, `call`, `read` and `write` are the host calls. In each of them `f` is the number that was given
/// where the entry was registered. The engine passes only registered numbers, with as many arguments as the
/// entry declares. The trait doesn't require that, so a driver has to answer other numbers as well: the
/// sample drivers answer `Fault(1)`. Each key that is handed in has to be live, and each key that is answered
/// is live.
///
/// A driver's meaning is a `state` and a relation `fits`.
///
/// - The `state` has three parts: `counts`, the number of references to each live key; the `core`, a list of
///   numbers that stands for what the driver keeps; and the tallies `asked`, `made`, `added` and `released`,
///   of its host calls, of the objects made, and of the references added and released.
/// - `fits` is the driver's own statement of what it does. It relates the core before a host call, what was
///   asked, the answer, and the core after. It belongs to the type: it is the same before and after each
///   call.
///
/// The law: a host call raises `asked` by one and moves the core as `fits` says, except where it answers
/// `Full`, which changes nothing and comes only where `asked`, `made` or `added` stands at 2^63 - 1. A `make`
/// that answers a key gives it one reference, and raises `made` by one. `add_ref` gives one more, and raises
/// `added` by one; `release` takes one, and raises `released` by one. Nothing else changes the counts or
/// these three tallies. A release that ends a key moves the core as `fits` says too; any other release, and
/// `add_ref`, leave it. After each call `made` plus `added` equals `released` plus the sum of the counts.
pub trait Driver: Drop {
    ghost meaning: { Meaning Self };

    /// Whether no key is live. It takes no memory.
    fn idle(&self) -> bool
        ensures law { IsIdleTest (meaning.state self.now) result };

    /// Asks for a new object, from the factory that was registered with the number `f`.
    ///
    /// Where it answers `Key`, the key was not live before, and has one reference now.
    fn make(&mut self, f: u32, args: &[Value]) -> Made
        requires args_live { AreLive (meaning.state self.old) args.now }
        ensures law { WasMade meaning.fits (meaning.state self.old) (make f args.now) result
            (meaning.state self.new) };

    /// Calls the function that was registered with the number `f`, as a method where there is an object.
    fn call(&mut self, f: u32, object: Option<u64>, args: &[Value]) -> Answer
        requires object_live { IsLiveOption (meaning.state self.old) object }
        requires args_live { AreLive (meaning.state self.old) args.now }
        ensures law { Answered meaning.fits (meaning.state self.old) (call f object args.now) result
            (meaning.state self.new) };

    /// Reads the property that was registered with the number `f`, of the object where there is one.
    fn read(&mut self, f: u32, object: Option<u64>) -> Answer
        requires object_live { IsLiveOption (meaning.state self.old) object }
        ensures law { Answered meaning.fits (meaning.state self.old) (read f object) result
            (meaning.state self.new) };

    /// Writes the property that was registered with the number `f`, of the object where there is one.
    fn write(&mut self, f: u32, object: Option<u64>, value: Value) -> Answer
        requires object_live { IsLiveOption (meaning.state self.old) object }
        requires value_live { IsLiveValue (meaning.state self.old) value }
        ensures law { Answered meaning.fits (meaning.state self.old) (write f object value) result
            (meaning.state self.new) };

    /// Adds a reference to the key. False only where `asked`, `made` or `added` stands at 2^63 - 1: then
    /// nothing was done, and the run ends with the fault `Tally`. It takes no memory.
    fn add_ref(&mut self, key: u64) -> bool
        requires key_live { IsLive (meaning.state self.old) key }
        ensures law { WasAdded (meaning.state self.old) key result (meaning.state self.new) };

    /// Releases a reference to the key, and tells whether it was the last: then the key is no longer
    /// live. It always succeeds and takes no memory.
    fn release(&mut self, key: u64) -> bool
        requires key_live { IsLive (meaning.state self.old) key }
        ensures law { WasReleased meaning.fits (meaning.state self.old) key result
            (meaning.state self.new) };
}
