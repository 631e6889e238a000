//! Calls of one driver: each `.._in` through a `&dyn Driver` or `&mut dyn Driver`, each `.._at` in its box.
ghost use Rattle.std.specs.Prelude.{◌≡◌};
ghost use Rattle.ang_host.specs.State.{make, call, read, write, end};
ghost use Rattle.ang_host.specs.Laws.{IsLive, IsLiveOption, IsLiveValue, AreLive, Answered, WasMade, WasAdded, WasReleased, IsIdleTest};
ghost use Rattle.ang_host.specs.Meanings.{state_in, fits_in, state_behind, fits_behind};

use crate::answer::{Answer, Made};
use crate::driver::Driver;
use ang_kinds::Value;

fn idle_in(d: &dyn Driver) -> bool
    ensures idle { IsIdleTest (state_behind ⟦<dyn Driver as Driver>⟧ d.now) result }
{
    d.idle()
}

/// Whether no key of the driver in this box is live. It takes no memory.
pub fn idle_at(b: &Box<dyn Driver>) -> bool
    ensures idle { IsIdleTest (state_in ⟦<dyn Driver as Driver>⟧ b.now) result }
{
    let d: &dyn Driver = b.as_ref();
    idle_in(d)
}

fn make_in(d: &mut dyn Driver, f: u32, args: &[Value]) -> Made
    requires args_live { AreLive (state_behind ⟦<dyn Driver as Driver>⟧ d.old) args.now }
    ensures law { WasMade (fits_behind ⟦<dyn Driver as Driver>⟧ d.old)
        (state_behind ⟦<dyn Driver as Driver>⟧ d.old) (make f args.now) result
        (state_behind ⟦<dyn Driver as Driver>⟧ d.new) }
    ensures kind { d.new.0 ≡ d.old.0 }
{
    d.make(f, args)
}

/// Asks the driver in this box for a new object, from the factory that was registered with the number `f`.
/// All keys in `args` have to be live.
pub fn make_at(b: &mut Box<dyn Driver>, f: u32, args: &[Value]) -> Made
    requires args_live { AreLive (state_in ⟦<dyn Driver as Driver>⟧ b.old) args.now }
    ensures law { WasMade (fits_in ⟦<dyn Driver as Driver>⟧ b.old)
        (state_in ⟦<dyn Driver as Driver>⟧ b.old) (make f args.now) result
        (state_in ⟦<dyn Driver as Driver>⟧ b.new) }
    ensures kind { b.new.vtable ≡ b.old.vtable }
{
    let d: &mut dyn Driver = b.as_mut();
    make_in(d, f, args)
}

fn call_in(d: &mut dyn Driver, f: u32, object: Option<u64>, args: &[Value]) -> Answer
    requires object_live { IsLiveOption (state_behind ⟦<dyn Driver as Driver>⟧ d.old) object }
    requires args_live { AreLive (state_behind ⟦<dyn Driver as Driver>⟧ d.old) args.now }
    ensures law { Answered (fits_behind ⟦<dyn Driver as Driver>⟧ d.old)
        (state_behind ⟦<dyn Driver as Driver>⟧ d.old) (call f object args.now) result
        (state_behind ⟦<dyn Driver as Driver>⟧ d.new) }
    ensures kind { d.new.0 ≡ d.old.0 }
{
    d.call(f, object, args)
}

/// Calls the function of the number `f` of the driver in this box, as a method where there is an object. All
/// keys that are handed in have to be live.
pub fn call_at(b: &mut Box<dyn Driver>, f: u32, object: Option<u64>, args: &[Value]) -> Answer
    requires object_live { IsLiveOption (state_in ⟦<dyn Driver as Driver>⟧ b.old) object }
    requires args_live { AreLive (state_in ⟦<dyn Driver as Driver>⟧ b.old) args.now }
    ensures law { Answered (fits_in ⟦<dyn Driver as Driver>⟧ b.old)
        (state_in ⟦<dyn Driver as Driver>⟧ b.old) (call f object args.now) result
        (state_in ⟦<dyn Driver as Driver>⟧ b.new) }
    ensures kind { b.new.vtable ≡ b.old.vtable }
{
    let d: &mut dyn Driver = b.as_mut();
    call_in(d, f, object, args)
}

fn read_in(d: &mut dyn Driver, f: u32, object: Option<u64>) -> Answer
    requires object_live { IsLiveOption (state_behind ⟦<dyn Driver as Driver>⟧ d.old) object }
    ensures law { Answered (fits_behind ⟦<dyn Driver as Driver>⟧ d.old)
        (state_behind ⟦<dyn Driver as Driver>⟧ d.old) (read f object) result
        (state_behind ⟦<dyn Driver as Driver>⟧ d.new) }
    ensures kind { d.new.0 ≡ d.old.0 }
{
    d.read(f, object)
}

/// Reads the property of the number `f` of the driver in this box, of the object where there is one, whose
/// key has to be live.
pub fn read_at(b: &mut Box<dyn Driver>, f: u32, object: Option<u64>) -> Answer
    requires object_live { IsLiveOption (state_in ⟦<dyn Driver as Driver>⟧ b.old) object }
    ensures law { Answered (fits_in ⟦<dyn Driver as Driver>⟧ b.old)
        (state_in ⟦<dyn Driver as Driver>⟧ b.old) (read f object) result
        (state_in ⟦<dyn Driver as Driver>⟧ b.new) }
    ensures kind { b.new.vtable ≡ b.old.vtable }
{
    let d: &mut dyn Driver = b.as_mut();
    read_in(d, f, object)
}

fn write_in(d: &mut dyn Driver, f: u32, object: Option<u64>, value: Value) -> Answer
    requires object_live { IsLiveOption (state_behind ⟦<dyn Driver as Driver>⟧ d.old) object }
    requires value_live { IsLiveValue (state_behind ⟦<dyn Driver as Driver>⟧ d.old) value }
    ensures law { Answered (fits_behind ⟦<dyn Driver as Driver>⟧ d.old)
        (state_behind ⟦<dyn Driver as Driver>⟧ d.old) (write f object value) result
        (state_behind ⟦<dyn Driver as Driver>⟧ d.new) }
    ensures kind { d.new.0 ≡ d.old.0 }
{
    d.write(f, object, value)
}

/// Writes the property of the number `f` of the driver in this box, of the object where there is one. All
/// keys that are handed in have to be live.
pub fn write_at(b: &mut Box<dyn Driver>, f: u32, object: Option<u64>, value: Value) -> Answer
    requires object_live { IsLiveOption (state_in ⟦<dyn Driver as Driver>⟧ b.old) object }
    requires value_live { IsLiveValue (state_in ⟦<dyn Driver as Driver>⟧ b.old) value }
    ensures law { Answered (fits_in ⟦<dyn Driver as Driver>⟧ b.old)
        (state_in ⟦<dyn Driver as Driver>⟧ b.old) (write f object value) result
        (state_in ⟦<dyn Driver as Driver>⟧ b.new) }
    ensures kind { b.new.vtable ≡ b.old.vtable }
{
    let d: &mut dyn Driver = b.as_mut();
    write_in(d, f, object, value)
}

fn add_ref_in(d: &mut dyn Driver, key: u64) -> bool
    requires key_live { IsLive (state_behind ⟦<dyn Driver as Driver>⟧ d.old) key }
    ensures law { WasAdded (state_behind ⟦<dyn Driver as Driver>⟧ d.old) key result
        (state_behind ⟦<dyn Driver as Driver>⟧ d.new) }
    ensures kind { d.new.0 ≡ d.old.0 }
{
    d.add_ref(key)
}

/// Adds a reference to a live key of the driver in this box, and answers as `Driver::add_ref`. It takes no
/// memory.
pub fn add_ref_at(b: &mut Box<dyn Driver>, key: u64) -> bool
    requires key_live { IsLive (state_in ⟦<dyn Driver as Driver>⟧ b.old) key }
    ensures law { WasAdded (state_in ⟦<dyn Driver as Driver>⟧ b.old) key result
        (state_in ⟦<dyn Driver as Driver>⟧ b.new) }
    ensures kind { b.new.vtable ≡ b.old.vtable }
{
    let d: &mut dyn Driver = b.as_mut();
    add_ref_in(d, key)
}

fn release_in(d: &mut dyn Driver, key: u64) -> bool
    requires key_live { IsLive (state_behind ⟦<dyn Driver as Driver>⟧ d.old) key }
    ensures law { WasReleased (fits_behind ⟦<dyn Driver as Driver>⟧ d.old)
        (state_behind ⟦<dyn Driver as Driver>⟧ d.old) key result
        (state_behind ⟦<dyn Driver as Driver>⟧ d.new) }
    ensures kind { d.new.0 ≡ d.old.0 }
{
    d.release(key)
}

/// Releases a reference to a live key of the driver in this box, and tells whether it was the last: then the
/// key is no longer live. It always succeeds and takes no memory.
pub fn release_at(b: &mut Box<dyn Driver>, key: u64) -> bool
    requires key_live { IsLive (state_in ⟦<dyn Driver as Driver>⟧ b.old) key }
    ensures law { WasReleased (fits_in ⟦<dyn Driver as Driver>⟧ b.old)
        (state_in ⟦<dyn Driver as Driver>⟧ b.old) key result
        (state_in ⟦<dyn Driver as Driver>⟧ b.new) }
    ensures kind { b.new.vtable ≡ b.old.vtable }
{
    let d: &mut dyn Driver = b.as_mut();
    release_in(d, key)
}
