//! The list of drivers.
ghost use Rattle.std.specs.Prelude.{◌≡◌, ◌<◌, ◌≤◌, false, IsTrue, IfOk, IfErr, length, map as list_map};
ghost use Rattle.ang_host.specs.State.{make, call, read, write};
ghost use Rattle.ang_host.specs.Laws.{IsLive, IsLiveOption, IsLiveValue, AreLive, Answered, WasMade, WasAdded, WasReleased, IsIdleTest};
ghost use Rattle.ang_host.specs.Members.{state_at, AreFresh, IsBusy, states_of, DriverMoved};

use crate::answer::{Answer, Made};
use crate::driver::Driver;
use crate::one;
use ang_kinds::Value;
use thiserror::Error;

/// At most 64 drivers, which registered entries name by their place in the list, from 0.
///
/// A list of drivers can't be dropped: `into_boxes` gives the drivers back.
pub struct Drivers {
    boxes: Vec<Box<dyn Driver>>,
    ghost few: { length boxes.items ≤ 64 },
}

/// Why a list of drivers was not taken.
#[derive(Clone, Copy, PartialEq, Eq, Debug, Error)]
pub enum DriversError {
    /// There are more than 64 drivers.
    #[error("there are more than 64 drivers")]
    TooMany,
    /// There are at most 64 drivers, and one of them has a live key.
    #[error("a driver is in use")]
    Busy,
}

fn all_idle(boxes: &[Box<dyn Driver>]) -> bool
    ensures idle { IsTrue result → AreFresh (states_of ⟦<dyn Driver as Driver>⟧ boxes.now) }
    ensures busy { result ≡ false → IsBusy (states_of ⟦<dyn Driver as Driver>⟧ boxes.now) }
{
    for b in boxes {
        if !one::idle_at(b) {
            return false;
        }
    }
    true
}

impl Drivers {
    ghost use Rattle.ang_host.specs.Boxes.{members};
    ghost use Rattle.ang_host.specs.Refusal.{IsRefusal};

    /// Takes at most 64 idle drivers, and keeps their order. It takes no memory.
    ///
    /// # Errors
    /// Gives back the boxes as they were, with `TooMany` where there are more than 64, and else with
    /// `Busy` where one of them isn't idle.
    pub fn new(boxes: Vec<Box<dyn Driver>>) -> Result<Drivers, (DriversError, Vec<Box<dyn Driver>>)>
        ensures kept { IfOk result (λ d. members d ≡ boxes.items) }
        ensures few { IfOk result (λ _. length boxes.items ≤ 64) }
        ensures fresh { IfOk result
            (λ _. AreFresh (states_of ⟦<dyn Driver as Driver>⟧ boxes.items)) }
        ensures given_back { IfErr result (λ e. e.1.items ≡ boxes.items) }
        ensures why { IfErr result
            (λ e. IsRefusal e.0 (states_of ⟦<dyn Driver as Driver>⟧ boxes.items)) }
    {
        if boxes.len() > 64 {
            return Err((DriversError::TooMany, boxes));
        }
        if !all_idle(&boxes) {
            return Err((DriversError::Busy, boxes));
        }
        Ok(Drivers { boxes })
    }

    /// How many drivers there are.
    pub fn len(&self) -> usize
        ensures exact { result ≡ length (members self.now) }
        ensures few { result ≤ 64 }
    {
        self.boxes.len()
    }

    /// Gives the boxes back, in their order. It takes no memory.
    pub fn into_boxes(self) -> Vec<Box<dyn Driver>>
        ensures same { result.items ≡ members self }
    {
        let Drivers { boxes } = self;
        boxes
    }

    /// `Driver::idle` of the driver of that number, which has to be below `len`.
    pub fn idle(&self, driver: u32) -> bool
        requires in_list { driver < length (members self.now) }
        ensures law { IsIdleTest
            (state_at (states_of ⟦<dyn Driver as Driver>⟧ (members self.now)) driver)
            result }
    {
        one::idle_at(&self.boxes[driver as usize])
    }

    /// `Driver::make` of the driver of that number, which has to be below `len`. The others stay as they are.
    pub fn make(&mut self, driver: u32, f: u32, args: &[Value]) -> Made
        requires in_list { driver < length (members self.old) }
        requires args_live { AreLive
            (state_at (states_of ⟦<dyn Driver as Driver>⟧ (members self.old)) driver)
            args.now }
        ensures moved { DriverMoved ⟦<dyn Driver as Driver>⟧ (members self.old) driver
            (λ r s t. WasMade r s (make f args.now) result t) (members self.new) }
    {
        let b = &mut self.boxes[driver as usize];
        one::make_at(b, f, args)
    }

    /// `Driver::call` of the driver of that number, which has to be below `len`. The others stay as they are.
    pub fn call(&mut self, driver: u32, f: u32, object: Option<u64>, args: &[Value]) -> Answer
        requires in_list { driver < length (members self.old) }
        requires object_live { IsLiveOption
            (state_at (states_of ⟦<dyn Driver as Driver>⟧ (members self.old)) driver)
            object }
        requires args_live { AreLive
            (state_at (states_of ⟦<dyn Driver as Driver>⟧ (members self.old)) driver)
            args.now }
        ensures moved { DriverMoved ⟦<dyn Driver as Driver>⟧ (members self.old) driver
            (λ r s t. Answered r s (call f object args.now) result t) (members self.new) }
    {
        let b = &mut self.boxes[driver as usize];
        one::call_at(b, f, object, args)
    }

    /// `Driver::read` of the driver of that number, which has to be below `len`. The others stay as they are.
    pub fn read(&mut self, driver: u32, f: u32, object: Option<u64>) -> Answer
        requires in_list { driver < length (members self.old) }
        requires object_live { IsLiveOption
            (state_at (states_of ⟦<dyn Driver as Driver>⟧ (members self.old)) driver)
            object }
        ensures moved { DriverMoved ⟦<dyn Driver as Driver>⟧ (members self.old) driver
            (λ r s t. Answered r s (read f object) result t) (members self.new) }
    {
        let b = &mut self.boxes[driver as usize];
        one::read_at(b, f, object)
    }

    /// `Driver::write` of the driver of that number, which has to be below `len`. The others stay as they
    /// are.
    pub fn write(&mut self, driver: u32, f: u32, object: Option<u64>, value: Value) -> Answer
        requires in_list { driver < length (members self.old) }
        requires object_live { IsLiveOption
            (state_at (states_of ⟦<dyn Driver as Driver>⟧ (members self.old)) driver)
            object }
        requires value_live { IsLiveValue
            (state_at (states_of ⟦<dyn Driver as Driver>⟧ (members self.old)) driver)
            value }
        ensures moved { DriverMoved ⟦<dyn Driver as Driver>⟧ (members self.old) driver
            (λ r s t. Answered r s (write f object value) result t) (members self.new) }
    {
        let b = &mut self.boxes[driver as usize];
        one::write_at(b, f, object, value)
    }

    /// `Driver::add_ref` of the driver of that number, which has to be below `len`: false where a tally was
    /// full. The others stay as they are. It takes no memory.
    pub fn add_ref(&mut self, driver: u32, key: u64) -> bool
        requires in_list { driver < length (members self.old) }
        requires key_live { IsLive
            (state_at (states_of ⟦<dyn Driver as Driver>⟧ (members self.old)) driver)
            key }
        ensures moved { DriverMoved ⟦<dyn Driver as Driver>⟧ (members self.old) driver
            (λ r s t. WasAdded s key result t) (members self.new) }
    {
        let b = &mut self.boxes[driver as usize];
        one::add_ref_at(b, key)
    }

    /// `Driver::release` of the driver of that number, which has to be below `len`: true where it was the
    /// last reference. The others stay as they are. It takes no memory.
    pub fn release(&mut self, driver: u32, key: u64) -> bool
        requires in_list { driver < length (members self.old) }
        requires key_live { IsLive
            (state_at (states_of ⟦<dyn Driver as Driver>⟧ (members self.old)) driver)
            key }
        ensures moved { DriverMoved ⟦<dyn Driver as Driver>⟧ (members self.old) driver
            (λ r s t. WasReleased r s key result t) (members self.new) }
    {
        let b = &mut self.boxes[driver as usize];
        one::release_at(b, key)
    }
}
