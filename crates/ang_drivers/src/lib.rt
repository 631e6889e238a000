//! Sample drivers, which keep the laws of `Driver`: a `Console` without objects, a `Counter` and a `Cell` with
//! objects, an `IntList` and an `IntMap` whose objects are lists and maps of numbers, and a `Faulty`, a counter of which
//! one asking fails. And for hosts, a `Limited`, which bounds the host calls of the driver inside, and `Objects`, the
//! table in which drivers keep objects for scripts.
#![tactic(auto)]

mod cell;
mod console;
mod counter;
mod faulty;
mod int_list;
mod int_map;
pub mod laws;
mod limited;
mod numbers;
mod objects;
mod pages;
mod pairs;
mod values;

pub use cell::Cell;
pub use console::Console;
pub use counter::Counter;
pub use faulty::{Failing, Faulty};
pub use int_list::IntList;
pub use int_map::IntMap;
pub use limited::{CallLimit, Limited};
pub use objects::Objects;
pub use values::{NO_SUCH_INDEX, NO_SUCH_KEY};
