//! Tests of the crates below, by their public calls. They stand here and not beside what they test, since a crate
//! with tests is proved once as a library and once more with its tests.
#![tactic(auto)]

#[cfg(test)]
mod drivers;
#[cfg(test)]
mod events;
#[cfg(test)]
mod groups;
#[cfg(test)]
mod kinds;
#[cfg(test)]
mod registry;
#[cfg(test)]
mod types;
