//! Tests of `session` by its public call: texts at their limits, a reader that never ends, how many drivers there may be,
//! and what a driver was asked that no text tells. Sessions with their texts stand in crates/examples, which also cuts
//! them and runs them over streams that fail. And of drivers whose host is a text (`remote`), and
//! of a host that compares the replies of two engines (`hidden`).
#![tactic(auto)]

#[cfg(test)]
mod borrowed;
#[cfg(test)]
mod drivers;
#[cfg(test)]
mod harness;
#[cfg(test)]
mod hidden;
#[cfg(test)]
mod limits;
#[cfg(test)]
mod remote;
#[cfg(test)]
mod streams;
