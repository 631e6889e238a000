//! Tests of the machine, by public calls: modules written by hand that run on real drivers, steps that are done at
//! once, and values that pass between scripts and drivers.
#![tactic(auto)]

/// A list that is written without one line for each item.
macro_rules! list {
    ($($item:expr),* $(,)?) => {
        &[$($item),*]
    };
}

#[cfg(test)]
mod answers;
#[cfg(test)]
mod cases;
#[cfg(test)]
mod classes;
#[cfg(test)]
mod entities;
#[cfg(test)]
mod handles;
#[cfg(test)]
mod known;
#[cfg(test)]
mod last;
#[cfg(test)]
mod listed;
#[cfg(test)]
mod machine;
#[cfg(test)]
mod numbers;
#[cfg(test)]
mod operators;
#[cfg(test)]
mod program;
#[cfg(test)]
mod runs;
#[cfg(test)]
mod taken;
#[cfg(test)]
mod values;
