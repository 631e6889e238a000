//! Tests of the way from resolved trees to code, by public calls: core trees and how code asks entries, whole modules,
//! and numbers.
#![tactic(auto)]

/// A list that is written without one line for each item.
macro_rules! list {
    ($($item:expr),* $(,)?) => {
        &[$($item),*]
    };
}

#[cfg(test)]
mod lowered;
#[cfg(test)]
mod modules;
#[cfg(test)]
mod numbers;
#[cfg(test)]
mod shown;
#[cfg(test)]
mod uses;
#[cfg(test)]
mod written;
