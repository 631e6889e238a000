//! Tests from a section's text on, by public calls: what the checker refuses and gives, what operators are between
//! operands made by hand, and the report of denials.
#![tactic(auto)]

#[cfg(test)]
mod denials;
#[cfg(test)]
mod enumerations;
#[cfg(test)]
mod host;
#[cfg(test)]
mod limits;
#[cfg(test)]
mod objects;
#[cfg(test)]
mod operators;
#[cfg(test)]
mod outcomes;
#[cfg(test)]
mod positions;
#[cfg(test)]
mod rows;
#[cfg(test)]
mod sections;
