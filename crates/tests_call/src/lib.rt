//! Tests of calls from outside, by public calls: which function a text names, whether it can be
//! called, in which slots its arguments are passed, and how declarations are written.
#![tactic(auto)]

#[cfg(test)]
mod arguments;
#[cfg(test)]
mod headings;
#[cfg(test)]
mod texts;
