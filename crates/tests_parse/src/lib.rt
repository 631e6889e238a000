//! Tests of what reads texts, by public calls: tokens, host declarations, and the readers that read no part of a script;
//! and of the parser: what it accepts and refuses, and where, also beside a recognizer of its own, and the trees that it
//! makes. A test's rows own nothing, and one small function owns the tokens and the tree of one row, so that little is
//! proved of what is dropped.
#![tactic(auto)]

#[cfg(test)]
mod answers;
#[cfg(test)]
mod comparison;
#[cfg(test)]
mod decl;
#[cfg(test)]
mod lex;
#[cfg(test)]
mod readers;
#[cfg(test)]
mod recognizer;
#[cfg(test)]
mod trees;
