//! Tests of `ang_remote` by its public calls: drivers whose host is a text.

mod answers;
mod failures;
mod harness;
mod lines;
mod objects;
mod posts;
