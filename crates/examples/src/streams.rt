//! Readers and writers that fail, or give and take little.

use std::alloc::Global;
use std::io;
use std::io::{Error, ErrorKind, Read, Write};

/// The most bytes that a call of `read` gives.
const A_READ: usize = 16;

/// How many calls of `read` a text takes, with the one that gives nothing.
pub fn reads_of(text: &str) -> usize {
    text.len().div_ceil(A_READ).saturating_add(1)
}

/// Gives a text, 16 bytes a call, and may fail at a call.
#[derive(Drop)]
pub struct Source<'a> {
    left: &'a [u8],
    /// How many calls come before the one that fails.
    until_fault: Option<usize>,
}

impl<'a> Source<'a> {
    /// Gives the whole text.
    pub fn whole(text: &'a str) -> Source<'a> {
        Source {
            left: text.as_bytes(),
            until_fault: None,
        }
    }

    /// Gives the text, and fails after so many calls.
    pub fn failing(text: &'a str, until_fault: usize) -> Source<'a> {
        Source {
            left: text.as_bytes(),
            until_fault: Some(until_fault),
        }
    }
}

impl Read for Source<'_> {
    fn read(&mut self, buffer: &mut [u8]) -> io::Result<usize> {
        if let Some(calls) = self.until_fault {
            if calls == 0 {
                return Err(Error::from(ErrorKind::Interrupted));
            }
            self.until_fault = Some(calls - 1);
        }
        let count = self.left.len().min(buffer.len()).min(A_READ);
        let (front, rest) = self.left.split_at(count);
        buffer[..count].copy_from_slice(front);
        self.left = rest;
        Ok(count)
    }
}

/// Keeps what it takes, one byte a call. Where it has no more room it fails, or takes nothing.
#[derive(Drop)]
pub struct Sink {
    pub kept: Vec<u8>,
    room: usize,
    fails: bool,
}

impl Sink {
    /// A sink with room for so many bytes, that fails then or takes nothing.
    pub fn new(alloc: Global, room: usize, fails: bool) -> Sink {
        Sink {
            kept: Vec::new(alloc),
            room,
            fails,
        }
    }
}

impl Write for Sink {
    fn write(&mut self, buffer: &[u8]) -> io::Result<usize> {
        if self.kept.len() < self.room {
            let count = buffer.len().min(1);
            self.kept.extend_from_slice(&buffer[..count])?;
            Ok(count)
        } else if self.fails {
            Err(Error::from(ErrorKind::Interrupted))
        } else {
            Ok(0)
        }
    }

    fn flush(&mut self) -> io::Result<()> {
        Ok(())
    }
}
