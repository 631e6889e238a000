//! Readers and writers of a test's own, and what a driver between them answers.

use ang_host::{Answer, Driver, Made};
use ang_kinds::Value;
use ang_remote::Remote;
use std::alloc::{AllocError, Global};
use std::io;
use std::io::{Error, ErrorKind, Read, Write};

/// Gives the text byte by byte, and fails at call `fails`, counted from 1.
#[derive(Drop)]
pub struct Host<'a> {
    left: &'a [u8],
    pub calls: u64,
    fails: u64,
}

impl<'a> Host<'a> {
    pub fn new(text: &'a str, fails: u64) -> Host<'a> {
        Host {
            left: text.as_bytes(),
            calls: 0,
            fails,
        }
    }

    /// How many bytes were not read.
    pub fn unread(&self) -> usize {
        self.left.len()
    }
}

impl Read for Host<'_> {
    fn read(&mut self, buffer: &mut [u8]) -> io::Result<usize> {
        self.calls = self.calls.saturating_add(1);
        if self.calls == self.fails {
            return Err(Error::from(ErrorKind::Interrupted));
        }
        let count = self.left.len().min(buffer.len());
        let (front, rest) = self.left.split_at(count);
        buffer[..count].copy_from_slice(front);
        self.left = rest;
        Ok(count)
    }
}

/// Keeps what it takes, at most 7 bytes a call. At call `stops` it fails, or takes nothing; with `stuck` it can't be
/// flushed.
#[derive(Drop)]
pub struct Sink {
    pub kept: Vec<u8>,
    calls: u64,
    stops: u64,
    fails: bool,
    stuck: bool,
}

impl Sink {
    pub fn new(alloc: Global, stops: u64, fails: bool, stuck: bool) -> Sink {
        Sink {
            kept: Vec::new(alloc),
            calls: 0,
            stops,
            fails,
            stuck,
        }
    }
}

impl Write for Sink {
    fn write(&mut self, buffer: &[u8]) -> io::Result<usize> {
        self.calls = self.calls.saturating_add(1);
        if self.calls == self.stops {
            return if self.fails {
                Err(Error::from(ErrorKind::Interrupted))
            } else {
                Ok(0)
            };
        }
        let count = buffer.len().min(7);
        self.kept.extend_from_slice(&buffer[..count])?;
        Ok(count)
    }

    fn flush(&mut self) -> io::Result<()> {
        if self.stuck {
            Err(Error::from(ErrorKind::Interrupted))
        } else {
            Ok(())
        }
    }
}

/// A host call without objects.
#[derive(Clone, Copy)]
pub enum Asking {
    Call,
    Read,
    Write,
}

fn asked<D: Driver>(driver: &mut D, asking: Asking) -> Answer {
    match asking {
        Asking::Call => driver.call(
            8,
            None,
            &[Value::Int(-7), Value::Uint(7), Value::Bool(true)],
        ),
        Asking::Read => driver.read(9, None),
        Asking::Write => driver.write(10, None, Value::Key(None)),
    }
}

/// What a driver of the number 3 is answered by a host of this text, and whether it wrote this and all of the text but
/// that many bytes was read.
pub fn answered(
    alloc: Global,
    asking: Asking,
    text: &str,
    written: &str,
    unread: usize,
) -> Result<Option<Answer>, AllocError> {
    let mut host = Host::new(text, 0);
    let mut sink = Sink::new(alloc, 0, false, false);
    let mut driver = Remote::new(alloc, 3, Vec::new(alloc), &mut host, &mut sink);
    let answer = asked(&mut driver, asking);
    drop(driver);
    let is_right = host.unread() == unread && sink.kept.as_slice() == written.as_bytes();
    Ok(is_right.then_some(answer))
}

/// What a driver of the number 0 answers where a stream fails.
pub fn failing(host: &mut Host<'_>, sink: &mut Sink, alloc: Global) -> Answer {
    let mut driver = Remote::new(alloc, 0, Vec::new(alloc), host, sink);
    let answer = driver.read(1, None);
    drop(driver);
    answer
}

/// What a driver is answered to a making.
pub fn making(alloc: Global, text: &str, written: &str) -> Result<Option<Made>, AllocError> {
    let mut host = Host::new(text, 0);
    let mut sink = Sink::new(alloc, 0, false, false);
    let mut driver = Remote::new(alloc, 3, Vec::new(alloc), &mut host, &mut sink);
    let made = driver.make(4_294_967_295, &[Value::Bool(false)]);
    drop(driver);
    let is_right = sink.kept.as_slice() == written.as_bytes();
    Ok(is_right.then_some(made))
}
