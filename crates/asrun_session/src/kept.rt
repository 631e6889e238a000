//! A reader whose bytes are kept.

use std::alloc::Global;
use std::io;
use std::io::Read;

/// Reads from a reader, and keeps what it reads, as far as there is memory for it.
#[derive(Drop)]
pub struct Kept<R: Drop> {
    reader: R,
    text: Vec<u8>,
    is_whole: bool,
}

impl<R: Read + Drop> Kept<R> {
    /// A reader of which nothing was read yet.
    pub fn new(alloc: Global, reader: R) -> Kept<R> {
        Kept {
            reader,
            text: Vec::new(alloc),
            is_whole: true,
        }
    }

    /// What was read, from the first byte on. Where memory was refused for some of it, only what came before.
    pub fn text(&self) -> &[u8] {
        self.text.as_slice()
    }
}

impl<R: Read + Drop> Read for Kept<R> {
    ghost remaining = { λ k. R.remaining k.reader };

    fn read(&mut self, buf: &mut [u8]) -> io::Result<usize> {
        let count = self.reader.read(buf)?;
        if self.is_whole {
            self.is_whole = self.text.extend_from_slice(&buf[..count]).is_ok();
        }
        Ok(count)
    }
}
