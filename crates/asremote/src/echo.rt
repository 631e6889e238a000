//! A reader whose bytes are shown as they are read.

use std::io;
use std::io::{Read, Write};

/// Reads from a reader, and, where it is to show what it reads, writes each byte that came to a writer first.
///
/// What can't be written is not shown; reading goes on.
#[derive(Drop)]
pub struct Echo<R: Drop, W: Drop> {
    reader: R,
    writer: W,
    shows: bool,
}

impl<R: Read + Drop, W: Write + Drop> Echo<R, W> {
    pub fn new(reader: R, writer: W, shows: bool) -> Echo<R, W> {
        Echo {
            reader,
            writer,
            shows,
        }
    }
}

impl<R: Read + Drop, W: Write + Drop> Read for Echo<R, W> {
    ghost remaining = { λ e. R.remaining e.reader };

    fn read(&mut self, buf: &mut [u8]) -> io::Result<usize> {
        let count = self.reader.read(buf)?;
        if self.shows {
            let _ = self.writer.write_all(&buf[..count]);
        }
        Ok(count)
    }
}
