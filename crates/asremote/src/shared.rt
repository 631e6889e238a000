//! A reader in several hands.
ghost use Rattle.std.specs.Prelude.{None};

use std::alloc::{AllocError, Global};
use std::cell::RefCell;
use std::io;
use std::io::{BufReader, Read};
use std::rc::Rc;

/// One reader in several hands, with one buffer: what one hand has not read the next one reads.
#[derive(Drop)]
pub struct Shared<R: Read + Drop> {
    reader: Rc<RefCell<BufReader<R>>>,
}

impl<R: Read + Drop> Shared<R> {
    /// The first hand of a reader.
    ///
    /// # Errors
    /// A growth of memory was refused.
    pub fn new(alloc: Global, reader: R) -> Result<Shared<R>, AllocError> {
        let Ok(reader) = BufReader::new(alloc, reader) else {
            return Err(AllocError);
        };
        Ok(Shared {
            reader: Rc::new(alloc, RefCell::new(reader))?,
        })
    }

    /// One hand more.
    ///
    /// # Errors
    /// There are as many hands as can be counted.
    pub fn share(&self) -> Result<Shared<R>, AllocError> {
        Ok(Shared {
            reader: Rc::clone(&self.reader)?,
        })
    }
}

impl<R: Read + Drop> Read for Shared<R> {
    ghost remaining = { λ s. None };

    fn read(&mut self, buf: &mut [u8]) -> io::Result<usize> {
        match self.reader.try_borrow_mut() {
            Ok(mut reader) => reader.read(buf),
            Err(_) => Err(io::Error::from(io::ErrorKind::ResourceBusy)),
        }
    }
}
