//! A reader and a writer of std that take turns: what the writer keeps back is written before each read, so that whoever
//! types an input sees what its lines led to before the next one.

use std::cell::RefCell;
use std::io::{Error, ErrorKind, Read, Result, Write};

/// A reader that has a writer hand on what it keeps back before each read.
///
/// Where that fails the read is made all the same: what wasn't written stays in the writer, and the next write or flush
/// that has to write it meets the failure.
#[derive(Drop)]
pub struct ReadAfterFlush<'a, R, W> {
    reader: R,
    writer: &'a RefCell<W>,
}

impl<'a, R, W> ReadAfterFlush<'a, R, W> {
    /// The reader, with the writer that is flushed before it reads.
    pub fn new(reader: R, writer: &'a RefCell<W>) -> ReadAfterFlush<'a, R, W> {
        ReadAfterFlush { reader, writer }
    }
}

impl<'a, R: Read, W: Write> Read for ReadAfterFlush<'a, R, W> {
    ghost remaining = { λ s. R.remaining s.reader };

    fn read(&mut self, buf: &mut [u8]) -> Result<usize> {
        if let Ok(mut writer) = self.writer.try_borrow_mut() {
            let _ = writer.flush();
        }
        self.reader.read(buf)
    }
}

/// A writer that is shared with such a reader. It tells no bytes, since a cell tells none.
#[derive(Drop)]
pub struct SharedWriter<'a, W> {
    writer: &'a RefCell<W>,
}

impl<'a, W> SharedWriter<'a, W> {
    /// One more handle of the writer.
    pub fn new(writer: &'a RefCell<W>) -> SharedWriter<'a, W> {
        SharedWriter { writer }
    }
}

impl<'a, W: Write> Write for SharedWriter<'a, W> {
    fn write(&mut self, buf: &[u8]) -> Result<usize> {
        match self.writer.try_borrow_mut() {
            Ok(mut writer) => writer.write(buf),
            Err(_) => Err(Error::from(ErrorKind::ResourceBusy)),
        }
    }

    fn flush(&mut self) -> Result<()> {
        match self.writer.try_borrow_mut() {
            Ok(mut writer) => writer.flush(),
            Err(_) => Err(Error::from(ErrorKind::ResourceBusy)),
        }
    }
}
