//! The rows of a table.

use crate::troubles::Trouble;
use km_edge::{MemSink, MemSource};
use km_journal::check_journal;
use std::alloc::{AllocError, Global};

/// The sizes of the pieces in which a journal is given.
const PIECES: [usize; 3] = [1, 7, 4096];

/// The most bytes that are written.
const ROOM: usize = 128;

/// A journal, and what its check gives.
#[derive(Clone, Copy)]
pub struct Row<'a> {
    pub name: &'a str,
    status: u8,
    failing_read: u64,
    failing_write: u64,
    text: &'a str,
    journal: &'a str,
    ends_in_line: bool,
}

/// A number that a row has.
fn number_of(word: Option<&str>) -> Result<u64, Trouble> {
    let Some(word) = word else {
        return Err(Trouble::Malformed("a number is missing"));
    };
    match word.parse() {
        Ok(number) => Ok(number),
        Err(_) => Err(Trouble::Malformed("a number")),
    }
}

impl<'a> Row<'a> {
    /// Reads a row, from its name on.
    pub fn read(text: &'a str) -> Result<Row<'a>, Trouble> {
        let Some((name, rest)) = text.split_once('\n') else {
            return Err(Trouble::Malformed("a row without an end"));
        };
        let (head, journal) = rest.split_once('\n').unwrap_or((rest, ""));
        let mut words = head.splitn(4, ' ');
        let status = number_of(words.next())?;
        let failing_read = number_of(words.next())?;
        let failing_write = number_of(words.next())?;
        let text = words.next().unwrap_or("");
        let cut = journal.strip_suffix('$');
        Ok(Row {
            name,
            status: status.min(255) as u8,
            failing_read,
            failing_write,
            text,
            journal: cut.unwrap_or(journal),
            ends_in_line: cut.is_none() && !journal.is_empty(),
        })
    }

    /// The bytes of the journal.
    fn bytes(&self, alloc: Global) -> Result<Vec<u8>, AllocError> {
        let mut bytes = Vec::from_slice(alloc, self.journal.as_bytes())?;
        if self.ends_in_line {
            bytes.push(b'\n')?;
        }
        Ok(bytes)
    }

    /// Whether these bytes are the text of the row, with its line feed.
    fn is_text(&self, bytes: &[u8]) -> bool {
        match bytes.strip_suffix(b"\n") {
            Some(line) => line == self.text.as_bytes(),
            None => bytes.is_empty() && self.text.is_empty(),
        }
    }
}

/// The calls that fail: none, or the one of this number.
fn calls(alloc: Global, number: u64) -> Result<Vec<u64>, AllocError> {
    let mut numbers = Vec::new(alloc);
    if number > 0 {
        numbers.push(number)?;
    }
    Ok(numbers)
}

/// Checks the journal of a row in pieces of this size.
fn try_pieces(alloc: Global, row: &Row<'_>, piece: usize) -> Result<(), Trouble> {
    let failing = calls(alloc, row.failing_read)?;
    let mut source = MemSource::new(row.bytes(alloc)?, piece.max(1), failing);
    let failing = calls(alloc, row.failing_write)?;
    let Ok(mut sink) = MemSink::new(alloc, ROOM, ROOM, failing) else {
        return Err(Trouble::Memory(AllocError));
    };
    let status = check_journal(alloc, &[], &mut source, &mut sink);
    if status.code() != row.status {
        return Err(Trouble::Differs("another status"));
    }
    if !row.is_text(sink.bytes()) {
        return Err(Trouble::Differs("another text"));
    }
    Ok(())
}

/// Tries a row.
pub fn try_row(alloc: Global, row: &Row<'_>) -> Result<(), Trouble> {
    for piece in PIECES {
        try_pieces(alloc, row, piece)?;
    }
    Ok(())
}
