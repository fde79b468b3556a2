//! One run of a script.

use crate::rows::Streams;
use crate::troubles::Trouble;
use km_edge::{CountSink, MemSink, MemSource, StdSink, StdSource};
use km_engine::{Status, run};
use std::alloc::{AllocError, Global};
use std::io::{self, ErrorKind, Read};

/// The most bytes that the sink over memory takes at once, so that most texts come to it in several writes.
const TAKEN: usize = 7;

/// How a run is made. A failing read or write goes by its number from 1, and 0 is none.
#[derive(Clone, Copy)]
pub struct Way {
    pub streams: Streams,
    pub piece: usize,
    pub failing_read: usize,
    pub failing_write: usize,
    pub room: usize,
}

/// What a run wrote.
#[derive(Drop)]
pub enum Written {
    Text(Vec<u8>),
    Count(u64),
}

impl Written {
    /// Whether it is this, as far as it is known.
    pub fn is(&self, text: &[u8]) -> bool {
        match self {
            Written::Text(bytes) => bytes.as_slice() == text,
            Written::Count(count) => *count == text.len() as u64,
        }
    }

    /// Its bytes, where they are known.
    pub fn bytes(&self) -> &[u8] {
        match self {
            Written::Text(bytes) => bytes.as_slice(),
            Written::Count(_) => b"",
        }
    }
}

/// How a run ended, and what it wrote.
#[derive(Drop)]
pub struct Run {
    pub status: Status,
    pub written: Written,
}

/// A reader of these bytes that ends or fails after them.
#[derive(Drop)]
struct Ending<'a> {
    left: &'a [u8],
    fails: bool,
}

impl Read for Ending<'_> {
    fn read(&mut self, buf: &mut [u8]) -> io::Result<usize> {
        if self.fails && self.left.is_empty() {
            return Err(io::Error::from(ErrorKind::Other));
        }
        self.left.read(buf)
    }
}

/// The calls that fail: none, or the one of this number.
fn calls(alloc: Global, number: usize) -> Result<Vec<u64>, AllocError> {
    let mut numbers = Vec::new(alloc);
    if number > 0 {
        numbers.push(number as u64)?;
    }
    Ok(numbers)
}

/// The source of a script over memory.
fn source_of(alloc: Global, script: &[u8], way: &Way) -> Result<MemSource, AllocError> {
    let bytes = Vec::from_slice(alloc, script)?;
    let failing = calls(alloc, way.failing_read)?;
    Ok(MemSource::new(bytes, way.piece.max(1), failing))
}

fn run_over_memory(
    alloc: Global,
    words: &[String],
    script: &[u8],
    way: &Way,
) -> Result<Run, AllocError> {
    let mut source = source_of(alloc, script, way)?;
    let failing = calls(alloc, way.failing_write)?;
    let Ok(mut sink) = MemSink::new(alloc, way.room, TAKEN, failing) else {
        return Err(AllocError);
    };
    let status = run(alloc, words, &mut source, &mut sink);
    let written = Written::Text(Vec::from_slice(alloc, sink.bytes())?);
    Ok(Run { status, written })
}

fn run_into_count(
    alloc: Global,
    words: &[String],
    script: &[u8],
    way: &Way,
) -> Result<Run, AllocError> {
    let mut source = source_of(alloc, script, way)?;
    let mut sink = CountSink::new();
    let status = run(alloc, words, &mut source, &mut sink);
    let written = Written::Count(sink.count());
    Ok(Run { status, written })
}

/// A run by a reader and a writer of std. The writer has dots where nothing was written, and no report ends in one.
fn run_over_std(alloc: Global, words: &[String], script: &[u8], way: &Way) -> Result<Run, Trouble> {
    let mut room = Vec::new(alloc);
    room.resize(way.room, b'.')?;
    let fails = way.streams == Streams::FailingStd;
    let mut source = StdSource::new(Ending {
        left: script,
        fails,
    });
    let mut sink = StdSink::new(room.as_mut_slice());
    let status = run(alloc, words, &mut source, &mut sink);
    let Ok(text) = str::from_utf8(room.as_slice()) else {
        return Err(Trouble::Malformed("a report that is no text"));
    };
    let text = text.trim_end_matches('.');
    let written = Written::Text(Vec::from_slice(alloc, text.as_bytes())?);
    Ok(Run { status, written })
}

/// Runs a script.
pub fn run_by(alloc: Global, words: &[String], script: &[u8], way: &Way) -> Result<Run, Trouble> {
    match way.streams {
        Streams::Memory => Ok(run_over_memory(alloc, words, script, way)?),
        Streams::Std | Streams::FailingStd => run_over_std(alloc, words, script, way),
        Streams::Count => Ok(run_into_count(alloc, words, script, way)?),
    }
}
