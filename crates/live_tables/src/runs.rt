//! One run of a live script.

use km_edge::{MemSink, MemSource};
use km_live_engine::{OpenGate, Status, run_live};
use std::alloc::{AllocError, Global};
use std::sync::Wait;
use std::thread::Threads;

/// The most bytes that the sink takes at once, so that most texts come to it in several writes.
const TAKEN: usize = 7;

/// How a run is made. A failing read or write goes by its number from 1, and 0 is none.
#[derive(Clone, Copy)]
pub struct Way {
    pub piece: usize,
    pub failing_read: usize,
    pub failing_write: usize,
    pub room: usize,
}

/// How a run ended, and what it wrote.
#[derive(Drop)]
pub struct Run {
    pub status: Status,
    pub written: Vec<u8>,
}

/// The calls that fail: none, or the one of this number.
fn calls(alloc: Global, number: usize) -> Result<Vec<u64>, AllocError> {
    let mut numbers = Vec::new(alloc);
    if number > 0 {
        numbers.push(number as u64)?;
    }
    Ok(numbers)
}

/// Runs a live script.
pub fn run_by<R: Threads + Wait + Sync>(
    rt: &R,
    alloc: Global,
    words: &[String],
    script: &[u8],
    way: &Way,
) -> Result<Run, AllocError> {
    let bytes = Vec::from_slice(alloc, script)?;
    let failing = calls(alloc, way.failing_read)?;
    let mut source = MemSource::new(bytes, way.piece.max(1), failing);
    let failing = calls(alloc, way.failing_write)?;
    let Ok(mut sink) = MemSink::new(alloc, way.room, TAKEN, failing) else {
        return Err(AllocError);
    };
    let status = run_live(rt, alloc, words, &mut source, &mut sink, &OpenGate);
    let written = Vec::from_slice(alloc, sink.bytes())?;
    Ok(Run { status, written })
}
