//! Sources and sinks over memory, for tests and for runs whose output is only counted.

ghost use Rattle.std.specs.Prelude.{◌≡◌, ◌≤◌, ◌<◌, ◌+◌, ◌-◌, ◌++◌, [], length, min, vec_len, vec_capacity, Ok, Err, IfOk};
ghost use Rattle.km_edge.specs.Memory.{is_in};
ghost use Rattle.km_edge.specs.Streams.{Reads, Writes, greatest, raised as raised_of};

use crate::errors::Failed;
use crate::streams::{Sink, Source};
use km_base::NoMemory;
use std::alloc::Global;
use std::marker::Model;

/// One more, up to the greatest.
fn raised(n: u64) -> u64
    ensures { result ≡ raised_of n }
{
    n.saturating_add(1)
}

/// Whether a number is among these.
fn is_among(n: u64, numbers: &[u64]) -> bool
    ensures { result ≡ is_in n numbers.now }
{
    numbers.iter().any(|m| *m == n)
}

/// Appends a piece for which there is room.
fn append(bytes: &mut Vec<u8>, piece: &[u8])
    requires { vec_len bytes.old + length piece.now ≤ vec_capacity bytes.old }
    ensures items { bytes.new.items ≡ bytes.old.items ++ piece.now }
    ensures capacity { vec_capacity bytes.new ≡ vec_capacity bytes.old }
{
    for byte in piece {
        bytes.push_reserved(*byte);
    }
}

/// A source that tells its bytes, gives them in pieces, and fails the calls of these numbers.
#[derive(Drop)]
pub struct MemSource {
    bytes: Vec<u8>,
    at: usize,
    piece: usize,
    fail: Vec<u64>,
    calls: u64,
    faults: u64,
}

impl Model for MemSource {
    ghost use Rattle.std.specs.Prelude.{◌≤◌, ◌<◌, drop, length, vec_len};
    ghost use Rattle.km_edge.specs.Memory.{Supply};

    ghost Value = { Supply };

    ghost view = { λ a. record {
      left = drop a.at a.bytes.items;
      piece = a.piece;
      fail = a.fail.items;
      calls = a.calls;
      faults = a.faults;
    } };

    ghost invariant = { λ a. (a.at ≤ vec_len a.bytes) × (1 ≤ a.piece) };
}

impl MemSource {
    /// A source of these bytes that gives at most `piece` of them a call. `fail` has the numbers, from 1, of the calls that fail.
    pub fn new(bytes: Vec<u8>, piece: usize, fail: Vec<u64>) -> MemSource
        requires { 1 ≤ piece }
        ensures { result ≡ record { left = bytes.items; piece = piece; fail = fail.items; calls = 0; faults = 0 } }
    {
        MemSource {
            bytes,
            at: 0,
            piece,
            fail,
            calls: 0,
            faults: 0,
        }
    }
}

impl Source for MemSource {
    ghost use Rattle.km_edge.specs.Memory.{source_state, read_of, after_read};

    ghost state = { source_state };

    ghost asked = { λ s s' size. s' ≡ after_read s size };

    fn read(&mut self, buf: &mut [u8]) -> Result<usize, Failed>
        requires { 0 < length buf.old }
        ensures reads { Reads (source_state self.old) (source_state self.new) buf.new result }
        ensures asked { self.new ≡ after_read self.old (length buf.old) }
        ensures faults { self.old.faults ≤ self.new.faults }
        ensures kept { IfOk result (λ _. self.new.faults ≡ self.old.faults) }
        ensures result { result ≡ read_of self.old (length buf.old) }
    {
        self.calls = raised(self.calls);
        if is_among(self.calls, self.fail.as_slice()) {
            self.faults = raised(self.faults);
            return Err(Failed);
        }
        let n = self.piece.min(buf.len().min(self.bytes.len() - self.at));
        buf[..n].copy_from_slice(&self.bytes[self.at..self.at + n]);
        self.at += n;
        Ok(n)
    }
}

/// A sink that tells its bytes, takes them in pieces, and fails the calls of these numbers and those without room.
#[derive(Drop)]
pub struct MemSink {
    bytes: Vec<u8>,
    room: usize,
    piece: usize,
    fail: Vec<u64>,
    calls: u64,
    faults: u64,
}

impl Model for MemSink {
    ghost use Rattle.std.specs.Prelude.{◌≤◌, vec_len, vec_capacity};
    ghost use Rattle.km_edge.specs.Memory.{Store};

    ghost Value = { Store };

    ghost view = { λ a. record {
      held = a.bytes.items;
      room = a.room;
      piece = a.piece;
      fail = a.fail.items;
      calls = a.calls;
      faults = a.faults;
    } };

    ghost invariant = { λ a. (vec_len a.bytes ≤ a.room) × (a.room ≤ vec_capacity a.bytes) × (1 ≤ a.piece) };
}

impl MemSink {
    /// An empty sink with room for `room` bytes that takes at most `piece` of them a call.
    /// `fail` has the numbers, from 1, of the calls that fail; a call without room fails too.
    pub fn new(
        alloc: Global,
        room: usize,
        piece: usize,
        fail: Vec<u64>,
    ) -> Result<MemSink, NoMemory>
        requires { 1 ≤ piece }
        ensures { IfOk result (λ s. s ≡ record { held = []; room = room; piece = piece; fail = fail.items; calls = 0; faults = 0 }) }
    {
        let Ok(bytes) = Vec::with_capacity(alloc, room) else {
            return Err(NoMemory);
        };
        Ok(MemSink {
            bytes,
            room,
            piece,
            fail,
            calls: 0,
            faults: 0,
        })
    }

    /// The bytes that it holds.
    pub fn bytes(&self) -> &[u8]
        ensures { result.now ≡ self.now.held }
    {
        self.bytes.as_slice()
    }
}

impl Sink for MemSink {
    ghost use Rattle.km_edge.specs.Memory.{sink_state, write_of, after_write};

    ghost state = { sink_state };

    fn write(&mut self, piece: &[u8]) -> Result<usize, Failed>
        requires { 0 < length piece.now }
        ensures writes { Writes (sink_state self.old) (sink_state self.new) piece.now result }
        ensures faults { self.old.faults ≤ self.new.faults }
        ensures kept { IfOk result (λ _. self.new.faults ≡ self.old.faults) }
        ensures result { result ≡ write_of self.old (length piece.now) }
        ensures after { self.new ≡ after_write self.old piece.now }
    {
        self.calls = raised(self.calls);
        if is_among(self.calls, self.fail.as_slice()) || self.bytes.len() == self.room {
            self.faults = raised(self.faults);
            return Err(Failed);
        }
        let n = self
            .piece
            .min(piece.len().min(self.room - self.bytes.len()));
        append(&mut self.bytes, &piece[..n]);
        Ok(n)
    }
}

/// A sink that counts the bytes and keeps none of them. It never fails.
#[derive(Drop)]
pub struct CountSink {
    count: u64,
}

impl Model for CountSink {
    ghost use Rattle.std.specs.Prelude.{ℕ};

    ghost Value = { ℕ };

    ghost view = { λ a. a.count };
}

impl CountSink {
    /// A sink that has taken no byte.
    pub fn new() -> CountSink
        ensures { result ≡ 0 }
    {
        CountSink { count: 0 }
    }

    /// The number of bytes that it took, up to the greatest 64-bit number.
    pub fn count(&self) -> u64
        ensures { result ≡ self.now }
    {
        self.count
    }
}

impl Sink for CountSink {
    ghost use Rattle.km_edge.specs.Memory.{count_state};

    ghost state = { count_state };

    fn write(&mut self, piece: &[u8]) -> Result<usize, Failed>
        requires { 0 < length piece.now }
        ensures writes { Writes (count_state self.old) (count_state self.new) piece.now result }
        ensures faults { 0 ≤ 0 }
        ensures kept { IfOk result (λ _. (count_state self.new).faults ≡ (count_state self.old).faults) }
        ensures result { result ≡ Ok (length piece.now) }
        ensures after { self.new ≡ min (self.old + length piece.now) greatest }
    {
        self.count = self.count.saturating_add(piece.len() as u64);
        Ok(piece.len())
    }
}
