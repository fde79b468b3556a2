//! What a source and a sink promise.

ghost use Rattle.std.specs.Prelude.{◌≡◌, ◌≤◌, ◌<◌, length, IfOk};
ghost use Rattle.km_edge.specs.Streams.{Reads, Writes, WritesAll};

use crate::errors::Failed;

/// Gives bytes, a piece at a time.
pub trait Source {
    ghost use Rattle.std.specs.Prelude.{ℕ};
    ghost use Rattle.km_edge.specs.Streams.{SourceState};

    // The bytes that are left, where the source tells them, and the faults so far.
    // The count of faults stays at the greatest 64-bit number once it is reached.
    ghost state: { Self → SourceState };

    // One read into so many bytes leads from one to the other. A source that keeps this body says nothing by it, but
    // what reads from any source has it by one read of exactly so many bytes alone.
    ghost asked: { Self → Self → ℕ → Type 0 } = { λ _ _ _. Unit {0} };

    /// Puts the next bytes at the front of `buf` and gives their number, 0 only at the end of the input.
    fn read(&mut self, buf: &mut [u8]) -> Result<usize, Failed>
        requires { 0 < length buf.old }
        ensures reads { Reads (state self.old) (state self.new) buf.new result }
        ensures asked { asked self.old self.new (length buf.old) }
        ensures faults { (state self.old).faults ≤ (state self.new).faults }
        ensures kept { IfOk result (λ _. (state self.new).faults ≡ (state self.old).faults) };
}

/// Takes bytes, a piece at a time.
pub trait Sink {
    ghost use Rattle.km_edge.specs.Streams.{SinkState};

    // The bytes that are held and the number of those that were taken, where the sink tells them, and the faults so far.
    // The count of faults stays at the greatest 64-bit number once it is reached.
    ghost state: { Self → SinkState };

    /// Appends the first bytes of `piece` and gives their number, at least 1.
    fn write(&mut self, piece: &[u8]) -> Result<usize, Failed>
        requires { 0 < length piece.now }
        ensures writes { Writes (state self.old) (state self.new) piece.now result }
        ensures faults { (state self.old).faults ≤ (state self.new).faults }
        ensures kept { IfOk result (λ _. (state self.new).faults ≡ (state self.old).faults) };
}

/// Writes all of these bytes, in as many writes as it takes. A write that fails ends it.
pub fn write_all<K: Sink>(sink: &mut K, bytes: &[u8]) -> Result<(), Failed>
    ensures { WritesAll (K.state sink.old) (K.state sink.new) bytes.now result }
{
    let mut at = 0;
    while at < bytes.len() {
        at += sink.write(&bytes[at..])?;
    }
    Ok(())
}
