//! A source over bytes that are held.

ghost use Rattle.std.specs.Prelude.{◌≡◌};

use km_edge::{Failed, Source};

/// Gives bytes that are held, and never fails.
#[derive(Drop)]
pub struct HeldSource<'a> {
    left: &'a [u8],
}

impl<'a> HeldSource<'a> {
    /// A source of these bytes.
    pub fn new(bytes: &'a [u8]) -> HeldSource<'a>
        ensures { result.left.now ≡ bytes.now }
    {
        HeldSource { left: bytes }
    }
}

impl<'a> Source for HeldSource<'a> {
    ghost use Rattle.km_engine.specs.Bench.{held_state};

    ghost state = { λ s. held_state s.left.now };

    fn read(&mut self, buf: &mut [u8]) -> Result<usize, Failed> {
        let n = buf.len().min(self.left.len());
        let (piece, rest) = self.left.split_at(n);
        buf[..n].copy_from_slice(piece);
        self.left = rest;
        Ok(n)
    }
}
