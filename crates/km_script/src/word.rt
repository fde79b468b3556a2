//! A word of a line.

ghost use Rattle.std.specs.Prelude.{◌≡◌, ◌==◌, position};
ghost use Rattle.std.proofs.Props.{props};

/// A word of a line: the column of its first byte, from 1, that byte, and what stands behind it.
///
/// The places in `rest` of the first `.` and of the first `+` are noted where the word's end is looked
/// for, so that nothing looks for them again.
#[derive(Clone, Copy)]
pub struct Word<'a> {
    pub column: u32,
    pub first: u8,
    pub rest: &'a [u8],
    pub dot: Option<usize>,
    pub plus: Option<usize>,
    ghost dot_is_first: { dot ≡ position (λ c. c == 46) rest.now } by { Prim.hlevel props },
    ghost plus_is_first: { plus ≡ position (λ c. c == 43) rest.now } by { Prim.hlevel props },
}
