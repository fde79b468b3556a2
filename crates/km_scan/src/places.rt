//! Where a scan is.

ghost use Rattle.std.specs.Prelude.{◌≡◌};
ghost use Rattle.km_scan.specs.Places.{place_of};

use km_base::Addr;
use km_record::RecId;

/// A pass of a scan over blocks: the grey pass before the sums, the sums, and the grey pass behind them.
#[derive(Clone, Copy, Debug, PartialEq)]
pub enum Pass {
    First,
    Sums,
    Second,
}

/// A word that a scan loads: of the stack of a task, by its number, or of a block.
#[derive(Clone, Copy, Debug, PartialEq)]
pub enum At {
    Stack { task: u64, word: Addr },
    Block { pass: Pass, id: RecId, word: Addr },
}

/// How far a scan has come: it has made no load, it made this one last, or the block of the last
/// load is gone and it goes on behind that registration.
#[derive(Clone, Copy, Debug, PartialEq)]
pub enum Cursor {
    Start,
    Last(At),
    Behind { pass: Pass, generation: u64 },
}

impl At {
    /// The address of the word.
    pub fn word(&self) -> Addr
        ensures { result.0 ≡ (place_of self.now).word }
    {
        match self {
            At::Stack { word, .. } | At::Block { word, .. } => *word,
        }
    }
}
