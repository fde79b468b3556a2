//! A load of a chunk.

ghost use Rattle.std.specs.Prelude.{◌≡◌};
ghost use Rattle.km_model.specs.Memory.{base};

use km_base::Addr;
use km_base::sizes::BASE;

/// A word of the memory, and what was loaded there.
#[derive(Clone, Copy, Debug, PartialEq)]
pub struct Load {
    pub word: Addr,
    pub value: u64,
}

impl Default for Load {
    /// Zero at the first word.
    fn default() -> Load
        ensures word { result.word.0 ≡ base }
        ensures value { result.value ≡ 0 }
    {
        Load {
            word: Addr(BASE),
            value: 0,
        }
    }
}
