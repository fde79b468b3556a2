//! The content sum of a block.
#![tactic(auto)]

ghost use Rattle.std.specs.Prelude.{◌≡◌, []};
ghost use Rattle.km_model.specs.Scan.{content_sum, sum_step};

use std::marker::Model;

/// The sum of no words.
const NO_WORDS: u64 = 7;

/// What each word multiplies the sum by before it is added.
const FACTOR: u64 = 31;

/// The sum of the words that were added so far, in their order.
///
/// Two contents with different sums are different. Two with the same sum may be different too.
#[derive(Clone, Copy, Debug, PartialEq)]
pub struct Sum {
    value: u64,
}

impl Model for Sum {
    ghost use Rattle.std.specs.Prelude.{ℕ};

    ghost Value = { ℕ };

    ghost view = { λ a. a.value };

    ghost inverse = { λ n. record { value = n } };
}

impl Sum {
    /// The sum of no words.
    pub fn new() -> Sum
        ensures { result ≡ content_sum [] }
    {
        Sum { value: NO_WORDS }
    }

    /// Adds the next word.
    pub fn add(&mut self, word: u64)
        ensures { self.new ≡ sum_step self.old word }
    {
        self.value = FACTOR.wrapping_mul(self.value).wrapping_add(word);
    }

    /// The sum.
    pub fn value(&self) -> u64
        ensures { result ≡ self.now }
    {
        self.value
    }
}
