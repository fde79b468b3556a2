//! One of the loaders of a chunk.

ghost use Rattle.std.specs.Prelude.{◌≡◌, ◌≤◌, true, [], length, All};
ghost use Rattle.km_model.specs.Memory.{in_memory};
ghost use Rattle.km_par.specs.Loaders.{HasLoaded};

use arrayvec::ArrayVec;
use km_base::Addr;
use km_chunks::Load;
use km_live_words::{Hand, LiveWords};
use std::marker::Model;

/// As many loads as a chunk may have.
pub(crate) const MOST: usize = 256;

/// A hand that loads shares of chunks, with the last share that it loaded.
#[derive(Drop)]
pub struct Loader {
    hand: Hand,
    share: ArrayVec<Load, MOST>,
}

impl Model for Loader {
    ghost use Rattle.km_par.specs.Loaders.{LoaderOf};

    ghost Value = { LoaderOf };

    ghost view = { λ l. record { hand = l.hand; share = l.share.items } };
}

impl Loader {
    /// A loader with this hand, and with no share yet.
    pub fn new(hand: Hand) -> Loader
        ensures hand { result.hand ≡ hand }
        ensures share { result.share ≡ [] }
    {
        Loader {
            hand,
            share: ArrayVec::new(),
        }
    }

    /// The hand.
    pub fn into_hand(self) -> Hand
        ensures { result ≡ self.hand }
    {
        let Loader { hand, .. } = self;
        hand
    }

    /// What was loaded last, in order.
    pub fn share(&self) -> &[Load]
        ensures { result.now ≡ self.now.share }
    {
        self.share.as_slice()
    }

    /// Loads these words, in order.
    pub(crate) fn load_all(&mut self, words: &LiveWords, at: &[Addr])
        requires hand { self.old.hand.table ≡ words.now.table }
        requires few { length at.now ≤ 256 }
        requires words { All (λ a. in_memory (length words.now.words) a.0 ≡ true) at.now }
        ensures { HasLoaded at.now self.old self.new }
    {
        self.share.clear();
        for i in 0..at.len() {
            let word = at[i];
            let value = words.load(&mut self.hand, word);
            self.share.push(Load { word, value });
        }
    }
}
