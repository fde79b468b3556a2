//! A memory of this process's own.

ghost use Rattle.std.specs.Prelude.{◌≡◌, ◌≤◌, IfOk, length, replicate, Some, None, []};

use crate::words::Words;
use km_base::sizes::BASE;
use km_base::{Addr, NoMemory};
use std::alloc::Global;
use std::marker::Model;

/// Words that nobody else loads or stores: they tell their values and keep no steps.
#[derive(Debug, Drop)]
pub struct Plain {
    words: Vec<u64>,
}

impl Model for Plain {
    ghost use Rattle.std.specs.Prelude.{ℕ, List, ◌≤◌, vec_len};

    ghost Value = { List ℕ };

    ghost view = { λ p. p.words.items };

    ghost invariant = { λ p. vec_len p.words ≤ 4194304 };
}

impl Plain {
    /// A memory of so many words, each 0. A word takes 8 bytes.
    pub fn new(alloc: Global, words: u64) -> Result<Plain, NoMemory>
        requires { words ≤ 4194304 }
        ensures { IfOk result (λ p. p ≡ replicate words 0) }
    {
        match vec![in alloc; 0; words as usize] {
            Ok(words) => Ok(Plain { words }),
            Err(_) => Err(NoMemory),
        }
    }

    /// The words, in order of their addresses.
    pub fn values(&self) -> &[u64]
        ensures values { result.now ≡ self.now }
        ensures few { length result.now ≤ 4194304 }
    {
        self.words.as_slice()
    }
}

impl Words for Plain {
    ghost use Rattle.km_words.specs.Told.{of_memory};

    ghost told = { of_memory };

    fn words(&self) -> u64 {
        self.words.len() as u64
    }

    fn load(&mut self, a: Addr) -> u64 {
        self.words[((a.0 - BASE) / 8) as usize]
    }

    fn store(&mut self, a: Addr, v: u64) {
        self.words[((a.0 - BASE) / 8) as usize] = v;
    }
}
