//! What was loaded for a chunk, as words that are loaded again.

ghost use Rattle.std.specs.Prelude.{◌≡◌, ◌+◌, ◌-◌, ◌==◌, ◌<◌, ◌≤◌, ◌++◌, ◌∷◌, [], true, length, position, slice_index_or};
ghost use Rattle.km_chunks.specs.declared.load.Load.{Load as Loaded};

use crate::loader::MOST;
use arrayvec::ArrayVec;
use km_base::Addr;
use km_chunks::Load;
use km_words::Words;
use std::marker::Model;

/// The loads of a chunk. A load of a word gives the first value that was loaded there, or 0 where none was, and a store
/// changes nothing.
#[derive(Drop)]
pub struct Fetched {
    loads: ArrayVec<Load, MOST>,
    words: u64,
    ascending: bool,
    next: usize,
}

impl Model for Fetched {
    ghost use Rattle.std.specs.Prelude.{◌≡◌, true};
    ghost use Rattle.km_par.specs.Loaders.{Ascending, Chunk};

    ghost Value = { Chunk };

    ghost view = { λ f. record { size = f.words; loads = f.loads.items } };

    ghost invariant = { λ f. f.ascending ≡ true → Ascending f.loads.items };
}

/// Where the first load of a word stands.
fn place_of(loads: &[Load], word: Addr) -> Option<usize>
    ensures { result ≡ position (λ l. l.word.0 == word.0) loads.now }
{
    loads.iter().position(|l| l.word.0 == word.0)
}

/// Whether a word comes after that of the last load.
fn comes_last(loads: &[Load], word: Addr) -> bool
    ensures { result ≡ true → 0 < length loads.now → (d : Loaded) → (slice_index_or loads.now (length loads.now - 1) d).word.0 < word.0 }
{
    match loads.last() {
        Some(last) => last.word.0 < word.0,
        None => true,
    }
}

impl Fetched {
    /// No loads, of a memory without words.
    pub fn new() -> Fetched
        ensures { result ≡ record { size = 0; loads = [] } }
    {
        Fetched {
            loads: ArrayVec::new(),
            words: 0,
            ascending: true,
            next: 0,
        }
    }

    /// The loads, in order.
    pub fn loads(&self) -> &[Load]
        ensures { result.now ≡ self.now.loads }
    {
        self.loads.as_slice()
    }

    /// Begins a chunk of a memory of so many words.
    pub(crate) fn begin(&mut self, words: u64)
        ensures { self.new ≡ record { size = words; loads = [] } }
    {
        self.loads.clear();
        self.words = words;
        self.ascending = true;
        self.next = 0;
    }

    /// Adds a load.
    fn add(&mut self, load: Load)
        requires { length self.old.loads < 256 }
        ensures { self.new ≡ record { size = self.old.size; loads = self.old.loads ++ load ∷ [] } }
    {
        self.ascending = self.ascending && comes_last(self.loads.as_slice(), load.word);
        self.loads.push(load);
    }

    /// Adds loads.
    pub(crate) fn add_all(&mut self, loads: &[Load])
        requires { length self.old.loads + length loads.now ≤ 256 }
        ensures { self.new ≡ record { size = self.old.size; loads = self.old.loads ++ loads.now } }
    {
        for i in 0..loads.len() {
            self.add(loads[i]);
        }
    }
}

impl Words for Fetched {
    ghost use Rattle.km_par.specs.Loaders.{told_of};

    ghost told = { told_of };

    fn words(&self) -> u64 {
        self.words
    }

    // Words are mostly loaded in the order of the chunk, so the next one is looked at first.
    fn load(&mut self, a: Addr) -> u64 {
        let loads = self.loads.as_slice();
        if self.ascending && self.next < loads.len() && loads[self.next].word.0 == a.0 {
            let value = loads[self.next].value;
            self.next += 1;
            return value;
        }
        match place_of(loads, a) {
            Some(i) => {
                let value = loads[i].value;
                self.next = i + 1;
                value
            }
            None => 0,
        }
    }

    fn store(&mut self, _: Addr, _: u64) {}
}
