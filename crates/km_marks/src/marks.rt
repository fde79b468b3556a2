//! A set of numbers below a bound, that tells the lowest one of a range of words.

ghost use Rattle.std.specs.Prelude.{◌≡◌, ◌+◌, ◌*◌, ◌<◌, ◌≤◌, ◌==◌, ◌||◌, ◌&&◌, ◌^◌, not, ℕ, List, length, true, false, None, IsTrue, IfOk, IfSome};
ghost use Rattle.km_marks.specs.Sets.{has, with_mark};

use crate::bits::{has_bit, lowest_bit, with_bit, without_bit};
use km_base::NoMemory;
use std::alloc::Global;
use std::marker::Model;

/// A set of the numbers below 64 times its number of words.
#[derive(Drop)]
pub struct Marks {
    words: Vec<u64>,
}

impl Model for Marks {
    ghost use Rattle.std.specs.Prelude.{◌<◌, ◌^◌, List, ℕ, length};

    ghost Value = { List ℕ };

    ghost view = { λ s. s.words.items };

    ghost invariant = { λ s. length s.words.items < 2 ^ 40 };
}

impl Marks {
    /// The empty set, with room for so many words.
    pub fn new(alloc: Global, words: usize) -> Result<Marks, NoMemory>
        requires { words < 2 ^ 40 }
        ensures words { IfOk result (λ s. length s ≡ words) }
        ensures none { IfOk result (λ s. (i : ℕ) → has s i ≡ false) }
    {
        match vec![in alloc; 0; words] {
            Ok(words) => Ok(Marks { words }),
            Err(_) => Err(NoMemory),
        }
    }

    /// Whether a number is in the set.
    pub fn contains(&self, i: usize) -> bool
        requires { i < 64 * length self.now }
        ensures { result ≡ has self.now i }
    {
        has_bit(self.words[i / 64], (i % 64) as u32)
    }

    /// Puts a number into the set.
    pub fn insert(&mut self, i: usize)
        requires { i < 64 * length self.old }
        ensures words { length self.new ≡ length self.old }
        ensures inserted { (j : ℕ) → has self.new j ≡ (j == i || has self.old j) }
        ensures more { has self.old i ≡ false → self.new ≡ with_mark self.old i }
    {
        self.words[i / 64] = with_bit(self.words[i / 64], (i % 64) as u32);
    }

    /// Takes a number out of the set.
    pub fn remove(&mut self, i: usize)
        requires { i < 64 * length self.old }
        ensures words { length self.new ≡ length self.old }
        ensures removed { (j : ℕ) → has self.new j ≡ (not (j == i) && has self.old j) }
        ensures back { (words : List ℕ) → self.old ≡ with_mark words i → has self.old i ≡ true → self.new ≡ words }
    {
        self.words[i / 64] = without_bit(self.words[i / 64], (i % 64) as u32);
    }

    /// The lowest number of the set in the words from `first` on, before word `end`.
    pub fn lowest(&self, first: usize, end: usize) -> Option<usize>
        requires order { first ≤ end }
        requires within { end ≤ length self.now }
        ensures here { IfSome result (λ i. IsTrue (has self.now i)) }
        ensures from { IfSome result (λ i. 64 * first ≤ i) }
        ensures before { IfSome result (λ i. i < 64 * end) }
        ensures lowest { IfSome result (λ i. (j : ℕ) → 64 * first ≤ j → j < i → has self.now j ≡ false) }
        ensures none { result ≡ None → (j : ℕ) → 64 * first ≤ j → j < 64 * end → has self.now j ≡ false }
    {
        lowest_mark(&self.words, first, end)
    }
}

/// The lowest bit that is set in the words from `first` on, before word `end`.
fn lowest_mark(words: &[u64], first: usize, end: usize) -> Option<usize>
    requires order { first ≤ end }
    requires within { end ≤ length words.now }
    requires small { length words.now < 2 ^ 40 }
    ensures here { IfSome result (λ i. IsTrue (has words.now i)) }
    ensures from { IfSome result (λ i. 64 * first ≤ i) }
    ensures before { IfSome result (λ i. i < 64 * end) }
    ensures lowest { IfSome result (λ i. (j : ℕ) → 64 * first ≤ j → j < i → has words.now j ≡ false) }
    ensures none { result ≡ None → (j : ℕ) → 64 * first ≤ j → j < 64 * end → has words.now j ≡ false }
{
    for w in first..end {
        if words[w] > 0 {
            return Some(64 * w + lowest_bit(words[w]) as usize);
        }
    }
    None
}
