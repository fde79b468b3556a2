//! Numbers in a range.

ghost use Rattle.std.specs.Prelude.{◌≡◌, ◌∷◌};
ghost use Rattle.km_model.specs.Grammar.{memory_size as memory_size_of, number as number_of, number_within as number_of_range};

use km_base::sizes::{MOST_WORDS, PAGE_WORDS};
use km_base::{read_number, read_number_behind};

/// A number of at most 64 bits.
pub fn number(word: &[u8]) -> Option<u64>
    ensures { result ≡ number_of word.now }
{
    read_number(word).ok()
}

/// The same, by its first byte and the bytes behind it.
pub fn number_behind(first: u8, rest: &[u8]) -> Option<u64>
    ensures { result ≡ number_of (first ∷ rest.now) }
{
    read_number_behind(first, rest).ok()
}

/// A number from `low` to `high`, by its first byte and the bytes behind it.
pub fn number_within(low: u64, high: u64, first: u8, rest: &[u8]) -> Option<u64>
    ensures { result ≡ number_of_range low high (first ∷ rest.now) }
{
    number_behind(first, rest).filter(|n| low <= *n && *n <= high)
}

/// A number of words that a memory can have: whole pages.
pub fn memory_size(first: u8, rest: &[u8]) -> Option<u64>
    ensures { result ≡ memory_size_of (first ∷ rest.now) }
{
    number_within(PAGE_WORDS, MOST_WORDS, first, rest).filter(|n| *n % PAGE_WORDS == 0)
}
