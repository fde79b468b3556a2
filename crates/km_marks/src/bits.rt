//! One bit of a word.

ghost use Rattle.std.specs.Prelude.{◌≡◌, ◌≢◌, ℕ, ◌+◌, ◌<◌, ◌≤◌, ◌^◌, IsTrue, ◌↔◌};
ghost use Rattle.std.specs.Int.{bit_at};

/// A word with a bit set.
pub fn with_bit(word: u64, k: u32) -> u64
    requires { k < 64 }
    ensures set { bit_at result k ≡ 1 }
    ensures others { (i : ℕ) → i ≢ k → bit_at result i ≡ bit_at word i }
    ensures more { bit_at word k ≡ 0 → result ≡ word + 2 ^ k }
{
    word | (1 << k)
}

/// A word with a bit cleared.
pub fn without_bit(word: u64, k: u32) -> u64
    requires { k < 64 }
    ensures clear { bit_at result k ≡ 0 }
    ensures others { (i : ℕ) → i < 64 → i ≢ k → bit_at result i ≡ bit_at word i }
    ensures fewer { bit_at word k ≡ 1 → result + 2 ^ k ≡ word }
{
    word & !(1 << k)
}

/// Whether a bit of a word is set.
pub fn has_bit(word: u64, k: u32) -> bool
    requires { k < 64 }
    ensures { IsTrue result ↔ (bit_at word k ≡ 1) }
{
    word & (1 << k) != 0
}

/// The place of the lowest bit that is set.
pub fn lowest_bit(word: u64) -> u32
    requires { 0 < word }
    ensures small { result < 64 }
    ensures set { bit_at word result ≡ 1 }
    ensures lowest { (i : ℕ) → i < result → bit_at word i ≡ 0 }
{
    word.trailing_zeros()
}
