//! The numbers of a journal's lines.

ghost use Rattle.std.specs.Prelude.{◌≡◌, ◌∷◌, ◌≤◌, ◌<◌, length, IfSome};
ghost use Rattle.km_model.specs.Grammar.{within};
ghost use Rattle.km_entries.specs.Words.{has_leading_zero, low_digit as low_digit_of, low_spelled, plain_address as address_of, plain_number as number_of};
ghost use Rattle.km_entries.specs.Reading.{maker_of, reg_at as register_at, reg_of as register_of};

use km_base::{Reg, read_number_behind};

/// The number of digits of an address.
const DIGITS: usize = 16;

/// The greatest number of a worker.
const LAST_WORKER: u64 = 9;

/// Whether a word begins with a zero and goes on, by its first byte and the bytes after it.
fn is_leading_zero(first: u8, rest: &[u8]) -> bool
    ensures { result ≡ has_leading_zero (first ∷ rest.now) }
{
    match rest {
        [_, ..] => first == b'0',
        [] => false,
    }
}

/// The number that a word is, by its first byte and the bytes after it.
#[tactic(auto, unfolding(km_entries::specs::Words::plain_number))]
fn number_from(first: u8, rest: &[u8]) -> Option<u64>
    ensures { result ≡ number_of (first ∷ rest.now) }
{
    if is_leading_zero(first, rest) {
        return None;
    }
    match read_number_behind(first, rest) {
        Ok(n) => Some(n),
        Err(_) => None,
    }
}

/// The number that a word is: decimal digits without leading zeros.
#[tactic(auto, unfolding(km_entries::specs::Words::plain_number))]
pub fn plain_number(word: &[u8]) -> Option<u64>
    ensures { result ≡ number_of word.now }
{
    match word {
        [first, rest @ ..] => number_from(*first, rest),
        [] => None,
    }
}

/// The value of a digit from `0` to `9` or from `a` to `f`.
fn low_digit(c: u8) -> Option<u8>
    ensures digit { result ≡ low_digit_of c }
    ensures small { IfSome result (λ d. d < 16) }
{
    if 48 <= c && c <= 57 {
        Some(c - 48)
    } else if 97 <= c && c <= 102 {
        Some(c - 87)
    } else {
        None
    }
}

/// The number that so many digits spell.
fn spelled(digits: &[u8]) -> Option<u64>
    requires { length digits.now ≤ 16 }
    ensures { result ≡ low_spelled 0 digits.now }
{
    let mut value: u64 = 0;
    for c in digits {
        let Some(d) = low_digit(*c) else {
            return None;
        };
        value = 16 * value + d as u64;
    }
    Some(value)
}

/// The address, or another word of 64 bits, that a word is: `0x` and sixteen digits.
#[tactic(auto, unfolding(km_entries::specs::Words::plain_address))]
pub fn plain_address(word: &[u8]) -> Option<u64>
    ensures { result ≡ address_of word.now }
{
    match word {
        [b'0', b'x', digits @ ..] if digits.len() == DIGITS => spelled(digits),
        _ => None,
    }
}

/// The register of a number.
fn reg_at(n: u64) -> Option<Reg>
    ensures { result ≡ register_at n }
{
    match n {
        0 => Some(Reg::R0),
        1 => Some(Reg::R1),
        2 => Some(Reg::R2),
        3 => Some(Reg::R3),
        _ => None,
    }
}

/// The register that a word is the number of.
pub fn reg_of(word: &[u8]) -> Option<Reg>
    ensures { result ≡ register_of word.now }
{
    let n = plain_number(word)?;
    reg_at(n)
}

/// The number of who made an event: 0 or a worker's.
pub fn maker(word: &[u8]) -> Option<u64>
    ensures { result ≡ maker_of word.now }
{
    let n = plain_number(word)?;
    if n <= LAST_WORKER { Some(n) } else { None }
}
