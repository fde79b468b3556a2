//! Calls as a table writes them: a name, its words, and after ` = ` what the call gives.

use crate::troubles::Trouble;
use km_base::Addr;
use std::alloc::{AllocError, Global};
use std::fmt::Debug;

/// A call that is to be made.
#[derive(Clone, Copy)]
pub struct Call<'a> {
    pub name: &'a str,
    /// All behind the name.
    pub rest: &'a str,
}

/// What is called.
pub trait Layer: Drop {
    /// Makes a call, and writes what it gives.
    fn make(&mut self, alloc: Global, call: Call<'_>) -> Result<String, Trouble>;
}

/// The number that a word writes in decimal digits, or in hexadecimal ones after `0x`.
fn number_of(word: &str) -> Result<u64, Trouble> {
    let number = match word.strip_prefix("0x") {
        Some(digits) => u64::from_str_radix(digits, 16),
        None => word.parse::<u64>(),
    };
    match number {
        Ok(number) => Ok(number),
        Err(_) => Err(Trouble::Malformed("a call without its number")),
    }
}

impl<'a> Call<'a> {
    fn read(text: &'a str) -> Call<'a> {
        let (name, rest) = text.split_once(' ').unwrap_or((text, ""));
        Call { name, rest }
    }

    /// The word of this number from 0.
    pub fn word(&self, number: usize) -> Result<&'a str, Trouble> {
        match self.rest.split_whitespace().nth(number) {
            Some(word) => Ok(word),
            None => Err(Trouble::Malformed("a call without its word")),
        }
    }

    /// The same word as a number.
    pub fn number(&self, number: usize) -> Result<u64, Trouble> {
        number_of(self.word(number)?)
    }

    /// The same word as a number of 32 bits.
    pub fn small(&self, number: usize) -> Result<u32, Trouble> {
        match u32::try_from(self.number(number)?) {
            Ok(small) => Ok(small),
            Err(_) => Err(Trouble::Malformed("a number that is too large")),
        }
    }
}

/// A call that the layer doesn't have, or that it requires more for.
pub fn not_a_call() -> Trouble {
    Trouble::Malformed("a call of no such name, or one that may not be made")
}

/// What a call gives that gives nothing.
pub fn done(alloc: Global) -> Result<String, Trouble> {
    Ok(String::from_str(alloc, "done")?)
}

/// What a call gives, as `Debug` writes it.
pub fn shown<T: Debug + Drop>(alloc: Global, value: T) -> Result<String, Trouble> {
    Ok(format!(in alloc; "{value:?}")?)
}

/// An address, or why there is none.
pub fn shown_address<E: Debug + Drop>(
    alloc: Global,
    got: Result<Addr, E>,
) -> Result<String, Trouble> {
    match got {
        Ok(Addr(a)) => Ok(format!(in alloc; "{a:#018x}")?),
        Err(error) => shown(alloc, error),
    }
}

/// Makes a call, and gives a trouble where it gives something else.
fn try_call<L: Layer>(alloc: Global, layer: &mut L, text: &str) -> Result<(), Trouble> {
    let Some((call, wanted)) = text.split_once(" = ") else {
        return Err(Trouble::Malformed("a call without what it gives"));
    };
    let got = layer.make(alloc, Call::read(call))?;
    if got.as_str() == wanted {
        return Ok(());
    }
    Err(Trouble::Differs(format!(in alloc; "`{call}` gave `{got}` (expected `{wanted}`)")?))
}

/// Makes the calls of a row in turn, and gives their number.
pub fn try_calls<L: Layer>(alloc: Global, mut layer: L, calls: &str) -> Result<u64, Trouble> {
    let mut made = 0u64;
    for call in calls.split('|') {
        try_call(alloc, &mut layer, call.trim())?;
        made = made.saturating_add(1);
    }
    Ok(made)
}
