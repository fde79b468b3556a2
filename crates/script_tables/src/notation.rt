//! What scripts and reports have in common in the tables: lines separated by `|`, addresses and repeated lines.

use crate::troubles::Trouble;
use std::alloc::{AllocError, Global};

/// A text with its addresses written out: `B+2040` is the address of that byte of the memory, in hexadecimal.
pub fn with_addresses(alloc: Global, text: &str) -> Result<String, AllocError> {
    let mut out = String::new(alloc);
    let mut pieces = text.split("B+");
    out.push_str(pieces.next().unwrap_or(""))?;
    for piece in pieces {
        let rest = piece.trim_start_matches(|c: char| c.is_ascii_hexdigit());
        let digits = piece.strip_suffix(rest).unwrap_or("");
        write!(out, "0xffff8880{digits:0>8}{rest}")?;
    }
    Ok(out)
}

/// The number that a word writes in decimal digits.
pub fn number_of(word: &str) -> Result<usize, Trouble> {
    match word.trim().parse::<usize>() {
        Ok(number) => Ok(number),
        Err(_) => Err(Trouble::Malformed("a word that should be a number")),
    }
}
