//! The bytes of a script that a table writes.
//!
//! Its lines are separated by `|`, and blanks around a line don't count. `40 * task t#` is forty lines, with the line's
//! number from 0 in place of `#`. `\x7f` is that byte, and a `\` at the end of a line leaves out its line feed.

use crate::notation::{number_of, with_addresses};
use crate::troubles::Trouble;
use std::alloc::Global;

/// Appends the byte that the first two digits write, and then the rest of the piece.
fn put_byte(piece: &str, script: &mut Vec<u8>) -> Result<(), Trouble> {
    let (Some(digits), Some(rest)) = (piece.get(..2), piece.get(2..)) else {
        return Err(Trouble::Malformed("a byte without two digits"));
    };
    let Ok(byte) = u8::from_str_radix(digits, 16) else {
        return Err(Trouble::Malformed("a byte without two digits"));
    };
    script.push(byte)?;
    script.extend_from_slice(rest.as_bytes())?;
    Ok(())
}

/// Appends a text with the bytes that it writes as digits.
pub fn put_bytes(text: &str, script: &mut Vec<u8>) -> Result<(), Trouble> {
    let mut pieces = text.split("\\x");
    script.extend_from_slice(pieces.next().unwrap_or("").as_bytes())?;
    for piece in pieces {
        put_byte(piece, script)?;
    }
    Ok(())
}

/// Appends a line, with its line feed unless a `\` ends it.
fn put_line(line: &str, script: &mut Vec<u8>) -> Result<(), Trouble> {
    let (line, end) = match line.strip_suffix("\\") {
        Some(line) => (line, ""),
        None => (line, "\n"),
    };
    put_bytes(line, script)?;
    script.extend_from_slice(end.as_bytes())?;
    Ok(())
}

/// Appends a line as often as is asked.
fn put_copies(
    alloc: Global,
    times: usize,
    line: &str,
    script: &mut Vec<u8>,
) -> Result<(), Trouble> {
    let mut bytes = Vec::new(alloc);
    put_line(line, &mut bytes)?;
    for _ in 0..times {
        script.extend_from_slice(bytes.as_slice())?;
    }
    Ok(())
}

/// Appends a line as often as is asked, with its number in place of each `#`.
fn put_numbered(
    alloc: Global,
    times: usize,
    line: &str,
    script: &mut Vec<u8>,
) -> Result<(), Trouble> {
    for number in 0..times {
        let number = format!(in alloc; "{number}")?;
        put_line(line.replace(alloc, '#', number.as_str())?.as_str(), script)?;
    }
    Ok(())
}

/// The script of a text.
pub fn script_of(alloc: Global, text: &str) -> Result<Vec<u8>, Trouble> {
    let text = with_addresses(alloc, text)?;
    let mut script = Vec::new(alloc);
    for line in text.as_str().split('|') {
        match line.trim().split_once(" * ") {
            None => put_line(line.trim(), &mut script)?,
            Some((times, line)) if line.contains('#') => {
                put_numbered(alloc, number_of(times)?, line, &mut script)?;
            }
            Some((times, line)) => put_copies(alloc, number_of(times)?, line, &mut script)?,
        }
    }
    Ok(script)
}
