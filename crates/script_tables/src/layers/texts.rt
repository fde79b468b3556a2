//! Texts that no script writes with these numbers.

use super::calls::{Call, Layer, not_a_call};
use crate::scripts::put_bytes;
use crate::troubles::Trouble;
use km_text::{
    Text, bench_number, bench_result, entry_age, entry_head, entry_hex, hex_row, new_leaks, stopped,
};
use std::alloc::Global;

/// What writes texts. It keeps nothing.
#[derive(Drop)]
pub struct Texts;

/// A row of bytes.
fn put_row(alloc: Global, bytes: &str, text: &mut Text) -> Result<(), Trouble> {
    let mut row = Vec::new(alloc);
    put_bytes(bytes, &mut row)?;
    if row.is_empty() || row.len() > 16 {
        return Err(not_a_call());
    }
    hex_row(row.as_slice(), text);
    Ok(())
}

/// Writes a text.
fn put_text(alloc: Global, call: Call<'_>, text: &mut Text) -> Result<(), Trouble> {
    match call.name {
        "new" => new_leaks(call.small(0)?, text),
        "stopped" => stopped(call.number(0)?, text),
        "head" => entry_head(call.number(0)?, call.number(1)?, text),
        "age" => entry_age(call.number(0)?, call.number(1)?, text),
        "bytes" => entry_hex(call.number(0)?, text),
        "hex" => put_row(alloc, call.rest, text)?,
        "number" => bench_number(call.number(0)?, call.small(1)?, text),
        "result" => bench_result(call.number(0)?, call.number(1)?, call.small(2)?, text),
        _ => return Err(not_a_call()),
    }
    Ok(())
}

impl Layer for Texts {
    fn make(&mut self, alloc: Global, call: Call<'_>) -> Result<String, Trouble> {
        let mut text = Text::new();
        put_text(alloc, call, &mut text)?;
        let Ok(text) = str::from_utf8(text.bytes()) else {
            return Err(Trouble::Malformed("a text that is none"));
        };
        Ok(format!(in alloc; "{text:?}")?)
    }
}
