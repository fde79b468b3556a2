//! Lines of a script and words of the file, and what they are read as; and words that are summed.

use super::calls::{Call, Layer, not_a_call, shown};
use crate::scripts::put_bytes;
use crate::troubles::Trouble;
use km_base::{Line, Name};
use km_script::{file_command, read_line};
use km_sum::Sum;
use std::alloc::Global;

/// What reads lines and sums words. It keeps nothing.
#[derive(Drop)]
pub struct Lines;

/// The name that stands for itself in what a line is read as.
const NAME: &str = "t_0";

/// What `Debug` writes, with the name in its letters.
fn with_name(alloc: Global, text: &str) -> Result<String, Trouble> {
    let Some(name) = Name::read(NAME.as_bytes()) else {
        return Err(Trouble::Malformed("no name"));
    };
    let bytes = format!(in alloc; "{name:?}")?;
    Ok(text.replace(alloc, bytes.as_str(), NAME)?)
}

/// The command that a line is, or the column at which it is none.
fn line(alloc: Global, text: &str, first: bool) -> Result<String, Trouble> {
    let mut bytes = Vec::new(alloc);
    put_bytes(text, &mut bytes)?;
    match read_line(bytes.as_slice(), first) {
        Ok(Line::Blank) => Ok(String::from_str(alloc, "blank")?),
        Ok(Line::Command(command)) => {
            let text = format!(in alloc; "{command:?}")?;
            with_name(alloc, text.as_str())
        }
        Err(refused) => {
            let column = refused.column;
            Ok(format!(in alloc; "column {column}")?)
        }
    }
}

/// The sum of some words.
fn sum(alloc: Global, call: Call<'_>) -> Result<String, Trouble> {
    let mut total = Sum::new();
    for place in 0..call.rest.split_whitespace().count() {
        total.add(call.number(place)?);
    }
    shown(alloc, total.value())
}

impl Layer for Lines {
    fn make(&mut self, alloc: Global, call: Call<'_>) -> Result<String, Trouble> {
        match call.name {
            "first" => line(alloc, call.rest, true),
            "later" => line(alloc, call.rest, false),
            "word" => shown(alloc, file_command(call.rest.as_bytes())),
            "sum" => sum(alloc, call),
            _ => Err(not_a_call()),
        }
    }
}
