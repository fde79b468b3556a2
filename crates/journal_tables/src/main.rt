//! Checks the journals of a table, and writes how many of its rows are as expected.
//!
//! A row begins with `### ` and its name. The next line has the status of the check, the number of the read and of the
//! write that fail (0 for none), and the text that is written; then the journal follows. A journal that ends in `$` has
//! no line feed at its end, and no `$`. Each is given in pieces of 1, 7 and 4096 bytes.
#![tactic(auto)]

mod rows;
mod troubles;

use rows::{Row, try_row};
use std::alloc::Global;
use std::process::ExitCode;
use std::{env, fs};
use troubles::Trouble;

/// Tries the rows of a table, and says whether all are as expected.
fn run_table<R: Print + Alloc<A = Global>>(rt: &R, text: &str) -> Result<bool, Trouble> {
    let (mut rows, mut good) = (0u64, 0u64);
    for text in text.split("\n### ").skip(1) {
        rows = rows.saturating_add(1);
        let row = Row::read(text)?;
        match try_row(rt.alloc(), &row) {
            Ok(()) => good = good.saturating_add(1),
            Err(Trouble::Memory(error)) => return Err(Trouble::Memory(error)),
            Err(trouble) => println!(rt; "DIFFERS: {}: {trouble}", row.name)?,
        }
    }
    println!(rt; "{good} of {rows} journals are checked as expected")?;
    Ok(good == rows)
}

fn main(rt: HostRuntime) -> Result<ExitCode, Trouble> {
    let mut all_good = true;
    for table in env::args(&rt)?.skip(1) {
        let text = fs::read_to_string(&rt, table.as_str())?;
        all_good &= run_table(&rt, text.as_str())?;
    }
    Ok(ExitCode::from(u8::from(!all_good)))
}
