//! Tables: after some words on what it has, a table has groups that begin with `## ` and a title, and a group has rows
//! that begin with `### ` and a name.

use crate::cases::try_row;
use crate::rows::Row;
use crate::troubles::Trouble;
use std::alloc::Global;
use std::io;

/// What is expected of the rows of a table.
#[derive(Clone, Copy, PartialEq)]
pub enum Expected {
    /// Each is as it says.
    Good,
    /// The same, but a run may also end with no memory, with nothing written.
    MayRefuse,
    /// None is as it says, so that it shows whether that is told.
    Wrong,
}

/// How many rows a group has, how many are as they say and how many are not, and the runs and calls of the first.
#[derive(Drop)]
struct Tally {
    rows: u64,
    good: u64,
    told: u64,
    runs: u64,
}

impl Tally {
    /// Writes the line of a group, and says whether it is as expected.
    fn tell(&self, rt: &impl Print, title: &str, expected: Expected) -> io::Result<bool> {
        let rows = self.rows;
        if expected == Expected::Wrong {
            let told = self.told;
            println!(rt; "{title}: {told} of {rows} wrong rows told")?;
            Ok(told == rows)
        } else {
            let (good, runs) = (self.good, self.runs);
            println!(rt; "{title}: {good} of {rows} rows as expected, in {runs} runs")?;
            Ok(good == rows)
        }
    }
}

/// Tries a row, and gives the number of its runs.
fn try_text(alloc: Global, text: &str, expected: Expected) -> Result<u64, Trouble> {
    try_row(alloc, &Row::read(text)?, expected == Expected::MayRefuse)
}

/// The name of a row.
fn name_of(text: &str) -> &str {
    text.split('\n').next().unwrap_or("").trim()
}

/// Tries the rows of a group, and says whether it is as expected.
fn run_group<R: Print + Alloc<A = Global>>(
    rt: &R,
    group: &str,
    expected: Expected,
) -> Result<bool, Trouble> {
    let mut texts = group.split("\n### ");
    let title = texts.next().unwrap_or("").trim();
    let (mut rows, mut good, mut told, mut runs) = (0u64, 0u64, 0u64, 0u64);
    for text in texts {
        rows = rows.saturating_add(1);
        match try_text(rt.alloc(), text, expected) {
            Ok(number) => {
                good = good.saturating_add(1);
                runs = runs.saturating_add(number);
            }
            Err(Trouble::Memory(error)) => return Err(Trouble::Memory(error)),
            Err(trouble) => {
                told = told.saturating_add(u64::from(matches!(trouble, Trouble::Differs(_))));
                println!(rt; "DIFFERS: {}: {trouble}", name_of(text))?;
            }
        }
    }
    let tally = Tally {
        rows,
        good,
        told,
        runs,
    };
    Ok(tally.tell(rt, title, expected)?)
}

/// Tries the rows of a table, and says whether it is as expected.
pub fn run_table<R: Print + Alloc<A = Global>>(
    rt: &R,
    text: &str,
    expected: Expected,
) -> Result<bool, Trouble> {
    let mut all_good = true;
    for group in text.split("\n## ").skip(1) {
        all_good &= run_group(rt, group, expected)?;
    }
    Ok(all_good)
}
