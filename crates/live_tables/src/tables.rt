//! Tables: after some words on what it has, a table has groups that begin with `## ` and a title, and a group has rows
//! that begin with `### ` and a name.

use crate::cases::try_row;
use crate::rows::Row;
use crate::troubles::Trouble;
use std::alloc::Global;
use std::io;
use std::sync::Wait;
use std::thread::Threads;

/// How many rows a group has, how many are as they say and how many are not, and the runs of the first.
#[derive(Drop)]
struct Tally {
    rows: u64,
    good: u64,
    told: u64,
    runs: u64,
}

impl Tally {
    /// Writes the line of a group, and says whether it is as expected.
    fn tell(&self, rt: &impl Print, title: &str, wrong: bool) -> io::Result<bool> {
        let rows = self.rows;
        if wrong {
            let told = self.told;
            println!(rt; "{title}: {told} of {rows} wrong rows told")?;
            Ok(told == rows)
        } else {
            let (good, runs) = (self.good, self.runs);
            println!(rt; "{title}: {good} of {rows} rows as expected, in {runs} runs")?;
            Ok(good == rows)
        }
    }
}

/// Tries the row of a text, and gives the number of its runs.
fn try_text<R: Alloc<A = Global> + Threads + Wait + Sync>(
    rt: &R,
    text: &str,
) -> Result<u64, Trouble> {
    try_row(rt, rt.alloc(), &Row::read(text)?)
}

/// Tries the rows of a group, and says whether it is as expected.
fn run_group<R: Print + Alloc<A = Global> + Threads + Wait + Sync>(
    rt: &R,
    group: &str,
    wrong: bool,
) -> Result<bool, Trouble> {
    let mut texts = group.split("\n### ");
    let title = texts.next().unwrap_or("").trim();
    let (mut rows, mut good, mut told, mut runs) = (0u64, 0u64, 0u64, 0u64);
    for text in texts {
        rows = rows.saturating_add(1);
        match try_text(rt, text) {
            Ok(number) => {
                good = good.saturating_add(1);
                runs = runs.saturating_add(number);
            }
            Err(Trouble::Memory(error)) => return Err(Trouble::Memory(error)),
            Err(trouble) => {
                told = told.saturating_add(u64::from(matches!(trouble, Trouble::Differs(_))));
                let name = text.split('\n').next().unwrap_or("");
                println!(rt; "DIFFERS: {name}: {trouble}")?;
            }
        }
    }
    let tally = Tally {
        rows,
        good,
        told,
        runs,
    };
    Ok(tally.tell(rt, title, wrong)?)
}

/// Tries the rows of a table, and says whether it is as expected.
pub fn run_table<R: Print + Alloc<A = Global> + Threads + Wait + Sync>(
    rt: &R,
    text: &str,
    wrong: bool,
) -> Result<bool, Trouble> {
    let mut all_good = true;
    for group in text.split("\n## ").skip(1) {
        all_good &= run_group(rt, group, wrong)?;
    }
    Ok(all_good)
}
