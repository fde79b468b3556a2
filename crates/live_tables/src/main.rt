//! Runs the live scripts of the tables that its words name, and writes for each group of rows how many are as expected.
//!
//! A row that isn't writes a line of its own, with its name and what differs, and the program then ends with 1. After the
//! word `wrong` it is the other way round: no row is to be as it says, and the program ends with 1 where one is.
#![tactic(auto)]

mod cases;
mod rows;
mod runs;
mod scripts;
mod tables;
mod troubles;

use std::process::ExitCode;
use std::{env, fs};
use tables::run_table;
use troubles::Trouble;

fn main(rt: HostRuntime) -> Result<ExitCode, Trouble> {
    let mut wrong = false;
    let mut all_good = true;
    for word in env::args(&rt)?.skip(1) {
        match word.as_str() {
            "wrong" => wrong = true,
            table => {
                let text = fs::read_to_string(&rt, table)?;
                all_good &= run_table(&rt, text.as_str(), wrong)?;
            }
        }
    }
    Ok(ExitCode::from(u8::from(!all_good)))
}
