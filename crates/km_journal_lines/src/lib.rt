//! Reads the lines of a journal file.
#![tactic(auto)]

mod acts;
mod answers;
mod file;
mod keywords;
mod line;
mod numbers;
mod words;

pub use line::read_journal_line;
