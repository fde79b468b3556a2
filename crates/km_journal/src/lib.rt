//! Checks a journal file: replays its acts, and compares each line with the one that the lines before it give.
#![tactic(auto)]

mod check;
mod program;
mod replay;
mod said;
mod told;

pub use km_entries::CheckStatus;
pub use program::check_journal;
pub use told::Told;
