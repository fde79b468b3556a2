//! The lines of a journal file, what they say, and how a check of such a file ends. The definitions stand in `specs/`.
#![tactic(auto)]

pub mod laws;
pub mod lines;
pub mod sizes;
pub mod status;

pub use lines::{JournalLine, Said};
pub use status::CheckStatus;
