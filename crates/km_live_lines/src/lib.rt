//! Reads the lines of a live script.
#![tactic(auto)]

mod jobs;
mod line;
mod others;

pub use km_live_model::{JobCommand, LiveLine};
pub use line::read_live_line;
