//! Rounds of running threads: mutators and a scanner at once.
#![tactic(auto)]

mod crews;
mod rounds;

pub use km_live_workers::{Gate, Job, OpenGate};
pub use rounds::{RoundOut, round};
