//! Rounds of a live script on a machine.
#![tactic(auto)]

mod registers;
mod rounds;
mod texts;

pub use km_live::{Gate, Job, OpenGate};
pub use rounds::run_round;
