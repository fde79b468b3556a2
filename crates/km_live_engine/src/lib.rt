//! Runs live scripts: lines one after another, and rounds of threads between them.
#![tactic(auto)]

mod program;
mod reading;
mod rounds;
mod script;

pub use km_base::Status;
pub use km_live::{Gate, OpenGate};
pub use program::run_live;
