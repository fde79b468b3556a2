//! Turns bytes into lines, lines into events, and answers into texts.
#![tactic(auto)]

mod bench;
mod held;
mod listed;
mod program;
mod reading;
mod script;

pub use km_base::Status;
pub use km_machine::Machine;
pub use program::run;
pub use script::run_command;
