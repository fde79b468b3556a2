//! Reads an input line by line under a limit: one loop for all that read lines.
#![tactic(auto)]

pub mod reader;

pub use reader::{Next, Reader};
