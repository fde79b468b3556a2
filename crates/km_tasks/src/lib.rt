//! Tasks: their registers, and the pages of their stacks.
#![tactic(auto)]

pub mod errors;
pub mod laws;
pub mod tasks;

pub use errors::{NoTask, TaskFault};
pub use tasks::Tasks;
