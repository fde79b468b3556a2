//! Live scripts: what their lines are, what each worker of a round does, and what a round leaves. The definitions stand
//! in `specs/`.
#![tactic(auto)]

pub mod jobs;
pub mod lines;

pub use jobs::{JobBase, JobLine, JobOperand};
pub use lines::{JobCommand, LiveLine};
