//! The scanner: which word a running scan loads next, and what a loaded value changes.
#![tactic(auto)]

mod grey;
mod hits;
pub mod laws;
pub mod places;
pub mod scanner;
mod stacks;
mod sums;
pub mod sweep;

pub use places::{At, Cursor, Pass};
pub use scanner::{Scanner, Want};
