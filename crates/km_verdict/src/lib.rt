//! The verdict of a completed scan, and the listing that goes by it.
#![tactic(auto)]

pub mod listing;
pub mod verdict;

pub use listing::{clear, dump, first_listed, next_listed};
pub use verdict::flag;
