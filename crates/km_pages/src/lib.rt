//! Runs of pages: who holds which, and where the next one is placed.
#![tactic(auto)]

pub mod errors;
pub mod laws;
pub mod pages;
pub mod runs;

pub use errors::{NoRoom, NotAllocated};
pub use pages::Pages;
pub use runs::{Run, Use};
