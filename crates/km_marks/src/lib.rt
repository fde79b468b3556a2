//! Sets of small numbers, one bit each.
#![tactic(auto)]

pub mod bits;
pub mod marks;

pub use marks::Marks;
