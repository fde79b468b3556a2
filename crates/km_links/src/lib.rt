//! Doubly linked lists of slots, by index over one fixed table.
//!
//! A slot takes 24 bytes, 8 for each of three lists. Memory is reserved once and first written
//! where a slot is first used.
#![tactic(auto)]

mod chain;
pub mod links;

pub use links::{Links, Which};
