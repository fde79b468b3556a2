//! The live blocks: one table of records, three lists over it, and one map from addresses.
//!
//! A block takes 168 bytes in the table and 24 in the lists, beside what the map takes: with a
//! balanced tree's 40, 232 bytes, or 973,078,528 for each word of the largest memory. Memory is
//! reserved once, and a slot is first written where it is first used.
#![tactic(auto)]

pub mod faults;
mod slots;
pub mod track;

pub use faults::{AreaRefusal, NoObject, Overlap};
pub use track::Track;
