//! Parts of blocks that are taken out of the tracker.
#![tactic(auto)]

pub mod parts;
mod rests;

pub use parts::{PartFault, Pieces, check_part, split};
