//! The blocks that the leak detector knows, with its scanner: whatever happens to the blocks, the scanner keeps
//! fitting them.
#![tactic(auto)]

pub mod objects;
mod step;

pub use objects::Objects;
