//! Loads of a chunk: what was loaded, which loads are known before their values, and which steps serve which loads. The
//! definitions stand in `specs/`.
#![tactic(auto)]

mod load;

pub use load::Load;
