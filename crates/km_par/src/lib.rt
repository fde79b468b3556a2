//! Loaders that share the loads of a chunk: each loads a run of its words, all at once.
#![tactic(auto)]

mod fetched;
mod loader;
mod shares;

pub use fetched::Fetched;
pub use loader::Loader;
pub use shares::fetch;
