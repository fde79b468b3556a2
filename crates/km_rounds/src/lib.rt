//! What several hands do to the same words, and several workers to the same core: orders of steps and
//! journals of acts. The definitions stand in `specs/`.
#![tactic(auto)]

mod entry;

pub use entry::Entry;
