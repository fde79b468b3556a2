//! The book that threads hand on: a core with the journal of its acts, and the baton that it goes by.
#![tactic(auto)]

mod baton;
mod booked;
mod known;
mod rule;

pub use baton::{Away, Baton, Token};
pub use booked::{Booked, JournalFull};
