//! One event on the simulated kernel: an act, its answer, and what stands then.
#![tactic(auto)]

pub mod events;
mod kernel;
mod settings;

pub use events::Core;
