//! Generated scripts.
#![tactic(auto)]

mod generator;
mod script;

pub use script::script_of;

#[cfg(test)]
mod tests;
