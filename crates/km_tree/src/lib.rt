//! An index of spans by address that is a balanced tree in one table.
#![tactic(auto)]

mod change;
mod node;
mod search;
mod shape;
pub mod tree;

pub use tree::TreeMap;
