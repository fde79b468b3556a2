//! An index of spans by address: its laws, and a sorted vector that meets them.
#![tactic(auto)]

pub mod entries;
pub mod object_map;
pub mod sorted;

pub use entries::Entry;
pub use object_map::ObjectMap;
pub use sorted::SortedMap;
