//! Blocks of a kernel's kmalloc: slots of slab pages up to 4096 bytes, whole pages above.
#![tactic(auto)]

mod blocks;
mod classes;
pub mod errors;
mod large;
pub mod laws;
pub mod slab;
mod small;
mod table;

pub use classes::{class_for, words_for};
pub use errors::SlabFault;
pub use slab::Slab;
