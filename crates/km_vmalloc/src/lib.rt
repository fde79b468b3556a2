//! Areas of a kernel's vmalloc: a head among the slab blocks, a run of pages, and a vmap slot.
#![tactic(auto)]

pub mod areas;
pub mod errors;
pub mod laws;
mod parts;
pub mod vmalloc;

pub use areas::VmArea;
pub use errors::VmFault;
pub use vmalloc::Vmalloc;
