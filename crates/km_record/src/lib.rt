//! What is kept of a registered block.
#![tactic(auto)]

pub mod kinds;
pub mod record;

pub use kinds::{AreaFault, Colour, Minimum, Note, RecId};
pub use record::Record;
