//! Root sections: named runs of pages.
#![tactic(auto)]

pub mod errors;
pub mod laws;
pub mod sections;

pub use errors::{NoSection, SectionFault};
pub use sections::Sections;
