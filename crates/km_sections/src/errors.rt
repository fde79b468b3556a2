//! Why a section is neither added nor found.

use thiserror::Error;

/// Why a section is not added.
#[derive(Clone, Copy, Debug, Error, PartialEq)]
pub enum SectionFault {
    #[error("bad size")]
    BadSize,
    #[error("section exists")]
    SectionExists,
    #[error("too many sections")]
    TooManySections,
    #[error("no room")]
    NoRoom,
}

/// No section has the name.
#[derive(Clone, Copy, Debug, Error, PartialEq)]
#[error("no such section")]
pub struct NoSection;
