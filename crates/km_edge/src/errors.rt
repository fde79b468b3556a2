//! The one error of reading and writing.

use thiserror::Error;

/// A read or a write failed. Its stream's count of faults has risen.
#[derive(Clone, Copy, Debug, Error, PartialEq)]
#[error("read or write failed")]
pub struct Failed;
