//! Why a row isn't as expected, or couldn't be tried.

use std::alloc::AllocError;
use std::io;
use thiserror::Error;

#[derive(Debug, Drop, Error)]
pub enum Trouble {
    /// A run gave something else, as the text says.
    #[error("{0}")]
    Differs(String),
    /// A row has no form that is known.
    #[error("malformed: {0}")]
    Malformed(&'static str),
    #[error(transparent)]
    Memory(#[from(alloc)] AllocError),
    #[error(transparent)]
    Stream(#[from] io::Error),
}
