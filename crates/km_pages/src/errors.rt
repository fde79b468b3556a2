//! Why a run is neither taken nor given back.

use thiserror::Error;

/// No run of so many free pages is there.
#[derive(Clone, Copy, Debug, Error, PartialEq)]
#[error("no room")]
pub struct NoRoom;

/// Nothing of that use begins at the address.
#[derive(Clone, Copy, Debug, Error, PartialEq)]
#[error("not allocated")]
pub struct NotAllocated;
