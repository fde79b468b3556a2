//! Why a block is not allocated.

use thiserror::Error;

/// Why a block is not allocated.
#[derive(Clone, Copy, Debug, Error, PartialEq)]
pub enum SlabFault {
    #[error("bad size")]
    BadSize,
    #[error("no room")]
    NoRoom,
}
