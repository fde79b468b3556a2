//! Why an area is not allocated.

use thiserror::Error;

/// Why an area is not allocated.
#[derive(Clone, Copy, Debug, Error, PartialEq)]
pub enum VmFault {
    #[error("bad size")]
    BadSize,
    #[error("no vmap slot")]
    NoSlot,
    #[error("no room")]
    NoRoom,
}
