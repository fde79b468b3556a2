//! The small types of a record.

use thiserror::Error;

/// How many references a block needs. A black one is never reported and not scanned.
#[derive(Clone, Copy, Debug, PartialEq)]
pub enum Minimum {
    Black,
    AtLeast(u8),
}

/// What a scan knows of a block: white has too few references, grey has enough.
#[derive(Clone, Copy, Debug, PartialEq)]
pub enum Colour {
    White,
    Grey,
    Black,
}

/// What can be noted of a block.
#[derive(Clone, Copy, Debug, PartialEq)]
pub enum Note {
    /// It needs no reference.
    NotLeak,
    /// It is never reported and not scanned.
    Ignore,
    /// Its content isn't scanned.
    NoScan,
    /// Its sum is forgotten, so that the next one counts as changed.
    TransientLeak,
}

/// Why an area is not added.
#[derive(Clone, Copy, Debug, Error, PartialEq)]
pub enum AreaFault {
    #[error("area not inside the object")]
    NotInside,
    #[error("area overlaps")]
    AreaOverlap,
    #[error("too many areas")]
    TooManyAreas,
}

/// One registration of a block: the slot of its record, and the number of the registration, from 0.
#[derive(Clone, Copy, Debug, PartialEq)]
pub struct RecId {
    pub slot: u32,
    pub generation: u64,
}
