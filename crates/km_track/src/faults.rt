//! Why a call is refused.

ghost use Rattle.std.specs.Prelude.{◌≡◌};
ghost use Rattle.km_track.specs.Areas.{refusal_of};

use km_record::{AreaFault, RecId};
use thiserror::Error;

/// The span has a byte in common with live blocks, of which this is the lowest.
#[derive(Clone, Copy, Debug, Error, PartialEq)]
#[error("the span meets a live block")]
pub struct Overlap(pub RecId);

/// No live block is there.
#[derive(Clone, Copy, Debug, Error, PartialEq)]
#[error("no object")]
pub struct NoObject;

/// Why an area is not added.
#[derive(Clone, Copy, Debug, Error, PartialEq)]
pub enum AreaRefusal {
    #[error("no object")]
    NoObject,
    #[error("area not inside the object")]
    NotInside,
    #[error("area overlaps")]
    AreaOverlap,
    #[error("too many areas")]
    TooManyAreas,
}

/// The refusal that a fault of an area is.
pub fn refusal(fault: AreaFault) -> AreaRefusal
    ensures { result ≡ refusal_of fault }
{
    match fault {
        AreaFault::NotInside => AreaRefusal::NotInside,
        AreaFault::AreaOverlap => AreaRefusal::AreaOverlap,
        AreaFault::TooManyAreas => AreaRefusal::TooManyAreas,
    }
}
