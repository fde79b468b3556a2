//! Taking a part out of a block.

ghost use Rattle.std.specs.Prelude.{◌≡◌, ◌%◌, ◌+◌, ◌-◌, ◌^◌, ◌<◌, Ok, Some, None, nat_lt, ◌&&◌, option_map, if◌then◌else◌, true};
ghost use Rattle.km_model.specs.Blocks.{contains};
ghost use Rattle.km_track.specs.Tracker.{Live, live_where};
ghost use Rattle.km_free_part.specs.Parts.{front_of, rear_of, part_of, split_at};

use crate::rests;
use km_base::{Addr, Span};
use km_map::ObjectMap;
use km_record::RecId;
use km_track::Track;
use thiserror::Error;

/// Why a part can't be taken out.
#[derive(Clone, Copy, Debug, Error, PartialEq)]
pub enum PartFault {
    #[error("no object")]
    NoObject,
    #[error("area not inside the object")]
    NotInside,
}

/// The blocks that are registered for what is left in front of a part and behind it.
#[derive(Clone, Copy, Debug, PartialEq)]
pub struct Pieces {
    pub front: Option<RecId>,
    pub rear: Option<RecId>,
}

/// The block that a part is of. It is refused where no block has its first byte, and else where it
/// goes past the end of that block.
pub fn check_part<M: ObjectMap>(track: &Track<M>, part: Span) -> Result<RecId, PartFault>
    requires sized { 0 < part.size }
    requires end { part.start.0 + part.size < 2 ^ 64 }
    ensures { result ≡ part_of part track.now }
{
    let Some(id) = track.look(part.start) else {
        return Err(PartFault::NoObject);
    };
    let Some(block) = track.record(id) else {
        return Err(PartFault::NoObject);
    };
    if part.size > block.span.size - (part.start.0 - block.span.start.0) {
        return Err(PartFault::NotInside);
    }
    Ok(id)
}

/// Takes a part, given in whole words, out of its block: the block is unregistered, and where
/// `keep` is true what is left of it is registered, first in front of the part and then behind it.
///
/// A rest has the minimum and the birth of the block and is scanned where the block was, but has no
/// areas, no sum and no excess.
pub fn split<M: ObjectMap>(track: &mut Track<M>, id: RecId, part: Span, keep: bool) -> Pieces
    requires part { part_of part track.old ≡ Ok id }
    requires start { part.start.0 % 8 ≡ 0 }
    requires size { part.size % 8 ≡ 0 }
    requires sized { 0 < part.size }
    requires end { part.start.0 + part.size < 2 ^ 64 }
    requires spare { (l : Live) → live_where (contains part.start.0) track.old ≡ Some l → keep ≡ true → 0 < (front_of part l.tracked.block).size → 0 < (rear_of part l.tracked.block).size → 0 < track.old.spare }
    requires ids { track.old.registered + 2 < 2 ^ 64 }
    ensures front { (l : Live) → live_where (contains part.start.0) track.old ≡ Some l → option_map (λ i. i.generation) result.front ≡ (if keep && nat_lt 0 (front_of part l.tracked.block).size then Some track.old.registered else None) }
    ensures rear { (l : Live) → live_where (contains part.start.0) track.old ≡ Some l → option_map (λ i. i.generation) result.rear ≡ (if keep && nat_lt 0 (rear_of part l.tracked.block).size then Some (track.new.registered - 1) else None) }
    ensures after { (l : Live) → live_where (contains part.start.0) track.old ≡ Some l → track.new ≡ split_at part result l.tracked.block track.old }
{
    let Some(block) = track.record(id) else {
        return Pieces {
            front: None,
            rear: None,
        };
    };
    let block = *block;
    let _ = track.unregister(block.span.start);
    if !keep {
        return Pieces {
            front: None,
            rear: None,
        };
    }
    let start = block.span.start;
    let front = rests::register_rest(
        track,
        Span {
            start,
            size: part.start.0 - start.0,
        },
        &block,
    );
    let behind = part.start.0 + part.size;
    let rear = Span {
        start: Addr(behind),
        size: start.0 + block.span.size - behind,
    };
    Pieces {
        front,
        rear: rests::register_rest(track, rear, &block),
    }
}
