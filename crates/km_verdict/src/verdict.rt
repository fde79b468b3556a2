//! The verdict of a completed scan.

ghost use Rattle.std.specs.Prelude.{◌≡◌, ◌≤◌, ◌<◌, ◌+◌, ◌&&◌, true, Some, nat_le};
ghost use Rattle.km_state.specs.StateAnswers.{is_unreferenced_now, new_in};
ghost use Rattle.km_track.specs.Tracker.{Live, live_with, tracked_in};
ghost use Rattle.km_verdict.specs.Listing.{flagged};

use km_map::ObjectMap;
use km_record::{Colour, RecId};
use km_track::Track;

/// How long a block lives before it can be reported, in milliseconds.
const MINIMUM_AGE: u64 = 1000;

/// Whether a live block is white, and old enough where a scan began at this moment.
fn is_unreferenced<M: ObjectMap>(track: &Track<M>, id: RecId, began: u64) -> bool
    ensures { (l : Live) → live_with id track.now ≡ Some l → result ≡ is_unreferenced_now began l.tracked }
{
    match track.record(id) {
        Some(record) => {
            matches!(record.colour(), Colour::White)
                && record.born <= began
                && MINIMUM_AGE <= began - record.born
        }
        None => false,
    }
}

/// Makes the verdict of a scan that began at this moment and is completed now: each block that is
/// unreferenced is flagged. The answer is the number of those that weren't flagged before.
pub fn flag<M: ObjectMap>(track: &mut Track<M>, began: u64) -> u32
    ensures count { result ≡ new_in began (tracked_in track.old) }
    ensures verdict { track.new ≡ flagged began track.old }
{
    let mut new = 0;
    let mut next = track.first();
    while let Some(id) = next {
        next = track.next(id);
        let white = is_unreferenced(track, id, began);
        if track.set_verdict(id, white) {
            new += 1;
        }
    }
    new
}
