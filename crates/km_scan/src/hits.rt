//! What a loaded value refers to.

ghost use Rattle.std.specs.Prelude.{◌≡◌, ◌≢◌, true, None, Some, IfSome, option_map};
ghost use Rattle.km_state.specs.State.{is_white_now};
ghost use Rattle.km_state.specs.StateNext.{hit_in};
ghost use Rattle.km_track.specs.Tracker.{AreRising, Live, live_with, tracked_in};
ghost use Rattle.km_model.specs.Past.{Place};
ghost use Rattle.km_scan.specs.Stand.{hit_at, hit_told, holder_of};

use crate::sums::is_white;
use km_base::{Addr, untag};
use km_map::ObjectMap;
use km_record::{Colour, RecId};
use km_track::Track;

/// The white block, other than the holder, to which the references to a grey block are passed on.
#[inline(never)]
fn passed_on<M: ObjectMap>(
    track: &Track<M>,
    holder: Option<u64>,
    excess: Option<Addr>,
) -> Option<RecId>
    ensures hit { (place : Place) → holder ≡ holder_of place → option_map (λ i. i.generation) result ≡ hit_at (tracked_in track.now) place (option_map (λ a. a.0) excess) }
    ensures live { IfSome result (λ i. (l : Live) × (live_with i track.now ≡ Some l) × (is_white_now l.tracked ≡ true)) }
{
    let to = track.starting_at(excess?)?;
    if holder == Some(to.generation) || !is_white(track, to) {
        return None;
    }
    Some(to)
}

/// The white block, other than the holder, that a value in a word of the holder refers to: the one
/// into which it points, or, where that is grey, the one to which its references are passed on.
#[inline(always)]
fn referred<M: ObjectMap>(track: &Track<M>, holder: Option<u64>, value: u64) -> Option<RecId>
    ensures hit { (place : Place) → place.phase ≢ 3 → holder ≡ holder_of place → option_map (λ i. i.generation) result ≡ hit_in (tracked_in track.now) place value }
    ensures live { IfSome result (λ i. (l : Live) × (live_with i track.now ≡ Some l) × (is_white_now l.tracked ≡ true)) }
    ensures rising { result ≢ None → AreRising 0 track.now.live track.now.registered }
{
    let id = track.look(Addr(untag(value)))?;
    if holder == Some(id.generation) {
        return None;
    }
    let record = track.record(id)?;
    match record.colour() {
        Colour::White => Some(id),
        Colour::Black => None,
        Colour::Grey => passed_on(track, holder, record.excess),
    }
}

/// Counts the reference that a value in a word of the holder is.
#[inline(always)]
pub fn refer<M: ObjectMap>(track: &mut Track<M>, holder: Option<u64>, value: u64)
    ensures { (place : Place) → place.phase ≢ 3 → holder ≡ holder_of place → track.new ≡ hit_told (hit_in (tracked_in track.old) place value) track.old }
{
    if let Some(id) = referred(track, holder, value) {
        track.raise(id);
    }
}
