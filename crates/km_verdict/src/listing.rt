//! The listing: the blocks that were unreferenced at the last completed scan and weren't painted
//! since, in order of registration.

ghost use Rattle.std.specs.Prelude.{◌≡◌, true, Some};
ghost use Rattle.km_state.specs.State.{is_listed_now};
ghost use Rattle.km_state.specs.StateAnswers.{info_in};
ghost use Rattle.km_track.specs.Tracker.{AreRising, Live, is_live, live_with, tracked_of};
ghost use Rattle.km_verdict.specs.Listing.{behind, cleared, listed_in, painted_in, shown_at};

use km_base::{Addr, Info};
use km_map::ObjectMap;
use km_record::{Minimum, Note, RecId, Record};
use km_track::Track;

/// Whether a live block is listed.
fn is_listed<M: ObjectMap>(track: &Track<M>, id: RecId) -> bool
    ensures listed { (l : Live) → live_with id track.now ≡ Some l → result ≡ is_listed_now l.tracked }
    ensures rising { AreRising 0 track.now.live track.now.registered }
{
    match track.record(id) {
        Some(record) => {
            record.white_last && matches!(record.minimum, Minimum::AtLeast(n) if n > 0)
        }
        None => false,
    }
}

/// The first listed block.
pub fn first_listed<M: ObjectMap>(track: &Track<M>) -> Option<RecId>
    ensures { result ≡ listed_in track.now.live }
{
    let first = track.first()?;
    if is_listed(track, first) {
        return Some(first);
    }
    next_listed(track, first)
}

/// The first listed block that was registered behind a live one.
pub fn next_listed<M: ObjectMap>(track: &Track<M>, id: RecId) -> Option<RecId>
    requires { is_live id track.now ≡ true }
    ensures { result ≡ listed_in (behind id track.now.live) }
{
    let mut next = track.next(id);
    while let Some(id) = next {
        if is_listed(track, id) {
            return Some(id);
        }
        next = track.next(id);
    }
    None
}

/// Paints the listed blocks grey.
pub fn clear<M: ObjectMap>(track: &mut Track<M>)
    ensures { track.new ≡ cleared track.old }
{
    let mut next = track.first();
    while let Some(id) = next {
        next = track.next(id);
        if is_listed(track, id) {
            paint(track, id);
        }
    }
}

/// Paints a live block grey.
fn paint<M: ObjectMap>(track: &mut Track<M>, id: RecId)
    requires { is_live id track.old ≡ true }
    ensures { track.new ≡ painted_in id track.old }
{
    let Some(record) = track.record(id) else {
        return;
    };
    let start = record.span.start;
    let _ = track.annotate(start, Note::NotLeak);
}

/// What is shown of a record.
fn info(record: &Record) -> Info
    ensures { result ≡ info_in (tracked_of 0 record.now) }
{
    Info {
        start: record.span.start.0,
        size: record.span.size,
        born: record.born,
        min: match record.minimum {
            Minimum::Black => -1,
            Minimum::AtLeast(n) => i32::from(n),
        },
        count: u32::from(record.count),
        flags: 1 + if record.flagged { 2 } else { 0 } + if record.no_scan { 4 } else { 0 },
        sum: record.sum,
    }
}

/// What is shown of the block that has the byte at an address.
pub fn dump<M: ObjectMap>(track: &Track<M>, a: Addr) -> Option<Info>
    ensures { result ≡ shown_at a.0 track.now }
{
    let id = track.look(a)?;
    let record = track.record(id)?;
    Some(info(record))
}
