//! White blocks, in order of registration, and their sums.

ghost use Rattle.std.specs.Prelude.{◌≡◌, ℕ, Bool, true, Some, IfSome, filter, nat_lt, option_map};
ghost use Rattle.km_model.specs.Scan.{place_in, word_above};
ghost use Rattle.km_state.specs.State.{is_white_now};
ghost use Rattle.km_state.specs.StateNext.{first_white_in, sum_after, white_words_in};
ghost use Rattle.km_tasks.specs.Roll.{Roll};
ghost use Rattle.km_track.specs.Tracker.{AreRising, Live, is_live, live_from, live_with, tracked_in, tracked_of};
ghost use Rattle.km_scan.specs.Places.{cursor_of, place_of};
ghost use Rattle.km_scan.specs.Stand.{FitsDue, IsWordOf, load_told, scanning_of, tracked_from, white_next_in};
ghost use Rattle.km_base.specs.declared.spans.Addr.{Addr as Address};
ghost use Rattle.km_scan.specs.declared.places.At.TheVariants.{Block};
ghost use Rattle.km_scan.specs.declared.places.Cursor.TheVariants.{Last};
ghost use Rattle.km_scan.specs.declared.places.Pass.TheVariants.{Sums};
ghost use Rattle.km_scan.specs.declared.sweep.Sweep.{Sweep};

use crate::places::{At, Cursor, Pass};
use km_base::Addr;
use km_map::ObjectMap;
use km_record::{Colour, RecId, Record};
use km_track::Track;

/// Whether a block has fewer references than it needs.
fn needs_more(block: &Record) -> bool
    ensures { (id : ℕ) → result ≡ is_white_now (tracked_of id block.now) }
{
    matches!(block.colour(), Colour::White)
}

/// Whether a live block is white.
pub fn is_white<M: ObjectMap>(track: &Track<M>, id: RecId) -> bool
    ensures white { (l : Live) → live_with id track.now ≡ Some l → result ≡ is_white_now l.tracked }
    ensures rising { AreRising 0 track.now.live track.now.registered }
{
    match track.record(id) {
        Some(record) => needs_more(record),
        None => false,
    }
}

/// The first word of a live block, as a place of the sums.
fn first_word<M: ObjectMap>(track: &Track<M>, id: RecId) -> Option<At>
    requires { is_live id track.now ≡ true }
    ensures place { (l : Live) → live_with id track.now ≡ Some l → option_map place_of result ≡ Some (record { phase = 3; holder = id.generation; word = l.tracked.block.start }) }
    ensures fits { (stacks : Bool) (roll : Roll) (l : Live) → live_with id track.now ≡ Some l → is_white_now l.tracked ≡ true → FitsDue stacks result track.now roll }
{
    let record = track.record(id)?;
    Some(At::Block {
        pass: Pass::Sums,
        id,
        word: record.span.start,
    })
}

/// The first word of the first white block, from this one on.
fn first_white<M: ObjectMap>(track: &Track<M>, from: Option<RecId>) -> Option<At>
    requires { IfSome from (λ id. is_live id track.now ≡ true) }
    ensures place { option_map place_of result ≡ first_white_in (tracked_from from track.now) }
    ensures fits { (stacks : Bool) (roll : Roll) → FitsDue stacks result track.now roll }
{
    let mut next = from;
    while let Some(id) = next {
        if is_white(track, id) {
            return first_word(track, id);
        }
        next = track.next(id);
    }
    None
}

/// The first live block that was registered behind another.
fn first_behind<M: ObjectMap>(track: &Track<M>, generation: u64) -> Option<RecId>
    ensures live { IfSome result (λ id. is_live id track.now ≡ true) }
    ensures rest { live_from result track.now.live ≡ filter (λ (l : Live). nat_lt generation l.tracked.block.id) track.now.live }
{
    let mut next = track.first();
    while let Some(id) = next {
        if id.generation > generation {
            return next;
        }
        next = track.next(id);
    }
    None
}

/// The first word of the next white block.
pub fn next_white<M: ObjectMap>(track: &Track<M>, cursor: Cursor) -> Option<At>
    requires { (id : RecId) (word : Address) → cursor ≡ Last (Block Sums id word) → is_live id track.now ≡ true }
    ensures place { option_map place_of result ≡ white_next_in (tracked_in track.now) (cursor_of cursor) }
    ensures fits { (stacks : Bool) (roll : Roll) → FitsDue stacks result track.now roll }
{
    let first = track.first()?;
    match cursor {
        Cursor::Last(
            At::Block {
                pass: Pass::Sums,
                id,
                ..
            },
        ) => first_white(track, track.next(id)),
        Cursor::Behind {
            pass: Pass::Sums,
            generation,
        } => first_white(track, first_behind(track, generation)),
        _ => first_white(track, Some(first)),
    }
}

/// The word behind another in the block that is summed, where that is still white.
#[inline(always)]
pub fn word_behind<M: ObjectMap>(track: &Track<M>, id: RecId, word: Addr) -> Option<At>
    requires { (l : Live) × (live_with id track.now ≡ Some l) × IsWordOf l.tracked.block word.0 }
    ensures place { option_map place_of result ≡ place_in 3 id.generation (word_above word.0 (white_words_in (tracked_in track.now) id.generation)) }
    ensures fits { (stacks : Bool) (roll : Roll) → FitsDue stacks result track.now roll }
{
    let record = track.record(id)?;
    if !needs_more(record) {
        return None;
    }
    if word.0 - record.span.start.0 + 8 >= record.span.size {
        return None;
    }
    Some(At::Block {
        pass: Pass::Sums,
        id,
        word: Addr(word.0 + 8),
    })
}

/// Keeps the sum of a white block, where its last word was added.
#[inline(always)]
pub fn keep<M: ObjectMap>(track: &mut Track<M>, id: RecId, word: Addr, sum: u64)
    requires { (l : Live) × (live_with id track.old ≡ Some l) × IsWordOf l.tracked.block word.0 × (is_white_now l.tracked ≡ true) }
    ensures { (stacks : Bool) (w : Sweep) (value : ℕ) (roll : Roll) → sum ≡ sum_after (scanning_of track.old w) (record { phase = 3; holder = id.generation; word = word.0 }) value → track.new ≡ load_told stacks w (record { phase = 3; holder = id.generation; word = word.0 }) value track.old roll }
{
    let Some(record) = track.record(id) else {
        return;
    };
    if word.0 - record.span.start.0 + 8 == record.span.size {
        track.set_sum(id, sum);
    }
}
