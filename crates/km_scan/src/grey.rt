//! The scanned words of grey blocks, in order of the queue.

ghost use Rattle.std.specs.Prelude.{◌≡◌, ◌≢◌, ◌+◌, ◌*◌, ℕ, Bool, true, Some, None, [], IfSome, OnSome, IfNone, option_map};
ghost use Rattle.km_model.specs.Scan.{behind, first_in, live_words, place_in, word_above};
ghost use Rattle.km_record.specs.Records.{IsSound, block_of, scanned_from};
ghost use Rattle.km_state.specs.State.{blocks_in};
ghost use Rattle.km_tasks.specs.Roll.{Roll};
ghost use Rattle.km_track.specs.Tracker.{AreRising, Live, is_live, live_with, tracked_in};
ghost use Rattle.km_scan.specs.Places.{phase_of, place_of};
ghost use Rattle.km_scan.specs.declared.places.At.TheVariants.{Block as InBlock};
ghost use Rattle.km_scan.specs.declared.places.Pass.TheVariants.{Sums};
ghost use Rattle.km_scan.specs.Stand.{FitsAt, FitsDue, IsWordOf};

use crate::places::{At, Pass};
use km_base::Addr;
use km_map::ObjectMap;
use km_record::{RecId, Record};
use km_track::Track;

/// The first word of a block that is scanned, from the one at an address, with this index, on. Most often it is that one,
/// and then nothing waits for what is computed of its index.
#[inline(always)]
fn word_from(block: &Record, from: u64, at: Addr) -> Option<Addr>
    requires sound { IsSound block.now }
    requires at { at.0 ≡ block.now.span.start.0 + 8 * from }
    ensures word { (id : ℕ) → option_map (λ a. a.0) result ≡ scanned_from (block.now.span.start.0 + 8 * from) (block_of id block.now) }
    ensures within { IfSome result (λ a. (id : ℕ) → IsWordOf (block_of id block.now) a.0) }
{
    let i = block.next_word(from)?;
    if i == from {
        return Some(at);
    }
    Some(Addr(block.span.start.0 + 8 * i))
}

/// The first word of a live block that is scanned.
fn first_word<M: ObjectMap>(track: &Track<M>, id: RecId) -> Option<Addr>
    requires { is_live id track.now ≡ true }
    ensures word { (l : Live) → live_with id track.now ≡ Some l → option_map (λ a. a.0) result ≡ scanned_from (l.tracked.block.start + 8 * 0) l.tracked.block }
    ensures within { IfSome result (λ a. (l : Live) → live_with id track.now ≡ Some l → IsWordOf l.tracked.block a.0) }
    ensures rising { AreRising 0 track.now.live track.now.registered }
{
    let record = track.record(id)?;
    word_from(record, 0, record.span.start)
}

/// The scanned word behind another in the block that a grey pass holds.
#[inline(always)]
pub fn word_behind<M: ObjectMap>(track: &Track<M>, pass: Pass, id: RecId, word: Addr) -> Option<At>
    requires { (l : Live) × (live_with id track.now ≡ Some l) × IsWordOf l.tracked.block word.0 }
    ensures place { option_map place_of result ≡ place_in (phase_of pass) id.generation (word_above word.0 (live_words (blocks_in (tracked_in track.now)) id.generation)) }
    ensures fits { (stacks : Bool) (roll : Roll) → pass ≢ Sums → FitsAt stacks (InBlock pass id word) track.now roll → FitsDue stacks result track.now roll }
{
    let record = track.record(id)?;
    let from = (word.0 - record.span.start.0) / 8 + 1;
    let word = word_from(record, from, Addr(word.0 + 8))?;
    Some(At::Block { pass, id, word })
}

/// Takes blocks out of the queue, up to the first that has a scanned word, and gives that word.
pub fn next_held<M: ObjectMap>(track: &mut Track<M>, pass: Pass) -> Option<At>
    ensures place { option_map place_of result ≡ first_in (phase_of pass) (blocks_in (tracked_in track.old)) track.old.queue }
    ensures queue { IfSome result (λ at. track.new ≡ record track.old { queue = behind (place_of at).holder track.old.queue }) }
    ensures empty { IfNone result (track.new ≡ record track.old { queue = [] }) }
    ensures fits { (stacks : Bool) (roll : Roll) → pass ≢ Sums → FitsDue stacks result track.new roll }
{
    while let Some(id) = track.pop_grey() {
        if let Some(word) = first_word(track, id) {
            return Some(At::Block { pass, id, word });
        }
    }
    None
}
