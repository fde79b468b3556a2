//! What is left of a block.

ghost use Rattle.std.specs.Prelude.{◌≡◌, ◌%◌, ◌+◌, ◌^◌, ◌<◌, None, Some, nat_lt, option_map, if◌then◌else◌};
ghost use Rattle.km_model.specs.Blocks.{is_black, references_of, unscanned, painted_black};
ghost use Rattle.km_record.specs.Records.{IsSound, block_of};
ghost use Rattle.km_track.specs.Tracker.{begins, changed_at, meets, live_where};
ghost use Rattle.km_free_part.specs.Parts.{rest_registered};

use km_base::{Addr, Span};
use km_map::ObjectMap;
use km_record::{Minimum, Note, RecId, Record};
use km_track::Track;

/// Paints the block that begins at an address where another is black.
fn blacken<M: ObjectMap>(track: &mut Track<M>, start: Addr, of: &Record)
    ensures { track.new ≡ if is_black (block_of 0 of.now) then changed_at start.0 painted_black track.old else track.old }
{
    if matches!(of.minimum, Minimum::Black) {
        let _ = track.annotate(start, Note::Ignore);
    }
}

/// Stops the scanning of the block that begins at an address where another isn't scanned.
fn silence<M: ObjectMap>(track: &mut Track<M>, start: Addr, of: &Record)
    ensures { track.new ≡ if of.now.no_scan then changed_at start.0 unscanned track.old else track.old }
{
    if of.no_scan {
        let _ = track.annotate(start, Note::NoScan);
    }
}

/// The minimum that a rest of a block is registered with.
fn least(of: &Record) -> u8
    ensures { result ≡ references_of (block_of 0 of.now) }
{
    match of.minimum {
        Minimum::Black => 0,
        Minimum::AtLeast(n) => n,
    }
}

/// Registers a rest of a block with its settings, where it isn't empty.
pub fn register_rest<M: ObjectMap>(track: &mut Track<M>, rest: Span, of: &Record) -> Option<RecId>
    requires sound { IsSound of.now }
    requires start { rest.start.0 % 8 ≡ 0 }
    requires size { rest.size % 8 ≡ 0 }
    requires end { rest.start.0 + rest.size < 2 ^ 64 }
    requires apart { 0 < rest.size → live_where (meets rest) track.old ≡ None }
    requires alone { 0 < rest.size → live_where (begins rest.start.0) track.old ≡ None }
    requires spare { 0 < rest.size → 0 < track.old.spare }
    requires ids { track.old.registered + 1 < 2 ^ 64 }
    ensures id { option_map (λ i. i.generation) result ≡ (if nat_lt 0 rest.size then Some track.old.registered else None) }
    ensures after { track.new ≡ rest_registered result rest (block_of 0 of.now) track.old }
{
    if rest.size == 0 {
        return None;
    }
    let Ok(id) = track.register(rest, least(of), of.born) else {
        return None;
    };
    blacken(track, rest.start, of);
    silence(track, rest.start, of);
    Some(id)
}
