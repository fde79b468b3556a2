//! Counts the listed blocks.

ghost use Rattle.std.specs.Prelude.{◌≡◌, length};
ghost use Rattle.km_state.specs.State.{listing_in};
ghost use Rattle.km_track.specs.Tracker.{tracked_in};

use km_track::Track;
use km_tree::TreeMap;
use km_verdict::{first_listed, next_listed};

/// The number of listed blocks.
pub fn listed(track: &Track<TreeMap>) -> u32
    ensures { result ≡ length (listing_in (tracked_in track.now)) }
{
    // Its contract says that there are fewer than 2^32 blocks.
    if track.first().is_none() {
        return 0;
    }
    let mut count = 0;
    let mut next = first_listed(track);
    while let Some(id) = next {
        count += 1;
        next = next_listed(track, id);
    }
    count
}
