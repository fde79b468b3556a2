//! Blocks of 8 bytes are registered in a tracker of the largest memory, over the balanced tree, and the last byte of
//! each is looked up.

ghost use Rattle.std.specs.Prelude.{◌≡◌, ◌+◌, ◌≤◌, ◌<◌, ◌^◌};

use km_base::{Addr, NoMemory, Span};
use km_track::Track;
use km_tree::TreeMap;
use std::alloc::Global;

/// The address of the first word.
const BASE: u64 = 0xffff_8880_0000_0000;

/// The words of the largest memory, and so the most blocks.
const WORDS: u32 = 4_194_304;

/// Registers so many blocks of a word, one behind the other.
fn fill(track: &mut Track<TreeMap>, count: u32)
    requires small { count ≤ 4194304 }
    requires room { count ≤ track.old.spare }
    requires new { track.old.registered ≡ 0 }
{
    for i in 0..count {
        let span = Span {
            start: Addr(BASE + 8 * u64::from(i)),
            size: 8,
        };
        let _ = track.register(span, 1, 0);
    }
}

/// Looks up the last byte of each of so many words, and tells in how many a block is.
fn count_found(track: &Track<TreeMap>, count: u32) -> u32
    requires { count ≤ 4194304 }
{
    let mut found: u32 = 0;
    for i in 0..count {
        let last = Addr(BASE + 8 * u64::from(i) + 7);
        if track.look(last).is_some() {
            found = found.saturating_add(1);
        }
    }
    found
}

/// Registers so many blocks, or as many as there is room for, and tells how many of them are found.
pub fn found(alloc: Global, count: u32) -> Result<u64, NoMemory> {
    let count = count.min(WORDS);
    let map = TreeMap::new(alloc, WORDS)?;
    let mut track = Track::new(alloc, WORDS, map)?;
    fill(&mut track, count);
    Ok(u64::from(count_found(&track, count)))
}
