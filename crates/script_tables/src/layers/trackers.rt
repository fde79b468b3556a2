//! A tracker over the sorted vector.

ghost use Rattle.std.specs.Prelude.{◌≡◌, ◌+◌, ◌≤◌};

use super::calls::{Call, Layer, not_a_call, shown};
use crate::troubles::Trouble;
use km_base::{Addr, NoMemory, Span};
use km_map::SortedMap;
use km_record::RecId;
use km_track::Track;
use std::alloc::Global;

/// The most blocks that are registered in a row.
const MOST: u32 = 4;

/// A tracker, and how many blocks were registered.
#[derive(Drop)]
pub struct Blocks {
    track: Track<SortedMap>,
    registered: u32,
    ghost spare: { 4 ≤ track.spare + registered },
    ghost ids: { track.registered ≤ registered },
}

impl Blocks {
    pub fn new(alloc: Global) -> Result<Blocks, NoMemory> {
        let map = SortedMap::new(alloc, MOST)?;
        let track = Track::new(alloc, MOST, map)?;
        Ok(Blocks {
            track,
            registered: 0,
        })
    }

    /// Registers a block of 64 bytes.
    fn register(&mut self, alloc: Global, start: u64) -> Result<String, Trouble> {
        if start % 8 != 0 || start > u64::MAX - 64 || self.registered >= MOST {
            return Err(not_a_call());
        }
        let span = Span {
            start: Addr(start),
            size: 64,
        };
        self.registered += 1;
        match self.track.register(span, 1, 0) {
            Ok(id) => shown(alloc, id),
            Err(overlap) => shown(alloc, overlap),
        }
    }

    /// Unregisters a block.
    fn unregister(&mut self, alloc: Global, start: Addr) -> Result<String, Trouble> {
        match self.track.unregister(start) {
            Ok(id) => shown(alloc, id),
            Err(fault) => shown(alloc, fault),
        }
    }
}

impl Layer for Blocks {
    fn make(&mut self, alloc: Global, call: Call<'_>) -> Result<String, Trouble> {
        let start = call.number(0)?;
        match call.name {
            "register" => self.register(alloc, start),
            "unregister" => self.unregister(alloc, Addr(start)),
            "look" => shown(alloc, self.track.look(Addr(start))),
            "is_live" => {
                let (slot, generation) = (call.small(0)?, call.number(1)?);
                let record = self.track.record(RecId { slot, generation });
                shown(alloc, record.is_some())
            }
            _ => Err(not_a_call()),
        }
    }
}
