//! A map from spans to slots, by itself.

ghost use Rattle.std.specs.Prelude.{◌≡◌, ◌<◌, []};

use super::calls::{Call, Layer, not_a_call, shown};
use crate::troubles::Trouble;
use km_base::{Addr, Span};
use km_map::ObjectMap;
use std::alloc::Global;

/// A map.
#[derive(Drop)]
pub struct Spans<M: ObjectMap> {
    map: M,
}

/// A map with one span of 64 bytes, which was put in without a look for others.
pub fn with_a_span<M: ObjectMap>(mut map: M) -> Spans<M>
    requires empty { M.entries map ≡ [] }
    requires room { 0 < M.room map }
{
    let span = Span {
        start: Addr(0xffff_8880_0000_1000),
        size: 64,
    };
    map.insert(span, 3);
    Spans { map }
}

impl<M: ObjectMap> Spans<M> {
    pub fn new(map: M) -> Spans<M> {
        Spans { map }
    }

    /// Adds a span.
    fn put(&mut self, alloc: Global, span: Span, slot: u32) -> Result<String, Trouble> {
        let ends = span.start.0.checked_add(span.size).is_some();
        if span.size == 0 || !ends || self.map.spare() == 0 {
            return Err(not_a_call());
        }
        shown(alloc, self.map.try_insert(span, slot))
    }
}

impl<M: ObjectMap> Layer for Spans<M> {
    fn make(&mut self, alloc: Global, call: Call<'_>) -> Result<String, Trouble> {
        if call.name == "spare" {
            return shown(alloc, self.map.spare());
        }
        let start = Addr(call.number(0)?);
        match call.name {
            "put" => {
                let size = call.number(1)?;
                self.put(alloc, Span { start, size }, call.small(2)?)
            }
            "remove" => shown(alloc, self.map.remove(start)),
            "find" => shown(alloc, self.map.find(start)),
            "start" => shown(alloc, self.map.find_start(start)),
            _ => Err(not_a_call()),
        }
    }
}
