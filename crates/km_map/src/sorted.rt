//! A map that is a sorted vector.

ghost use Rattle.std.specs.Prelude.{◌≡◌, ◌+◌, ◌^◌, ◌<◌, [], IfOk, find, option_copied};
ghost use Rattle.km_map.specs.Entries.{IsRising, ended, ends_behind, meets, slot_where};

use crate::entries::Entry;
use crate::object_map::ObjectMap;
use km_base::{Addr, NoMemory, Span};
use std::alloc::Global;
use std::marker::Model;

/// Entries in a vector that is reserved once. An insertion or a removal moves those behind it.
#[derive(Debug, Drop)]
pub struct SortedMap {
    entries: Vec<Entry>,
    capacity: u32,
}

impl Model for SortedMap {
    ghost use Rattle.km_map.specs.Sorted.{Sorted};

    ghost Value = { Sorted };

    ghost use Rattle.std.specs.Prelude.{◌-◌, ◌≤◌, vec_len, vec_capacity};
    ghost use Rattle.km_map.specs.Entries.{IsRising};

    ghost view = { λ m. record { entries = m.entries.items; room = m.capacity - vec_len m.entries } };

    ghost invariant = { λ m. record { rising : IsRising m.entries.items; within : vec_len m.entries ≤ m.capacity; reserved : m.capacity ≤ vec_capacity m.entries } };
}

impl SortedMap {
    /// A map that takes `capacity` spans.
    pub fn new(alloc: Global, capacity: u32) -> Result<SortedMap, NoMemory>
        ensures { IfOk result (λ m. m ≡ record { entries = []; room = capacity }) }
    {
        match Vec::with_capacity(alloc, capacity as usize) {
            Ok(entries) => Ok(SortedMap { entries, capacity }),
            Err(_) => Err(NoMemory),
        }
    }
}

/// How many of these entries end at or before an address: the place of the first that ends
/// behind it.
fn place(entries: &[Entry], a: u64) -> usize
    requires { IsRising entries.now }
    ensures { result ≡ ended a entries.now }
{
    entries.partition_point(|e| e.span.start.0 <= a && e.span.size <= a - e.span.start.0)
}

/// The first of these entries that ends behind an address.
fn ending_behind(entries: &[Entry], a: u64) -> Option<&Entry>
    requires { IsRising entries.now }
    ensures { option_copied result ≡ find (ends_behind a) entries.now }
{
    entries.get(place(entries, a))
}

/// The slot of the lowest of these entries that meets a span, which stands at the place of its
/// start if anywhere.
fn met(entries: &[Entry], at: usize, span: &Span) -> Option<u32>
    requires rising { IsRising entries.now }
    requires place { at ≡ ended span.now.start.0 entries.now }
    requires sized { 0 < span.now.size }
    requires end { span.now.start.0 + span.now.size < 2 ^ 64 }
    ensures { result ≡ slot_where (meets span.now) entries.now }
{
    match entries.get(at) {
        Some(e) if e.span.start.0 < span.start.0 + span.size => Some(e.slot),
        _ => None,
    }
}

impl ObjectMap for SortedMap {
    ghost entries = { λ m. m.entries };

    ghost room = { λ m. m.room };

    fn try_insert(&mut self, span: Span, slot: u32) -> Result<(), u32> {
        let at = place(&self.entries, span.start.0);
        if let Some(slot) = met(&self.entries, at, &span) {
            return Err(slot);
        }
        let Ok(()) = self.entries.insert(at, Entry { span, slot }) else {
            unreachable!()
        };
        Ok(())
    }

    fn remove(&mut self, start: Addr) -> Option<u32> {
        let slot = self.find_start(start)?;
        let at = place(&self.entries, start.0);
        self.entries.remove(at);
        Some(slot)
    }

    fn find(&self, a: Addr) -> Option<u32> {
        match ending_behind(&self.entries, a.0) {
            Some(e) if e.span.start.0 <= a.0 => Some(e.slot),
            _ => None,
        }
    }

    fn find_start(&self, a: Addr) -> Option<u32> {
        match ending_behind(&self.entries, a.0) {
            Some(e) if e.span.start.0 == a.0 => Some(e.slot),
            _ => None,
        }
    }

    fn spare(&self) -> u32 {
        self.capacity - self.entries.len() as u32
    }
}
