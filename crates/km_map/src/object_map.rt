//! The laws of a map from spans to slots.

ghost use Rattle.std.specs.Prelude.{◌≡◌, ℕ, ◌+◌, ◌^◌, ◌<◌, List, None, find, is_ok, is_some, if◌then◌else◌};
ghost use Rattle.km_map.specs.Entries.{IsRising, has_byte, meets, slot_where, starts_at, unless_met, with_entry, without_start};
ghost use Rattle.km_map.specs.declared.entries.Entry.{Entry as KeptEntry};

use km_base::{Addr, Span};

/// A map from spans that never meet to slots.
///
/// It is seen as the list of its entries, rising by start, and a number of entries that it can
/// still take. No call takes memory.
pub trait ObjectMap: Drop {
    ghost entries: { Self → List KeptEntry };

    ghost room: { Self → ℕ };

    /// Adds a span, which takes one place of `spare`.
    fn insert(&mut self, span: Span, slot: u32)
        requires sized { 0 < span.size }
        requires end { span.start.0 + span.size < 2 ^ 64 }
        requires apart { find (meets span) (entries self.old) ≡ None }
        requires spare { 0 < room self.old }
        ensures entries { entries self.new ≡ with_entry (record { span = span; slot = slot }) (entries self.old) }
        ensures rising { IsRising (entries self.new) }
        ensures spare { room self.new + 1 ≡ room self.old }
    {
        let Ok(()) = self.try_insert(span, slot) else {
            unreachable!()
        };
    }

    /// Adds a span that meets none, in one search. Else it gives the slot of the lowest that it
    /// meets, and nothing changes.
    fn try_insert(&mut self, span: Span, slot: u32) -> Result<(), u32>
        requires sized { 0 < span.size }
        requires end { span.start.0 + span.size < 2 ^ 64 }
        requires spare { 0 < room self.old }
        ensures answer { result ≡ unless_met (slot_where (meets span) (entries self.old)) }
        ensures entries { entries self.new ≡ (if is_ok result then with_entry (record { span = span; slot = slot }) (entries self.old) else entries self.old) }
        ensures rising { IsRising (entries self.new) }
        ensures spare { room self.new + (if is_ok result then 1 else 0) ≡ room self.old };

    /// Removes the span that starts at an address, which gives its place back, and gives its slot.
    fn remove(&mut self, start: Addr) -> Option<u32>
        ensures slot { result ≡ slot_where (starts_at start.0) (entries self.old) }
        ensures entries { entries self.new ≡ without_start start.0 (entries self.old) }
        ensures rising { IsRising (entries self.new) }
        ensures spare { room self.new ≡ room self.old + (if is_some result then 1 else 0) };

    /// The slot of the span that has the byte at an address: its first or any other, but not its
    /// end.
    fn find(&self, a: Addr) -> Option<u32>
        ensures slot { result ≡ slot_where (has_byte a.0) (entries self.now) }
        ensures rising { IsRising (entries self.now) };

    /// The slot of the span that starts at an address.
    fn find_start(&self, a: Addr) -> Option<u32>
        ensures slot { result ≡ slot_where (starts_at a.0) (entries self.now) }
        ensures rising { IsRising (entries self.now) };

    /// How many more spans it can take.
    fn spare(&self) -> u32
        ensures { result ≡ room self.now };
}
