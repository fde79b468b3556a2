//! The tracker.

ghost use Rattle.std.specs.Prelude.{OnOk, None, length, is_err, IfErr, ◌%◌, ◌^◌, if◌then◌else◌, drop, ◌&&◌, ◌+◌, not, ◌≡◌, ◌≤◌, ◌<◌, [], true, is_ok, is_some, OnErr, IfOk, IfSome, false, option_map};
ghost use Rattle.km_links.specs.Chains.{first_of, is_in};
ghost use Rattle.km_model.specs.Scan.{differs};
ghost use Rattle.km_state.specs.State.{is_white_now};
ghost use Rattle.std.specs.Result.{result_ok};
ghost use Rattle.km_record.specs.Records.{IsSound, with_area};
ghost use Rattle.km_model.specs.Blocks.{contains, needs};
ghost use Rattle.km_track.specs.Areas.{area_answer};
ghost use Rattle.km_track.specs.Tracker.{AreRising, IsLowest, NeverMeet, meets, registered_in, scan_started, unregistered_at, Live, begins, counted, judged, queued, summed, changed, is_id, first_live, id_of, is_live, live_behind, live_where, live_with, tracked_noted, tracked_of};

use crate::faults::{self, AreaRefusal, NoObject, Overlap};
use crate::slots::{self, Slot};
use km_base::{Addr, NoMemory, Span};
use km_links::{Links, Which};
use km_map::ObjectMap;
use km_record::{Note, RecId, Record};
use std::alloc::Global;
use std::marker::Model;

/// The live blocks.
#[derive(Drop)]
pub struct Track<M: ObjectMap> {
    slots: Vec<Slot>,
    links: Links,
    map: M,
    registered: u64,
    capacity: u32,
}

impl<M: ObjectMap> Model for Track<M> {
    ghost use Rattle.km_track.specs.Tracker.{Tracker};

    ghost Value = { Tracker };

    ghost use Rattle.std.specs.Prelude.{if◌then◌else◌, drop, ◌&&◌, ◌+◌, not, ◌≡◌, ◌+◌, ◌-◌, ◌≤◌, length, ◌<◌, ◌^◌, map as over, vec_len, vec_capacity};
    ghost use Rattle.km_track.specs.Holds.{Holds, live_at};
    ghost use Rattle.km_track.specs.Slots.{slot_at};

    ghost view = { λ t. record { live = over (live_at t.slots.items) t.links.order; queue = over (λ n. (slot_at t.slots.items n).generation) t.links.grey; registered = t.registered; spare = t.capacity - length t.links.order } };

    ghost invariant = { λ t. record { holds : Holds t.slots.items t.links.order t.links.grey t.links.free (M.entries t.map) t.registered; room : t.capacity ≤ M.room t.map + length t.links.order; lists : t.links.capacity ≡ t.capacity; within : vec_len t.slots ≤ t.capacity; reserved : t.capacity ≤ vec_capacity t.slots; small : t.capacity < 2 ^ 32 } };
}

impl<M: ObjectMap> Track<M> {
    /// A tracker of at most `capacity` blocks, over an empty map that takes as many.
    pub fn new(alloc: Global, capacity: u32, map: M) -> Result<Track<M>, NoMemory>
        requires empty { M.entries map ≡ [] }
        requires room { capacity ≤ M.room map }
        ensures { IfOk result (λ t. t ≡ record { live = []; queue = []; registered = 0; spare = capacity }) }
    {
        let Ok(slots) = Vec::with_capacity(alloc, capacity as usize) else {
            return Err(NoMemory);
        };
        let links = Links::new(alloc, capacity)?;
        Ok(Track {
            slots,
            links,
            map,
            registered: 0,
            capacity,
        })
    }

    /// Registers a block, last in order.
    ///
    /// A span of words that has a byte in common with a live block is refused, and nothing changes.
    pub fn register(&mut self, span: Span, minimum: u8, born: u64) -> Result<RecId, Overlap>
        requires start { span.start.0 % 8 ≡ 0 }
        requires size { span.size % 8 ≡ 0 }
        requires sized { 0 < span.size }
        requires end { span.start.0 + span.size < 2 ^ 64 }
        requires spare { 0 < self.old.spare }
        requires ids { self.old.registered + 1 < 2 ^ 64 }
        ensures answer { is_err result ≡ is_some (live_where (meets span) self.old) }
        ensures overlap { IfErr result (λ o. IsLowest span self.old o.0) }
        ensures id { IfOk result (λ id. id.generation ≡ self.old.registered) }
        ensures block { IfOk result (λ id. self.new ≡ registered_in id.slot span minimum born self.old) }
        ensures refused { OnErr result (self.new ≡ self.old) }
    {
        let slot = slots::next(&self.slots, &self.links);
        if let Err(slot) = self.map.try_insert(span, slot) {
            let generation = self.slots[slot as usize].generation;
            return Err(Overlap(RecId { slot, generation }));
        }
        let generation = self.registered;
        let block = slots::fresh(generation, span, minimum, born);
        slots::place(&mut self.slots, &mut self.links, block);
        self.links.push_back(Which::Order, slot);
        self.registered += 1;
        Ok(RecId { slot, generation })
    }

    /// Unregisters the block that begins at an address, and gives its id.
    pub fn unregister(&mut self, start: Addr) -> Result<RecId, NoObject>
        ensures answer { result_ok result ≡ option_map id_of (live_where (begins start.0) self.old) }
        ensures after { self.new ≡ (if is_ok result then unregistered_at start.0 self.old else self.old) }
        ensures places { self.new.spare + length self.new.live ≡ self.old.spare + length self.old.live }
    {
        let Some(slot) = self.map.remove(start) else {
            return Err(NoObject);
        };
        slots::release(&mut self.links, slot);
        let generation = self.slots[slot as usize].generation;
        Ok(RecId { slot, generation })
    }

    /// The block that has the byte at an address.
    pub fn look(&self, a: Addr) -> Option<RecId>
        ensures { result ≡ option_map id_of (live_where (contains a.0) self.now) }
    {
        let slot = self.map.find(a)?;
        let generation = self.slots[slot as usize].generation;
        Some(RecId { slot, generation })
    }

    /// The block that begins at an address.
    pub fn starting_at(&self, start: Addr) -> Option<RecId>
        ensures { result ≡ option_map id_of (live_where (begins start.0) self.now) }
    {
        let slot = self.map.find_start(start)?;
        let generation = self.slots[slot as usize].generation;
        Some(RecId { slot, generation })
    }

    /// The record of a live block.
    pub fn record(&self, id: RecId) -> Option<&Record>
        ensures block { option_map (λ r. record { slot = id.slot; tracked = tracked_of id.generation r.now }) result ≡ live_with id self.now }
        ensures sound { IfSome result (λ r. IsSound r.now) }
        ensures rising { AreRising 0 self.now.live self.now.registered }
        ensures apart { NeverMeet self.now.live }
    {
        if !self.links.has(Which::Order, id.slot) {
            return None;
        }
        let slot = &self.slots[id.slot as usize];
        if slot.generation == id.generation {
            Some(&slot.record)
        } else {
            None
        }
    }

    /// The block that was registered first.
    pub fn first(&self) -> Option<RecId>
        ensures first { result ≡ option_map id_of (first_live self.now.live) }
        ensures rising { AreRising 0 self.now.live self.now.registered }
        ensures apart { NeverMeet self.now.live }
        ensures few { length self.now.live < 2 ^ 32 }
    {
        let slot = self.links.first(Which::Order)?;
        let generation = self.slots[slot as usize].generation;
        Some(RecId { slot, generation })
    }

    /// The block that was registered behind a live one.
    pub fn next(&self, id: RecId) -> Option<RecId>
        requires { is_live id self.now ≡ true }
        ensures { result ≡ option_map id_of (live_behind id self.now.live) }
    {
        let slot = self.links.next(Which::Order, id.slot)?;
        let generation = self.slots[slot as usize].generation;
        Some(RecId { slot, generation })
    }

    /// Takes a note of the block that begins at an address. No count and no queue changes.
    pub fn annotate(&mut self, start: Addr, note: Note) -> Result<(), NoObject>
        ensures answer { is_ok result ≡ is_some (live_where (begins start.0) self.old) }
        ensures block { self.new ≡ changed (λ l. begins start.0 l.tracked.block) (tracked_noted note) self.old }
        ensures refused { OnErr result (self.new ≡ self.old) }
    {
        let Some(slot) = self.map.find_start(start) else {
            return Err(NoObject);
        };
        slots::annotate(&mut self.slots, slot, note);
        Ok(())
    }

    /// Adds an area, given in whole words, to the block that has the byte at an address.
    ///
    /// It is refused where no block has the byte, and else by the rules of `Record::add_area`.
    pub fn add_area(&mut self, a: Addr, size: u64) -> Result<(), AreaRefusal>
        requires start { a.0 % 8 ≡ 0 }
        requires size { size % 8 ≡ 0 }
        requires sized { 0 < size }
        ensures answer { result ≡ area_answer (live_where (contains a.0) self.old) a.0 size }
        ensures block { OnOk result (self.new ≡ changed (λ l. contains a.0 l.tracked.block) (λ u. record u { block = with_area a.0 size u.block }) self.old) }
        ensures refused { OnErr result (self.new ≡ self.old) }
    {
        let Some(slot) = self.map.find(a) else {
            return Err(AreaRefusal::NoObject);
        };
        let area = Span { start: a, size };
        if let Err(fault) = slots::add_area(&mut self.slots, slot, area) {
            return Err(faults::refusal(fault));
        }
        Ok(())
    }

    /// References to a live block are passed on to the block that begins at `to`.
    pub fn set_excess(&mut self, id: RecId, to: Addr)
        requires { is_live id self.old ≡ true }
        ensures { self.new ≡ changed (is_id id) (λ u. record u { block = record u.block { excess = Some to.0 } }) self.old }
    {
        slots::set_excess(&mut self.slots, id.slot, to);
    }

    /// Keeps whether a live block was unreferenced at the end of a scan. It is flagged where it was,
    /// and the answer says whether it is flagged for the first time.
    pub fn set_verdict(&mut self, id: RecId, white: bool) -> bool
        requires { is_live id self.old ≡ true }
        ensures answer { (l : Live) → live_with id self.old ≡ Some l → result ≡ (white && not l.tracked.flagged) }
        ensures block { self.new ≡ changed (is_id id) (judged white) self.old }
    {
        slots::judge(&mut self.slots, id.slot, white)
    }

    /// Counts a reference to a live white block. Where it then has as many as it needs, it goes to
    /// the end of the queue.
    pub fn raise(&mut self, id: RecId) -> bool
        requires live { is_live id self.old ≡ true }
        requires white { (l : Live) → live_with id self.old ≡ Some l → is_white_now l.tracked ≡ true }
        ensures answer { (l : Live) → live_with id self.old ≡ Some l → result ≡ needs (l.tracked.count + 1) l.tracked.block }
        ensures after { self.new ≡ queued result id.generation (changed (is_id id) counted self.old) }
    {
        let is_enough = slots::count(&mut self.slots, id.slot);
        slots::queue_where(&mut self.links, id.slot, is_enough);
        is_enough
    }

    /// Keeps the sum of a live white block. Where none was kept or another, the count becomes the
    /// minimum, and the block goes to the end of the queue.
    pub fn set_sum(&mut self, id: RecId, sum: u64) -> bool
        requires live { is_live id self.old ≡ true }
        requires white { (l : Live) → live_with id self.old ≡ Some l → is_white_now l.tracked ≡ true }
        ensures answer { (l : Live) → live_with id self.old ≡ Some l → result ≡ differs l.tracked.kept sum }
        ensures after { self.new ≡ queued result id.generation (changed (is_id id) (summed sum) self.old) }
    {
        let is_changed = slots::keep_sum(&mut self.slots, id.slot, sum);
        slots::queue_where(&mut self.links, id.slot, is_changed);
        is_changed
    }

    /// Takes out the head of the queue.
    pub fn pop_grey(&mut self) -> Option<RecId>
        ensures head { option_map (λ i. i.generation) result ≡ first_of self.old.queue }
        ensures live { IfSome result (λ i. is_live i self.old ≡ true) }
        ensures grey { IfSome result (λ i. (l : Live) → live_with i self.old ≡ Some l → is_white_now l.tracked ≡ false) }
        ensures once { IfSome result (λ i. is_in i.generation (drop 1 self.old.queue) ≡ false) }
        ensures rest { self.new ≡ record self.old { queue = drop 1 self.old.queue } }
    {
        let slot = self.links.pop_front(Which::Grey)?;
        let generation = self.slots[slot as usize].generation;
        Some(RecId { slot, generation })
    }

    /// Begins a scan: every count is 0, and the blocks that need no reference are queued in order of
    /// registration.
    pub fn start_scan(&mut self)
        ensures { self.new ≡ scan_started self.old }
    {
        slots::start_all(&mut self.slots, &mut self.links);
    }

    /// The address of the block that was registered first.
    fn first_start(&self) -> Option<Addr>
        ensures start { option_map (λ a. a.0) result ≡ option_map (λ l. l.tracked.block.start) (first_live self.now.live) }
        ensures queue { result ≡ None → self.now.queue ≡ [] }
    {
        let slot = self.links.first(Which::Order)?;
        Some(self.slots[slot as usize].record.span.start)
    }

    /// Unregisters every block.
    pub fn drop_all(&mut self)
        ensures { self.new ≡ record { live = []; queue = []; registered = self.old.registered; spare = self.old.spare + length self.old.live } }
    {
        while let Some(start) = self.first_start() {
            let _ = self.unregister(start);
        }
    }
}
