//! What a call changes in one record of the table.

ghost use Rattle.std.specs.Prelude.{IsTrue, OnErr, OnOk, ◌%◌, ℕ, ◌≤◌, ◌^◌, ◌⊎◌, [], ◌∷◌, ◌++◌, not, false, true, if◌then◌else◌, ◌&&◌, ◌≡◌, ◌+◌, ◌<◌, length, slice_set, vec_capacity};
ghost use Rattle.km_links.specs.Chains.{is_in, without};
ghost use Rattle.km_model.specs.Blocks.{contains, needs};
ghost use Rattle.km_model.specs.Scan.{differs};
ghost use Rattle.km_record.specs.Records.{IsSound, area_fault, block_of, unless_fault};
ghost use Rattle.km_state.specs.State.{is_white_now};
ghost use Rattle.km_track.specs.Tracker.{tracked_of};
ghost use Rattle.km_track.specs.Slots.{IsWithArea, IsPlaced, next_slot, slot_new, slot_at, slot_counted, slot_excess, slot_judged, slot_noted, slot_started, started_queue, started_slots, slot_summed, is_root as needs_none, requeued};

use km_base::{Addr, Span};
use km_links::{Links, Which};
use km_record::{AreaFault, Minimum, Note, Record};
use std::mem::size_of;

/// A record, and the number of the registration that it is or was of: 168 bytes.
#[derive(Clone, Copy, Debug, PartialEq)]
pub struct Slot {
    pub generation: u64,
    pub record: Record,
}

const _: () = prove!(size_of::<Slot>() == 168);

pub fn annotate(slots: &mut Vec<Slot>, n: u32, note: Note)
    requires { n < length slots.old.items }
    ensures items { slots.new.items ≡ slice_set slots.old.items n (slot_noted note (slot_at slots.old.items n)) }
    ensures capacity { vec_capacity slots.new ≡ vec_capacity slots.old }
{
    slots[n as usize].record.annotate(note);
}

pub fn set_excess(slots: &mut Vec<Slot>, n: u32, to: Addr)
    requires { n < length slots.old.items }
    ensures items { slots.new.items ≡ slice_set slots.old.items n (slot_excess to (slot_at slots.old.items n)) }
    ensures capacity { vec_capacity slots.new ≡ vec_capacity slots.old }
{
    slots[n as usize].record.excess = Some(to);
}

/// Keeps a verdict, and says whether the block is flagged by it for the first time.
pub fn judge(slots: &mut Vec<Slot>, n: u32, white: bool) -> bool
    requires { n < length slots.old.items }
    ensures answer { result ≡ (white && not (slot_at slots.old.items n).record.flagged) }
    ensures items { slots.new.items ≡ slice_set slots.old.items n (slot_judged white (slot_at slots.old.items n)) }
    ensures capacity { vec_capacity slots.new ≡ vec_capacity slots.old }
{
    let record = &mut slots[n as usize].record;
    let is_new = white && !record.flagged;
    record.flagged = white || record.flagged;
    record.white_last = white;
    is_new
}

/// Counts a reference to a white block, and says whether it has enough now.
pub fn count(slots: &mut Vec<Slot>, n: u32) -> bool
    requires within { n < length slots.old.items }
    requires white { is_white_now (tracked_of 0 (slot_at slots.old.items n).record) ≡ true }
    ensures answer { result ≡ needs ((slot_at slots.old.items n).record.count + 1) (block_of 0 (slot_at slots.old.items n).record) }
    ensures items { slots.new.items ≡ slice_set slots.old.items n (slot_counted (slot_at slots.old.items n)) }
    ensures capacity { vec_capacity slots.new ≡ vec_capacity slots.old }
{
    let record = &mut slots[n as usize].record;
    match record.minimum {
        Minimum::Black => false,
        Minimum::AtLeast(minimum) => {
            record.count += 1;
            record.count == minimum
        }
    }
}

/// Keeps a sum of a white block. Where it is another, the count becomes the minimum.
pub fn keep_sum(slots: &mut Vec<Slot>, n: u32, sum: u64) -> bool
    requires { n < length slots.old.items }
    ensures answer { result ≡ differs (slot_at slots.old.items n).record.sum sum }
    ensures items { slots.new.items ≡ slice_set slots.old.items n (slot_summed sum (slot_at slots.old.items n)) }
    ensures capacity { vec_capacity slots.new ≡ vec_capacity slots.old }
{
    let record = &mut slots[n as usize].record;
    let is_changed = record.sum != Some(sum);
    record.sum = Some(sum);
    if is_changed {
        record.count = match record.minimum {
            Minimum::Black => 0,
            Minimum::AtLeast(minimum) => minimum,
        };
    }
    is_changed
}

/// Sets the count of a block to 0, and says whether it needs no reference.
fn start(slots: &mut Vec<Slot>, n: u32) -> bool
    requires { n < length slots.old.items }
    ensures answer { result ≡ needs_none slots.old.items n }
    ensures items { slots.new.items ≡ slice_set slots.old.items n (slot_started (slot_at slots.old.items n)) }
    ensures capacity { vec_capacity slots.new ≡ vec_capacity slots.old }
{
    let record = &mut slots[n as usize].record;
    record.count = 0;
    match record.minimum {
        Minimum::Black => false,
        Minimum::AtLeast(minimum) => minimum == 0,
    }
}

/// Takes a slot out of the queue, and puts it at its end where it is to be there now.
fn requeue(links: &mut Links, slot: u32, now: bool)
    requires table { slot < links.old.capacity }
    ensures { links.new ≡ record links.old { grey = requeued now slot links.old.grey } }
{
    unqueue(links, slot);
    queue_where(links, slot, now);
}

/// Sets the count of each block in order to 0, and makes the queue of those that need no reference.
pub fn start_all(slots: &mut Vec<Slot>, links: &mut Links)
    requires within { (n : ℕ) → is_in n links.old.order ≡ true → n < length slots.old.items }
    requires table { (n : ℕ) → is_in n links.old.order ≡ true → n < links.old.capacity }
    ensures items { slots.new.items ≡ started_slots slots.old.items links.old.order }
    ensures links { links.new ≡ record links.old { grey = started_queue slots.old.items links.old.grey links.old.order } }
    ensures capacity { vec_capacity slots.new ≡ vec_capacity slots.old }
{
    let mut next = links.first(Which::Order);
    while let Some(n) = next {
        let is_root = start(slots, n);
        requeue(links, n, is_root);
        next = links.next(Which::Order, n);
    }
}

/// Puts a slot at the end of the queue, where it is to be there now.
pub fn queue_where(links: &mut Links, n: u32, now: bool)
    requires table { n < links.old.capacity }
    requires out { is_in n links.old.grey ≡ false }
    ensures { links.new ≡ record links.old { grey = if now then links.old.grey ++ n ∷ [] else links.old.grey } }
{
    if now {
        links.push_back(Which::Grey, n);
    }
}

/// Takes a slot out of the order and the queue, and gives it back.
pub fn release(links: &mut Links, n: u32)
    requires table { n < links.old.capacity }
    requires live { is_in n links.old.order ≡ true }
    requires out { is_in n links.old.free ≡ false }
    ensures { links.new ≡ record links.old { order = without n links.old.order; grey = without n links.old.grey; free = links.old.free ++ n ∷ [] } }
{
    links.unlink(Which::Order, n);
    unqueue(links, n);
    links.push_back(Which::Free, n);
}

/// Takes a slot out of the queue, if it is there.
fn unqueue(links: &mut Links, n: u32)
    ensures { links.new ≡ record links.old { grey = without n links.old.grey } }
{
    if !links.has(Which::Grey, n) {
        return;
    }
    links.unlink(Which::Grey, n);
}

/// A record of a block that was just registered.
pub fn fresh(generation: u64, span: Span, minimum: u8, born: u64) -> Slot
    ensures { result ≡ slot_new generation span minimum born }
{
    Slot {
        generation,
        record: Record {
            span,
            minimum: Minimum::AtLeast(minimum),
            count: 0,
            no_scan: false,
            flagged: false,
            white_last: false,
            areas: [None, None, None, None],
            excess: None,
            born,
            sum: None,
        },
    }
}

/// The slot of the next record: one that is free again, or else the next that was never used.
pub fn next(slots: &Vec<Slot>, links: &Links) -> u32
    requires small { length slots.now.items < 2 ^ 32 }
    ensures { result ≡ next_slot slots.now.items links.now.free }
{
    match links.first(Which::Free) {
        Some(n) => n,
        None => slots.len() as u32,
    }
}

/// Puts the next record into its slot.
pub fn place(slots: &mut Vec<Slot>, links: &mut Links, x: Slot)
    requires used { (n : ℕ) → is_in n links.old.free ≡ true → n < length slots.old.items }
    requires room { links.old.free ≡ [] → length slots.old.items < vec_capacity slots.old }
    ensures placed { IsPlaced slots.old.items slots.new.items links.old.free links.new.free (next_slot slots.old.items links.old.free) x }
    ensures out { is_in (next_slot slots.old.items links.old.free) links.new.free ≡ false ⊎ (links.old.free ≡ []) }
    ensures others { links.new ≡ record links.old { free = links.new.free } }
    ensures capacity { vec_capacity slots.old ≤ vec_capacity slots.new }
{
    if let Some(n) = links.pop_front(Which::Free) {
        slots[n as usize] = x;
        return;
    }
    let Ok(()) = slots.push(x) else {
        unreachable!()
    };
}

/// Adds an area to a block.
pub fn add_area(slots: &mut Vec<Slot>, n: u32, area: Span) -> Result<(), AreaFault>
    requires within { n < length slots.old.items }
    requires sound { IsSound (slot_at slots.old.items n).record }
    requires start { area.start.0 % 8 ≡ 0 }
    requires size { area.size % 8 ≡ 0 }
    requires sized { 0 < area.size }
    requires inside { IsTrue (contains area.start.0 (block_of 0 (slot_at slots.old.items n).record)) }
    ensures answer { result ≡ unless_fault (area_fault (block_of 0 (slot_at slots.old.items n).record) area.start.0 area.size) }
    ensures refused { OnErr result (slots.new.items ≡ slots.old.items) }
    ensures items { OnOk result (IsWithArea area slots.old.items slots.new.items n) }
    ensures capacity { vec_capacity slots.new ≡ vec_capacity slots.old }
{
    slots[n as usize].record.add_area(area)
}
