//! The references to each block that were found so far.

ghost use Rattle.std.specs.Prelude.{IfOk, ◌≡◌, ℕ, ◌+◌, ◌*◌, ◌<◌, ◌≤◌, ◌^◌, false, true, List, [], ◌∷◌, ◌++◌, length, slice_set, flat_map, option_map, IfSome, IfNone};
ghost use Rattle.km_base.specs.declared.sizes.TheConstants.{MOST_WORDS, PAGE, PAGE_WORDS};
ghost use Rattle.km_model.specs.Memory.{base, in_memory as is_word, index_of, words_from};
ghost use Rattle.km_base.specs.declared.spans.Span.{Span as Bytes};
ghost use Rattle.km_model.specs.Blocks.{Block, block_at, is_within, scanned_words};
ghost use Rattle.km_model.specs.Members.{Each, In, Pairs};
ghost use Rattle.km_model.specs.Scan.{excess_block};
ghost use Rattle.km_model.specs.Tasks.{Task, stack_words};
ghost use Rattle.km_record.specs.Records.{IsLaid, IsSound, block_of};
ghost use Rattle.std.specs.BinaryHeap.{heap_capacity, heap_items, heap_len};
ghost use Rattle.km_track.specs.Tracker.{AreRising, Live, NeverMeet};
ghost use Rattle.km_why.specs.Waiting.{ArePlaced, AreWaiting, CanCount, CanWait, HaveMembers, live_as};
ghost use Rattle.km_why.specs.Told.{IsInMemory, IsOfWords, TellsSame, blocks_of, memory_of};
ghost use Rattle.km_why.specs.Counts.{AreCounted, AreSpread, IsReferred, added, count_at, counted_in, none_found, passed_in, raised};
ghost use Rattle.km_why.specs.References.{refers_to, span_of};

use crate::lacking::has;
use crate::waiting::{Waiting, raise_block};
use km_base::sizes::{BASE, PAGE_WORDS};
use km_base::{Addr, NoMemory, Span, untag};
use km_map::ObjectMap;
use km_record::{Minimum, RecId, Record};
use km_tasks::Tasks;
use km_track::Track;
use km_words::Words;
use std::alloc::Global;
use std::collections::BinaryHeap;

/// The references to a block that were found so far, those passed on to it among them; and, of a head, those that aren't
/// in the block to which they are passed on.
#[derive(Clone, Copy)]
pub struct Count {
    pub found: u32,
    pub outside: u32,
}

/// The place of the block that begins at a word.
pub fn place(start: Addr) -> usize
    requires { base ≤ start.0 }
    ensures { result ≡ index_of start.0 }
{
    ((start.0 - BASE) / 8) as usize
}

/// A table with a place for each of so many words.
pub fn new_counts(alloc: Global, capacity: u32) -> Result<Vec<Count>, NoMemory>
    ensures { IfOk result (λ counts. length counts.items ≡ capacity) }
{
    let none = Count {
        found: 0,
        outside: 0,
    };
    match vec![in alloc; none; capacity as usize] {
        Ok(counts) => Ok(counts),
        Err(_) => Err(NoMemory),
    }
}

/// Nothing is found at the block that begins at a word.
fn reset(counts: &mut Vec<Count>, start: Addr)
    requires low { base ≤ start.0 }
    requires within { index_of start.0 < length counts.old.items }
    ensures { counts.new.items ≡ slice_set counts.old.items (index_of start.0) none_found }
{
    counts[place(start)] = Count {
        found: 0,
        outside: 0,
    };
}

/// Nothing is found at any live block.
pub fn clear<M: ObjectMap>(counts: &mut Vec<Count>, track: &Track<M>)
    requires { Each (λ (b : Block). IsInMemory (length counts.old.items) b.start b.size) (blocks_of track.now) }
    ensures counted { (memory : List ℕ) → AreCounted memory (blocks_of track.now) [] counts.new.items }
    ensures long { length counts.new.items ≡ length counts.old.items }
    ensures rising { AreRising 0 track.now.live track.now.registered }
    ensures apart { NeverMeet track.now.live }
{
    let mut next = track.first();
    while let Some(id) = next {
        let Some(block) = track.record(id) else {
            unreachable!()
        };
        reset(counts, block.span.start);
        next = track.next(id);
    }
}

/// Counts a reference to the block that begins at a word, and tells how many there are.
pub fn raise(counts: &mut Vec<Count>, start: Addr) -> u32
    requires low { base ≤ start.0 }
    requires within { index_of start.0 < length counts.old.items }
    requires small { (count_at counts.old.items (index_of start.0)).found + 1 < 2 ^ 32 }
    ensures found { result ≡ (count_at counts.old.items (index_of start.0)).found + 1 }
    ensures items { counts.new.items ≡ raised counts.old.items (index_of start.0) }
{
    let count = &mut counts[place(start)];
    count.found += 1;
    count.found
}

/// Counts a reference that the head that begins at a word may pass on, and tells how many there are.
pub fn add_outside(counts: &mut Vec<Count>, start: Addr) -> u32
    requires low { base ≤ start.0 }
    requires within { index_of start.0 < length counts.old.items }
    requires small { (count_at counts.old.items (index_of start.0)).outside + 1 < 2 ^ 32 }
    ensures outside { result ≡ (count_at counts.old.items (index_of start.0)).outside + 1 }
    ensures items { counts.new.items ≡ added counts.old.items (index_of start.0) }
{
    let count = &mut counts[place(start)];
    count.outside += 1;
    count.outside
}

/// Counts what the head that begins at a word passes on by a word at an address to a live block.
fn pass_on(
    counts: &mut Vec<Count>,
    waiting: &mut BinaryHeap<Waiting>,
    head: Addr,
    min: u8,
    id: RecId,
    to: &Record,
    a: Addr,
)
    requires low { base ≤ head.0 }
    requires within { index_of head.0 < length counts.old.items }
    requires small { (count_at counts.old.items (index_of head.0)).outside + 1 < 2 ^ 32 }
    requires to_low { base ≤ to.now.span.start.0 }
    requires to_within { index_of to.now.span.start.0 < length counts.old.items }
    requires to_small { (count_at counts.old.items (index_of to.now.span.start.0)).found + 1 < 2 ^ 32 }
    requires room { CanWait counts.old.items (heap_items waiting.old) (heap_len waiting.old) (heap_capacity waiting.old) id to.now }
    ensures items { (e : Block) → span_of e ≡ to.now.span → counts.new.items ≡ passed_in counts.old.items a.0 (index_of head.0) min e }
    ensures waits { (live : List Live) (high : ℕ) (members : List Block) → ArePlaced live high → In (live_as id to.now) live → AreWaiting live counts.old.items members (heap_items waiting.old) (heap_len waiting.old) (heap_capacity waiting.old) → AreWaiting live counts.new.items members (heap_items waiting.new) (heap_len waiting.new) (heap_capacity waiting.new) }
    ensures capacity { heap_capacity waiting.old ≤ heap_capacity waiting.new }
{
    if has(to.span, a.0) {
        return;
    }
    let outside = add_outside(counts, head);
    if outside > u32::from(min) {
        raise_block(counts, waiting, id, to);
    }
}

/// The block that begins at an address.
fn beginning_at<M: ObjectMap>(track: &Track<M>, start: Addr) -> Option<(RecId, &Record)>
    ensures block { option_map (λ r. r.1.now.span) result ≡ option_map span_of (block_at (blocks_of track.now) start.0) }
    ensures there { IfSome result (λ r. In (live_as r.0 r.1.now) track.now.live) }
{
    let id = track.starting_at(start)?;
    let record = track.record(id)?;
    Some((id, record))
}

/// Whether a byte is in a memory of so many words.
fn is_inside(words: u64, a: u64) -> bool
    ensures { result ≡ is_within base (8 * words) a }
{
    BASE <= a && (a - BASE) / 8 < words
}

/// The block into which a word at an address points from outside, in a memory of so many words.
fn referred<M: ObjectMap>(
    track: &Track<M>,
    words: u64,
    a: Addr,
    value: u64,
) -> Option<(RecId, &Record)>
    requires { AreSpread words track.now }
    ensures some { IfSome result (λ r. IsReferred (blocks_of track.now) a.0 value r.1.now) }
    ensures there { IfSome result (λ r. In (live_as r.0 r.1.now) track.now.live × AreRising 0 track.now.live track.now.registered) }
    ensures none { IfNone result ((c : Block) (but : Bytes) → In c (blocks_of track.now) → refers_to (span_of c) but a.0 value ≡ false) }
{
    let target = untag(value);
    if !is_inside(words, target) {
        return None;
    }
    let Some(id) = track.look(Addr(target)) else {
        return None;
    };
    let Some(block) = track.record(id) else {
        return None;
    };
    if has(block.span, a.0) {
        return None;
    }
    Some((id, block))
}

/// Counts the reference that a word outside a block is to it, and what the block passes on.
fn hit<M: ObjectMap>(
    counts: &mut Vec<Count>,
    waiting: &mut BinaryHeap<Waiting>,
    track: &Track<M>,
    a: Addr,
    id: RecId,
    block: &Record,
)
    requires there { In (live_as id block.now) track.now.live }
    requires placed { ArePlaced track.now.live track.now.registered }
    requires live { (id : ℕ) × In (block_of id block.now) (blocks_of track.now) }
    requires aligned { Each (λ (b : Block). base ≤ b.start) (blocks_of track.now) }
    requires room { (b : Block) → In b (blocks_of track.now) → index_of b.start < length counts.old.items }
    requires small { (b : Block) → In b (blocks_of track.now) → ((count_at counts.old.items (index_of b.start)).found + 2 < 2 ^ 32) × ((count_at counts.old.items (index_of b.start)).outside + 1 < 2 ^ 32) }
    requires waits { HaveMembers track.now.live counts.old.items (heap_items waiting.old) (heap_len waiting.old) (heap_capacity waiting.old) }
    ensures items { (n : ℕ) → counts.new.items ≡ counted_in counts.old.items a.0 (block_of n block.now) (excess_block (blocks_of track.now) (block_of n block.now)) }
    ensures waits { (members : List Block) → AreWaiting track.now.live counts.old.items members (heap_items waiting.old) (heap_len waiting.old) (heap_capacity waiting.old) → AreWaiting track.now.live counts.new.items members (heap_items waiting.new) (heap_len waiting.new) (heap_capacity waiting.new) }
    ensures capacity { heap_capacity waiting.old ≤ heap_capacity waiting.new }
{
    raise_block(counts, waiting, id, block);
    let Minimum::AtLeast(min) = block.minimum else {
        return;
    };
    let Some(to) = block.excess else {
        return;
    };
    if let Some((to_id, to)) = beginning_at(track, to) {
        pass_on(counts, waiting, block.span.start, min, to_id, to, a);
    }
}

/// Loads a word, and counts the reference that it is.
fn count_word<M: ObjectMap, W: Words>(
    counts: &mut Vec<Count>,
    waiting: &mut BinaryHeap<Waiting>,
    track: &Track<M>,
    words: &mut W,
    a: Addr,
)
    requires can { CanCount (W.told words.old) track.now counts.old.items (heap_items waiting.old) (heap_len waiting.old) (heap_capacity waiting.old) (a.0 ∷ []) }
    requires word { is_word (W.told words.old).size a.0 ≡ true }
    ensures counted { (ws : List ℕ) → AreCounted (memory_of (W.told words.old)) (blocks_of track.now) ws counts.old.items → AreCounted (memory_of (W.told words.old)) (blocks_of track.now) (ws ++ a.0 ∷ []) counts.new.items }
    ensures long { length counts.new.items ≡ length counts.old.items }
    ensures waits { (members : List Block) → AreWaiting track.now.live counts.old.items members (heap_items waiting.old) (heap_len waiting.old) (heap_capacity waiting.old) → AreWaiting track.now.live counts.new.items members (heap_items waiting.new) (heap_len waiting.new) (heap_capacity waiting.new) }
    ensures capacity { heap_capacity waiting.old ≤ heap_capacity waiting.new }
    ensures told { TellsSame (W.told words.old) (W.told words.new) }
{
    let value = words.load(a);
    if let Some((id, block)) = referred(track, words.words(), a, value) {
        hit(counts, waiting, track, a, id, block);
    }
}

/// Counts the references in the scanned words of a block.
pub fn count_block<M: ObjectMap, W: Words>(
    counts: &mut Vec<Count>,
    waiting: &mut BinaryHeap<Waiting>,
    track: &Track<M>,
    words: &mut W,
    block: &Record,
)
    requires can { CanCount (W.told words.old) track.now counts.old.items (heap_items waiting.old) (heap_len waiting.old) (heap_capacity waiting.old) (scanned_words (block_of 0 block.now)) }
    requires sound { IsSound block.now }
    requires within { IsInMemory (W.told words.old).size block.now.span.start.0 block.now.span.size }
    requires aligned { IsOfWords block.now.span.start.0 block.now.span.size }
    ensures counted { (ws : List ℕ) → AreCounted (memory_of (W.told words.old)) (blocks_of track.now) ws counts.old.items → AreCounted (memory_of (W.told words.old)) (blocks_of track.now) (ws ++ scanned_words (block_of 0 block.now)) counts.new.items }
    ensures long { length counts.new.items ≡ length counts.old.items }
    ensures waits { (members : List Block) → AreWaiting track.now.live counts.old.items members (heap_items waiting.old) (heap_len waiting.old) (heap_capacity waiting.old) → AreWaiting track.now.live counts.new.items members (heap_items waiting.new) (heap_len waiting.new) (heap_capacity waiting.new) }
    ensures capacity { heap_capacity waiting.old ≤ heap_capacity waiting.new }
    ensures told { TellsSame (W.told words.old) (W.told words.new) }
{
    let mut from = 0;
    while let Some(i) = block.next_word(from) {
        count_word(
            counts,
            waiting,
            track,
            words,
            Addr(block.span.start.0 + 8 * i),
        );
        from = i + 1;
    }
}

/// Counts the references in the words of a stack.
fn count_stack<M: ObjectMap, W: Words>(
    counts: &mut Vec<Count>,
    waiting: &mut BinaryHeap<Waiting>,
    track: &Track<M>,
    words: &mut W,
    stack: Addr,
)
    requires can { CanCount (W.told words.old) track.now counts.old.items (heap_items waiting.old) (heap_len waiting.old) (heap_capacity waiting.old) (words_from PAGE_WORDS stack.0) }
    requires within { IsInMemory (W.told words.old).size stack.0 PAGE }
    requires aligned { IsOfWords stack.0 PAGE }
    requires small { (W.told words.old).size ≤ MOST_WORDS }
    ensures counted { (ws : List ℕ) → AreCounted (memory_of (W.told words.old)) (blocks_of track.now) ws counts.old.items → AreCounted (memory_of (W.told words.old)) (blocks_of track.now) (ws ++ words_from PAGE_WORDS stack.0) counts.new.items }
    ensures long { length counts.new.items ≡ length counts.old.items }
    ensures waits { (members : List Block) → AreWaiting track.now.live counts.old.items members (heap_items waiting.old) (heap_len waiting.old) (heap_capacity waiting.old) → AreWaiting track.now.live counts.new.items members (heap_items waiting.new) (heap_len waiting.new) (heap_capacity waiting.new) }
    ensures capacity { heap_capacity waiting.old ≤ heap_capacity waiting.new }
    ensures told { TellsSame (W.told words.old) (W.told words.new) }
{
    for i in 0..PAGE_WORDS {
        count_word(counts, waiting, track, words, Addr(stack.0 + 8 * i));
    }
}

/// Counts the references in the stacks of the live tasks.
pub fn count_stacks<M: ObjectMap, W: Words>(
    counts: &mut Vec<Count>,
    waiting: &mut BinaryHeap<Waiting>,
    track: &Track<M>,
    tasks: &Tasks,
    words: &mut W,
)
    requires can { CanCount (W.told words.old) track.now counts.old.items (heap_items waiting.old) (heap_len waiting.old) (heap_capacity waiting.old) (flat_map stack_words tasks.now.tasks) }
    requires within { Each (λ (t : Task). IsInMemory (W.told words.old).size t.stack PAGE × IsOfWords t.stack PAGE) tasks.now.tasks }
    requires small { (W.told words.old).size ≤ MOST_WORDS }
    ensures counted { (ws : List ℕ) → AreCounted (memory_of (W.told words.old)) (blocks_of track.now) ws counts.old.items → AreCounted (memory_of (W.told words.old)) (blocks_of track.now) (ws ++ flat_map stack_words tasks.now.tasks) counts.new.items }
    ensures long { length counts.new.items ≡ length counts.old.items }
    ensures waits { (members : List Block) → AreWaiting track.now.live counts.old.items members (heap_items waiting.old) (heap_len waiting.old) (heap_capacity waiting.old) → AreWaiting track.now.live counts.new.items members (heap_items waiting.new) (heap_len waiting.new) (heap_capacity waiting.new) }
    ensures capacity { heap_capacity waiting.old ≤ heap_capacity waiting.new }
    ensures told { TellsSame (W.told words.old) (W.told words.new) }
{
    let mut last = 0;
    while let Some((number, stack)) = tasks.next_after(last) {
        count_stack(counts, waiting, track, words, stack.start);
        last = number;
    }
}
