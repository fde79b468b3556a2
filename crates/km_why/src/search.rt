//! The search for a list: the blocks that need no reference, and then again and again the first that has enough.

ghost use Rattle.std.specs.Prelude.{◌≡◌, ℕ, ◌+◌, ◌<◌, ◌≤◌, ◌&&◌, ◌==◌, true, false, List, [], ◌∷◌, ◌++◌, length, filter, Some, vec_len, vec_capacity};
ghost use Rattle.std.specs.BinaryHeap.{heap_capacity, heap_items, heap_len};
ghost use Rattle.km_base.specs.declared.sizes.TheConstants.{MOST_WORDS};
ghost use Rattle.km_model.specs.Blocks.{Block, needs, references_of};
ghost use Rattle.km_model.specs.Memory.{base, index_of};
ghost use Rattle.km_model.specs.Tasks.{Task};
ghost use Rattle.km_certificates.specs.Certificates.{is_member};
ghost use Rattle.km_record.specs.Records.{block_of};
ghost use Rattle.km_track.specs.Tracker.{Live, live_with};
ghost use Rattle.km_why.specs.Counts.{count_at};
ghost use Rattle.km_why.specs.Search.{CanList, CanListRoot, CanSearch, HasAppended, HasBegun, HasListed, HasPlaces, HasRoots, HaveRoots, IsAnswered, KeepsPlaces};
ghost use Rattle.km_why.specs.Told.{AreLaidOut, TellsAll, TellsSame, blocks_of, memory_of, stacks_of};

use crate::counts::{Count, clear, count_block, count_stacks, place};
use crate::waiting::{Waiting, take_first};
use km_base::Addr;
use km_map::ObjectMap;
use km_record::{Minimum, RecId, Record};
use km_tasks::Tasks;
use km_track::Track;
use km_words::Words;
use std::collections::BinaryHeap;
use std::mem::size_of;

/// A member of a list: a block with the references to it from the stacks and from the members before it.
#[derive(Clone, Copy, Debug, PartialEq)]
pub struct Member {
    pub id: RecId,
    pub start: Addr,
    pub min: u8,
    pub found: u64,
}

const _: () = prove!(size_of::<Member>() + size_of::<Waiting>() + size_of::<Count>() == 64);

/// What is counted, what waits and what is listed.
#[derive(Drop)]
pub struct Search {
    pub counts: Vec<Count>,
    pub waiting: BinaryHeap<Waiting>,
    pub members: Vec<Member>,
}

/// How many references a block needs, none if it is black.
fn needed(block: &Record) -> u8
    ensures { result ≡ references_of (block_of 0 block.now) }
{
    match block.minimum {
        Minimum::Black => 0,
        Minimum::AtLeast(n) => n,
    }
}

/// Whether a block needs no reference.
fn is_root(block: &Record) -> bool
    ensures { result ≡ needs 0 (block_of 0 block.now) }
{
    matches!(block.minimum, Minimum::AtLeast(0))
}

/// A block with the references to it that were counted.
fn member_of(search: &Search, id: RecId, block: &Record) -> Member
    requires low { base ≤ block.now.span.start.0 }
    requires within { index_of block.now.span.start.0 < length search.now.counts.items }
    ensures { result ≡ record { id = id; start = block.now.span.start; min = references_of (block_of 0 block.now); found = (count_at search.now.counts.items (index_of block.now.span.start.0)).found } }
{
    Member {
        id,
        start: block.span.start,
        min: needed(block),
        found: u64::from(search.counts[place(block.span.start)].found),
    }
}

/// Nothing is listed, and of the references those from the stacks are counted, if they are scanned.
pub fn begin<M: ObjectMap, W: Words>(
    search: &mut Search,
    track: &Track<M>,
    tasks: &Tasks,
    stacks: bool,
    words: &mut W,
)
    requires told { TellsAll (W.told words.old) }
    requires small { (W.told words.old).size ≤ MOST_WORDS }
    requires laid { AreLaidOut (W.told words.old).size (blocks_of track.now) tasks.now.tasks }
    requires places { HasPlaces (W.told words.old).size search.old }
    ensures can { CanSearch (W.told words.new) track.now }
    ensures begun { HasListed track.now (stacks_of stacks tasks.now.tasks) (memory_of (W.told words.old)) search.new [] [] }
    ensures places { KeepsPlaces search.old search.new }
    ensures told { TellsSame (W.told words.old) (W.told words.new) }
{
    search.members.clear();
    search.waiting.clear();
    clear(&mut search.counts, track);
    if !stacks {
        return;
    }
    count_stacks(&mut search.counts, &mut search.waiting, track, tasks, words);
}

/// Lists a live block, and tells whether it is the one that is sought. If it isn't, the references in its words are
/// counted.
fn append<M: ObjectMap, W: Words>(
    search: &mut Search,
    track: &Track<M>,
    words: &mut W,
    id: RecId,
    sought: RecId,
) -> bool
    requires can { CanSearch (W.told words.old) track.now }
    requires next { CanList track.now (memory_of (W.told words.old)) search.old id }
    ensures answer { result ≡ (id.generation == sought.generation) }
    ensures listed { (stacks : List Task) (listed : List Block) (l : Live) → live_with id track.now ≡ Some l → HasListed track.now stacks (memory_of (W.told words.old)) search.old listed (listed ++ l.tracked.block ∷ []) → HasAppended track.now stacks (memory_of (W.told words.old)) search.new (listed ++ l.tracked.block ∷ []) result }
    ensures places { KeepsPlaces search.old search.new }
    ensures len { vec_len search.new.members ≡ vec_len search.old.members + 1 }
    ensures told { TellsSame (W.told words.old) (W.told words.new) }
{
    let Some(block) = track.record(id) else {
        unreachable!()
    };
    let member = member_of(search, id, block);
    search.members.push_reserved(member);
    if id.generation == sought.generation {
        return true;
    }
    count_block(&mut search.counts, &mut search.waiting, track, words, block);
    false
}

/// Lists a live block if it needs no reference, and tells whether it is then the one that is sought.
fn list_root<M: ObjectMap, W: Words>(
    search: &mut Search,
    track: &Track<M>,
    words: &mut W,
    id: RecId,
    sought: RecId,
) -> bool
    requires can { CanSearch (W.told words.old) track.now }
    requires next { CanListRoot track.now (memory_of (W.told words.old)) search.old id }
    ensures answer { (l : Live) → live_with id track.now ≡ Some l → result ≡ (needs 0 l.tracked.block && (l.tracked.block.id == sought.generation)) }
    ensures listed { (stacks : List Task) (roots : List Block) (l : Live) → live_with id track.now ≡ Some l → (needs 0 l.tracked.block ≡ true → is_member roots l.tracked.block ≡ false) → HasListed track.now stacks (memory_of (W.told words.old)) search.old roots roots → HasAppended track.now stacks (memory_of (W.told words.old)) search.new (roots ++ filter (needs 0) (l.tracked.block ∷ [])) result }
    ensures places { KeepsPlaces search.old search.new }
    ensures told { TellsSame (W.told words.old) (W.told words.new) }
{
    let Some(block) = track.record(id) else {
        unreachable!()
    };
    if !is_root(block) {
        return false;
    }
    append(search, track, words, id, sought)
}

/// Lists the blocks that need no reference, in order of registration, up to the one that is sought. Tells whether that
/// is among them.
pub fn list_roots<M: ObjectMap, W: Words>(
    search: &mut Search,
    track: &Track<M>,
    words: &mut W,
    sought: RecId,
) -> bool
    requires can { CanSearch (W.told words.old) track.now }
    requires begun { HasBegun track.now (memory_of (W.told words.old)) search.old }
    ensures found { (stacks : List Task) → HasListed track.now stacks (memory_of (W.told words.old)) search.old [] [] → result ≡ true → IsAnswered track.now stacks (memory_of (W.told words.old)) search.new.members.items sought.generation true }
    ensures others { (stacks : List Task) → HasListed track.now stacks (memory_of (W.told words.old)) search.old [] [] → result ≡ false → HasRoots track.now stacks (memory_of (W.told words.old)) search.new sought.generation }
    ensures places { KeepsPlaces search.old search.new }
    ensures told { TellsSame (W.told words.old) (W.told words.new) }
{
    let mut next = track.first();
    while let Some(id) = next {
        if list_root(search, track, words, id, sought) {
            return true;
        }
        next = track.next(id);
    }
    false
}

/// Lists again and again the first block that has enough references, up to the one that is sought. Tells whether it
/// comes.
pub fn list_others<M: ObjectMap, W: Words>(
    search: &mut Search,
    track: &Track<M>,
    words: &mut W,
    sought: RecId,
) -> bool
    requires can { CanSearch (W.told words.old) track.now }
    requires roots { HaveRoots track.now (memory_of (W.told words.old)) search.old sought.generation }
    ensures answer { (stacks : List Task) → HasRoots track.now stacks (memory_of (W.told words.old)) search.old sought.generation → IsAnswered track.now stacks (memory_of (W.told words.old)) search.new.members.items sought.generation result }
    ensures places { KeepsPlaces search.old search.new }
    ensures told { TellsSame (W.told words.old) (W.told words.new) }
{
    while let Some(id) = take_first(&mut search.waiting) {
        if append(search, track, words, id, sought) {
            return true;
        }
    }
    false
}
