//! The blocks that wait: those that have enough references and aren't in the list yet.

ghost use Rattle.std.specs.Prelude.{IfNone, IfSome, false, ◌≡◌, ℕ, ◌+◌, ◌<◌, ◌≤◌, ◌^◌, true, length, List, ◌∷◌, if◌then◌else◌};
ghost use Rattle.std.specs.BinaryHeap.{IsHeap, KeepsHeap, heap_capacity, heap_items, heap_len};
ghost use Rattle.std.specs.List.Sorted.{IsPermutation};
ghost use Rattle.km_record.specs.Records.{minimum_of};
ghost use Rattle.km_model.specs.Memory.{base, index_of};
ghost use Rattle.km_model.specs.Blocks.{Block};
ghost use Rattle.km_model.specs.Members.{In};
ghost use Rattle.km_track.specs.Tracker.{AreRising, Live};
ghost use Rattle.km_why.specs.declared.counts.Count.{Count as Counted};
ghost use Rattle.km_why.specs.Counts.{count_at, raised};
ghost use Rattle.km_why.specs.Waiting.{ArePlaced, AreWaiting, CanWait, IsTaken, first_comes_first, is_ripening, is_waiting, key_of, live_as};

use crate::counts::{Count, raise};
use km_record::{Minimum, RecId, Record};
use std::cmp::Reverse;
use std::collections::BinaryHeap;
use std::mem::size_of;

/// A block that waits. The first in order of registration comes first.
pub type Waiting = (Reverse<u64>, u32);

const _: () = prove!(size_of::<Waiting>() == 16);

/// Whether a reference is the one that makes enough.
fn is_last(minimum: Minimum, found: u32) -> bool
    ensures { result ≡ is_ripening (minimum_of minimum) found }
{
    matches!(minimum, Minimum::AtLeast(n) if u32::from(n) == found)
}

/// A block waits from the reference on that makes enough.
pub fn notice(waiting: &mut BinaryHeap<Waiting>, id: RecId, minimum: Minimum, found: u32)
    requires room { is_ripening (minimum_of minimum) found ≡ true → heap_len waiting.old < heap_capacity waiting.old }
    ensures items { IsPermutation (if is_ripening (minimum_of minimum) found then key_of id ∷ heap_items waiting.old else heap_items waiting.old) (heap_items waiting.new) }
    ensures len { heap_len waiting.new ≡ (if is_ripening (minimum_of minimum) found then heap_len waiting.old + 1 else heap_len waiting.old) }
    ensures capacity { heap_capacity waiting.old ≤ heap_capacity waiting.new }
    ensures ordered { IsHeap first_comes_first (heap_items waiting.old) → IsHeap first_comes_first (heap_items waiting.new) }
{
    if is_last(minimum, found) {
        let _ = waiting.push((Reverse(id.generation), id.slot));
    }
}

/// Counts a reference to a live block, which waits from the one on that makes enough.
pub fn raise_block(
    counts: &mut Vec<Count>,
    waiting: &mut BinaryHeap<Waiting>,
    id: RecId,
    block: &Record,
)
    requires low { base ≤ block.now.span.start.0 }
    requires within { index_of block.now.span.start.0 < length counts.old.items }
    requires small { (count_at counts.old.items (index_of block.now.span.start.0)).found + 1 < 2 ^ 32 }
    requires room { CanWait counts.old.items (heap_items waiting.old) (heap_len waiting.old) (heap_capacity waiting.old) id block.now }
    ensures items { counts.new.items ≡ raised counts.old.items (index_of block.now.span.start.0) }
    ensures waits { (live : List Live) (high : ℕ) (members : List Block) → ArePlaced live high → In (live_as id block.now) live → AreWaiting live counts.old.items members (heap_items waiting.old) (heap_len waiting.old) (heap_capacity waiting.old) → AreWaiting live counts.new.items members (heap_items waiting.new) (heap_len waiting.new) (heap_capacity waiting.new) }
    ensures capacity { heap_capacity waiting.old ≤ heap_capacity waiting.new }
{
    let found = raise(counts, block.span.start);
    notice(waiting, id, block.minimum, found);
}

/// Takes the first block that waits.
pub fn take_first(waiting: &mut BinaryHeap<Waiting>) -> Option<RecId>
    ensures taken { IfSome result (λ id. (live : List Live) (high : ℕ) (counts : List Counted) (members : List Block) → AreRising 0 live high → AreWaiting live counts members (heap_items waiting.old) (heap_len waiting.old) (heap_capacity waiting.old) → IsTaken live counts members (heap_items waiting.new) (heap_len waiting.new) (heap_capacity waiting.new) (key_of id)) }
    ensures none { IfNone result ((live : List Live) (counts : List Counted) (members : List Block) → AreWaiting live counts members (heap_items waiting.old) (heap_len waiting.old) (heap_capacity waiting.old) → (l : Live) → In l live → is_waiting counts members l.tracked.block ≡ false) }
    ensures capacity { heap_capacity waiting.new ≡ heap_capacity waiting.old }
{
    let Some((Reverse(generation), slot)) = waiting.pop() else {
        return None;
    };
    Some(RecId { slot, generation })
}
