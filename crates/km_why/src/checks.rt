//! A check of a list: each reference is counted anew.

ghost use Rattle.std.specs.Prelude.{◌≡◌, ◌+◌, ◌-◌, ◌<◌, ◌≤◌, ◌^◌, ◌&&◌, ◌==◌, not, [], true, length, nat_le, sum_by, Some};
ghost use Rattle.std.specs.List.{list_any, All};
ghost use Rattle.km_base.specs.declared.sizes.TheConstants.{MOST_WORDS};
ghost use Rattle.km_certificates.specs.Certificates.{first_unfit};
ghost use Rattle.km_model.specs.Blocks.{Block};
ghost use Rattle.km_model.specs.Members.{In};
ghost use Rattle.km_record.specs.declared.kinds.RecId.{RecId as RecordId};
ghost use Rattle.km_record.specs.Records.{IsSound, block_of};
ghost use Rattle.km_track.specs.Tracker.{is_live};
ghost use Rattle.km_why.specs.References.{is_enough, passed_to, references, sources};
ghost use Rattle.km_why.specs.Told.{AreLaidOut, AreReadable, TellsAll, TellsSame, block_by, blocks_by, blocks_of, memory_of, stacks_of, standing_of};

use crate::lacking::{Aim, in_sources};
use km_base::Span;
use km_map::ObjectMap;
use km_record::{Minimum, RecId, Record};
use km_tasks::Tasks;
use km_track::Track;
use km_words::Words;

/// What is lacking after the references beyond the first ones.
fn beyond<M: ObjectMap, W: Words>(
    track: &Track<M>,
    tasks: &Tasks,
    stacks: bool,
    words: &mut W,
    before: &[RecId],
    aim: Aim,
    own: u8,
    wanted: u64,
) -> u64
    requires few { wanted ≤ 255 }
    requires readable { AreReadable (W.told words.old) (blocks_of track.now) tasks.now.tasks }
    ensures lacking { result ≡ wanted - (references (memory_of (W.told words.old)) aim.target aim.but (sources (stacks_of stacks tasks.now.tasks) (blocks_by track.now before.now)) - own) }
    ensures told { TellsSame (W.told words.old) (W.told words.new) }
{
    let lacking = in_sources(
        track,
        tasks,
        stacks,
        words,
        before,
        aim,
        u64::from(own) + wanted,
    );
    lacking.min(wanted)
}

/// What is lacking after the references that a head passes on to the block with a span.
fn after_head<M: ObjectMap, W: Words>(
    track: &Track<M>,
    tasks: &Tasks,
    stacks: bool,
    words: &mut W,
    before: &[RecId],
    head: &Record,
    to: Span,
    wanted: u64,
) -> u64
    requires few { wanted ≤ 255 }
    requires readable { AreReadable (W.told words.old) (blocks_of track.now) tasks.now.tasks }
    ensures lacking { result ≡ wanted - passed_to (memory_of (W.told words.old)) (sources (stacks_of stacks tasks.now.tasks) (blocks_by track.now before.now)) to (block_of 0 head.now) }
    ensures told { TellsSame (W.told words.old) (W.told words.new) }
{
    if head.excess != Some(to.start) {
        return wanted;
    }
    let Minimum::AtLeast(minimum) = head.minimum else {
        return wanted;
    };
    let aim = Aim {
        target: head.span,
        but: to,
    };
    beyond(track, tasks, stacks, words, before, aim, minimum, wanted)
}

/// What is lacking after the references that all heads pass on to the block with a span.
fn after_heads<M: ObjectMap, W: Words>(
    track: &Track<M>,
    tasks: &Tasks,
    stacks: bool,
    words: &mut W,
    before: &[RecId],
    to: Span,
    wanted: u64,
) -> u64
    requires few { wanted ≤ 255 }
    requires readable { AreReadable (W.told words.old) (blocks_of track.now) tasks.now.tasks }
    ensures lacking { result ≡ wanted - sum_by (passed_to (memory_of (W.told words.old)) (sources (stacks_of stacks tasks.now.tasks) (blocks_by track.now before.now)) to) (blocks_of track.now) }
    ensures told { TellsSame (W.told words.old) (W.told words.new) }
{
    let mut lacking = wanted;
    let mut next = track.first();
    while let Some(id) = next {
        let Some(head) = track.record(id) else {
            unreachable!()
        };
        lacking = after_head(track, tasks, stacks, words, before, head, to, lacking);
        next = track.next(id);
    }
    lacking
}

/// Whether a live block isn't black and has as many references as it needs.
fn has_enough<M: ObjectMap, W: Words>(
    track: &Track<M>,
    tasks: &Tasks,
    stacks: bool,
    words: &mut W,
    before: &[RecId],
    id: RecId,
) -> bool
    requires { AreReadable (W.told words.old) (blocks_of track.now) tasks.now.tasks }
    ensures enough { (b : Block) → block_by track.now id ≡ Some b → result ≡ is_enough (memory_of (W.told words.old)) (blocks_of track.now) (sources (stacks_of stacks tasks.now.tasks) (blocks_by track.now before.now)) b }
    ensures told { TellsSame (W.told words.old) (W.told words.new) }
{
    let Some(block) = track.record(id) else {
        return false;
    };
    let Minimum::AtLeast(minimum) = block.minimum else {
        return false;
    };
    if minimum == 0 {
        return true;
    }
    lacks_none(track, tasks, stacks, words, before, block.span, minimum)
}

/// Whether there are as many references to a span as are needed.
fn lacks_none<M: ObjectMap, W: Words>(
    track: &Track<M>,
    tasks: &Tasks,
    stacks: bool,
    words: &mut W,
    before: &[RecId],
    span: Span,
    needed: u8,
) -> bool
    requires { AreReadable (W.told words.old) (blocks_of track.now) tasks.now.tasks }
    ensures none { result ≡ nat_le needed (references (memory_of (W.told words.old)) span span (sources (stacks_of stacks tasks.now.tasks) (blocks_by track.now before.now)) + sum_by (passed_to (memory_of (W.told words.old)) (sources (stacks_of stacks tasks.now.tasks) (blocks_by track.now before.now)) span) (blocks_of track.now)) }
    ensures told { TellsSame (W.told words.old) (W.told words.new) }
{
    let aim = Aim {
        target: span,
        but: span,
    };
    let lacking = in_sources(track, tasks, stacks, words, before, aim, u64::from(needed));
    after_heads(track, tasks, stacks, words, before, span, lacking) == 0
}

/// Whether a registration is one of these.
fn is_among(before: &[RecId], id: RecId) -> bool
    ensures { result ≡ list_any (λ x. x.generation == id.generation) before.now }
{
    before.iter().any(|x| x.generation == id.generation)
}

/// Whether a live block may follow these.
fn may_follow<M: ObjectMap, W: Words>(
    track: &Track<M>,
    tasks: &Tasks,
    stacks: bool,
    words: &mut W,
    before: &[RecId],
    id: RecId,
) -> bool
    requires { AreReadable (W.told words.old) (blocks_of track.now) tasks.now.tasks }
    ensures may { (b : Block) → block_by track.now id ≡ Some b → result ≡ (not (list_any (λ x. x.generation == id.generation) before.now) && is_enough (memory_of (W.told words.old)) (blocks_of track.now) (sources (stacks_of stacks tasks.now.tasks) (blocks_by track.now before.now)) b) }
    ensures told { TellsSame (W.told words.old) (W.told words.new) }
{
    if is_among(before, id) {
        return false;
    }
    has_enough(track, tasks, stacks, words, before, id)
}

/// The place, from 1, of the first of these live blocks that is repeated, or that the stacks and the blocks before it
/// don't hold.
pub fn check<M: ObjectMap, W: Words>(
    track: &Track<M>,
    tasks: &Tasks,
    stacks: bool,
    words: &mut W,
    list: &[RecId],
) -> Option<u32>
    requires live { (id : RecordId) → In id list.now → is_live id track.now ≡ true }
    requires few { length list.now < 2 ^ 32 - 1 }
    requires told { TellsAll (W.told words.old) }
    requires small { (W.told words.old).size ≤ MOST_WORDS }
    requires laid { AreLaidOut (W.told words.old).size (blocks_of track.now) tasks.now.tasks }
    ensures answer { result ≡ first_unfit (standing_of track.now tasks.now.tasks stacks (memory_of (W.told words.old))) 1 [] (blocks_by track.now list.now) }
    ensures told { TellsSame (W.told words.old) (W.told words.new) }
{
    for (i, id) in list.iter().enumerate() {
        if !may_follow(track, tasks, stacks, words, &list[..i], *id) {
            return Some(i as u32 + 1);
        }
    }
    None
}
