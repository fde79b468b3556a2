//! How many references are lacking, of those that are wanted.

ghost use Rattle.std.specs.Prelude.{◌≡◌, ◌+◌, ◌-◌, ◌<◌, ◌≤◌, ◌^◌, true, flat_map, if◌then◌else◌};
ghost use Rattle.km_base.specs.declared.sizes.TheConstants.{MOST_WORDS, PAGE, PAGE_WORDS};
ghost use Rattle.km_model.specs.Blocks.{Block, scanned_words};
ghost use Rattle.km_model.specs.Members.{Each};
ghost use Rattle.km_model.specs.Memory.{in_memory as is_word, word_at, words_from};
ghost use Rattle.km_model.specs.Tasks.{Task, stack_words};
ghost use Rattle.km_record.specs.Records.{IsLaid, IsSound, block_of};
ghost use Rattle.km_why.specs.References.{has as has_byte, refers_to, references, sources};
ghost use Rattle.km_why.specs.Told.{AreReadable, IsInMemory, IsOfWords, TellsAll, TellsSame, blocks_by, blocks_of, memory_of, stacks_of};

use km_base::sizes::PAGE_WORDS;
use km_base::{Addr, Span, untag};
use km_map::ObjectMap;
use km_record::{RecId, Record};
use km_tasks::Tasks;
use km_track::Track;
use km_words::Words;

/// What is referred to, and where the words don't count: those in the target itself and in another span.
#[derive(Clone, Copy)]
pub struct Aim {
    pub target: Span,
    pub but: Span,
}

/// Whether a byte is in a span.
pub fn has(span: Span, a: u64) -> bool
    ensures { result ≡ has_byte span a }
{
    span.start.0 <= a && a - span.start.0 < span.size
}

impl Aim {
    /// Whether a word with this value counts.
    fn is_met(&self, a: u64, value: u64) -> bool
        ensures { result ≡ refers_to self.now.target self.now.but a value }
    {
        has(self.target, untag(value)) && !has(self.target, a) && !has(self.but, a)
    }
}

/// Loads a word of the memory, and gives what is lacking after it.
fn look<W: Words>(words: &mut W, aim: Aim, a: Addr, wanted: u64) -> u64
    requires told { TellsAll (W.told words.old) }
    requires word { is_word (W.told words.old).size a.0 ≡ true }
    ensures lacking { result ≡ (if refers_to aim.target aim.but a.0 (word_at (memory_of (W.told words.old)) a.0) then wanted - 1 else wanted) }
    ensures told { TellsSame (W.told words.old) (W.told words.new) }
{
    let value = words.load(a);
    if aim.is_met(a.0, value) {
        wanted.saturating_sub(1)
    } else {
        wanted
    }
}

/// What is lacking after the scanned words of a block.
pub fn in_block<W: Words>(words: &mut W, block: &Record, aim: Aim, wanted: u64) -> u64
    requires told { TellsAll (W.told words.old) }
    requires sound { IsSound block.now }
    requires within { IsInMemory (W.told words.old).size block.now.span.start.0 block.now.span.size }
    requires aligned { IsOfWords block.now.span.start.0 block.now.span.size }
    ensures lacking { result ≡ wanted - references (memory_of (W.told words.old)) aim.target aim.but (scanned_words (block_of 0 block.now)) }
    ensures told { TellsSame (W.told words.old) (W.told words.new) }
{
    let mut lacking = wanted;
    let mut from = 0;
    while let Some(i) = block.next_word(from) {
        lacking = look(words, aim, Addr(block.span.start.0 + 8 * i), lacking);
        from = i + 1;
    }
    lacking
}

/// What is lacking after the words of a stack.
fn in_stack<W: Words>(words: &mut W, stack: Addr, aim: Aim, wanted: u64) -> u64
    requires told { TellsAll (W.told words.old) }
    requires within { IsInMemory (W.told words.old).size stack.0 PAGE }
    requires aligned { IsOfWords stack.0 PAGE }
    requires small { (W.told words.old).size ≤ MOST_WORDS }
    ensures lacking { result ≡ wanted - references (memory_of (W.told words.old)) aim.target aim.but (words_from PAGE_WORDS stack.0) }
    ensures told { TellsSame (W.told words.old) (W.told words.new) }
{
    let mut lacking = wanted;
    for i in 0..PAGE_WORDS {
        lacking = look(words, aim, Addr(stack.0 + 8 * i), lacking);
    }
    lacking
}

/// What is lacking after the stacks of the live tasks.
pub fn in_stacks<W: Words>(words: &mut W, tasks: &Tasks, aim: Aim, wanted: u64) -> u64
    requires told { TellsAll (W.told words.old) }
    requires within { Each (λ (t : Task). IsInMemory (W.told words.old).size t.stack PAGE × IsOfWords t.stack PAGE) tasks.now.tasks }
    requires small { (W.told words.old).size ≤ MOST_WORDS }
    ensures lacking { result ≡ wanted - references (memory_of (W.told words.old)) aim.target aim.but (flat_map stack_words tasks.now.tasks) }
    ensures told { TellsSame (W.told words.old) (W.told words.new) }
{
    let mut lacking = wanted;
    let mut last = 0;
    while let Some((number, stack)) = tasks.next_after(last) {
        lacking = in_stack(words, stack.start, aim, lacking);
        last = number;
    }
    lacking
}

/// What is lacking after the stacks, if they are scanned.
fn in_scanned_stacks<W: Words>(
    words: &mut W,
    tasks: &Tasks,
    stacks: bool,
    aim: Aim,
    wanted: u64,
) -> u64
    requires told { TellsAll (W.told words.old) }
    requires within { Each (λ (t : Task). IsInMemory (W.told words.old).size t.stack PAGE × IsOfWords t.stack PAGE) tasks.now.tasks }
    requires small { (W.told words.old).size ≤ MOST_WORDS }
    ensures lacking { result ≡ wanted - references (memory_of (W.told words.old)) aim.target aim.but (flat_map stack_words (stacks_of stacks tasks.now.tasks)) }
    ensures told { TellsSame (W.told words.old) (W.told words.new) }
{
    if stacks {
        return in_stacks(words, tasks, aim, wanted);
    }
    wanted
}

/// What is lacking after the scanned words of the live blocks among these.
fn in_blocks<M: ObjectMap, W: Words>(
    track: &Track<M>,
    words: &mut W,
    before: &[RecId],
    aim: Aim,
    wanted: u64,
) -> u64
    requires told { TellsAll (W.told words.old) }
    requires within { Each (λ (b : Block). IsInMemory (W.told words.old).size b.start b.size × IsOfWords b.start b.size) (blocks_of track.now) }
    ensures lacking { result ≡ wanted - references (memory_of (W.told words.old)) aim.target aim.but (flat_map scanned_words (blocks_by track.now before.now)) }
    ensures told { TellsSame (W.told words.old) (W.told words.new) }
{
    let mut lacking = wanted;
    for id in before {
        if let Some(block) = track.record(*id) {
            lacking = in_block(words, block, aim, lacking);
        }
    }
    lacking
}

/// What is lacking after the stacks, if they are scanned, and the scanned words of these blocks.
pub fn in_sources<M: ObjectMap, W: Words>(
    track: &Track<M>,
    tasks: &Tasks,
    stacks: bool,
    words: &mut W,
    before: &[RecId],
    aim: Aim,
    wanted: u64,
) -> u64
    requires { AreReadable (W.told words.old) (blocks_of track.now) tasks.now.tasks }
    ensures lacking { result ≡ wanted - references (memory_of (W.told words.old)) aim.target aim.but (sources (stacks_of stacks tasks.now.tasks) (blocks_by track.now before.now)) }
    ensures told { TellsSame (W.told words.old) (W.told words.new) }
{
    let lacking = in_scanned_stacks(words, tasks, stacks, aim, wanted);
    in_blocks(track, words, before, aim, lacking)
}
