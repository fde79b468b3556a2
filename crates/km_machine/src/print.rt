//! What answers print.

ghost use Rattle.std.specs.Prelude.{◌≡◌, ℕ, ◌+◌, ◌-◌, ◌%◌, ◌^◌, ◌<◌, ◌≤◌, ◌++◌, List, true, Some, min, length, take};
ghost use Rattle.km_edge.specs.Streams.{WritesAll};
ghost use Rattle.km_laws.specs.Placed.{InMemory};
ghost use Rattle.km_model.specs.Blocks.{Block};
ghost use Rattle.km_model.specs.Follows.{Run};
ghost use Rattle.km_model.specs.Memory.{in_memory as is_word, word_at};
ghost use Rattle.km_model.specs.Output.{listing_text};
ghost use Rattle.km_model.specs.Text.{at_text, dump_text, entry as entry_text, entry_age, entry_head, entry_hex, first_bytes, hex_rows};
ghost use Rattle.km_track.specs.Tracker.{AreRising, Live, live_with};
ghost use Rattle.km_machine.specs.Machines.{For};
ghost use Rattle.km_machine.specs.Scans.{shown};

use km_base::{Addr, Answer, Info, Span};
use km_core::Core;
use km_edge::{Failed, Sink, write_all};
use km_record::RecId;
use km_text::Text;
use km_tree::TreeMap;
use km_verdict::{first_listed, next_listed};
use km_words::{Plain, Words, in_memory};

/// Writes the address that an allocation was given. `word` is the first word of its line.
#[inline(never)]
pub fn address<K: Sink>(word: &[u8], start: u64, sink: &mut K) -> Result<(), Failed>
    requires some { 1 ≤ length word.now }
    requires short { length word.now ≤ 16 }
    ensures { WritesAll (K.state sink.old) (K.state sink.new) (at_text word.now start) result }
{
    let mut text = Text::new();
    km_text::at(word, start, &mut text);
    write_all(sink, text.bytes())
}

/// Writes what an answer prints that isn't an address, unless it is that to a read.
#[inline(never)]
pub fn answer<K: Sink>(answer: Answer, sink: &mut K) -> Result<(), Failed>
    ensures { WritesAll (K.state sink.old) (K.state sink.new) (shown answer) result }
{
    let mut text = Text::new();
    match answer {
        Answer::Ended { new, .. } => km_text::new_leaks(new, &mut text),
        Answer::Stopped { scan } => km_text::stopped(scan, &mut text),
        Answer::Dumped(info) => return dump(&info, sink),
        Answer::Refused(refusal) => km_text::refused(refusal, &mut text),
        Answer::At(_) | Answer::Done | Answer::Loaded { .. } | Answer::Skipped => {}
    }
    write_all(sink, text.bytes())
}

/// Writes the six lines of `dump`.
fn dump<K: Sink>(info: &Info, sink: &mut K) -> Result<(), Failed>
    ensures { WritesAll (K.state sink.old) (K.state sink.new) (dump_text info.now) result }
{
    for place in 0..6 {
        let mut text = Text::new();
        km_text::dump_line(place, info, &mut text);
        write_all(sink, text.bytes())?;
    }
    Ok(())
}

/// Writes what a read prints: an entry for each listed block, in order of registration.
pub fn listing<K: Sink>(core: &Core<TreeMap>, words: &mut Plain, sink: &mut K) -> Result<(), Failed>
    ensures listing { (run : Run) → For (record { core = core.now; memory = words.old }) run → WritesAll (K.state sink.old) (K.state sink.new) (listing_text run.memory run.history) result }
    ensures same { words.new ≡ words.old }
{
    let track = core.track();
    let mut next = first_listed(track);
    while let Some(id) = next {
        entry(core, words, id, sink)?;
        next = next_listed(track, id);
    }
    Ok(())
}

/// Writes the entry of a live block.
fn entry<K: Sink>(
    core: &Core<TreeMap>,
    words: &mut Plain,
    id: RecId,
    sink: &mut K,
) -> Result<(), Failed>
    ensures entry { (l : Live) → live_with id core.now.parts.objects.tracker ≡ Some l → InMemory (length words.old) l.tracked.block.start l.tracked.block.size → WritesAll (K.state sink.old) (K.state sink.new) (entry_text core.now.parts.settings.now words.old l.tracked.block) result }
    ensures rising { AreRising 0 core.now.parts.objects.tracker.live core.now.parts.objects.tracker.registered }
    ensures same { words.new ≡ words.old }
{
    let Some(record) = core.track().record(id) else {
        return Ok(());
    };
    heading(record.span, record.born, core.now(), sink)?;
    let mut bytes = [0; 32];
    let count = load_first(words, record.span, &mut bytes);
    rows(&bytes[..count], sink)
}

/// Writes the three lines above the bytes of a block.
fn heading<K: Sink>(span: Span, born: u64, now: u64, sink: &mut K) -> Result<(), Failed>
    ensures { WritesAll (K.state sink.old) (K.state sink.new) (entry_head span.start.0 span.size ++ entry_age born (now - born) ++ entry_hex (min 32 span.size)) result }
{
    let mut text = Text::new();
    km_text::entry_head(span.start.0, span.size, &mut text);
    write_all(sink, text.bytes())?;
    km_text::entry_age(born, now.saturating_sub(born), &mut text);
    write_all(sink, text.bytes())?;
    km_text::entry_hex(span.size.min(32), &mut text);
    write_all(sink, text.bytes())
}

/// Puts the first bytes of a block of whole words to the front of `bytes`, up to 32, and gives their number.
fn load_first(words: &mut Plain, span: Span, bytes: &mut [u8; 32]) -> usize
    requires start { span.start.0 % 8 ≡ 0 }
    requires size { span.size % 8 ≡ 0 }
    requires end { span.start.0 + span.size < 2 ^ 64 }
    ensures count { result ≡ min 32 span.size }
    ensures bytes { (b : Block) → b.start ≡ span.start.0 → b.size ≡ span.size → InMemory (length words.old) b.start b.size → take result bytes.new ≡ first_bytes words.old b }
    ensures same { words.new ≡ words.old }
{
    let count = span.size.min(32) as usize / 8;
    for i in 0..count {
        let word = load(words, Addr(span.start.0 + 8 * i as u64));
        bytes[8 * i..8 * i + 8].copy_from_slice(&word.to_le_bytes());
    }
    8 * count
}

/// The word at an address, or 0 outside the memory.
fn load(words: &mut Plain, a: Addr) -> u64
    ensures word { is_word (length words.old) a.0 ≡ true → result ≡ word_at words.old a.0 }
    ensures same { words.new ≡ words.old }
{
    if in_memory(a, words.words()) {
        words.load(a)
    } else {
        0
    }
}

/// Writes rows of 16 bytes, and of what is left.
fn rows<K: Sink>(bytes: &[u8], sink: &mut K) -> Result<(), Failed>
    requires { length bytes.now ≤ 32 }
    ensures { WritesAll (K.state sink.old) (K.state sink.new) (hex_rows 2 bytes.now) result }
{
    for row in bytes.chunks(16) {
        let mut text = Text::new();
        km_text::hex_row(row, &mut text);
        write_all(sink, text.bytes())?;
    }
    Ok(())
}
