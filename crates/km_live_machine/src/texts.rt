//! What a round prints.

ghost use Rattle.std.specs.Prelude.{◌≡◌, flat_map};
ghost use Rattle.km_edge.specs.Streams.{WritesAll};
ghost use Rattle.km_model.specs.Text.{new_text, stopped_text};
ghost use Rattle.km_rounds.specs.declared.entry.Entry.{Entry as Noted};
ghost use Rattle.km_live_model.specs.Lives.{journal_full_text, scan_text};
ghost use Rattle.km_live_machine.specs.RoundRuns.{full_text, told_text};

use km_base::Answer;
use km_edge::{Failed, Sink, write_all};
use km_rounds::Entry;
use km_text::Text;

/// Writes what a scan prints at its end.
#[inline(never)]
fn new_leaks<K: Sink>(new: u32, sink: &mut K) -> Result<(), Failed>
    ensures { WritesAll (K.state sink.old) (K.state sink.new) (new_text new) result }
{
    let mut text = Text::new();
    km_text::new_leaks(new, &mut text);
    write_all(sink, text.bytes())
}

/// Writes that a scan was stopped.
#[inline(never)]
fn stopped<K: Sink>(scan: u64, sink: &mut K) -> Result<(), Failed>
    ensures { WritesAll (K.state sink.old) (K.state sink.new) (stopped_text scan) result }
{
    let mut text = Text::new();
    km_text::stopped(scan, &mut text);
    write_all(sink, text.bytes())
}

/// Writes what an answer in a journal prints: the end of a scan alone.
fn scan_end<K: Sink>(answer: &Answer, sink: &mut K) -> Result<(), Failed>
    ensures { WritesAll (K.state sink.old) (K.state sink.new) (scan_text answer.now) result }
{
    match *answer {
        Answer::Ended { new, .. } => new_leaks(new, sink),
        Answer::Stopped { scan } => stopped(scan, sink),
        Answer::At(_)
        | Answer::Done
        | Answer::Dumped(_)
        | Answer::Loaded { .. }
        | Answer::Refused(_)
        | Answer::Skipped => Ok(()),
    }
}

/// Writes the ends of scans in a journal, in its order.
fn scan_ends<K: Sink>(journal: &[Entry], sink: &mut K) -> Result<(), Failed>
    ensures { WritesAll (K.state sink.old) (K.state sink.new) (flat_map (λ (e : Noted). scan_text e.answer) journal.now) result }
{
    for entry in journal {
        scan_end(&entry.answer, sink)?;
    }
    Ok(())
}

/// The line of a journal that was full, which had room for so many entries.
fn full_line(entries: u64, out: &mut Text)
    ensures { out.new ≡ journal_full_text entries }
{
    out.clear();
    out.push(b"kmlive: journal full at ");
    out.push_decimal(entries);
    out.push(b" entries");
    out.end_line();
}

/// Writes the line of a journal that was full, if one was.
fn journal_full<K: Sink>(full: Option<u64>, sink: &mut K) -> Result<(), Failed>
    ensures { WritesAll (K.state sink.old) (K.state sink.new) (full_text full) result }
{
    let mut text = Text::new();
    if let Some(entries) = full {
        full_line(entries, &mut text);
    }
    write_all(sink, text.bytes())
}

/// Writes what a round prints, by its journal and for how many entries that had room, if it was full.
pub fn round_text<K: Sink>(journal: &[Entry], full: Option<u64>, sink: &mut K) -> Result<(), Failed>
    ensures { WritesAll (K.state sink.old) (K.state sink.new) (told_text journal.now full) result }
{
    scan_ends(journal, sink)?;
    journal_full(full, sink)
}
