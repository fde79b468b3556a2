//! The lines of listed blocks.

ghost use Rattle.std.specs.Prelude.{◌≡◌, ◌++◌, Some};
ghost use Rattle.km_base.specs.declared.acts.Act.TheVariants.{Read};
ghost use Rattle.km_edge.specs.Streams.{WritesAll};
ghost use Rattle.km_track.specs.Tracker.{AreRising, Live, live_with};
ghost use Rattle.km_entries.specs.File.{listed_text};
ghost use Rattle.km_notes.specs.Notes.{event_line, listed_line, lines_of_answer, starts_in};

use crate::lines::write_event;
use km_base::{Act, Answer};
use km_edge::{Failed, Sink, write_all};
use km_journal_text::{Text, listed};
use km_machine::Machine;
use km_record::RecId;
use km_track::Track;
use km_tree::TreeMap;
use km_verdict::{first_listed, next_listed};

/// Writes the line of a live block.
fn write_listed<K: Sink>(track: &Track<TreeMap>, id: RecId, sink: &mut K) -> Result<(), Failed>
    ensures listed { (l : Live) → live_with id track.now ≡ Some l → WritesAll (K.state sink.old) (K.state sink.new) (listed_line l.tracked.block.start) result }
    ensures rising { AreRising 0 track.now.live track.now.registered }
{
    let Some(record) = track.record(id) else {
        return Ok(());
    };
    let mut text = Text::new();
    listed(record.span.start.0, &mut text);
    write_all(sink, text.bytes())
}

/// Writes the lines of the listed blocks, in order of registration.
fn write_listing<K: Sink>(track: &Track<TreeMap>, sink: &mut K) -> Result<(), Failed>
    ensures { WritesAll (K.state sink.old) (K.state sink.new) (listed_text (starts_in track.now.live)) result }
{
    let mut next = first_listed(track);
    while let Some(id) = next {
        write_listed(track, id, sink)?;
        next = next_listed(track, id);
    }
    Ok(())
}

/// Writes the line of a script's read, and if it was done those of the listed blocks.
pub fn write_read<K: Sink>(machine: &Machine, answer: &Answer, sink: &mut K) -> Result<(), Failed>
    ensures { WritesAll (K.state sink.old) (K.state sink.new) (event_line 0 Read answer.now ++ lines_of_answer answer.now machine.now.core.parts.objects.tracker) result }
{
    write_event(0, &Act::Read, answer, sink)?;
    match *answer {
        Answer::Done => write_listing(machine.core().track(), sink),
        Answer::At(_)
        | Answer::Loaded { .. }
        | Answer::Ended { .. }
        | Answer::Stopped { .. }
        | Answer::Skipped
        | Answer::Dumped(_)
        | Answer::Refused(_) => Ok(()),
    }
}
