//! The lines of events.

ghost use Rattle.std.specs.Prelude.{◌≡◌, None, Some};
ghost use Rattle.km_edge.specs.Streams.{WritesAll};
ghost use Rattle.km_journal_text.specs.Events.{name_in};
ghost use Rattle.km_notes.specs.Notes.{event_line, journal_lines};

use km_base::{Act, Answer, Name};
use km_edge::{Failed, Sink, write_all};
use km_journal_text::{Text, event_begin, event_name, event_rest};
use km_rounds::Entry;

/// Writes the line of an event whose act has no name.
fn write_plain<K: Sink>(by: u32, act: &Act, answer: &Answer, sink: &mut K) -> Result<(), Failed>
    requires { name_in act.now ≡ None }
    ensures { WritesAll (K.state sink.old) (K.state sink.new) (event_line by act.now answer.now) result }
{
    let mut text = Text::new();
    event_begin(by, act, &mut text);
    event_rest(act, answer, &mut text);
    write_all(sink, text.bytes())
}

/// Writes the line of an event whose act has this name. It is written in pieces, since a text can't tell that it has room
/// for a name.
fn write_named<K: Sink>(
    by: u32,
    act: &Act,
    name: &Name,
    answer: &Answer,
    sink: &mut K,
) -> Result<(), Failed>
    requires { name_in act.now ≡ Some name.now }
    ensures { WritesAll (K.state sink.old) (K.state sink.new) (event_line by act.now answer.now) result }
{
    let mut text = Text::new();
    event_begin(by, act, &mut text);
    text.push(b" ");
    write_all(sink, text.bytes())?;
    write_all(sink, name.bytes())?;
    text.clear();
    event_rest(act, answer, &mut text);
    write_all(sink, text.bytes())
}

/// Writes the line of an event: who made it, its act, and what it was answered.
pub fn write_event<K: Sink>(by: u32, act: &Act, answer: &Answer, sink: &mut K) -> Result<(), Failed>
    ensures { WritesAll (K.state sink.old) (K.state sink.new) (event_line by act.now answer.now) result }
{
    match event_name(act) {
        Some(name) => write_named(by, act, name, answer, sink),
        None => write_plain(by, act, answer, sink),
    }
}

/// Writes the lines of the entries of a round, of which none reads the file.
pub fn note_entries<K: Sink>(entries: &[Entry], sink: &mut K) -> Result<(), Failed>
    ensures { WritesAll (K.state sink.old) (K.state sink.new) (journal_lines entries.now) result }
{
    for entry in entries {
        write_event(entry.by, &entry.act, &entry.answer, sink)?;
    }
    Ok(())
}
