//! All that the program does.

ghost use Rattle.std.specs.Prelude.{◌≡◌, map, string_bytes};
ghost use Rattle.km_journal.specs.Journals.{WritesText, text_of as text_of_end};
ghost use Rattle.km_entries.specs.File.{ok_text as ok_text_of};
ghost use Rattle.km_journal.specs.Program.{Checks, IsChecked};

use crate::check::{Check, check_from};
use crate::replay::Replay;
use km_edge::{Sink, Source, write_all};
use km_entries::CheckStatus;
use km_journal_text::{Text, check_cut, check_form, check_ok, check_wrong};
use std::alloc::Global;

/// The text of a whole journal.
fn ok_text(replay: &Replay) -> Text
    ensures { result ≡ ok_text_of replay.now.core.events replay.now.scans }
{
    let mut text = Text::new();
    check_ok(replay.events(), replay.scans(), &mut text);
    text
}

/// The text of a check that ends so, if there is one.
fn text_of(ended: CheckStatus, replay: &Option<Replay>) -> Option<Text>
    ensures { result ≡ text_of_end ended replay.now }
{
    let mut text = Text::new();
    match ended {
        CheckStatus::Ok => return replay.as_ref().map(ok_text),
        CheckStatus::Wrong { line } => check_wrong(line, &mut text),
        CheckStatus::NotALine { line } => check_form(line, &mut text),
        CheckStatus::Cut => check_cut(&mut text),
        _ => return None,
    }
    Some(text)
}

/// Writes the text of a check that ends so, if there is one, and gives the status that it means.
fn write_text<K: Sink>(ended: CheckStatus, replay: &Option<Replay>, sink: &mut K) -> CheckStatus
    ensures { WritesText (text_of_end ended replay.now) ended (K.state sink.old) (K.state sink.new) result }
{
    let Some(text) = text_of(ended, replay) else {
        return ended;
    };
    match write_all(sink, text.bytes()) {
        Ok(()) => ended,
        Err(_) => CheckStatus::WriteFault,
    }
}

/// Reads a journal file, checks it, and writes whether it is one.
fn check_file<S: Source, K: Sink>(alloc: Global, source: &mut S, sink: &mut K) -> CheckStatus
    ensures { IsChecked (S.state source.old) (S.state source.new) (K.state sink.old) (K.state sink.new) result }
{
    let mut check = Check::new();
    let ended = check_from(&mut check, alloc, source);
    write_text(ended, check.replay(), sink)
}

/// All that the program does. `words` are the words after the program's name, of which there may be none.
///
/// It reads a journal file from the source, replays its acts, compares each line with the one that the lines before it
/// give, and writes whether the file is a journal, or the first line that is refused.
pub fn check_journal<S: Source, K: Sink>(
    alloc: Global,
    words: &[String],
    source: &mut S,
    sink: &mut K,
) -> CheckStatus
    // A journal file is checked, or there is a word and nothing is done.
    ensures { Checks S.state K.state (map string_bytes words.now) source.old source.new sink.old sink.new result }
{
    if words.is_empty() {
        check_file(alloc, source, sink)
    } else {
        CheckStatus::BadWords { word: 1 }
    }
}
