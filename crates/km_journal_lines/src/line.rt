//! Reads a line of a journal file.

ghost use Rattle.std.specs.Prelude.{◌≡◌};
ghost use Rattle.km_entries.specs.Reading.{after_equals, event_in, head_in, journal_line, line_by_word, no_more, take_word};
ghost use Rattle.km_entries.specs.Words.{plain_address, plain_number};

use crate::acts::read_act;
use crate::answers::read_said;
use crate::numbers::maker;
use crate::words::Words;
use km_base::compare::is;
use km_base::sizes::LONGEST_LINE;
use km_entries::{JournalLine, Said};

/// A line, if no word is left.
fn alone(line: JournalLine, words: &Words) -> Option<JournalLine>
    ensures { result ≡ no_more line words.now }
{
    if words.are_none() { Some(line) } else { None }
}

/// `=`, and the answer after it.
fn answered(words: &mut Words) -> Option<Said>
    ensures { result ≡ after_equals words.old }
{
    let word = words.next()?;
    if is(word, b"=") {
        read_said(words)
    } else {
        None
    }
}

/// An event, after the number of who made it.
fn event(by: u64, words: &mut Words) -> Option<JournalLine>
    ensures { result ≡ event_in by words.old }
{
    let act = read_act(words)?;
    let said = answered(words)?;
    Some(JournalLine::Event { by, act, said })
}

/// The first line, after its first word.
fn head(words: &mut Words) -> Option<JournalLine>
    ensures { result ≡ head_in words.old }
{
    let version = words.next()?;
    if !is(version, b"1") {
        return None;
    }
    let words_count = words.number()?;
    alone(JournalLine::Head { words: words_count }, words)
}

/// `listed a`, after its first word.
fn listed(words: &mut Words) -> Option<JournalLine>
    ensures { result ≡ take_word plain_address words.old (λ a rest. no_more (JournalLine.Listed a) rest) }
{
    let start = words.address()?;
    alone(JournalLine::Listed(start), words)
}

/// `end n`, after its first word.
fn end(words: &mut Words) -> Option<JournalLine>
    ensures { result ≡ take_word plain_number words.old (λ n rest. no_more (JournalLine.End n) rest) }
{
    let events = words.number()?;
    alone(JournalLine::End(events), words)
}

/// A line, by its first word.
fn line_by(word: &[u8], words: &mut Words) -> Option<JournalLine>
    ensures { result ≡ line_by_word word.now words.old }
{
    if let Some(by) = maker(word) {
        return event(by, words);
    }
    if is(word, b"listed") {
        listed(words)
    } else if is(word, b"kmjournal") {
        head(words)
    } else if is(word, b"end") {
        end(words)
    } else {
        None
    }
}

/// Reads a line without its line feed. `None` where it is of no form.
pub fn read_journal_line(bytes: &[u8]) -> Option<JournalLine>
    ensures { result ≡ journal_line bytes.now }
{
    if bytes.len() > LONGEST_LINE {
        return None;
    }
    let mut words = Words::of(bytes);
    let Some(word) = words.next() else {
        return None;
    };
    line_by(word, &mut words)
}
