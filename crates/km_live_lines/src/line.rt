//! Reads a line of a live script.

ghost use Rattle.std.specs.Prelude.{◌≡◌, ◌≤◌, ◌∷◌, bytes_eq, codes, drop, length};
ghost use Rattle.km_model.specs.Held.{same_bool};
ghost use Rattle.km_model.specs.Pieces.{pieces};
ghost use Rattle.km_live_model.specs.LiveGrammar.{as_command as as_command_line, inside as inside_line, live_line_of, outside as outside_line, round_line as round_line_of, thread_line as thread_line_of, words_of_line};
ghost use Rattle.km_live_lines.specs.Columns.{unless_before_column};
ghost use Rattle.km_script.specs.Words.{bytes_of_word, piece_of};

use crate::jobs::read_job;
use crate::others::first_other;
use km_base::compare::is;
use km_base::sizes::{LONGEST_LINE, MOST_WORDS, TOO_LONG};
use km_base::{Command, Name, NotACommand};
use km_live_model::LiveLine;
use km_script::{Keyword, Word, Words, read_by};

/// The most scans that a round makes.
const MOST_SCANS: u64 = 100;

/// The longest gap before a scan, in milliseconds.
const LONGEST_GAP: u64 = 3_600_000;

/// Whether a word is `memory`.
fn is_memory(word: &Word) -> bool
    ensures { result ≡ bytes_eq (bytes_of_word word.now) (codes "memory") }
{
    word.first == b'm' && is(b"emory", word.rest)
}

/// Whether a line may stand where it does, by its first word: `memory` as the first command, and every other as a later one.
fn may_stand(word: &Word, first: bool) -> bool
    ensures { result ≡ same_bool (bytes_eq (bytes_of_word word.now) (codes "memory")) first }
{
    is_memory(word) == first
}

/// Whether a word is `thread`.
fn is_thread(word: &Word) -> bool
    ensures { result ≡ bytes_eq (bytes_of_word word.now) (codes "thread") }
{
    word.first == b't' && is(b"hread", word.rest)
}

/// Whether a word is `round`.
fn is_round(word: &Word) -> bool
    ensures { result ≡ bytes_eq (bytes_of_word word.now) (codes "round") }
{
    word.first == b'r' && is(b"ound", word.rest)
}

/// Whether a word is `end`.
fn is_end(word: &Word) -> bool
    ensures { result ≡ bytes_eq (bytes_of_word word.now) (codes "end") }
{
    word.first == b'e' && is(b"nd", word.rest)
}

/// `thread NAME`
fn thread_line(words: &mut Words) -> Result<LiveLine, NotACommand>
    ensures read { result ≡ thread_line_of words.old.end words.old.pieces }
    ensures kept { words.new.foreign ≡ words.old.foreign }
{
    let name = words.only_name()?;
    Ok(LiveLine::Thread(name))
}

/// `round SCANS GAP ENTRIES`
fn round_line(words: &mut Words) -> Result<LiveLine, NotACommand>
    ensures read { result ≡ round_line_of words.old.end words.old.pieces }
    ensures kept { words.new.foreign ≡ words.old.foreign }
{
    let scans = words.number_within(1, MOST_SCANS)?;
    let gap = words.number_within(0, LONGEST_GAP)?;
    let entries = words.only_number_within(1, MOST_WORDS)?;
    Ok(LiveLine::Round {
        scans: scans as u32,
        gap,
        entries,
    })
}

/// A command as a line.
fn as_command(read: Result<Command, NotACommand>) -> Result<LiveLine, NotACommand>
    ensures { result ≡ as_command_line read }
{
    let command = read?;
    Ok(LiveLine::Command(command))
}

/// Reads a line outside a thread, from its first word on.
fn outside(word: Word, words: &mut Words) -> Result<LiveLine, NotACommand>
    ensures read { result ≡ outside_line (piece_of word.entry) words.old.end words.old.pieces }
    ensures kept { words.new.foreign ≡ words.old.foreign }
{
    if is_thread(&word) {
        return thread_line(words);
    }
    if is_round(&word) {
        return round_line(words);
    }
    match Keyword::of(word.first, word.rest) {
        Some(keyword) => as_command(read_by(keyword, words)),
        None => Err(word.refused()),
    }
}

/// A reading, or the refusal at a column, whichever comes first in the line.
fn unless_before(
    column: Option<u32>,
    read: Result<LiveLine, NotACommand>,
) -> Result<LiveLine, NotACommand>
    ensures { result ≡ unless_before_column column read }
{
    let Some(column) = column else {
        return read;
    };
    match read {
        Ok(_) => Err(NotACommand { column }),
        Err(refused) => {
            if column < refused.column {
                Err(NotACommand { column })
            } else {
                Err(refused)
            }
        }
    }
}

/// Reads a line in the thread of a task, from its first word on. Where no other task is named, each word is looked at twice.
fn inside(own: &Name, line: &[u8], word: Word, words: &mut Words) -> Result<LiveLine, NotACommand>
    requires short { length line.now ≤ 256 }
    requires rest { words.old.pieces ≡ drop 1 (pieces line.now) }
    ensures read { result ≡ inside_line own.now (piece_of word.entry) words.old.end words.old.pieces }
    ensures kept { words.new.foreign ≡ words.old.foreign }
{
    if is_end(&word) {
        words.none_left()?;
        return Ok(LiveLine::End);
    }
    let read = read_job(word, words);
    let mut again = Words::of(line);
    let _ = again.next();
    unless_before(first_other(own, again), read)
}

/// Reads the words of a line, from its first word on.
fn read_words(
    line: &[u8],
    word: Word,
    words: &mut Words,
    first: bool,
    thread: Option<Name>,
) -> Result<LiveLine, NotACommand>
    requires short { length line.now ≤ 256 }
    requires rest { words.old.pieces ≡ drop 1 (pieces line.now) }
    ensures read { result ≡ words_of_line first thread words.old.end (piece_of word.entry ∷ words.old.pieces) }
    ensures kept { words.new.foreign ≡ words.old.foreign }
{
    if !may_stand(&word, first) {
        return Err(word.refused());
    }
    match thread {
        Some(own) => inside(&own, line, word, words),
        None => outside(word, words),
    }
}

/// Reads a line of a live script without its line feed, by itself; `first` says that no command was read before, and
/// `thread` is the task of the open thread.
///
/// It is refused at the first of these columns: 257, if it is longer than 256 bytes; of the first byte that no command
/// has; of its first word, if that is `memory` and not the first command, or the other way round; of the first word that
/// doesn't fit, in a thread also of one that names another task; after its last byte, if a word is missing.
pub fn read_live_line(
    bytes: &[u8],
    first: bool,
    thread: Option<Name>,
) -> Result<LiveLine, NotACommand>
    ensures { result ≡ live_line_of first thread bytes.now }
{
    if bytes.len() > LONGEST_LINE {
        return Err(NotACommand { column: TOO_LONG });
    }
    let mut words = Words::of(bytes);
    let Some(word) = words.next() else {
        return Ok(LiveLine::Blank);
    };
    if word.begins_comment() {
        return Ok(LiveLine::Blank);
    }
    let read = read_words(bytes, word, &mut words, first, thread);
    match words.foreign() {
        Some(column) => Err(NotACommand { column }),
        None => read,
    }
}
