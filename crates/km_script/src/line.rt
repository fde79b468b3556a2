//! Reads a line.

ghost use Rattle.std.specs.Prelude.{◌≡◌, ◌∷◌, bytes_eq, codes};
ghost use Rattle.km_model.specs.Grammar.{as_line as line_of_reading, line_of, rules, words_read};
ghost use Rattle.km_model.specs.Held.{same_bool};
ghost use Rattle.km_script.specs.Keywords.{text_of};
ghost use Rattle.km_script.specs.Words.{piece_of};

use crate::keywords::Keyword;
use crate::rules::read_by;
use crate::word::Word;
use crate::words::Words;
use km_base::sizes::{LONGEST_LINE, TOO_LONG};
use km_base::{Command, Line, NotACommand};

/// Whether a command may stand where it does: `memory` as the first command, and every other as a later one.
fn may_stand(keyword: Keyword, first: bool) -> bool
    ensures { result ≡ same_bool (bytes_eq (text_of keyword) (codes "memory")) first }
{
    keyword.is_memory() == first
}

/// A command as a line.
fn as_line(read: Result<Command, NotACommand>) -> Result<Line, NotACommand>
    ensures { result ≡ line_of_reading read }
{
    let command = read?;
    Ok(Line::Command(command))
}

/// Reads the words of a line, from its first word on.
fn read_words(word: Word, words: &mut Words, first: bool) -> Result<Line, NotACommand>
    ensures read { result ≡ words_read rules first words.old.end (piece_of word.entry ∷ words.old.pieces) }
    ensures kept { words.new.foreign ≡ words.old.foreign }
{
    let Some(keyword) = Keyword::of(word.first, word.rest) else {
        return Err(word.refused());
    };
    if may_stand(keyword, first) {
        as_line(read_by(keyword, words))
    } else {
        Err(word.refused())
    }
}

/// Reads a line by its words.
///
/// Each byte is looked at twice at most: where its word's end, or a word too many, is looked for, and
/// where the word is read, or, behind the words that were taken, for a byte that no command has.
#[inline(never)]
fn read_by_words(bytes: &[u8], first: bool) -> Result<Line, NotACommand>
    ensures { result ≡ line_of first bytes.now }
{
    if bytes.len() > LONGEST_LINE {
        return Err(NotACommand { column: TOO_LONG });
    }
    let mut words = Words::of(bytes);
    let Some(word) = words.next() else {
        return Ok(Line::Blank);
    };
    if word.begins_comment() {
        return Ok(Line::Blank);
    }
    let read = read_words(word, &mut words, first);
    match words.foreign() {
        Some(column) => Err(NotACommand { column }),
        None => read,
    }
}

/// Reads a line without its line feed; `first` says that no command was read before.
///
/// A line is blank, a comment, or a command. It is refused at the first of these columns: 257, if it
/// is longer than 256 bytes; of the first byte that no command has; of its first word, if that is
/// `memory` and not the first command, or the other way round; of the first word that doesn't fit;
/// behind its last byte, if a word is missing.
#[inline]
pub fn read_line(bytes: &[u8], first: bool) -> Result<Line, NotACommand>
    ensures { result ≡ line_of first bytes.now }
{
    match bytes {
        // Such a line is common, and has no need of a stack frame for words.
        [] => Ok(Line::Blank),
        _ => read_by_words(bytes, first),
    }
}
