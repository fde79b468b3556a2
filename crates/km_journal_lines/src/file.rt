//! The words of the file in a journal's lines.

ghost use Rattle.std.specs.Prelude.{◌≡◌, option_map};
ghost use Rattle.km_model.specs.Grammar.{within};
ghost use Rattle.km_entries.specs.Words.{plain_number as number_of};
ghost use Rattle.km_entries.specs.Reading.{file_of as file_of_word, numbered_word, period_word};

use crate::numbers::plain_number;
use km_base::FileCmd;
use km_base::compare::{behind, is};

/// The longest period of automatic scans, in seconds.
const LONGEST_PERIOD: u64 = 86_400;

/// `scan=N`, by the bytes after `scan=`.
fn period(digits: &[u8]) -> Option<FileCmd>
    ensures { result ≡ period_word digits.now }
{
    let seconds = plain_number(digits)?;
    if seconds <= LONGEST_PERIOD {
        Some(FileCmd::ScanEvery(seconds as u32))
    } else {
        None
    }
}

/// A word with a number.
fn numbered(word: &[u8]) -> Option<FileCmd>
    ensures { result ≡ numbered_word word.now }
{
    if let Some(digits) = behind(word, b"scan=") {
        return period(digits);
    }
    if let Some(digits) = behind(word, b"dump=") {
        let address = plain_number(digits)?;
        return Some(FileCmd::Dump(address));
    }
    let digits = behind(word, b"why=")?;
    let address = plain_number(digits)?;
    Some(FileCmd::Why(address))
}

/// The command that a word is.
pub fn file_of(word: &[u8]) -> Option<FileCmd>
    ensures { result ≡ file_of_word word.now }
{
    if is(word, b"off") {
        Some(FileCmd::Off)
    } else if is(word, b"stack=on") {
        Some(FileCmd::StackOn)
    } else if is(word, b"stack=off") {
        Some(FileCmd::StackOff)
    } else if is(word, b"scan=on") {
        Some(FileCmd::ScanOn)
    } else if is(word, b"scan=off") {
        Some(FileCmd::ScanOff)
    } else if is(word, b"scan") {
        Some(FileCmd::Scan)
    } else if is(word, b"clear") {
        Some(FileCmd::Clear)
    } else {
        numbered(word)
    }
}
