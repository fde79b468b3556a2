//! The words that are written to the file.

ghost use Rattle.std.specs.Prelude.{◌≡◌, ◌∷◌, ◌++◌, codes, Some, None, if◌then◌else◌};
ghost use Rattle.km_model.specs.Grammar.{file_command as command_of_word};

use crate::numbers::{number, number_within};
use km_base::FileCmd;
use km_base::compare::{behind, is};

/// The longest period of automatic scans, in seconds.
const LONGEST_PERIOD: u64 = 86_400;

/// The word by what stands behind `scan=o`.
fn scan_switch(rest: &[u8]) -> Option<FileCmd>
    ensures { result ≡ command_of_word (codes "scan=o" ++ rest.now) }
{
    if is(rest, b"n") {
        Some(FileCmd::ScanOn)
    } else if is(rest, b"ff") {
        Some(FileCmd::ScanOff)
    } else {
        None
    }
}

/// The word by what stands behind `scan=`.
fn scan_value(rest: &[u8]) -> Option<FileCmd>
    ensures { result ≡ command_of_word (codes "scan=" ++ rest.now) }
{
    match rest {
        [b'o', rest @ ..] => scan_switch(rest),
        [first, rest @ ..] => {
            let seconds = number_within(0, LONGEST_PERIOD, *first, rest)?;
            Some(FileCmd::ScanEvery(seconds as u32))
        }
        [] => None,
    }
}

/// The word by what stands behind `scan`.
fn behind_scan(rest: &[u8]) -> Option<FileCmd>
    ensures { result ≡ command_of_word (codes "scan" ++ rest.now) }
{
    match rest {
        [] => Some(FileCmd::Scan),
        [b'=', value @ ..] => scan_value(value),
        _ => None,
    }
}

/// The word by what stands behind `sc`.
fn scan(rest: &[u8]) -> Option<FileCmd>
    ensures { result ≡ command_of_word (codes "sc" ++ rest.now) }
{
    let end = behind(rest, b"an")?;
    behind_scan(end)
}

/// The word by what stands behind `st`.
fn stack(rest: &[u8]) -> Option<FileCmd>
    ensures { result ≡ command_of_word (codes "st" ++ rest.now) }
{
    let switch = behind(rest, b"ack=o")?;
    if is(switch, b"n") {
        Some(FileCmd::StackOn)
    } else if is(switch, b"ff") {
        Some(FileCmd::StackOff)
    } else {
        None
    }
}

/// The word by what stands behind `s`.
fn scan_or_stack(rest: &[u8]) -> Option<FileCmd>
    ensures { result ≡ command_of_word (codes "s" ++ rest.now) }
{
    match rest {
        [b'c', rest @ ..] => scan(rest),
        [b't', rest @ ..] => stack(rest),
        _ => None,
    }
}

/// The word by what stands behind `d`.
fn dump(rest: &[u8]) -> Option<FileCmd>
    ensures { result ≡ command_of_word (codes "d" ++ rest.now) }
{
    let address = behind(rest, b"ump=")?;
    number(address).map(FileCmd::Dump)
}

/// A command, if it is so.
fn given(is_given: bool, command: FileCmd) -> Option<FileCmd>
    ensures { result ≡ (if is_given then Some command else None) }
{
    if is_given { Some(command) } else { None }
}

/// The command that a word of the file is, by its first byte and the bytes behind it. Each byte is looked at once.
pub fn file_command_behind(first: u8, rest: &[u8]) -> Option<FileCmd>
    ensures { result ≡ command_of_word (first ∷ rest.now) }
{
    match first {
        b'o' => given(is(rest, b"ff"), FileCmd::Off),
        b'c' => given(is(rest, b"lear"), FileCmd::Clear),
        b's' => scan_or_stack(rest),
        b'd' => dump(rest),
        _ => None,
    }
}

/// The command that a word of the file is, or `None` for every other word.
///
/// The words are `off`, `stack=on`, `stack=off`, `scan=on`, `scan=off`, `scan=N` with a number of
/// seconds from 0 to 86,400, `scan`, `clear` and `dump=A` with an address.
pub fn file_command(word: &[u8]) -> Option<FileCmd>
    ensures { result ≡ command_of_word word.now }
{
    match word {
        [first, rest @ ..] => file_command_behind(*first, rest),
        [] => None,
    }
}
