//! How the answer of an event line is read.

ghost use Rattle.std.specs.Prelude.{◌≡◌};
ghost use Rattle.km_entries.specs.Reading.{no_more, refusal_at as refusal_of_number, refusal_by, said_by, said_in, take_word};
ghost use Rattle.km_entries.specs.Words.{plain_address, plain_number};

use crate::words::Words;
use km_base::Refusal;
use km_base::compare::is;
use km_entries::Said;

/// The number of the busy refusal, after which the scan's stands.
const BUSY: u64 = 16;

/// An answer, if no word is left.
fn alone(said: Said, words: &Words) -> Option<Said>
    ensures { result ≡ no_more said words.now }
{
    if words.are_none() { Some(said) } else { None }
}

/// The refusal of a number that stands alone.
fn refusal_at(n: u64) -> Option<Refusal>
    ensures { result ≡ refusal_of_number n }
{
    Some(match n {
        1 => Refusal::BadAddress,
        2 => Refusal::BadSize,
        3 => Refusal::NoRoom,
        4 => Refusal::NoSlot,
        5 => Refusal::NotAllocated,
        6 => Refusal::NoObject,
        7 => Refusal::NotInside,
        8 => Refusal::AreaOverlap,
        9 => Refusal::TooManyAreas,
        10 => Refusal::NoTask,
        11 => Refusal::TaskExists,
        12 => Refusal::TooManyTasks,
        13 => Refusal::NoSection,
        14 => Refusal::SectionExists,
        15 => Refusal::TooManySections,
        17 => Refusal::NoScanRunning,
        18 => Refusal::Disabled,
        19 => Refusal::Invalid,
        20 => Refusal::NotBoot,
        _ => return None,
    })
}

/// A refusal by its number, and of the busy one by the scan's after it.
fn refused(words: &mut Words) -> Option<Said>
    ensures { result ≡ take_word plain_number words.old refusal_by }
{
    let n = words.number()?;
    if n == BUSY {
        let scan = words.number()?;
        return alone(Said::Refused(Refusal::Busy(scan)), words);
    }
    let refusal = refusal_at(n)?;
    alone(Said::Refused(refusal), words)
}

/// `loaded a a`, after its first word.
fn loaded(words: &mut Words) -> Option<Said>
    ensures { result ≡ take_word plain_address words.old (λ a rest. take_word plain_address rest (λ value more. no_more (Said.Loaded a value) more)) }
{
    let addr = words.address()?;
    let value = words.address()?;
    alone(Said::Loaded { addr, value }, words)
}

/// `at a`, after its first word.
fn at(words: &mut Words) -> Option<Said>
    ensures { result ≡ take_word plain_address words.old (λ a rest. no_more (Said.At a) rest) }
{
    let start = words.address()?;
    alone(Said::At(start), words)
}

/// `ended n n`, after its first word.
fn ended(words: &mut Words) -> Option<Said>
    ensures { result ≡ take_word plain_number words.old (λ scan rest. take_word plain_number rest (λ new more. no_more (Said.Ended scan new) more)) }
{
    let scan = words.number()?;
    let new = words.number()?;
    alone(Said::Ended { scan, new }, words)
}

/// `stopped n`, after its first word.
fn stopped(words: &mut Words) -> Option<Said>
    ensures { result ≡ take_word plain_number words.old (λ scan rest. no_more (Said.Stopped scan) rest) }
{
    let scan = words.number()?;
    alone(Said::Stopped { scan }, words)
}

/// An answer, by its first word.
fn said_by_word(word: &[u8], words: &mut Words) -> Option<Said>
    ensures { result ≡ said_by word.now words.old }
{
    if is(word, b"loaded") {
        loaded(words)
    } else if is(word, b"done") {
        alone(Said::Done, words)
    } else if is(word, b"at") {
        at(words)
    } else if is(word, b"ended") {
        ended(words)
    } else if is(word, b"stopped") {
        stopped(words)
    } else if is(word, b"skipped") {
        alone(Said::Skipped, words)
    } else if is(word, b"dumped") {
        alone(Said::Dumped, words)
    } else if is(word, b"refused") {
        refused(words)
    } else {
        None
    }
}

/// An answer.
pub fn read_said(words: &mut Words) -> Option<Said>
    ensures { result ≡ said_in words.old }
{
    let word = words.next()?;
    said_by_word(word, words)
}
