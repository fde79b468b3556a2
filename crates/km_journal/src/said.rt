//! Answers as a line writes them.

ghost use Rattle.std.specs.Prelude.{◌≡◌};
ghost use Rattle.km_entries.specs.File.{same_said, scan_of as scan_of_refusal, told_in as told_in_said};
ghost use Rattle.km_entries.specs.Lines.{refusal_number, said_of as said_of_answer};

use km_base::{Answer, Refusal};
use km_entries::Said;

/// The value that an answer tells for a load, or 0.
pub fn told_in(said: Said) -> u64
    ensures { result ≡ told_in_said said }
{
    match said {
        Said::Loaded { value, .. } => value,
        _ => 0,
    }
}

/// An answer as it is written.
pub fn said_of(answer: &Answer) -> Said
    ensures { result ≡ said_of_answer answer.now }
{
    match *answer {
        Answer::Done => Said::Done,
        Answer::At(start) => Said::At(start),
        Answer::Loaded { addr, value } => Said::Loaded { addr, value },
        Answer::Ended { scan, new } => Said::Ended {
            scan,
            new: u64::from(new),
        },
        Answer::Stopped { scan } => Said::Stopped { scan },
        Answer::Skipped => Said::Skipped,
        Answer::Dumped(_) => Said::Dumped,
        Answer::Refused(refusal) => Said::Refused(refusal),
    }
}

/// The number of a refusal.
fn number_of(refusal: Refusal) -> u8
    ensures { result ≡ refusal_number refusal }
{
    match refusal {
        Refusal::BadAddress => 1,
        Refusal::BadSize => 2,
        Refusal::NoRoom => 3,
        Refusal::NoSlot => 4,
        Refusal::NotAllocated => 5,
        Refusal::NoObject => 6,
        Refusal::NotInside => 7,
        Refusal::AreaOverlap => 8,
        Refusal::TooManyAreas => 9,
        Refusal::NoTask => 10,
        Refusal::TaskExists => 11,
        Refusal::TooManyTasks => 12,
        Refusal::NoSection => 13,
        Refusal::SectionExists => 14,
        Refusal::TooManySections => 15,
        Refusal::Busy(_) => 16,
        Refusal::NoScanRunning => 17,
        Refusal::Disabled => 18,
        Refusal::Invalid => 19,
        Refusal::NotBoot => 20,
    }
}

/// The scan that a refusal names, or 0.
fn scan_of(refusal: Refusal) -> u64
    ensures { result ≡ scan_of_refusal refusal }
{
    match refusal {
        Refusal::Busy(scan) => scan,
        _ => 0,
    }
}

/// Whether two answers are the same as they are written.
pub fn is_same(a: Said, b: Said) -> bool
    ensures { result ≡ same_said a b }
{
    match (a, b) {
        (Said::Done, Said::Done) | (Said::Skipped, Said::Skipped) | (Said::Dumped, Said::Dumped) =>
            true,
        (Said::At(start), Said::At(other)) => start == other,
        (
            Said::Loaded { addr, value },
            Said::Loaded {
                addr: other,
                value: told,
            },
        ) => addr == other && value == told,
        (
            Said::Ended { scan, new },
            Said::Ended {
                scan: other,
                new: more,
            },
        ) => scan == other && new == more,
        (Said::Stopped { scan }, Said::Stopped { scan: other }) => scan == other,
        (Said::Refused(refusal), Said::Refused(other)) => {
            number_of(refusal) == number_of(other) && scan_of(refusal) == scan_of(other)
        }
        _ => false,
    }
}
