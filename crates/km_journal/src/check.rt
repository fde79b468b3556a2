//! Checks the lines of a journal file.

ghost use Rattle.std.specs.Prelude.{◌≡◌, None};
ghost use Rattle.km_entries.specs.File.{is_memory_size as is_memory_size_of};
ghost use Rattle.km_journal.specs.Journals.{ChecksFile};

use crate::replay::{Judged, Replay};
use km_base::NoMemory;
use km_base::sizes::{MOST_WORDS, PAGE_WORDS};
use km_edge::Source;
use km_entries::sizes::LONGEST_JOURNAL;
use km_entries::{CheckStatus, JournalLine};
use km_journal_lines::read_journal_line;
use km_reader::{Next, Reader};
use std::alloc::Global;

/// Whether a memory can have so many words.
fn is_memory_size(words: u64) -> bool
    ensures { result ≡ is_memory_size_of words }
{
    words % PAGE_WORDS == 0 && PAGE_WORDS <= words && words <= MOST_WORDS
}

/// A journal file between two lines: the number of the next line, from 1, and what the lines so far lead to.
#[derive(Drop)]
pub struct Check {
    number: u64,
    replay: Option<Replay>,
}

impl Check {
    ghost use Rattle.std.specs.Prelude.{◌≡◌, ◌<◌, ◌+◌, ◌^◌, true, [], None, Some, IfOk, MatchResult};
    ghost use Rattle.km_entries.specs.File.{Checked, at_end, verdict, verdict_of};
    ghost use Rattle.km_entries.specs.declared.lines.JournalLine.TheVariants.{Head};
    ghost use Rattle.km_journal.specs.Journals.{EndsAt, IsFirst, IsRight};
    ghost use Rattle.km_journal.specs.Replays.{HasRead, HasRoom, Judges};

    /// Before the first line.
    pub fn new() -> Check
        ensures number { result.number ≡ 1 }
        ensures none { result.replay ≡ None }
    {
        Check {
            number: 1,
            replay: None,
        }
    }

    /// What the lines so far lead to.
    pub fn replay(&self) -> &Option<Replay>
        ensures { result.now ≡ self.now.replay }
    {
        &self.replay
    }

    /// The first line.
    fn head(&mut self, alloc: Global, line: JournalLine) -> Result<Judged, NoMemory>
        requires none { self.old.replay ≡ None }
        ensures judges { MatchResult result (λ j. (c : Checked) → HasRead self.old.replay c → Judges (verdict_of c line) j self.new.replay) (λ _. (words : _) × (line ≡ Head words) × (is_memory_size_of words ≡ true)) }
        ensures number { self.new.number ≡ self.old.number }
    {
        match line {
            JournalLine::Head { words } if is_memory_size(words) => {
                self.replay = Some(Replay::new(alloc, words)?);
                Ok(Judged::Right)
            }
            _ => Ok(Judged::NoLine),
        }
    }

    /// What a line is.
    fn judge(&mut self, alloc: Global, bytes: &[u8]) -> Result<Judged, NoMemory>
        requires room { HasRoom self.old.replay }
        ensures judges { (c : Checked) → HasRead self.old.replay c → MatchResult result (λ j. Judges (verdict c bytes.now) j self.new.replay) (λ _. IsFirst c bytes.now) }
        ensures number { self.new.number ≡ self.old.number }
    {
        let Some(line) = read_journal_line(bytes) else {
            return Ok(Judged::NoLine);
        };
        match &mut self.replay {
            Some(replay) => Ok(replay.line(line)),
            None => self.head(alloc, line),
        }
    }

    /// Checks one line, without its line feed. An `Err` is how the check ends.
    fn line(&mut self, alloc: Global, bytes: &[u8]) -> Result<(), CheckStatus>
        requires numbered { self.old.number < 2 ^ 62 }
        requires room { HasRoom self.old.replay }
        ensures reads { (c : Checked) → HasRead self.old.replay c → MatchResult result (λ _. IsRight c bytes.now self.new.replay) (λ ended. EndsAt self.old.number c bytes.now ended) }
        ensures number { IfOk result (λ _. self.new.number ≡ self.old.number + 1) }
    {
        match self.judge(alloc, bytes) {
            Ok(Judged::Right) => {
                self.number += 1;
                Ok(())
            }
            Ok(Judged::Wrong) => Err(CheckStatus::Wrong { line: self.number }),
            Ok(Judged::NoLine) => Err(self.no_line()),
            Err(_) => Err(CheckStatus::NoMemory),
        }
    }

    /// How a check ends whose next line is none.
    fn no_line(&self) -> CheckStatus
        ensures { result ≡ CheckStatus.NotALine self.now.number }
    {
        CheckStatus::NotALine { line: self.number }
    }

    /// How a check ends where the input does, after a line feed.
    fn end(&self) -> CheckStatus
        ensures { (c : Checked) → HasRead self.now.replay c → result ≡ at_end self.now.number c [] }
    {
        match &self.replay {
            Some(replay) if replay.is_over() => CheckStatus::Ok,
            _ => CheckStatus::Cut,
        }
    }
}

/// Reads a journal file and checks it, line by line.
pub fn check_from<S: Source>(check: &mut Check, alloc: Global, source: &mut S) -> CheckStatus
    requires number { check.old.number ≡ 1 }
    requires none { check.old.replay ≡ None }
    ensures { ChecksFile (S.state source.old) (S.state source.new) check.new.replay result }
{
    let mut reader = Reader::new(LONGEST_JOURNAL);
    loop {
        match reader.next(source) {
            Next::Line => {
                if let Err(ended) = check.line(alloc, reader.line()) {
                    return ended;
                }
            }
            // A last line without a line feed is no line.
            Next::Rest => return check.no_line(),
            Next::Long => return check.no_line(),
            Next::End => return check.end(),
            Next::Fault => return CheckStatus::ReadFault,
            Next::TooLong => return CheckStatus::TooLong,
        }
    }
}
