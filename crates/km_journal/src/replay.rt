//! Replays the events of a journal.

ghost use Rattle.std.specs.Prelude.{◌≡◌, ℕ, ◌^◌, ◌<◌, ◌≤◌, ◌+◌, ◌-◌, ◌&&◌, ◌==◌, is_none, List, [], true, false, IfOk, Some, if◌then◌else◌};
ghost use Rattle.km_model.specs.Headline.{IsMemorySize};
ghost use Rattle.km_model.specs.Answers.{answer as answer_of};
ghost use Rattle.km_model.specs.Follows.{past_of};
ghost use Rattle.km_model.specs.Past.{completes};
ghost use Rattle.km_rounds.specs.declared.entry.Entry.{Entry};
ghost use Rattle.km_entries.specs.declared.lines.JournalLine.TheVariants as line;
ghost use Rattle.km_entries.specs.File.{Checked, Going, going_verdict, history_in, listed_after, is_too_late as is_too_late_at, told_in as told_in_said, verdict_of, with_entry};
ghost use Rattle.km_journal.specs.Judging.{TellsRead, judged_if};

use crate::said::{is_same, said_of, told_in};
use crate::told::Told;
use km_base::{Act, Answer, NoMemory};
use km_core::Core;
use km_entries::{JournalLine, Said};
use km_record::RecId;
use km_tree::TreeMap;
use km_verdict::{first_listed, next_listed};
use std::alloc::Global;

/// The greatest moment of a journal, in milliseconds.
const LAST_MOMENT: u64 = 1 << 62;

/// What a line is: the next one of the journal, another one, or one that can't stand there.
#[derive(Clone, Copy, Debug, PartialEq)]
pub enum Judged {
    Right,
    Wrong,
    NoLine,
}

/// Right, if it is so, else wrong.
fn right_if(holds: bool) -> Judged
    ensures { result ≡ judged_if holds }
{
    if holds { Judged::Right } else { Judged::Wrong }
}

/// Whether an act reads the file.
fn is_read(act: &Act) -> bool
    ensures { TellsRead act.now result }
{
    match act {
        Act::Read => true,
        _ => false,
    }
}

/// The lines of a journal so far, after the first: the core that their events lead to, the block whose
/// `listed` line is due, the number of completed scans, and whether the last line was read.
#[derive(Drop)]
pub struct Replay {
    core: Core<TreeMap>,
    words: Told,
    owed: Option<RecId>,
    scans: u64,
    over: bool,
    ghost sized: { words.words ≡ core.parts.words },
    ghost counted: { scans ≤ core.events },
}

impl Replay {
    ghost use Rattle.km_model.specs.Past.{Past};
    ghost use Rattle.km_base.specs.declared.acts.Act.{Act as AnAct};
    ghost use Rattle.km_journal.specs.Replays.{HasListing, IsAt, Judges, Owes};

    /// After the first line.
    pub fn new(alloc: Global, words: u64) -> Result<Replay, NoMemory>
        requires { IsMemorySize words }
        ensures { IfOk result (λ r. IsAt r (Going words [] [])) }
    {
        let map = TreeMap::new(alloc, words as u32)?;
        Ok(Replay {
            core: Core::boot(alloc, words, map)?,
            words: Told::new(words),
            owed: None,
            scans: 0,
            over: false,
        })
    }

    /// Whether the last line was read.
    pub fn is_over(&self) -> bool
        ensures { result ≡ self.now.over }
    {
        self.over
    }

    /// The number of events.
    pub fn events(&self) -> u64
        ensures { result ≡ self.now.core.events }
    {
        self.core.events()
    }

    /// The number of completed scans.
    pub fn scans(&self) -> u64
        ensures { result ≡ self.now.scans }
    {
        self.scans
    }

    /// Whether an act would move the moment too far.
    fn is_too_late(&self, act: &Act) -> bool
        ensures { result ≡ is_too_late_at self.now.core.parts.settings.now act.now }
    {
        match act {
            Act::Tick(n) => LAST_MOMENT < self.core.now().saturating_add(*n),
            _ => false,
        }
    }

    /// The block whose line is due after an event.
    fn next_owed(&self, is_read: bool, answer: &Answer) -> Option<RecId>
        ensures { (past : Past) (act : AnAct) → TellsRead act is_read → HasListing past act answer.now self.now.core.parts.objects.tracker → Owes self.now.core.parts.objects.tracker result (listed_after past act answer.now) }
    {
        match answer {
            Answer::Done => {
                if is_read {
                    first_listed(self.core.track())
                } else {
                    None
                }
            }
            _ => None,
        }
    }

    /// The number of completed scans after an event.
    fn next_scans(&self, answer: &Answer) -> u64
        requires { self.now.scans < 2 ^ 64 - 1 }
        ensures { result ≡ (if completes answer.now then 1 + self.now.scans else self.now.scans) }
    {
        match answer {
            Answer::Ended { .. } => self.scans + 1,
            _ => self.scans,
        }
    }

    /// Makes an event, where each load gives the value that the line tells.
    fn make(&mut self, act: Act, said: Said) -> Answer
        requires few { self.old.core.events < 2 ^ 62 }
        requires timely { is_too_late_at self.old.core.parts.settings.now act ≡ false }
        ensures made { (words by : ℕ) (ns : List Entry) → IsAt self.old (Going words ns []) → (result ≡ answer_of words (past_of (history_in ns)) act (told_in_said said)) × IsAt self.new (with_entry words ns by act result) }
    {
        let is_read = is_read(&act);
        self.words.set(told_in(said));
        let answer = self.core.apply(&mut self.words, act);
        self.owed = self.next_owed(is_read, &answer);
        self.scans = self.next_scans(&answer);
        answer
    }

    /// An event line.
    fn event(&mut self, act: Act, said: Said) -> Judged
        requires few { self.old.core.events < 2 ^ 62 }
        ensures judges { (words by : ℕ) (ns : List Entry) (owed : List ℕ) → IsAt self.old (Going words ns owed) → Judges (going_verdict words ns owed (line.Event by act said)) result (Some self.new) }
    {
        if self.is_too_late(&act) {
            return Judged::NoLine;
        }
        if self.owed.is_some() {
            return Judged::Wrong;
        }
        let answer = self.make(act, said);
        right_if(is_same(said_of(&answer), said))
    }

    /// A `listed` line.
    fn listed(&mut self, start: u64) -> Judged
        ensures judges { (words : ℕ) (ns : List Entry) (owed : List ℕ) → IsAt self.old (Going words ns owed) → Judges (going_verdict words ns owed (line.Listed start)) result (Some self.new) }
    {
        let Some(id) = self.owed else {
            return Judged::Wrong;
        };
        let track = self.core.track();
        let Some(record) = track.record(id) else {
            return Judged::Wrong;
        };
        if record.span.start.0 != start {
            return Judged::Wrong;
        }
        self.owed = next_listed(track, id);
        Judged::Right
    }

    /// Whether a journal may end here, with so many events.
    fn is_end(&self, events: u64) -> bool
        ensures { result ≡ (is_none self.now.owed && events == self.now.core.events) }
    {
        self.owed.is_none() && events == self.core.events()
    }

    /// The last line.
    fn end(&mut self, events: u64) -> Judged
        ensures judges { (words : ℕ) (ns : List Entry) (owed : List ℕ) → IsAt self.old (Going words ns owed) → Judges (going_verdict words ns owed (line.End events)) result (Some self.new) }
    {
        let right = self.is_end(events);
        self.over = right;
        right_if(right)
    }

    /// The next line after the first.
    pub fn line(&mut self, line: JournalLine) -> Judged
        requires few { self.old.core.events < 2 ^ 62 }
        ensures judges { (c : Checked) → IsAt self.old c → Judges (verdict_of c line) result (Some self.new) }
    {
        if self.over {
            return Judged::NoLine;
        }
        match line {
            JournalLine::Head { .. } => Judged::NoLine,
            JournalLine::Event { act, said, .. } => self.event(act, said),
            JournalLine::Listed(start) => self.listed(start),
            JournalLine::End(events) => self.end(events),
        }
    }
}
