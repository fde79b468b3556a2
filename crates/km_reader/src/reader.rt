//! The reader of lines.

use km_edge::{Cut, Failed, Lines, Source};
use std::marker::Model;

/// What comes next in an input.
#[derive(Clone, Copy, Debug, PartialEq)]
pub enum Next {
    /// A whole line, which `line` gives.
    Line,
    /// A last line that no line feed ends, which `line` gives.
    Rest,
    /// A line of more than 256 bytes.
    Long,
    /// The end of the input.
    End,
    /// A read failed.
    Fault,
    /// The input has more bytes than its limit, and no line before that was left.
    TooLong,
}

/// An input between two lines.
#[derive(Drop)]
pub struct Reader {
    lines: Lines,
    // The bytes at the start of the buffer that were given: those of a line and its line feed.
    skip: usize,
    taken: u64,
    limit: u64,
}

impl Model for Reader {
    ghost use Rattle.std.specs.Prelude.{◌+◌, ◌-◌, ◌^◌, ◌<◌, ◌≤◌, length};
    ghost use Rattle.km_reader.specs.Reading.{Input};

    ghost Value = { Input };

    ghost view = { λ a. record { lines = a.lines; skip = a.skip; taken = a.taken; limit = a.limit } };

    ghost invariant = { λ a. (a.skip ≤ length a.lines + 1) × (a.taken ≤ a.limit + 1) × (length a.lines + (a.taken - a.limit) ≤ 4096) × (a.limit < 2 ^ 62) };
}

impl Reader {
    ghost use Rattle.std.specs.Prelude.{◌≡◌, ◌≢◌, ◌≤◌, ◌<◌, ◌+◌, ◌-◌, ◌^◌, false, length, min, MatchOption, MatchResult};
    ghost use Rattle.std.specs.Io.KnownBytes.{IsAtEnd};
    ghost use Rattle.km_edge.specs.Streams.{Rose, SourceState};
    ghost use Rattle.km_edge.specs.Lines.{Unknown, next_of};
    ghost use Rattle.km_reader.specs.Reading.{FaultsAre, Is, IsFound, IsReady, Step, Went, line_in, rest_in, unread};

    /// Before the first line of an input of at most `limit` bytes.
    pub fn new(limit: u64) -> Reader
        requires { limit < 2 ^ 62 }
        ensures { result ≡ unread limit }
    {
        Reader {
            lines: Lines::new(),
            skip: 0,
            taken: 0,
            limit,
        }
    }

    /// The line that was given last, without its line feed.
    #[inline]
    pub fn line(&self) -> &[u8]
        ensures { result.now ≡ line_in self.now }
    {
        &self.lines.held()[..self.skip.saturating_sub(1)]
    }

    /// Drops the line that was given last.
    #[inline(always)]
    fn pass(&mut self)
        ensures same { self.new ≡ record { lines = rest_in self.old; skip = 0; taken = self.old.taken; limit = self.old.limit } }
        ensures ready { IsReady self.old.limit self.new }
    {
        if self.skip > 0 {
            self.lines.pass(self.skip - 1);
            self.skip = 0;
        }
    }

    /// Makes one read, for as many bytes as the limit leaves and one, or as there is room for, and gives the number of
    /// those that came. That one is not held.
    fn fill<S: Source>(&mut self, source: &mut S) -> Result<usize, Failed>
        requires none { self.old.skip ≡ 0 }
        requires within { self.old.taken ≤ self.old.limit }
        requires more { next_of false self.old.lines ≡ Unknown }
        ensures went { Went (S.state source.old) (S.state source.new) self.old.lines self.old.taken self.old.limit self.new.lines self.new.taken }
        ensures asked { S.asked source.old source.new (min (self.old.limit + 1 - self.old.taken) (4096 - length self.old.lines)) }
        ensures none { self.new.skip ≡ 0 }
        ensures ready { IsReady self.old.limit self.new }
        ensures fills { MatchResult result
            (λ n. (self.new.taken ≡ self.old.taken + n) × (n ≡ 0 → IsAtEnd (S.state source.new).left × (self.new.lines ≡ self.old.lines)) × ((S.state source.new).faults ≡ (S.state source.old).faults))
            (λ _. (self.new ≡ self.old) × Rose (S.state source.old).faults (S.state source.new).faults) }
    {
        let n = self
            .lines
            .fill(source, (self.limit + 1 - self.taken) as usize)?;
        self.taken += n as u64;
        if self.taken > self.limit {
            self.lines.drop_last();
        }
        Ok(n)
    }

    /// What an input ends with, whose last bytes are held.
    fn rest(&mut self) -> Next
        requires none { self.old.skip ≡ 0 }
        requires more { next_of false self.old.lines ≡ Unknown }
        requires within { self.old.taken ≤ self.old.limit }
        ensures same { (self.new.lines ≡ self.old.lines) × (self.new.taken ≡ self.old.taken) }
        ensures ready { IsReady self.old.limit self.new }
        ensures is { (s' : SourceState) → IsAtEnd s'.left → Is s' self.new result }
        ensures ended { (s s' : SourceState) → s'.faults ≡ s.faults → FaultsAre s s' result }
    {
        match self.lines.cut(true) {
            Cut::Line(line) => {
                self.skip = line.len() + 1;
                Next::Rest
            }
            _ => Next::End,
        }
    }

    /// Gives what comes next, where the bytes that are held tell it.
    #[inline(always)]
    fn find(&mut self) -> Option<Next>
        requires none { self.old.skip ≡ 0 }
        ensures same { (self.new.lines ≡ self.old.lines) × (self.new.taken ≡ self.old.taken) }
        ensures ready { IsReady self.old.limit self.new }
        ensures found { MatchOption result ((next_of false self.old.lines ≡ Unknown) × (self.new ≡ self.old)) (IsFound self.old.lines self.new) }
    {
        match self.lines.cut(false) {
            Cut::Line(line) => {
                self.skip = line.len() + 1;
                Some(Next::Line)
            }
            Cut::Long => Some(Next::Long),
            Cut::More => None,
        }
    }

    /// Reads until it can be told what comes next.
    #[inline(never)]
    fn read_on<S: Source>(&mut self, source: &mut S) -> Next
        requires ready { IsReady self.old.limit self.old }
        requires none { self.old.skip ≡ 0 }
        requires more { next_of false self.old.lines ≡ Unknown }
        ensures went { Went (S.state source.old) (S.state source.new) self.old.lines self.old.taken self.old.limit self.new.lines self.new.taken }
        ensures ready { IsReady self.old.limit self.new }
        ensures is { Is (S.state source.new) self.new result }
        ensures faults { FaultsAre (S.state source.old) (S.state source.new) result }
    {
        loop {
            if self.taken > self.limit {
                return Next::TooLong;
            }
            match self.fill(source) {
                Ok(0) => return self.rest(),
                Ok(_) => {}
                Err(_) => return Next::Fault,
            }
            if let Some(next) = self.find() {
                return next;
            }
        }
    }

    /// Takes what comes next. While a whole line is held, no byte is read.
    #[inline]
    pub fn next<S: Source>(&mut self, source: &mut S) -> Next
        // What was taken is held then, but for the one byte over the limit, after which none is taken.
        ensures step { Step (S.state source.old) (S.state source.new) self.old self.new }

        // What was given.
        ensures is { Is (S.state source.new) self.new result }

        // A fault of the source is given, and nothing else is given after one.
        ensures faults { FaultsAre (S.state source.old) (S.state source.new) result }

        // While a whole line is held, or one that is too long, the source is left alone.
        ensures idle { next_of false (rest_in self.old) ≢ Unknown → source.new ≡ source.old }
    {
        self.pass();
        match self.find() {
            Some(next) => next,
            None => self.read_on(source),
        }
    }
}
