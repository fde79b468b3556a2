//! The buffer that cuts a script into lines.

ghost use Rattle.std.specs.Prelude.{◌≡◌, ◌≤◌, ◌<◌, ◌-◌, length, min, take, drop, position, MatchResult, IfOk, IfSome};
ghost use Rattle.std.specs.Io.KnownBytes.{Keeps, Consumes, IsAtEnd};
ghost use Rattle.km_edge.specs.Streams.{Rose};
ghost use Rattle.km_edge.specs.Lines.{is_line_feed, next_at, seen};

use crate::errors::Failed;
use crate::streams::Source;
use km_base::sizes::LONGEST_LINE;
use std::marker::Model;

/// What comes next in the buffer.
#[derive(Clone, Copy, Debug)]
pub enum Cut<'a> {
    /// A whole line without its line feed, or a rest that ends the input.
    Line(&'a [u8]),
    /// More bytes than a line may have, without a line feed.
    Long,
    /// Neither: what is held is less than a line.
    More,
}

/// The bytes of a script that were read and not yet taken, in a buffer of 4096 bytes.
#[derive(Drop)]
pub struct Lines {
    bytes: [u8; 4096],
    start: usize,
    end: usize,
}

impl Model for Lines {
    ghost use Rattle.std.specs.Prelude.{List, ℕ, ◌≤◌, ◌-◌, take, drop};

    ghost Value = { List ℕ };

    ghost view = { λ a. take (a.end - a.start) (drop a.start a.bytes) };

    ghost invariant = { λ a. (a.start ≤ a.end) × (a.end ≤ 4096) };
}

impl Lines {
    ghost use Rattle.std.specs.Prelude.{◌≡◌, ◌≤◌, ◌<◌, ◌+◌, ◌-◌, ◌∷◌, [], false, length, take, drop, IfOk, min};
    ghost use Rattle.km_edge.specs.Lines.{next_of, seen, Fills, Unknown};

    /// An empty buffer.
    pub fn new() -> Lines
        ensures { result ≡ [] }
    {
        Lines {
            bytes: [0; 4096],
            start: 0,
            end: 0,
        }
    }

    /// The bytes that are held.
    #[inline]
    pub fn held(&self) -> &[u8]
        ensures held { result.now ≡ self.now }
        ensures room { length result.now ≤ 4096 }
    {
        &self.bytes[self.start..self.end]
    }

    /// The number of bytes that are held.
    pub fn len(&self) -> usize
        ensures len { result ≡ length self.now }
        ensures room { result ≤ 4096 }
    {
        self.held().len()
    }

    /// What comes next; `ended` says that the input has no more bytes. It takes nothing: `pass` does.
    #[inline]
    pub fn cut(&self, ended: bool) -> Cut<'_>
        ensures { seen result ≡ next_of ended self.now }
    {
        let held = self.held();
        let feed = first_feed(&held[..held.len().min(LONGEST_LINE + 1)]);
        cut_at(held, feed, ended)
    }

    /// Takes a line of as many bytes, and the line feed behind it where there is one.
    #[inline]
    pub fn pass(&mut self, line: usize)
        requires { line ≤ length self.old }
        ensures { self.new ≡ drop (line + 1) self.old }
    {
        self.start = self.end.min(self.start + line + 1);
    }

    /// Takes the last byte away.
    pub fn drop_last(&mut self)
        requires { 0 < length self.old }
        ensures { self.new ≡ take (length self.old - 1) self.old }
    {
        self.end -= 1;
    }

    /// Makes one read of `most` bytes, or of as many as there is room for, and gives the number of those that came.
    pub fn fill<S: Source>(&mut self, source: &mut S, most: usize) -> Result<usize, Failed>
        requires some { 1 ≤ most }
        requires more { next_of false self.old ≡ Unknown }
        ensures fills { Fills self.old self.new (S.state source.old) (S.state source.new) result }
        ensures most { IfOk result (λ n. n ≤ min most (4096 - length self.old)) }
        ensures asked { S.asked source.old source.new (min most (4096 - length self.old)) }
        ensures faults { (S.state source.old).faults ≤ (S.state source.new).faults }
        ensures kept { IfOk result (λ _. (S.state source.new).faults ≡ (S.state source.old).faults) }
    {
        self.bytes.copy_within(self.start..self.end, 0);
        self.end -= self.start;
        self.start = 0;
        let n = read_behind(source, &mut self.bytes, self.end, most)?;
        self.end += n;
        Ok(n)
    }
}

/// The place of the first line feed.
#[inline(always)]
fn first_feed(bytes: &[u8]) -> Option<usize>
    ensures { result ≡ position is_line_feed bytes.now }
{
    bytes.iter().position(|c| *c == 10)
}

/// What comes next, by the place of the first line feed among the first 257 bytes.
#[inline(always)]
fn cut_at(held: &[u8], feed: Option<usize>, ended: bool) -> Cut<'_>
    requires { IfSome feed (λ i. i < length held.now) }
    ensures { seen result ≡ next_at feed ended held.now }
{
    match feed {
        Some(i) => Cut::Line(&held[..i]),
        None if held.len() > LONGEST_LINE => Cut::Long,
        None if ended && !held.is_empty() => Cut::Line(held),
        None => Cut::More,
    }
}

/// Makes one read of `most` bytes, or of as many as there are, after the first `end`.
fn read_behind<S: Source>(
    source: &mut S,
    bytes: &mut [u8],
    end: usize,
    most: usize,
) -> Result<usize, Failed>
    requires some { 1 ≤ most }
    requires room { end < length bytes.old }
    ensures front { take end bytes.new ≡ take end bytes.old }
    ensures reads { MatchResult result
        (λ n. (n ≤ min most (length bytes.old - end)) × Consumes (S.state source.old).left (S.state source.new).left (take n (drop end bytes.new)) × (n ≡ 0 → IsAtEnd (S.state source.new).left))
        (λ _. Keeps (S.state source.old).left (S.state source.new).left × Rose (S.state source.old).faults (S.state source.new).faults) }
    ensures asked { S.asked source.old source.new (min most (length bytes.old - end)) }
    ensures faults { (S.state source.old).faults ≤ (S.state source.new).faults }
    ensures kept { IfOk result (λ _. (S.state source.new).faults ≡ (S.state source.old).faults) }
{
    let room = most.min(bytes.len() - end);
    source.read(&mut bytes[end..end + room])
}
