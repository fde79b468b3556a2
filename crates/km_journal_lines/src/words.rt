//! The words of a line.

ghost use Rattle.std.specs.Prelude.{◌≡◌, ◌==◌, ◌≤◌, drop, length, option_map};
ghost use Rattle.std.specs.List.{position_or_len};
ghost use Rattle.km_base.specs.Names.{name_of};
ghost use Rattle.km_entries.specs.Words.{plain_address as address_of, plain_number as number_of, words_in};
ghost use Rattle.km_entries.specs.Reading.{file_of as file_of_word, first_said, reg_of as register_of};
ghost use Rattle.km_base.specs.Prefix.{bytes_of};
ghost use Rattle.km_journal_lines.specs.Words.{first_word, is_nil, words_after, words_if};

use crate::file::file_of;
use crate::numbers::{plain_address, plain_number, reg_of};
use km_base::{FileCmd, Name, Reg};
use std::marker::Model;

/// The words of a line that are left, parted by single spaces: none, or those of what is left of it.
#[derive(Drop)]
pub struct Words<'a> {
    rest: &'a [u8],
    more: bool,
}

impl<'a> Model for Words<'a> {
    ghost use Rattle.std.specs.Prelude.{ℕ, List};
    ghost use Rattle.km_journal_lines.specs.Words.{words_if};

    ghost Value = { List (List ℕ) };

    ghost view = { λ a. words_if a.more a.rest.now };
}

/// The length of the word at the front.
fn word_length(bytes: &[u8]) -> usize
    ensures length { result ≡ position_or_len (λ c. c == 32) bytes.now }
    ensures within { result ≤ length bytes.now }
{
    for (i, c) in bytes.iter().enumerate() {
        if *c == b' ' {
            return i;
        }
    }
    bytes.len()
}

/// What stands after the space at the front, and whether there is one.
fn after_space(bytes: &[u8]) -> (&[u8], bool)
    ensures { words_if result.1 result.0.now ≡ words_after bytes.now }
{
    match bytes {
        [_, rest @ ..] => (rest, true),
        [] => (bytes, false),
    }
}

impl<'a> Words<'a> {
    /// The words of a line without its line feed.
    pub fn of(line: &'a [u8]) -> Words<'a>
        ensures { result ≡ words_in line.now }
    {
        Words {
            rest: line,
            more: true,
        }
    }

    /// Whether no word is left.
    pub fn are_none(&self) -> bool
        ensures { result ≡ is_nil self.now }
    {
        !self.more
    }

    /// The next word. Each byte is looked at once, up to the space after the word.
    #[inline(always)]
    pub fn next(&mut self) -> Option<&'a [u8]>
        ensures word { option_map bytes_of result ≡ first_word self.old }
        ensures rest { self.new ≡ drop 1 self.old }
    {
        if !self.more {
            return None;
        }
        let (word, after) = self.rest.split_at(word_length(self.rest));
        let (rest, more) = after_space(after);
        self.rest = rest;
        self.more = more;
        Some(word)
    }

    /// The next word is a number.
    pub fn number(&mut self) -> Option<u64>
        ensures said { result ≡ first_said number_of self.old }
        ensures rest { self.new ≡ drop 1 self.old }
    {
        let word = self.next()?;
        plain_number(word)
    }

    /// The next word is an address.
    pub fn address(&mut self) -> Option<u64>
        ensures said { result ≡ first_said address_of self.old }
        ensures rest { self.new ≡ drop 1 self.old }
    {
        let word = self.next()?;
        plain_address(word)
    }

    /// The next word is a name.
    pub fn name(&mut self) -> Option<Name>
        ensures said { result ≡ first_said name_of self.old }
        ensures rest { self.new ≡ drop 1 self.old }
    {
        let word = self.next()?;
        Name::read(word)
    }

    /// The next word is the number of a register.
    pub fn reg(&mut self) -> Option<Reg>
        ensures said { result ≡ first_said register_of self.old }
        ensures rest { self.new ≡ drop 1 self.old }
    {
        let word = self.next()?;
        reg_of(word)
    }

    /// The next word is one of the file.
    pub fn file(&mut self) -> Option<FileCmd>
        ensures said { result ≡ first_said file_of_word self.old }
        ensures rest { self.new ≡ drop 1 self.old }
    {
        let word = self.next()?;
        file_of(word)
    }
}
