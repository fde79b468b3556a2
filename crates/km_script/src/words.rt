//! The words of a line.

ghost use Rattle.std.specs.Prelude.{◌≡◌, ◌+◌, ◌≤◌, false, [], ◌∷◌, drop, length, option_map, position, MatchOption};
ghost use Rattle.std.specs.List.{position_from};
ghost use Rattle.km_base.specs.Names.{name_of};
ghost use Rattle.km_model.specs.Grammar.{any_word, is_comment, is_foreign as is_foreign_byte, memory_size as memory_size_of, number as number_of, number_within as number_of_range, operand as operand_of_word, register_of as register_of_word};
ghost use Rattle.km_model.specs.Pieces.{is_blank as is_blank_byte, pieces};
ghost use Rattle.km_script.specs.Left.{Left, behind_word, first_or_end, first_piece, map_ok, none_left as nothing_left, only_said, register_or_none as register_or_nothing, word_said};
ghost use Rattle.km_script.specs.Marks.{if_here, or_first};
ghost use Rattle.km_script.specs.Words.{IsAllBlank, IsFirstVisible, bytes_of_word, piece_of};

use crate::bytes::{is_blank, is_foreign};
use crate::marks::marks_of;
use crate::numbers::{memory_size, number_behind, number_within};
use crate::operands::{operand, register_of};
use crate::word::Word;
use km_base::{Name, NotACommand, Operand, RegName};
use std::marker::Model;

impl<'a> Word<'a> {
    /// The refusal of a line in which this word doesn't fit.
    pub fn refused(&self) -> NotACommand
        ensures { result ≡ record { column = self.now.column } }
    {
        NotACommand {
            column: self.column,
        }
    }

    /// Whether this word begins a comment, as the first of its line.
    pub fn begins_comment(&self) -> bool
        ensures { result ≡ is_comment (piece_of self.now ∷ []) }
    {
        self.first == b'#'
    }
}

/// The words of a line that are left.
#[derive(Drop)]
pub struct Words<'a> {
    rest: &'a [u8],
    column: u32,
    end: u32,
    /// The column of the first byte that no command has, if one was passed.
    foreign: Option<u32>,
}

impl<'a> Model for Words<'a> {
    ghost use Rattle.std.specs.Prelude.{◌≡◌, ◌≤◌, ◌+◌, length};
    ghost use Rattle.std.specs.List.{position_from};
    ghost use Rattle.km_model.specs.Grammar.{is_foreign};
    ghost use Rattle.km_model.specs.Pieces.{pieces_from};
    ghost use Rattle.km_script.specs.Left.{Left};
    ghost use Rattle.km_script.specs.Marks.{or_first};

    ghost Value = { Left };

    ghost view = { λ a. record { end = a.end; pieces = pieces_from a.column a.rest.now; foreign = or_first a.foreign (position_from is_foreign a.column a.rest.now) } };

    ghost invariant = { λ a. (a.column + length a.rest.now ≡ a.end) × (a.end ≤ 257) };
}

/// The number of blanks at the front, and the first byte behind them.
fn first_visible(bytes: &[u8]) -> Option<(usize, u8)>
    ensures { MatchOption result (IsAllBlank bytes.now) (λ found. IsFirstVisible bytes.now found.0 found.1) }
{
    for (i, c) in bytes.iter().enumerate() {
        if !is_blank(*c) {
            return Some((i, *c));
        }
    }
    None
}

/// What stands behind the byte at the front, which isn't looked at.
fn behind_one(bytes: &[u8]) -> &[u8]
    ensures { result.now ≡ drop 1 bytes.now }
{
    &bytes[bytes.len().min(1)..]
}

/// The column of the first byte that no command has, of a word's first byte and those behind it.
fn foreign_in(column: u32, first: u8, behind: Option<u32>) -> Option<u32>
    requires { is_blank_byte first ≡ false }
    ensures { result ≡ or_first (if_here (is_foreign_byte first) column) behind }
{
    if 33 <= first && first <= 126 {
        behind
    } else {
        Some(column)
    }
}

/// The first of two columns.
fn first_of(before: Option<u32>, behind: Option<u32>) -> Option<u32>
    ensures { result ≡ or_first before behind }
{
    match before {
        Some(column) => Some(column),
        None => behind,
    }
}

/// The column of the first byte that no command has, of bytes of which the first stands at a column.
fn first_foreign(column: u32, bytes: &[u8]) -> Option<u32>
    requires { column + length bytes.now ≤ 257 }
    ensures { result ≡ position_from is_foreign_byte column bytes.now }
{
    for (i, c) in bytes.iter().enumerate() {
        if is_foreign(*c) {
            return Some(column + i as u32);
        }
    }
    None
}

impl<'a> Words<'a> {
    /// The words of a line without its line feed, of at most 256 bytes.
    pub fn of(line: &'a [u8]) -> Words<'a>
        requires { length line.now ≤ 256 }
        ensures end { result.end ≡ length line.now + 1 }
        ensures all { result.pieces ≡ pieces line.now }
        ensures foreign { result.foreign ≡ position_from is_foreign_byte 1 line.now }
    {
        Words {
            rest: line,
            column: 1,
            end: line.len() as u32 + 1,
            foreign: None,
        }
    }

    /// The column of the line's first byte that no command has: it was passed, or is among those that are left.
    pub fn foreign(&self) -> Option<u32>
        ensures { result ≡ self.now.foreign }
    {
        match self.foreign {
            Some(column) => Some(column),
            None => first_foreign(self.column, self.rest),
        }
    }

    /// The next word. Each byte is looked at once, up to the blank behind the word.
    ///
    /// It is written into each caller, since a word is large: to hand it over by memory costs about as much as to find it.
    #[inline(always)]
    pub fn next(&mut self) -> Option<Word<'a>>
        ensures word { option_map piece_of result ≡ first_piece self.old.pieces }
        ensures rest { self.new ≡ behind_word self.old }
    {
        let Some((blanks, first)) = first_visible(self.rest) else {
            return None;
        };
        let column = self.column + blanks as u32;
        let (_, behind) = self.rest.split_at(blanks + 1);
        let marks = marks_of(column + 1, behind);
        let (rest, from_blank) = behind.split_at(marks.length);
        let left = behind_one(from_blank);
        self.foreign = first_of(self.foreign, foreign_in(column, first, marks.foreign));
        self.column = self.end - left.len() as u32;
        self.rest = left;
        Some(Word {
            column,
            first,
            rest,
            dot: marks.dot,
            plus: marks.plus,
        })
    }

    /// The next word, which has to be there.
    #[inline(always)]
    fn expect(&mut self) -> Result<Word<'a>, NotACommand>
        ensures word { map_ok piece_of result ≡ first_or_end self.old }
        ensures rest { self.new ≡ behind_word self.old }
    {
        match self.next() {
            Some(word) => Ok(word),
            None => Err(NotACommand { column: self.end }),
        }
    }

    /// The next word is a number.
    pub fn number(&mut self) -> Result<u64, NotACommand>
        ensures said { result ≡ word_said number_of self.old }
        ensures rest { self.new ≡ behind_word self.old }
    {
        let word = self.expect()?;
        number_behind(word.first, word.rest).ok_or(word.refused())
    }

    /// The next word is a number in a range.
    pub fn number_within(&mut self, low: u64, high: u64) -> Result<u64, NotACommand>
        ensures said { result ≡ word_said (number_of_range low high) self.old }
        ensures rest { self.new ≡ behind_word self.old }
    {
        let word = self.expect()?;
        number_within(low, high, word.first, word.rest).ok_or(word.refused())
    }

    /// The next word is a number of words that a memory can have.
    pub fn memory_size(&mut self) -> Result<u64, NotACommand>
        ensures said { result ≡ word_said memory_size_of self.old }
        ensures rest { self.new ≡ behind_word self.old }
    {
        let word = self.expect()?;
        memory_size(word.first, word.rest).ok_or(word.refused())
    }

    /// The next word is a name.
    pub fn name(&mut self) -> Result<Name, NotACommand>
        ensures said { result ≡ word_said name_of self.old }
        ensures rest { self.new ≡ behind_word self.old }
    {
        let word = self.expect()?;
        Name::read_behind(word.first, word.rest).ok_or(word.refused())
    }

    /// The next word is a register.
    pub fn register(&mut self) -> Result<RegName, NotACommand>
        ensures said { result ≡ word_said register_of_word self.old }
        ensures rest { self.new ≡ behind_word self.old }
    {
        let word = self.expect()?;
        register_of(word).ok_or(word.refused())
    }

    /// The next word is an operand.
    pub fn operand(&mut self) -> Result<Operand, NotACommand>
        ensures said { result ≡ word_said operand_of_word self.old }
        ensures rest { self.new ≡ behind_word self.old }
    {
        let word = self.expect()?;
        match operand(word) {
            Some(operand) => Ok(operand),
            None => Err(word.refused()),
        }
    }

    /// No word is left.
    pub fn none_left(&self) -> Result<(), NotACommand>
        ensures { result ≡ nothing_left self.now.pieces }
    {
        match first_visible(self.rest) {
            Some((blanks, _first)) => Err(NotACommand {
                column: self.column + blanks as u32,
            }),
            None => Ok(()),
        }
    }

    /// The only word that is left is a number.
    pub fn only_number(&mut self) -> Result<u64, NotACommand>
        ensures said { result ≡ only_said number_of self.old }
        ensures kept { self.new.foreign ≡ self.old.foreign }
    {
        let said = self.number()?;
        self.none_left()?;
        Ok(said)
    }

    /// The only word that is left is a number in a range.
    pub fn only_number_within(&mut self, low: u64, high: u64) -> Result<u64, NotACommand>
        ensures said { result ≡ only_said (number_of_range low high) self.old }
        ensures kept { self.new.foreign ≡ self.old.foreign }
    {
        let said = self.number_within(low, high)?;
        self.none_left()?;
        Ok(said)
    }

    /// The only word that is left is a number of words that a memory can have.
    pub fn only_memory_size(&mut self) -> Result<u64, NotACommand>
        ensures said { result ≡ only_said memory_size_of self.old }
        ensures kept { self.new.foreign ≡ self.old.foreign }
    {
        let said = self.memory_size()?;
        self.none_left()?;
        Ok(said)
    }

    /// The only word that is left is a name.
    pub fn only_name(&mut self) -> Result<Name, NotACommand>
        ensures said { result ≡ only_said name_of self.old }
        ensures kept { self.new.foreign ≡ self.old.foreign }
    {
        let said = self.name()?;
        self.none_left()?;
        Ok(said)
    }

    /// The only word that is left is an operand.
    pub fn only_operand(&mut self) -> Result<Operand, NotACommand>
        ensures said { result ≡ only_said operand_of_word self.old }
        ensures kept { self.new.foreign ≡ self.old.foreign }
    {
        let said = self.operand()?;
        self.none_left()?;
        Ok(said)
    }

    /// The only word that is left is any word.
    pub fn only_word(&mut self) -> Result<Word<'a>, NotACommand>
        ensures said { map_ok bytes_of_word result ≡ only_said any_word self.old }
        ensures kept { self.new.foreign ≡ self.old.foreign }
    {
        let word = self.expect()?;
        self.none_left()?;
        Ok(word)
    }

    /// The only word that is left is a register, or none is left.
    pub fn register_or_none(&mut self) -> Result<Option<RegName>, NotACommand>
        ensures said { result ≡ register_or_nothing self.old.pieces }
        ensures kept { self.new.foreign ≡ self.old.foreign }
    {
        let Some(word) = self.next() else {
            return Ok(None);
        };
        let reg = register_of(word).ok_or(word.refused())?;
        self.none_left()?;
        Ok(Some(reg))
    }
}
