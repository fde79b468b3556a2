//! The record of a block of eight words.

use super::calls::{Call, Layer, done, not_a_call, shown};
use crate::troubles::Trouble;
use km_base::{Addr, Span};
use km_record::{Minimum, Note, Record};
use std::alloc::Global;
use std::marker::Model;

/// A record, whose fields the calls may set as no scan does.
#[derive(Drop)]
pub struct Block {
    block: Record,
}

impl Model for Block {
    ghost use Rattle.km_record.specs.Records.{IsLaid};
    ghost use Rattle.km_record.specs.declared.record.Record.{Record};

    ghost Value = { Record };

    ghost view = { λ b. b.block };

    ghost invariant = { λ b. IsLaid b.block };
}

/// The note of this name.
fn note_of(word: &str) -> Result<Note, Trouble> {
    match word {
        "not_leak" => Ok(Note::NotLeak),
        "ignore" => Ok(Note::Ignore),
        "no_scan" => Ok(Note::NoScan),
        "transient_leak" => Ok(Note::TransientLeak),
        _ => Err(Trouble::Malformed("a note of no such name")),
    }
}

impl Block {
    /// A block that needs two references and has none.
    pub fn new() -> Block {
        Block {
            block: Record {
                span: Span {
                    start: Addr(0xffff_8880_0000_1000),
                    size: 64,
                },
                minimum: Minimum::AtLeast(2),
                count: 0,
                no_scan: false,
                flagged: false,
                white_last: false,
                areas: [None; 4],
                excess: None,
                born: 0,
                sum: None,
            },
        }
    }

    /// Adds an area so far from the start.
    fn add_area(&mut self, alloc: Global, at: u64, size: u64) -> Result<String, Trouble> {
        let span = self.block.span;
        if at >= span.size || at % 8 != 0 || size == 0 || size % 8 != 0 {
            return Err(not_a_call());
        }
        let start = Addr(span.start.0 + at);
        shown(alloc, self.block.add_area(Span { start, size }))
    }
}

impl Layer for Block {
    fn make(&mut self, alloc: Global, call: Call<'_>) -> Result<String, Trouble> {
        match call.name {
            "area" => self.add_area(alloc, call.number(0)?, call.number(1)?),
            "word" => shown(alloc, self.block.next_word(call.number(0)?)),
            "colour" => shown(alloc, self.block.colour()),
            "note" => {
                self.block.annotate(note_of(call.word(0)?)?);
                done(alloc)
            }
            "referenced" => {
                self.block.count = 2;
                done(alloc)
            }
            "black" => {
                self.block.minimum = Minimum::Black;
                self.block.no_scan = false;
                done(alloc)
            }
            _ => Err(not_a_call()),
        }
    }
}
