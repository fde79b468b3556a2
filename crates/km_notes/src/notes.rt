//! The lines of a script's events.

use crate::lines::write_event;
use crate::listing::write_read;
use km_base::{Act, Answer};
use km_edge::{Failed, Sink};
use km_machine::{Machine, Witness};

/// Says the journal lines of the events of a script's line.
#[derive(Drop)]
pub struct Notes;

impl Witness for Notes {
    ghost use Rattle.std.specs.Prelude.{true};
    ghost use Rattle.km_notes.specs.Notes.{noted};

    ghost says = { λ _. noted };

    ghost asks = { λ _. true };

    #[inline(always)]
    fn event<K: Sink>(
        &self,
        machine: &mut Machine,
        act: &Act,
        answer: &Answer,
        sink: &mut K,
    ) -> Result<(), Failed> {
        match *act {
            Act::Read => write_read(machine, answer, sink),
            _ => write_event(0, act, answer, sink),
        }
    }
}
