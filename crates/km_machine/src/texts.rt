//! The texts of a line's events.

ghost use Rattle.std.specs.Prelude.{◌≡◌, ◌≤◌, false, length, MatchOption};
ghost use Rattle.km_model.specs.Output.{keyword as keyword_of};
ghost use Rattle.km_machine.specs.Lines.{is_allocation};

use crate::machine::Machine;
use crate::print;
use crate::witness::Witness;
use km_base::{Act, Answer, Command};
use km_edge::{Failed, Sink};

/// Says the texts of the events of a line, which is this command.
#[derive(Drop)]
pub struct Texts<'a> {
    command: &'a Command,
}

impl<'a> Texts<'a> {
    /// The texts of a line.
    pub fn of(command: &'a Command) -> Texts<'a>
        ensures { result.command.now ≡ command.now }
    {
        Texts { command }
    }
}

/// The first word of a line, if it asks for an allocation.
fn keyword(command: &Command) -> Option<&'static [u8]>
    ensures { MatchOption result (is_allocation command.now ≡ false) (λ word. (word.now ≡ keyword_of command.now) × (1 ≤ length word.now) × (length word.now ≤ 16)) }
{
    match *command {
        Command::Kmalloc { .. } => Some(b"kmalloc"),
        Command::Kzalloc { .. } => Some(b"kzalloc"),
        Command::Pages { .. } => Some(b"pages"),
        Command::Vmalloc { .. } => Some(b"vmalloc"),
        Command::BootMem { .. } => Some(b"bootmem"),
        _ => None,
    }
}

impl<'a> Witness for Texts<'a> {
    ghost use Rattle.km_model.specs.Output.{answer_text, keyword};
    ghost use Rattle.km_machine.specs.Lines.{is_allocation};

    ghost says = { λ t memory h act given. answer_text memory (keyword t.command.now) h act given };

    ghost asks = { λ t. is_allocation t.command.now };

    #[inline(always)]
    fn event<K: Sink>(
        &self,
        machine: &mut Machine,
        act: &Act,
        answer: &Answer,
        sink: &mut K,
    ) -> Result<(), Failed> {
        match *answer {
            // Most answers are so, and nothing is called for them.
            Answer::Loaded { .. } | Answer::Skipped => Ok(()),
            Answer::Done => match *act {
                Act::Read => machine.list(sink),
                _ => Ok(()),
            },
            Answer::At(start) => match keyword(self.command) {
                Some(word) => print::address(word, start, sink),
                None => Ok(()),
            },
            other => print::answer(other, sink),
        }
    }
}
