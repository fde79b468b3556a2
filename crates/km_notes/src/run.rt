//! One line.

ghost use Rattle.std.specs.Prelude.{◌≡◌, ◌^◌, false};
ghost use Rattle.km_model.specs.Follows.{Run};
ghost use Rattle.km_machine.specs.Lines.{IsFew, is_memory, is_print};
ghost use Rattle.km_machine.specs.Machines.{For, HasRoom, Spent};
ghost use Rattle.km_notes.specs.Notes.{NotesLine};

use crate::notes::Notes;
use km_base::Command;
use km_edge::{Failed, Sink};
use km_machine::Machine;

/// Makes the events of a line but `print`, and writes their journal lines.
fn note_events<K: Sink>(
    machine: &mut Machine,
    command: &Command,
    sink: &mut K,
) -> Result<(), Failed>
    requires later { (is_memory command.now ≡ false) × (is_print command.now ≡ false) }
    requires few { IsFew command.now }
    requires room { HasRoom machine.old (2 ^ 38) 3600000 }
    ensures notes { (run : Run) → For machine.old run → NotesLine machine.new run command.now (K.state sink.old) (K.state sink.new) result }
    ensures spent { Spent machine.old machine.new (2 ^ 38) 3600000 }
{
    match machine.events(command, &Notes, sink) {
        Ok(written) => written,
        // A line that is refused makes no event.
        Err(_) => Ok(()),
    }
}

/// Runs a line, and writes the journal lines of its events, with those of the listed blocks after a read that was done:
/// all of them, or up to a fault.
pub fn note<K: Sink>(machine: &mut Machine, command: &Command, sink: &mut K) -> Result<(), Failed>
    requires later { is_memory command.now ≡ false }
    requires few { IsFew command.now }
    requires room { HasRoom machine.old (2 ^ 38) 3600000 }
    ensures notes { (run : Run) → For machine.old run → NotesLine machine.new run command.now (K.state sink.old) (K.state sink.new) result }
    ensures spent { Spent machine.old machine.new (2 ^ 38) 3600000 }
{
    match *command {
        // It makes no event.
        Command::Print(_) => Ok(()),
        _ => note_events(machine, command, sink),
    }
}
