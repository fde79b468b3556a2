//! What is said of the events of a line.

ghost use Rattle.std.specs.Prelude.{◌≡◌};
ghost use Rattle.km_machine.specs.Lines.{SaysEvent};

use crate::machine::Machine;
use km_base::{Act, Answer};
use km_edge::{Failed, Sink};

/// Sees each event of a line as soon as it is made, and says what there is to say of it.
pub trait Witness {
    ghost use Rattle.std.specs.Prelude.{Bool};
    ghost use Rattle.km_machine.specs.Sayings.{Saying};

    // What it says of an act and its answer.
    ghost says: { Self → Saying };

    // Whether its line asks for an allocation, so that it can say which address is given.
    ghost asks: { Self → Bool };

    /// Writes what it says of an event. The machine is as it is after the event, and stays so.
    fn event<K: Sink>(
        &self,
        machine: &mut Machine,
        act: &Act,
        answer: &Answer,
        sink: &mut K,
    ) -> Result<(), Failed>
        ensures said { SaysEvent (says self.now) (asks self.now) machine.old act.now answer.now (K.state sink.old) (K.state sink.new) result }
        ensures same { machine.new ≡ machine.old };
}
