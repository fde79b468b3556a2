//! The values of operands.

ghost use Rattle.std.specs.Prelude.{◌≡◌};
ghost use Rattle.km_model.specs.Follows.{Run};
ghost use Rattle.km_model.specs.Operands.{base_value, operand_value};
ghost use Rattle.km_model.specs.Expansion.{world_after};
ghost use Rattle.km_machine.specs.Machines.{For};

use crate::machine::Machine;
use km_base::{Base, Operand, Refusal};

/// The value of a base, or why there is none.
fn base_value(machine: &Machine, base: Base) -> Result<u64, Refusal>
    ensures { (run : Run) → For machine.now run → result ≡ base_value (world_after run.history) base }
{
    match base {
        Base::Number(n) => Ok(n),
        Base::Reg { task, reg } => machine
            .core()
            .tasks()
            .reg(task, reg)
            .map_err(|_| Refusal::NoTask),
        Base::Stack(task) => machine
            .core()
            .tasks()
            .stack(task)
            .map(|start| start.0)
            .map_err(|_| Refusal::NoTask),
        Base::Section(name) => machine
            .core()
            .sections()
            .start(name)
            .map(|start| start.0)
            .map_err(|_| Refusal::NoSection),
    }
}

/// The value of an operand, modulo 2^64, or why there is none.
pub fn value(machine: &Machine, operand: &Operand) -> Result<u64, Refusal>
    ensures { (run : Run) → For machine.now run → result ≡ operand_value (world_after run.history) operand.now }
{
    Ok(base_value(machine, operand.base)?.wrapping_add(operand.plus))
}
