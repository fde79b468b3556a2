//! The registers of a thread.

ghost use Rattle.std.specs.Prelude.{◌≡◌, ◌<◌, length};
ghost use Rattle.km_model.specs.Tasks.{place_of};
ghost use Rattle.km_live_model.specs.Courses.{base_in, value_in, with_value, with_start};

use km_base::Reg;
use km_live_model::{JobBase, JobOperand};

/// The place of a register.
pub fn place(reg: Reg) -> usize
    ensures place { result ≡ place_of reg }
    ensures small { result < 4 }
{
    match reg {
        Reg::R0 => 0,
        Reg::R1 => 1,
        Reg::R2 => 2,
        Reg::R3 => 3,
    }
}

/// The value of a base.
fn base(registers: &[u64; 4], base: JobBase) -> u64
    ensures { result ≡ base_in registers.now base }
{
    match base {
        JobBase::Number(n) => n,
        JobBase::Reg(reg) => registers[place(reg)],
    }
}

/// The value of an operand, modulo 2^64.
pub fn value(registers: &[u64; 4], operand: &JobOperand) -> u64
    ensures { result ≡ value_in registers.now operand.now }
{
    base(registers, operand.base).wrapping_add(operand.plus)
}

/// Sets a register.
pub fn set(registers: &mut [u64; 4], reg: Reg, value: u64)
    ensures { registers.new ≡ with_value registers.old reg value }
{
    registers[place(reg)] = value;
}

/// Sets the register that an allocation names to its address.
pub fn set_start(registers: &mut [u64; 4], reg: Option<Reg>, start: Option<u64>)
    ensures { registers.new ≡ with_start registers.old reg start }
{
    if let (Some(reg), Some(start)) = (reg, start) {
        set(registers, reg, start);
    }
}
