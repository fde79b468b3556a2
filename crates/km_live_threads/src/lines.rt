//! The lines of a thread as a round runs them.

ghost use Rattle.std.specs.Prelude.{◌≡◌, IfOk, Ok};
ghost use Rattle.km_model.specs.Operands.{then_do};
ghost use Rattle.km_model.specs.World.{World};
ghost use Rattle.km_live_model.specs.Rounds.{all_of, job_base as job_base_of, job_line as job_line_of, job_operand as job_operand_of};
ghost use Rattle.km_live_threads.specs.Worlds.{Shows};

use km_base::{Base, NoMemory, Operand, Refusal};
use km_core::Core;
use km_live_model::{JobBase, JobCommand, JobLine, JobOperand};
use km_tree::TreeMap;
use std::alloc::Global;

/// What an operand of a thread begins with, or why it is nothing. A stack and a section are addresses.
fn job_base(core: &Core<TreeMap>, base: Base) -> Result<JobBase, Refusal>
    ensures { (w : World) → Shows core.now w → result ≡ job_base_of w base }
{
    match base {
        Base::Number(n) => Ok(JobBase::Number(n)),
        Base::Reg { task: _, reg } => Ok(JobBase::Reg(reg)),
        Base::Stack(task) => core
            .tasks()
            .stack(task)
            .map(|start| JobBase::Number(start.0))
            .map_err(|_| Refusal::NoTask),
        Base::Section(name) => core
            .sections()
            .start(name)
            .map(|start| JobBase::Number(start.0))
            .map_err(|_| Refusal::NoSection),
    }
}

/// An operand of a thread, or why it has no base.
fn job_operand(core: &Core<TreeMap>, operand: &Operand) -> Result<JobOperand, Refusal>
    ensures { (w : World) → Shows core.now w → result ≡ job_operand_of w operand.now }
{
    Ok(JobOperand {
        base: job_base(core, operand.base)?,
        plus: operand.plus,
    })
}

/// A command of a thread as a round runs it, or why it can't be run.
fn job_line(core: &Core<TreeMap>, command: &JobCommand) -> Result<JobLine, Refusal>
    ensures { (w : World) → Shows core.now w → result ≡ job_line_of w command.now }
{
    match *command {
        JobCommand::Set { reg, value } => Ok(JobLine::Set {
            reg,
            value: job_operand(core, &value)?,
        }),
        JobCommand::Load { reg, addr } => Ok(JobLine::Load {
            reg,
            addr: job_operand(core, &addr)?,
        }),
        JobCommand::Store { addr, value } => Ok(JobLine::Store {
            addr: job_operand(core, &addr)?,
            value: job_operand(core, &value)?,
        }),
        JobCommand::Erase(addr) => Ok(JobLine::Erase(job_operand(core, &addr)?)),
        JobCommand::Kmalloc { size, reg } => Ok(JobLine::Kmalloc { size, reg }),
        JobCommand::Kzalloc { size, reg } => Ok(JobLine::Kzalloc { size, reg }),
        JobCommand::Kfree(addr) => Ok(JobLine::Kfree(job_operand(core, &addr)?)),
        JobCommand::NotLeak(addr) => Ok(JobLine::NotLeak(job_operand(core, &addr)?)),
        JobCommand::Ignore(addr) => Ok(JobLine::Ignore(job_operand(core, &addr)?)),
        JobCommand::NoScan(addr) => Ok(JobLine::NoScan(job_operand(core, &addr)?)),
        JobCommand::ScanArea { addr, size } => Ok(JobLine::ScanArea {
            addr: job_operand(core, &addr)?,
            size,
        }),
    }
}

/// The commands of a thread as a round runs them, or why the first that can't be run can't.
pub fn job_lines(
    alloc: Global,
    core: &Core<TreeMap>,
    commands: &[JobCommand],
) -> Result<Result<Vec<JobLine>, Refusal>, NoMemory>
    ensures { IfOk result (λ r. (w : World) → Shows core.now w → then_do r (λ v. Ok v.items) ≡ all_of (job_line_of w) commands.now) }
{
    let Ok(mut lines) = Vec::with_capacity(alloc, commands.len()) else {
        return Err(NoMemory);
    };
    for command in commands {
        match job_line(core, command) {
            Ok(line) => lines.push_reserved(line),
            Err(refusal) => return Ok(Err(refusal)),
        }
    }
    Ok(Ok(lines))
}
