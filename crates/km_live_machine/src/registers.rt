//! The registers of a round's threads become their tasks'.

ghost use Rattle.std.specs.Prelude.{◌≡◌, ◌*◌, length};
ghost use Rattle.km_base.specs.declared.acts.Act.TheVariants.{SetReg};
ghost use Rattle.km_model.specs.Follows.{Run, all_happen, happens};
ghost use Rattle.km_live_model.specs.Lives.{register_acts};
ghost use Rattle.km_machine.specs.Machines.{For, HasRoom, Spent};
ghost use Rattle.km_live_machine.specs.RoundRuns.{acts_of_jobs};

use km_base::{Act, Name, Reg};
use km_live::Job;
use km_machine::Machine;

/// Sets a register of a task.
fn set(machine: &mut Machine, task: Name, reg: Reg, value: u64)
    requires { HasRoom machine.old 1 0 }
    ensures happens { (run : Run) → For machine.old run → For machine.new (happens run (SetReg task reg value)) }
    ensures spent { Spent machine.old machine.new 1 0 }
{
    machine.event(&Act::SetReg { task, reg, value });
}

/// Sets the registers of a job's task to those of the job.
fn put_back(machine: &mut Machine, job: &Job)
    requires { HasRoom machine.old 4 0 }
    ensures happens { (run : Run) → For machine.old run → For machine.new (all_happen run (register_acts job.now.task job.now.regs)) }
    ensures spent { Spent machine.old machine.new 4 0 }
{
    set(machine, job.task, Reg::R0, job.regs[0]);
    set(machine, job.task, Reg::R1, job.regs[1]);
    set(machine, job.task, Reg::R2, job.regs[2]);
    set(machine, job.task, Reg::R3, job.regs[3]);
}

/// Sets the registers of each job's task to those of the job, in order of the jobs.
pub fn put_all_back(machine: &mut Machine, jobs: &[Job])
    requires { HasRoom machine.old (4 * length jobs.now) 0 }
    ensures happens { (run : Run) → For machine.old run → For machine.new (all_happen run (acts_of_jobs jobs.now)) }
    ensures spent { Spent machine.old machine.new (4 * length jobs.now) 0 }
{
    for job in jobs {
        put_back(machine, job);
    }
}
