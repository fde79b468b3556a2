//! The jobs that threads become.

ghost use Rattle.std.specs.Prelude.{◌≡◌, IfOk, Ok, is_some, length, map};
ghost use Rattle.std.specs.List.{list_all};
ghost use Rattle.km_base.specs.declared.lines.Base.TheVariants as base;
ghost use Rattle.km_model.specs.Follows.{past_of};
ghost use Rattle.km_model.specs.History.{History};
ghost use Rattle.km_model.specs.Operands.{base_value, task_or_refusal, then_do};
ghost use Rattle.km_model.specs.Tasks.{task_named};
ghost use Rattle.km_model.specs.World.{World};
ghost use Rattle.km_live_model.specs.Rounds.{all_of, job_of as job_of_thread, jobs_at};
ghost use Rattle.km_live_map.specs.Books.{IsCoreFor};
ghost use Rattle.km_live_workers.specs.Jobs.{job_of};
ghost use Rattle.km_live_threads.specs.Worlds.{Shows};

use crate::lines::job_lines;
use crate::thread::Thread;
use km_base::{Name, NoMemory, Refusal, Reg};
use km_core::Core;
use km_live_workers::Job;
use km_tree::TreeMap;
use std::alloc::Global;

/// What a register of a task holds, if the task is live.
fn register(core: &Core<TreeMap>, name: Name, reg: Reg) -> Result<u64, Refusal>
    ensures { (w : World) → Shows core.now w → result ≡ base_value w (base.Reg name reg) }
{
    core.tasks().reg(name, reg).map_err(|_| Refusal::NoTask)
}

/// The registers of a task, if it is live.
fn registers(core: &Core<TreeMap>, name: Name) -> Result<[u64; 4], Refusal>
    ensures { (w : World) → Shows core.now w → result ≡ then_do (task_or_refusal w name) (λ t. Ok t.registers) }
{
    let r0 = register(core, name, Reg::R0)?;
    let r1 = register(core, name, Reg::R1)?;
    let r2 = register(core, name, Reg::R2)?;
    let r3 = register(core, name, Reg::R3)?;
    Ok([r0, r1, r2, r3])
}

/// The job of a thread, or why it can't be run.
fn job(
    alloc: Global,
    core: &Core<TreeMap>,
    thread: &Thread,
) -> Result<Result<Job, Refusal>, NoMemory>
    ensures { IfOk result (λ r. (w : World) → Shows core.now w → then_do r (λ j. Ok (job_of j)) ≡ job_of_thread w thread.now) }
{
    let task = thread.name();
    let regs = match registers(core, task) {
        Ok(regs) => regs,
        Err(refusal) => return Ok(Err(refusal)),
    };
    match job_lines(alloc, core, thread.commands())? {
        Ok(lines) => Ok(Ok(Job { task, regs, lines })),
        Err(refusal) => Ok(Err(refusal)),
    }
}

/// The jobs of these threads, or why the first that can't be run can't.
fn each_job(
    alloc: Global,
    core: &Core<TreeMap>,
    threads: &[Thread],
) -> Result<Result<Vec<Job>, Refusal>, NoMemory>
    ensures told { IfOk result (λ r. (w : World) → Shows core.now w → then_do r (λ v. Ok (map job_of v.items)) ≡ all_of (job_of_thread w) threads.now) }
    ensures as_many { IfOk result (λ r. IfOk r (λ v. length v.items ≡ length threads.now)) }
{
    let Ok(mut jobs) = Vec::with_capacity(alloc, threads.len()) else {
        return Err(NoMemory);
    };
    for thread in threads {
        match job(alloc, core, thread)? {
            Ok(job) => jobs.push_reserved(job),
            Err(refusal) => return Ok(Err(refusal)),
        }
    }
    Ok(Ok(jobs))
}

/// Whether the task of a thread is live.
fn has_task(core: &Core<TreeMap>, thread: &Thread) -> bool
    ensures { result ≡ is_some (task_named core.now.parts.hosts.roll.tasks thread.now.name) }
{
    core.tasks().stack(thread.name()).is_ok()
}

/// Whether the task of each thread is live.
fn have_tasks(core: &Core<TreeMap>, threads: &[Thread]) -> bool
    ensures { result ≡ list_all (λ t. is_some (task_named core.now.parts.hosts.roll.tasks t.name)) threads.now }
{
    threads.iter().all(|thread| has_task(core, thread))
}

/// The jobs of a round of these threads, or why it is refused: `off` was written, a scan is running, the task of a thread
/// isn't live, or a thread names a section that isn't there.
pub fn jobs(
    alloc: Global,
    core: &Core<TreeMap>,
    threads: &[Thread],
) -> Result<Result<Vec<Job>, Refusal>, NoMemory>
    ensures told { IfOk result (λ r. (h : History) → IsCoreFor core.now h → then_do r (λ v. Ok (map job_of v.items)) ≡ jobs_at (past_of h) threads.now) }
    ensures as_many { IfOk result (λ r. IfOk r (λ v. length v.items ≡ length threads.now)) }
{
    if !core.enabled() {
        return Ok(Err(Refusal::Disabled));
    }
    if let Some(k) = core.running() {
        return Ok(Err(Refusal::Busy(k)));
    }
    if !have_tasks(core, threads) {
        return Ok(Err(Refusal::NoTask));
    }
    each_job(alloc, core, threads)
}
