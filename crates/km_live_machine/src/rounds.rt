//! A round on a machine.

ghost use Rattle.std.specs.Prelude.{◌≡◌, IfErr, IfOk};
ghost use Rattle.km_live_machine.specs.RoundRuns.{MayRunRound, RunsRound};

use crate::{registers, texts};
use km_base::NoMemory;
use km_edge::{Failed, Sink};
use km_live::{Gate, Job, RoundOut, round};
use km_live_map::Booked;
use km_machine::Machine;
use std::alloc::Global;
use std::sync::Wait;
use std::thread::Threads;

/// Runs a round of these jobs on a machine, and writes its text, all of it or up to a fault. Afterwards the task of each
/// job has the registers with which its thread ended, also after a fault.
pub fn run_round<R: Threads + Wait + Sync, G: Gate + Sync, K: Sink>(
    rt: &R,
    alloc: Global,
    machine: Machine,
    jobs: Vec<Job>,
    scans: u32,
    gap: u64,
    entries: u64,
    gate: &G,
    sink: &mut K,
) -> Result<(Machine, Result<(), Failed>), NoMemory>
    requires { MayRunRound machine jobs.items scans gap entries }
    ensures ran { IfOk result (λ r. RunsRound machine jobs.items scans gap entries r.0 (K.state sink.old) (K.state sink.new) r.1) }
    ensures unwritten { IfErr result (λ _. sink.new ≡ sink.old) }
{
    let (core, words) = machine.into_parts();
    let book = Booked::new(alloc, core, entries)?;
    let RoundOut {
        book,
        words,
        jobs,
        full,
    } = round(rt, alloc, book, words, jobs, scans, gap, gate)?;
    let written = texts::round_text(book.journal(), full, sink);
    let mut machine = Machine::of_parts(book.into_core(), words);
    registers::put_all_back(&mut machine, jobs.as_slice());
    Ok((machine, written))
}
