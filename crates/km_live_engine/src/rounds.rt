//! The `round` line.

ghost use Rattle.std.specs.Prelude.{◌≡◌, ◌^◌, IfOk, IfErr};
ghost use Rattle.km_edge.specs.Streams.{WritesAll};
ghost use Rattle.km_model.specs.Text.{refusal_text};
ghost use Rattle.km_model.specs.Follows.{Run};
ghost use Rattle.km_model.specs.Output.{Begun};
ghost use Rattle.km_machine.specs.Machines.{For, HasRoom, Spent};
ghost use Rattle.km_engine.specs.Session.{HasLed};
ghost use Rattle.km_live_engine.specs.Session.{HasRoomForRound, SpendsOnRound};
ghost use Rattle.km_live_engine.specs.Steps.{IsFewInRound, RunsRoundLine, RunsThreads};

use km_base::{NoMemory, Refusal, Status};
use km_edge::{Failed, Sink, write_all};
use km_live::Gate;
use km_live_machine::run_round;
use km_live_threads::Threads;
use km_machine::Machine;
use km_text::Text;
use std::alloc::Global;
use std::sync::Wait;
use std::thread;

/// Writes why a round is refused.
fn say<K: Sink>(refusal: Refusal, sink: &mut K) -> Result<(), Failed>
    ensures { WritesAll (K.state sink.old) (K.state sink.new) (refusal_text refusal) result }
{
    let mut text = Text::new();
    km_text::refused(refusal, &mut text);
    write_all(sink, text.bytes())
}

/// Runs the threads that stand on a machine, or writes why they are refused.
fn run_threads<R: thread::Threads + Wait + Sync, K: Sink, G: Gate + Sync>(
    rt: &R,
    alloc: Global,
    machine: Machine,
    threads: &Threads,
    scans: u32,
    gap: u64,
    entries: u64,
    sink: &mut K,
    gate: &G,
) -> Result<(Machine, Result<(), Failed>), NoMemory>
    requires begun { (run : Run) × For machine run }
    requires few { IsFewInRound scans gap entries }
    requires room { HasRoom machine (2 ^ 36) 360000000 }
    ensures ran { IfOk result (λ r. RunsThreads machine threads.now.standing scans gap entries r.0 (K.state sink.old) (K.state sink.new) r.1) }
    ensures spent { IfOk result (λ r. Spent machine r.0 (2 ^ 36) 360000000) }
    ensures unwritten { IfErr result (λ _. sink.new ≡ sink.old) }
{
    match threads.jobs(alloc, machine.core())? {
        Ok(jobs) => run_round(rt, alloc, machine, jobs, scans, gap, entries, gate, sink),
        Err(refusal) => {
            let wrote = say(refusal, sink);
            Ok((machine, wrote))
        }
    }
}

/// Runs a `round` line. Where there is no memory for it the machine is gone.
pub fn run<R: thread::Threads + Wait + Sync, K: Sink, G: Gate + Sync>(
    machine: &mut Option<Machine>,
    rt: &R,
    alloc: Global,
    threads: &Threads,
    scans: u32,
    gap: u64,
    entries: u64,
    sink: &mut K,
    gate: &G,
) -> Result<(), Status>
    requires begun { (run : Run) × HasLed machine.old (Begun run) }
    requires few { IsFewInRound scans gap entries }
    requires room { HasRoomForRound machine.old }
    ensures ran { RunsRoundLine machine.old machine.new threads.now.standing scans gap entries (K.state sink.old) (K.state sink.new) result }
    ensures spent { IfOk result (λ _. SpendsOnRound machine.old machine.new) }
{
    let Some(before) = machine.take() else {
        unreachable!()
    };
    match run_threads(rt, alloc, before, threads, scans, gap, entries, sink, gate) {
        Err(_) => Err(Status::NoMemory),
        Ok((after, wrote)) => {
            *machine = Some(after);
            match wrote {
                Ok(()) => Ok(()),
                Err(_) => Err(Status::WriteFault),
            }
        }
    }
}
