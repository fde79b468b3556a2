//! A live script between two lines.

ghost use Rattle.std.specs.Prelude.{◌≡◌};

use crate::rounds;
use km_base::Status;
use km_edge::Sink;
use km_engine::run_command;
use km_forms::refuse;
use km_live::Gate;
use km_live_model::LiveLine;
use km_live_threads::Threads;
use km_machine::Machine;
use std::alloc::Global;
use std::marker::Model;
use std::sync::Wait;
use std::thread;

/// A live script between two lines: the number of the next line, from 1, the machine once `memory` was read, and the
/// threads that stand.
#[derive(Drop)]
pub struct LiveScript {
    number: u64,
    machine: Option<Machine>,
    threads: Threads,
}

impl Model for LiveScript {
    ghost use Rattle.km_live_engine.specs.Session.{LiveSession};

    ghost Value = { LiveSession };

    ghost view = { λ a. record { number = a.number; machine = a.machine; threads = a.threads } };
}

impl LiveScript {
    ghost use Rattle.std.specs.Prelude.{◌≡◌, ◌<◌, ◌+◌, ◌-◌, ◌^◌, false, IfOk, length};
    ghost use Rattle.km_edge.specs.Streams.{SinkState};
    ghost use Rattle.km_live_model.specs.Lives.{LiveScript as Led};
    ghost use Rattle.km_live_model.specs.Threads.{is_too_many};
    ghost use Rattle.km_live_engine.specs.Session.{HasCome, HasRoomFor, HasRoomToRun, LivePlace, SpendsOn, StandsAt, is_fresh as is_fresh_session, start};
    ghost use Rattle.km_live_engine.specs.Steps.{EndsInput, IsFitLine, IsQuiet, Runs, RunsLine, TakesRoom};

    /// Before the first line.
    pub fn new(alloc: Global) -> LiveScript
        ensures { result ≡ start }
    {
        LiveScript {
            number: 1,
            machine: None,
            threads: Threads::new(alloc),
        }
    }

    /// The number of the next line.
    pub fn number(&self) -> u64
        ensures { result ≡ self.now.number }
    {
        self.number
    }

    /// Whether no command was read yet.
    fn is_fresh(&self) -> bool
        ensures { result ≡ is_fresh_session self.now }
    {
        self.machine.is_none()
    }

    /// Reads and runs one line, without its line feed. An `Err` is how the script ends.
    #[inline]
    pub fn line<R: thread::Threads + Wait + Sync, K: Sink, G: Gate + Sync>(
        &mut self,
        rt: &R,
        alloc: Global,
        bytes: &[u8],
        sink: &mut K,
        gate: &G,
    ) -> Result<(), Status>
        requires stands { (p : LivePlace) × StandsAt self.old p }
        requires numbered { self.old.number < 2 ^ 64 - 1 }
        requires room { HasRoomFor self.old.machine (length bytes.now) }
        ensures runs { RunsLine self.old self.new bytes.now (K.state sink.old) (K.state sink.new) result }
        ensures room { IfOk result (λ _. TakesRoom self.old self.new (length bytes.now + 1) 0) }
        ensures number { IfOk result (λ _. self.new.number ≡ self.old.number + 1) }
    {
        match bytes {
            // Such a line is common, and nothing is to be read in it.
            [] => {
                self.number += 1;
                Ok(())
            }
            _ => self.some_line(rt, alloc, bytes, sink, gate),
        }
    }

    /// Reads and runs one line, whatever its bytes are.
    #[inline(never)]
    fn some_line<R: thread::Threads + Wait + Sync, K: Sink, G: Gate + Sync>(
        &mut self,
        rt: &R,
        alloc: Global,
        bytes: &[u8],
        sink: &mut K,
        gate: &G,
    ) -> Result<(), Status>
        requires stands { (p : LivePlace) × StandsAt self.old p }
        requires numbered { self.old.number < 2 ^ 64 - 1 }
        requires room { HasRoomFor self.old.machine (length bytes.now) }
        ensures runs { RunsLine self.old self.new bytes.now (K.state sink.old) (K.state sink.new) result }
        ensures room { IfOk result (λ _. TakesRoom self.old self.new (length bytes.now + 1) 0) }
        ensures number { IfOk result (λ _. self.new.number ≡ self.old.number + 1) }
    {
        match self.threads.read(bytes, self.is_fresh()) {
            Err(refused) => Err(refuse(self.number, refused.column, sink)),
            Ok(line) => {
                self.run(rt, alloc, &line, sink, gate)?;
                self.number += 1;
                Ok(())
            }
        }
    }

    /// Runs a line that was read.
    fn run<R: thread::Threads + Wait + Sync, K: Sink, G: Gate + Sync>(
        &mut self,
        rt: &R,
        alloc: Global,
        line: &LiveLine,
        sink: &mut K,
        gate: &G,
    ) -> Result<(), Status>
        requires come { (s : Led) × HasCome self.old s }
        requires fit { IsFitLine (is_fresh_session self.old) line.now }
        requires few { is_too_many self.old.threads line.now ≡ false }
        requires room { HasRoomToRun self.old.machine line.now }
        ensures runs { Runs self.old self.new line.now (K.state sink.old) (K.state sink.new) result }
        ensures spent { IfOk result (λ _. SpendsOn self.old.machine line.now self.new.machine) }
        ensures number { self.new.number ≡ self.old.number }
    {
        match line {
            LiveLine::Command(command) => run_command(&mut self.machine, alloc, command, sink),
            LiveLine::Round {
                scans,
                gap,
                entries,
            } => {
                let ran = rounds::run(
                    &mut self.machine,
                    rt,
                    alloc,
                    &self.threads,
                    *scans,
                    *gap,
                    *entries,
                    sink,
                    gate,
                );
                match ran {
                    Ok(()) => {
                        self.threads = Threads::new(alloc);
                        Ok(())
                    }
                    Err(ended) => Err(ended),
                }
            }
            LiveLine::Blank | LiveLine::Thread(_) | LiveLine::End | LiveLine::InThread(_) => {
                self.take(alloc, line)
            }
        }
    }

    /// Takes in a line that makes no event.
    fn take(&mut self, alloc: Global, line: &LiveLine) -> Result<(), Status>
        requires quiet { IsQuiet line.now }
        requires few { is_too_many self.old.threads line.now ≡ false }
        ensures ran { (k : SinkState) → Runs self.old self.new line.now k k result }
        ensures machine { IfOk result (λ _. self.new.machine ≡ self.old.machine) }
        ensures number { self.new.number ≡ self.old.number }
    {
        match self.threads.take(alloc, line) {
            Ok(()) => Ok(()),
            Err(_) => Err(Status::NoMemory),
        }
    }

    /// How a script ends whose lines are all run: a thread that is open is refused at the line after the last.
    pub fn end<K: Sink>(&self, sink: &mut K) -> Status
        ensures { EndsInput self.now.threads.opened self.now.number (K.state sink.old) (K.state sink.new) result }
    {
        if self.threads.is_open() {
            refuse(self.number, 1, sink)
        } else {
            Status::Ok
        }
    }
}
