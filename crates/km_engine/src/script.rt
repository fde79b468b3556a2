//! A script between two lines.

ghost use Rattle.std.specs.Prelude.{◌≡◌, [], true, is_none, length, IfOk, IfErr};
ghost use Rattle.km_base.specs.declared.lines.Command.TheVariants.{Memory};
ghost use Rattle.km_model.specs.Follows.{first_run};
ghost use Rattle.km_machine.specs.Machines.{For};
ghost use Rattle.km_engine.specs.Session.{HasRoomToRun, SpendsOn};
ghost use Rattle.km_engine.specs.Steps.{IsFit, IsFitLine, IsMemory, Runs};

use crate::listed::listed;
use km_base::{Command, Line, Status};
use km_edge::Sink;
use km_forms::refuse;
use km_machine::Machine;
use km_script::read_line;
use std::alloc::Global;
use std::marker::Model;

/// A script between two lines: the number of the next line, from 1, and the machine once `memory` was read.
#[derive(Drop)]
pub struct Script {
    number: u64,
    machine: Option<Machine>,
}

impl Model for Script {
    ghost use Rattle.km_engine.specs.Session.{Session};

    ghost Value = { Session };

    ghost view = { λ a. record { number = a.number; machine = a.machine } };
}

impl Script {
    ghost use Rattle.std.specs.Prelude.{◌≡◌, ◌<◌, ◌+◌, ◌-◌, ◌^◌, IfOk, length};
    ghost use Rattle.km_engine.specs.Session.{HasLed, HasRoomFor, start, is_fresh as is_fresh_session};
    ghost use Rattle.km_engine.specs.Bench.{listed_at};
    ghost use Rattle.km_model.specs.Output.{Script as Led};
    ghost use Rattle.km_engine.specs.Steps.{RunsLine, TakesRoom};

    /// Before the first line.
    pub fn new() -> Script
        ensures { result ≡ start }
    {
        Script {
            number: 1,
            machine: None,
        }
    }

    /// The number of the next line.
    pub fn number(&self) -> u64
        ensures { result ≡ self.now.number }
    {
        self.number
    }

    /// Whether no command was read yet.
    fn is_fresh(&self) -> bool
        ensures { result ≡ is_fresh_session self.now }
    {
        self.machine.is_none()
    }

    /// The number of blocks that are listed.
    pub fn listed(&self) -> u32
        ensures { (led : Led) → HasLed self.now.machine led → result ≡ listed_at led }
    {
        match &self.machine {
            Some(machine) => listed(machine.core().track()),
            None => 0,
        }
    }

    /// Reads and runs one line, without its line feed. An `Err` is how the script ends.
    #[inline]
    pub fn line<K: Sink>(&mut self, alloc: Global, bytes: &[u8], sink: &mut K) -> Result<(), Status>
        requires numbered { self.old.number < 2 ^ 64 - 1 }
        requires room { HasRoomFor self.old.machine (length bytes.now) }
        ensures runs { RunsLine self.old self.new bytes.now (K.state sink.old) (K.state sink.new) result }
        ensures room { IfOk result (λ _. TakesRoom self.old self.new (length bytes.now + 1) 0) }
        ensures number { IfOk result (λ _. self.new.number ≡ self.old.number + 1) }
    {
        match bytes {
            // Such a line is common, and has no need of room for what lines say.
            [] => {
                self.number += 1;
                Ok(())
            }
            _ => self.some_line(alloc, bytes, sink),
        }
    }

    /// Reads and runs one line, whatever its bytes are.
    #[inline(never)]
    fn some_line<K: Sink>(
        &mut self,
        alloc: Global,
        bytes: &[u8],
        sink: &mut K,
    ) -> Result<(), Status>
        requires numbered { self.old.number < 2 ^ 64 - 1 }
        requires room { HasRoomFor self.old.machine (length bytes.now) }
        ensures runs { RunsLine self.old self.new bytes.now (K.state sink.old) (K.state sink.new) result }
        ensures room { IfOk result (λ _. TakesRoom self.old self.new (length bytes.now + 1) 0) }
        ensures number { IfOk result (λ _. self.new.number ≡ self.old.number + 1) }
    {
        match read_line(bytes, self.is_fresh()) {
            Err(refused) => Err(refuse(self.number, refused.column, sink)),
            Ok(line) => {
                run(&mut self.machine, alloc, &line, sink)?;
                self.number += 1;
                Ok(())
            }
        }
    }
}

/// Runs a line that was read.
fn run<K: Sink>(
    machine: &mut Option<Machine>,
    alloc: Global,
    line: &Line,
    sink: &mut K,
) -> Result<(), Status>
    requires fit { IsFitLine (is_none machine.old) line.now }
    requires room { HasRoomToRun machine.old line.now }
    ensures runs { Runs machine.old machine.new line.now (K.state sink.old) (K.state sink.new) result }
    ensures spent { IfOk result (λ _. SpendsOn machine.old line.now machine.new) }
{
    match line {
        Line::Blank => Ok(()),
        Line::Command(command) => run_command(machine, alloc, command, sink),
    }
}

/// Runs a command.
///
/// It stays a call: what commands need of the stack is large and set to 0 first, and a blank line has no need of it.
#[inline(never)]
pub fn run_command<K: Sink>(
    machine: &mut Option<Machine>,
    alloc: Global,
    command: &Command,
    sink: &mut K,
) -> Result<(), Status>
    requires fit { IsFit (is_none machine.old) command.now }
    requires room { HasRoomToRun machine.old (Line.Command command.now) }
    ensures runs { Runs machine.old machine.new (Line.Command command.now) (K.state sink.old) (K.state sink.new) result }
    ensures spent { IfOk result (λ _. SpendsOn machine.old (Line.Command command.now) machine.new) }
{
    match machine {
        None => {
            *machine = Some(boot(alloc, command)?);
            Ok(())
        }
        Some(machine) => match machine.line(command, sink) {
            Ok(()) => Ok(()),
            Err(_) => Err(Status::WriteFault),
        },
    }
}

/// Makes the machine that the first command asks for.
fn boot(alloc: Global, command: &Command) -> Result<Machine, Status>
    requires { IsFit true command.now }
    ensures stands { IfOk result (λ m. For m (first_run m.core.parts.words)) }
    ensures asked { IfOk result (λ m. command.now ≡ Memory m.core.parts.words) }
    ensures size { IfOk result (λ m. length m.memory ≡ m.core.parts.words) }
    ensures err { IfErr result (λ status. (status ≡ Status.NoMemory) × IsMemory (Line.Command command.now)) }
{
    let Command::Memory(words) = *command else {
        unreachable!()
    };
    match Machine::new(alloc, words) {
        Ok(machine) => Ok(machine),
        Err(_) => Err(Status::NoMemory),
    }
}
