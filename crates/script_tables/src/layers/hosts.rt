//! What the hosts tell the scanner and the table of acts.

ghost use Rattle.std.specs.Prelude.{◌≡◌, ◌≤◌, length};

use super::calls::{Call, Layer, done, not_a_call, shown, shown_address};
use crate::troubles::Trouble;
use km_base::sizes::{BASE, PAGE};
use km_base::{Addr, Name, NoMemory};
use km_hosts::Hosts;
use std::alloc::Global;

/// The hosts of eight pages, and how many tasks were started.
#[derive(Drop)]
pub struct Memory {
    hosts: Hosts,
    started: u32,
    ghost sized: { length hosts.pages ≡ 8 },
    ghost tasks: { hosts.roll.started ≤ started },
}

/// The name that a word is.
fn name_of(word: &str) -> Result<Name, Trouble> {
    match Name::read(word.as_bytes()) {
        Some(name) => Ok(name),
        None => Err(Trouble::Malformed("a word that is no name")),
    }
}

impl Memory {
    pub fn new(alloc: Global) -> Result<Memory, NoMemory> {
        let hosts = Hosts::new(alloc, 8)?;
        Ok(Memory { hosts, started: 0 })
    }

    /// Starts a task.
    fn start(&mut self, alloc: Global, name: Name) -> Result<String, Trouble> {
        if self.started >= 1000 {
            return Err(not_a_call());
        }
        self.started += 1;
        match self.hosts.start_task(name) {
            Ok(()) => done(alloc),
            Err(refusal) => shown(alloc, refusal),
        }
    }

    /// Ends a task.
    fn exit(&mut self, alloc: Global, name: Name) -> Result<String, Trouble> {
        match self.hosts.exit_task(name) {
            Ok(()) => done(alloc),
            Err(refusal) => shown(alloc, refusal),
        }
    }

    /// The number of the next task, and where its stack begins.
    fn next(&self, alloc: Global, number: u64) -> Result<String, Trouble> {
        match self.hosts.tasks().next_after(number) {
            Some((number, stack)) => {
                let start = stack.start.0;
                Ok(format!(in alloc; "{number} at {start:#018x}")?)
            }
            None => Ok(String::from_str(alloc, "none")?),
        }
    }

    /// Whether an address is in boot memory.
    fn is_boot(&self, alloc: Global, a: u64) -> Result<String, Trouble> {
        if a < BASE || a - BASE >= 8 * PAGE {
            return Err(not_a_call());
        }
        shown(alloc, self.hosts.is_boot(Addr(a)))
    }
}

impl Layer for Memory {
    fn make(&mut self, alloc: Global, call: Call<'_>) -> Result<String, Trouble> {
        match call.name {
            "start" => self.start(alloc, name_of(call.word(0)?)?),
            "exit" => self.exit(alloc, name_of(call.word(0)?)?),
            "next" => self.next(alloc, call.number(0)?),
            "boot" => shown_address(alloc, self.hosts.take_boot(call.number(0)?)),
            "is_boot" => self.is_boot(alloc, call.number(0)?),
            "area" => shown(alloc, self.hosts.area(Addr(call.number(0)?))),
            _ => Err(not_a_call()),
        }
    }
}
