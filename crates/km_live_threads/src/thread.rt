//! One thread.

ghost use Rattle.std.specs.Prelude.{◌≡◌, [], IfOk, OnErr, bytes_eq, length, nat_le};
ghost use Rattle.km_live_model.specs.Threads.{with_command};

use km_base::compare::is;
use km_base::{Name, NoMemory};
use km_live_model::JobCommand;
use std::alloc::Global;
use std::marker::Model;
use std::slice;

/// The most commands in a thread.
const MOST_COMMANDS: usize = 4096;

/// A thread of a live script: the name of its task, and its commands in order.
#[derive(Drop)]
pub struct Thread {
    name: Name,
    commands: Vec<JobCommand>,
}

impl Model for Thread {
    ghost use Rattle.km_live_model.specs.Threads.{Thread as Told};

    ghost Value = { Told };

    ghost view = { λ t. record { name = t.name; commands = t.commands.items } };
}

impl Thread {
    /// A thread without commands.
    pub fn new(alloc: Global, name: Name) -> Thread
        ensures { result ≡ record { name = name; commands = [] } }
    {
        Thread {
            name,
            commands: Vec::new(alloc),
        }
    }

    /// The name of its task.
    pub fn name(&self) -> Name
        ensures { result ≡ self.now.name }
    {
        self.name
    }

    /// Whether its task has a name.
    pub fn is_named(&self, name: &Name) -> bool
        ensures { result ≡ bytes_eq self.now.name name.now }
    {
        is(name.bytes(), self.name.bytes())
    }

    /// Its commands.
    pub fn commands(&self) -> &[JobCommand]
        ensures { result.now ≡ self.now.commands }
    {
        self.commands.as_slice()
    }

    /// Whether it has as many commands as it may.
    pub fn is_long(&self) -> bool
        ensures { result ≡ nat_le 4096 (length self.now.commands) }
    {
        self.commands.len() >= MOST_COMMANDS
    }

    /// Adds a command.
    pub fn push(&mut self, command: &JobCommand) -> Result<(), NoMemory>
        ensures added { IfOk result (λ _. self.new ≡ with_command command.now self.old) }
        ensures kept { OnErr result (self.new ≡ self.old) }
    {
        match self.commands.extend_from_slice(slice::from_ref(command)) {
            Ok(()) => Ok(()),
            Err(_) => Err(NoMemory),
        }
    }
}
