//! The threads that stand since the last round, and the one whose lines are being read.

ghost use Rattle.std.specs.Prelude.{◌≡◌, ◌≤◌, IfErr, IfOk, Ok, OnErr, bytes_eq, false, is_none, length, map, not, option_map, true};
ghost use Rattle.std.specs.List.{list_any};
ghost use Rattle.km_model.specs.Follows.{past_of};
ghost use Rattle.km_model.specs.History.{History};
ghost use Rattle.km_model.specs.Operands.{then_do};
ghost use Rattle.km_model.specs.Pieces.{pieces};
ghost use Rattle.km_live_model.specs.Rounds.{jobs_at};
ghost use Rattle.km_live_model.specs.declared.lines.LiveLine.TheVariants.{End};
ghost use Rattle.km_live_model.specs.Threads.{first_column as first_column_of, is_crowded as is_crowded_by, is_long as is_long_thread, is_too_many as is_too_many_for, line_at, no_threads, open_name as open_name_of, threads_after, with_command};
ghost use Rattle.km_live_map.specs.Books.{IsCoreFor};
ghost use Rattle.km_live_workers.specs.Jobs.{job_of};
ghost use Rattle.km_live_threads.specs.Told.{needs_memory};

use crate::jobs;
use crate::thread::Thread;
use km_base::{Name, NoMemory, NotACommand, Refusal};
use km_core::Core;
use km_live_lines::read_live_line;
use km_live_model::{JobCommand, LiveLine};
use km_live_workers::Job;
use km_script::Words;
use km_tree::TreeMap;
use std::alloc::Global;
use std::marker::Model;

/// The most threads that stand between two rounds.
const MOST_THREADS: usize = 8;

/// The threads of a live script that stand since the last round, and the one whose lines are being read.
#[derive(Drop)]
pub struct Threads {
    standing: Vec<Thread>,
    opened: Option<Thread>,
}

impl Model for Threads {
    ghost use Rattle.std.specs.Prelude.{◌≤◌, ◌<◌, IfSome, length};
    ghost use Rattle.km_live_model.specs.Threads.{Threads as Told};

    ghost Value = { Told };

    ghost view = { λ t. record { standing = t.standing.items; opened = t.opened } };

    ghost invariant = { λ t. (length t.standing.items ≤ 8) × IfSome t.opened (λ _. length t.standing.items < 8) };
}

/// The column of the first word of a line.
fn first_column(line: &[u8]) -> u32
    requires { length line.now ≤ 256 }
    ensures { result ≡ first_column_of (pieces line.now) }
{
    let mut words = Words::of(line);
    match words.next() {
        Some(word) => word.column,
        None => 1,
    }
}

/// Whether one of these threads has a name.
fn has_name(standing: &[Thread], name: &Name) -> bool
    ensures { result ≡ list_any (λ t. bytes_eq t.name name.now) standing.now }
{
    standing.iter().any(|thread| thread.is_named(name))
}

/// Whether a thread of a name may not begin beside these.
fn is_crowded(standing: &[Thread], name: &Name) -> bool
    ensures { result ≡ is_crowded_by standing.now name.now }
{
    standing.len() >= MOST_THREADS || has_name(standing, name)
}

/// Whether a thread has as many commands as it may.
fn is_long(opened: &Option<Thread>) -> bool
    ensures { result ≡ is_long_thread opened.now }
{
    match opened {
        Some(thread) => thread.is_long(),
        None => false,
    }
}

/// Adds a command to the open thread.
fn push(opened: &mut Option<Thread>, command: &JobCommand) -> Result<(), NoMemory>
    ensures added { IfOk result (λ _. opened.new ≡ option_map (with_command command.now) opened.old) }
    ensures kept { OnErr result (opened.new ≡ opened.old) }
{
    match opened {
        Some(thread) => thread.push(command),
        None => Ok(()),
    }
}

impl Threads {
    /// No threads.
    pub fn new(alloc: Global) -> Threads
        ensures { result ≡ no_threads }
    {
        Threads {
            standing: Vec::new(alloc),
            opened: None,
        }
    }

    /// Whether the lines of a thread are being read.
    pub fn is_open(&self) -> bool
        ensures { result ≡ not (is_none self.now.opened) }
    {
        self.opened.is_some()
    }

    /// The name of the open thread.
    fn open_name(&self) -> Option<Name>
        ensures { result ≡ open_name_of self.now }
    {
        match &self.opened {
            Some(thread) => Some(thread.name()),
            None => None,
        }
    }

    /// Whether a line that is allowed by itself is one too many.
    fn is_too_many(&self, line: &LiveLine) -> bool
        ensures { result ≡ is_too_many_for self.now line.now }
    {
        match line {
            LiveLine::Thread(name) => is_crowded(self.standing.as_slice(), name),
            LiveLine::InThread(_) => is_long(&self.opened),
            LiveLine::Blank | LiveLine::Command(_) | LiveLine::End | LiveLine::Round { .. } => {
                false
            }
        }
    }

    /// Reads a line without its line feed where it stands; `first` says that no command was read before.
    ///
    /// A line that `read_live_line` refuses is refused at its column, and one that is allowed by itself but is one too many
    /// at its first word: a ninth thread, a thread of a name that stands, or command 4097 of a thread.
    pub fn read(&self, bytes: &[u8], first: bool) -> Result<LiveLine, NotACommand>
        ensures { result ≡ line_at first self.now bytes.now }
    {
        let line = read_live_line(bytes, first, self.open_name())?;
        if self.is_too_many(&line) {
            Err(NotACommand {
                column: first_column(bytes),
            })
        } else {
            Ok(line)
        }
    }

    /// The open thread stands after the others.
    fn close(&mut self) -> Result<(), NoMemory>
        ensures closed { IfOk result (λ _. self.new ≡ threads_after self.old End) }
        ensures kept { OnErr result (self.new ≡ self.old) }
    {
        let Ok(()) = self.standing.reserve(1) else {
            return Err(NoMemory);
        };
        if let Some(thread) = self.opened.take() {
            self.standing.push_reserved(thread);
        }
        Ok(())
    }

    /// Takes a line in that was read here. A round forgets the threads. Without memory nothing changes.
    pub fn take(&mut self, alloc: Global, line: &LiveLine) -> Result<(), NoMemory>
        requires { is_too_many_for self.old line.now ≡ false }
        ensures taken { IfOk result (λ _. self.new ≡ threads_after self.old line.now) }
        ensures refused { IfErr result (λ _. (self.new ≡ self.old) × (needs_memory line.now ≡ true)) }
    {
        match line {
            LiveLine::Thread(name) => self.opened = Some(Thread::new(alloc, *name)),
            LiveLine::End => self.close()?,
            LiveLine::InThread(command) => push(&mut self.opened, command)?,
            LiveLine::Round { .. } => {
                self.standing.clear();
                self.opened = None;
            }
            LiveLine::Blank | LiveLine::Command(_) => {}
        }
        Ok(())
    }

    /// The jobs of a round of the threads that stand, or why it is refused. A round has at most 8 jobs.
    pub fn jobs(
        &self,
        alloc: Global,
        core: &Core<TreeMap>,
    ) -> Result<Result<Vec<Job>, Refusal>, NoMemory>
        ensures told { IfOk result (λ r. (h : History) → IsCoreFor core.now h → then_do r (λ v. Ok (map job_of v.items)) ≡ jobs_at (past_of h) self.now.standing) }
        ensures few { IfOk result (λ r. IfOk r (λ v. length v.items ≤ 8)) }
    {
        jobs::jobs(alloc, core, self.standing.as_slice())
    }
}
