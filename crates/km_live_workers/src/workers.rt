//! The mutators of a round, each in its seat.

ghost use Rattle.std.specs.Prelude.{◌≡◌, false};
ghost use Rattle.km_live_workers.specs.Runs.{HasRun, IsReady};
ghost use Rattle.km_workers.specs.Workers.{standing};

use crate::at_book::AtBook;
use crate::gate::Gate;
use crate::gated::Gated;
use crate::seats::Seat;
use km_base::Name;
use km_live_model::JobLine;
use km_workers::Mutator;
use std::marker::Model;
use std::sync::Wait;

/// What a thread of a round has to do: its lines, with the registers of its task.
#[derive(Drop)]
pub struct Job {
    pub task: Name,
    pub regs: [u64; 4],
    pub lines: Vec<JobLine>,
}

/// A mutator at the shared words and at the book, with its lines.
#[derive(Drop)]
pub struct Worker<'a, R, G> {
    mutator: Mutator<Gated<'a, G>>,
    book: AtBook<'a, R>,
    task: Name,
    lines: Vec<JobLine>,
}

impl<'a, R, G> Model for Worker<'a, R, G> {
    ghost use Rattle.km_live_workers.specs.Runs.{Working};
    ghost use Rattle.km_workers.specs.Workers.{standing};

    ghost Value = { Working };

    ghost view = { λ w. record { words = w.mutator.words; book = w.book; stand = standing w.mutator.registers w.mutator.full; task = w.task; lines = w.lines.items } };
}

impl<'a, R: Wait, G: Gate> Worker<'a, R, G> {
    /// A mutator in a seat, with its job.
    pub fn new(seat: Seat<'a, R, G>, job: Job) -> Worker<'a, R, G>
        ensures seat { (result.words ≡ seat.entry.words) × (result.book ≡ seat.entry.book) }
        ensures job { (result.stand ≡ standing job.regs false) × (result.task ≡ job.task) × (result.lines ≡ job.lines.items) }
    {
        let Seat { words, book } = seat;
        let Job { task, regs, lines } = job;
        let mutator = Mutator {
            registers: regs,
            full: false,
            words,
        };
        Worker {
            mutator,
            book,
            task,
            lines,
        }
    }

    /// Runs the worker's lines, in order.
    pub fn run(&mut self)
        requires { IsReady self.old }
        ensures { HasRun self.old self.new }
    {
        self.mutator.run(&mut self.book, self.lines.as_slice());
    }

    /// The seat, the job with the registers as they are now, and whether an act was left out.
    pub fn leave(self) -> (Seat<'a, R, G>, Job, bool)
        ensures seat { (result.0.words ≡ self.entry.words) × (result.0.book ≡ self.entry.book) }
        ensures job { (result.1.task ≡ self.entry.task) × (result.1.lines.items ≡ self.entry.lines) }
        ensures stand { self.entry.stand ≡ standing result.1.regs result.2 }
    {
        let Worker {
            mutator,
            book,
            task,
            lines,
        } = self;
        let Mutator {
            registers: regs,
            full,
            words,
        } = mutator;
        (Seat { words, book }, Job { task, regs, lines }, full)
    }
}
