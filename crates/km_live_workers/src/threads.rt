//! The workers of a round at once, each in a thread.

ghost use Rattle.std.specs.Prelude.{◌≡◌, All};
ghost use Rattle.std.specs.List.{AllZip};
ghost use Rattle.km_live_workers.specs.Runs.{HasRun, HasScanned, IsReady, MayScan};

use crate::gate::Gate;
use crate::seats::Seat;
use crate::workers::Worker;
use std::sync::Wait;
use std::thread::{Threads, for_each_mut, join};

/// As many mutators as a round may have, so each gets a thread.
const MOST: usize = 8;

/// The scanner of a round in its seat, with what it has to do.
#[derive(Drop)]
pub struct Scanner<'a, R, G> {
    pub seat: Seat<'a, R, G>,
    pub scans: u32,
    pub gap: u64,
    pub whole: bool,
}

impl<'a, R: Wait, G: Gate> Scanner<'a, R, G> {
    /// Makes the scans, and notes whether all were made.
    pub fn run(self) -> Scanner<'a, R, G>
        requires { MayScan self.seat.words self.seat.book self.scans self.gap }
        ensures scan { HasScanned self.entry.seat.words result.seat.words self.entry.seat.book result.seat.book self.entry.scans self.entry.gap result.whole }
        ensures job { (result.scans ≡ self.entry.scans) × (result.gap ≡ self.entry.gap) }
    {
        let Scanner {
            mut seat,
            scans,
            gap,
            ..
        } = self;
        let whole = seat.scan(scans, gap);
        Scanner {
            seat,
            scans,
            gap,
            whole,
        }
    }
}

/// Runs the lines of all mutators at once.
pub fn work_all<'a, R: Threads + Wait + Sync, G: Gate + Sync>(
    rt: &R,
    workers: &mut [Worker<'a, R, G>],
)
    requires { All IsReady workers.old }
    ensures { AllZip HasRun workers.old workers.new }
{
    for_each_mut(
        rt,
        workers,
        MOST,
        &|_, w: &mut Worker<R, G>|
            requires { IsReady w.old }
            ensures { HasRun w.old w.new }
        { w.run() },
    );
}

/// Runs all mutators at once, and gives them back.
fn worked<'a, R: Threads + Wait + Sync, G: Gate + Sync>(
    rt: &R,
    mut workers: Vec<Worker<'a, R, G>>,
) -> Vec<Worker<'a, R, G>>
    requires { All IsReady workers.items }
    ensures { AllZip HasRun workers.entry.items result.items }
{
    work_all(rt, workers.as_mut_slice());
    workers
}

/// Runs the scanner and all mutators at once, and gives them back.
pub fn together<'a, R: Threads + Wait + Sync, G: Gate + Sync>(
    rt: &R,
    scanner: Scanner<'a, R, G>,
    workers: Vec<Worker<'a, R, G>>,
) -> (Scanner<'a, R, G>, Vec<Worker<'a, R, G>>)
    requires scanner { MayScan scanner.seat.words scanner.seat.book scanner.scans scanner.gap }
    requires workers { All IsReady workers.items }
    ensures scanner { HasScanned scanner.entry.seat.words result.0.seat.words scanner.entry.seat.book result.0.seat.book scanner.entry.scans scanner.entry.gap result.0.whole }
    ensures job { (result.0.scans ≡ scanner.entry.scans) × (result.0.gap ≡ scanner.entry.gap) }
    ensures workers { AllZip HasRun workers.entry.items result.1.items }
{
    join(
        rt,
        move || -> Scanner<R, G>
            requires { MayScan scanner.seat.words scanner.seat.book scanner.scans scanner.gap }
            ensures scan { HasScanned scanner.entry.seat.words result.seat.words scanner.entry.seat.book result.seat.book scanner.entry.scans scanner.entry.gap result.whole }
            ensures job { (result.scans ≡ scanner.entry.scans) × (result.gap ≡ scanner.entry.gap) }
        { scanner.run() },
        move || -> Vec<Worker<R, G>>
            requires { All IsReady workers.items }
            ensures { AllZip HasRun workers.entry.items result.items }
        { worked(rt, workers) },
    )
}
