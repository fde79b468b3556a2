//! A round of mutators and a scanner.

ghost use Rattle.std.specs.Prelude.{◌≡◌, ℕ, IfOk, length};
ghost use Rattle.km_live.specs.Made.{HasMade, MayRun};

use crate::crews::play;
use km_base::NoMemory;
use km_live_map::{Baton, Booked};
use km_live_words::LiveWords;
use km_live_workers::{Chief, Gate, Job, Shared};
use km_words::Plain;
use std::alloc::Global;
use std::sync::Wait;
use std::thread::Threads;

/// What a round leaves: the book with the journal, the words, the jobs with the registers as they are then, and for how
/// many entries the journal had room, if an act found it full.
#[derive(Drop)]
pub struct RoundOut {
    pub book: Booked,
    pub words: Plain,
    pub jobs: Vec<Job>,
    pub full: Option<u64>,
}

/// Runs the lines of each job in a thread of its own, and beside them a scanner that lets `gap` milliseconds pass before
/// each of `scans` scans. It takes no memory once a thread runs.
pub fn round<R: Threads + Wait + Sync, G: Gate + Sync>(
    rt: &R,
    alloc: Global,
    book: Booked,
    mut words: Plain,
    jobs: Vec<Job>,
    scans: u32,
    gap: u64,
    gate: &G,
) -> Result<RoundOut, NoMemory>
    requires { MayRun book words jobs.items scans gap }
    ensures { IfOk result (λ r. HasMade book words jobs.items scans gap r.book r.words r.jobs.items r.full) }
{
    let entries = book.entries();
    let (live, hand) = LiveWords::open(alloc, &words)?;
    let (baton, token) = Baton::new(rt, alloc, book)?;
    let mut chief = Chief { hand, token };
    let shared = Shared {
        rt,
        words: &live,
        baton: &baton,
        gate,
    };
    let (jobs, is_cut) = play(&shared, alloc, &mut chief, jobs, scans, gap)?;
    let Chief { hand, mut token } = chief;
    let book = baton.take(rt, &mut token);
    let _ = book.journal();
    live.close(hand, &mut words);
    let full = is_cut.then_some(entries);
    Ok(RoundOut {
        book,
        words,
        jobs,
        full,
    })
}
