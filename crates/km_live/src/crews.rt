//! The mutators of a round: how they are hired, run beside the scanner, and are taken in.

ghost use Rattle.std.specs.Prelude.{◌≡◌, ◌||◌, not, ℕ, ◌+◌, ◌*◌, ◌≤◌, ◌<◌, ◌^◌, ◌++◌, [], length, map, vec_len, vec_capacity, IfOk};
ghost use Rattle.std.specs.List.{list_any};
ghost use Rattle.km_live_workers.specs.AtBooks.{limit_of, moment_of};
ghost use Rattle.km_live_workers.specs.Jobs.{job_of};
ghost use Rattle.km_live.specs.Crews.{AreSitting, AreWaiting, HavePlayed, IsFor, WereTakenIn, hired, left_job};

use km_base::NoMemory;
use km_live_workers::{Chief, Gate, Job, Scanner, Shared, Worker, together};
use std::alloc::Global;
use std::sync::Wait;
use std::thread::Threads;

/// The number of the scanner. The mutators have those after it.
const SCANNER: u32 = 1;

/// Gives each job a mutator in a seat of its own, in their order.
pub fn hire<'a, R: Wait, G: Gate>(
    shared: &Shared<'a, R, G>,
    alloc: Global,
    chief: &mut Chief,
    jobs: Vec<Job>,
) -> Result<Vec<Worker<'a, R, G>>, NoMemory>
    requires words { IsFor shared.now.words.now chief.old.token.view.about }
    requires waiting { AreWaiting shared.now.words.now shared.now.baton.now chief.old.token.view.about 2 [] [] chief.old }
    requires few { length jobs.items ≤ 8 }
    ensures waiting { IfOk result (λ _. AreWaiting shared.now.words.now shared.now.baton.now chief.old.token.view.about (2 + length jobs.items) [] [] chief.new) }
    ensures hired { IfOk result (λ ws. ws.items ≡ hired shared.now.words.now shared.now.baton.now chief.old.token.view.about 2 jobs.items) }
{
    let Ok(mut workers) = Vec::with_capacity(alloc, jobs.len()) else {
        return Err(NoMemory);
    };
    let mut number = SCANNER + 1;
    for job in jobs {
        let seat = shared.seat(alloc, chief, number);
        workers.push_reserved(Worker::new(seat, job));
        number += 1;
    }
    Ok(workers)
}

/// Takes the mutators in, in their order, and puts back their jobs with the registers as they are now. Whether one of them
/// left an act out.
pub fn dismiss<'a, R: Wait, G: Gate>(
    shared: &Shared<'a, R, G>,
    chief: &mut Chief,
    workers: Vec<Worker<'a, R, G>>,
    done: &mut Vec<Job>,
) -> bool
    requires words { IsFor shared.now.words.now chief.old.token.view.about }
    requires waiting { AreWaiting shared.now.words.now shared.now.baton.now chief.old.token.view.about chief.old.hand.hand.next chief.old.hand.hand.kept chief.old.token.view.member.kept chief.old }
    requires sitting { AreSitting shared.now.words.now shared.now.baton.now 2 workers.items }
    requires room { vec_len done.old + length workers.items ≤ vec_capacity done.old }
    ensures taken_in { WereTakenIn shared.now.words.now shared.now.baton.now chief.old.token.view.about chief.old.hand.hand.next chief.old.hand.hand.kept chief.old.token.view.member.kept workers.entry.items chief.old chief.new }
    ensures jobs { map job_of done.new.items ≡ map job_of done.old.items ++ map left_job workers.entry.items }
    ensures full { result ≡ list_any (λ w. w.stand.full) workers.entry.items }
{
    let mut full = false;
    for worker in workers {
        let (seat, job, left_out) = worker.leave();
        shared.unseat(chief, seat);
        done.push_reserved(job);
        full = full || left_out;
    }
    full
}

/// Whether the scanner's course was cut, or an act was left out.
fn is_cut(whole: bool, left_out: bool) -> bool
    ensures { result ≡ (not whole || left_out) }
{
    !whole || left_out
}

/// Seats all workers, runs them at once, and takes them in. The jobs with the registers as they are then, and whether an
/// act was left out or the scanner's course was cut.
pub fn play<'a, R: Threads + Wait + Sync, G: Gate + Sync>(
    shared: &Shared<'a, R, G>,
    alloc: Global,
    chief: &mut Chief,
    jobs: Vec<Job>,
    scans: u32,
    gap: u64,
) -> Result<(Vec<Job>, bool), NoMemory>
    requires words { IsFor shared.now.words.now chief.old.token.view.about }
    requires waiting { AreWaiting shared.now.words.now shared.now.baton.now chief.old.token.view.about 1 [] [] chief.old }
    requires few { length jobs.items ≤ 8 }
    requires entries { limit_of chief.old.token.view.about < 2 ^ 32 }
    requires ticks { moment_of chief.old.token.view.about + scans * gap ≤ 2 ^ 62 }
    ensures { IfOk result (λ r. HavePlayed shared.now.words.now shared.now.baton.now chief.old.token.view.about jobs.items scans gap chief.new r.0.items r.1) }
{
    let Ok(mut done) = Vec::with_capacity(alloc, jobs.len()) else {
        return Err(NoMemory);
    };
    let seat = shared.seat(alloc, chief, SCANNER);
    let workers = hire(shared, alloc, chief, jobs)?;
    let scanner = Scanner {
        seat,
        scans,
        gap,
        whole: false,
    };
    let (scanner, workers) = together(shared.rt, scanner, workers);
    let Scanner { seat, whole, .. } = scanner;
    shared.unseat(chief, seat);
    let left_out = dismiss(shared, chief, workers, &mut done);
    Ok((done, is_cut(whole, left_out)))
}
