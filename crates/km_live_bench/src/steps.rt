//! Threads load and store shared words.

ghost use Rattle.std.specs.Prelude.{◌≡◌, ◌<◌, true, length, All};
ghost use Rattle.km_model.specs.Memory.{in_memory};

use km_base::{Addr, NoMemory};
use km_live_words::{LiveWords, Seated};
use km_words::{Plain, Words};
use std::alloc::Global;
use std::thread::{Threads, for_each_mut};

/// The start of the memory.
const BASE: u64 = 0xffff_8880_0000_0000;

/// The words of the smallest memory.
const WORDS: u64 = 512;

/// How often a thread loads and stores: two steps each time.
const TURNS: u64 = 10_000_000;

/// Which words the threads step on.
#[derive(Clone, Copy)]
pub enum Place {
    /// Each on one of its own, in a line of the cache of its own.
    Own,
    /// All on the same.
    One,
}

/// A thread's words, and the one that it steps on.
#[derive(Drop)]
struct Stepper<'a> {
    words: Seated<'a>,
    at: Addr,
}

/// Loads a word and stores the next number, many times.
fn step<'a>(words: &mut Seated<'a>, at: Addr)
    requires { in_memory (length words.old.words.words) at.0 ≡ true }
{
    for _ in 0..TURNS {
        let found = words.load(at);
        words.store(at, found.wrapping_add(1));
    }
}

/// All threads step at once.
fn step_all<'a, R: Threads + Sync>(rt: &R, steppers: &mut [Stepper<'a>])
    requires words { All (λ s. in_memory (length s.words.words.words) s.at.0 ≡ true) steppers.old }
    requires some { 0 < length steppers.old }
{
    let threads = steppers.len();
    for_each_mut(
        rt,
        steppers,
        threads,
        &|_, s: &mut Stepper|
            requires { in_memory (length s.old.words.words.words) s.old.at.0 ≡ true }
        { step(&mut s.words, s.at) },
    );
}

/// One thread steps. Tells how many steps it made.
pub fn of_one<R: Threads + Sync>(rt: &R, alloc: Global) -> Result<u64, NoMemory> {
    let words = Plain::new(alloc, WORDS)?;
    let (live, mut main) = LiveWords::open(alloc, &words)?;
    let mut steppers = [Stepper {
        words: live.at(live.split(&mut main)),
        at: Addr(BASE),
    }];
    step_all(rt, &mut steppers);
    Ok(2 * TURNS)
}

/// Four threads step at once. Tells how many steps they made.
pub fn of_four<R: Threads + Sync>(rt: &R, alloc: Global, place: Place) -> Result<u64, NoMemory> {
    let words = Plain::new(alloc, WORDS)?;
    let (live, mut main) = LiveWords::open(alloc, &words)?;
    let apart: u64 = match place {
        Place::Own => 64,
        Place::One => 0,
    };
    let mut steppers = [
        Stepper {
            words: live.at(live.split(&mut main)),
            at: Addr(BASE),
        },
        Stepper {
            words: live.at(live.split(&mut main)),
            at: Addr(BASE + apart),
        },
        Stepper {
            words: live.at(live.split(&mut main)),
            at: Addr(BASE + 2 * apart),
        },
        Stepper {
            words: live.at(live.split(&mut main)),
            at: Addr(BASE + 3 * apart),
        },
    ];
    step_all(rt, &mut steppers);
    Ok(8 * TURNS)
}
