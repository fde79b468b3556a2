//! The benches of shared words and of the book that threads hand on. Three words say which:
//!
//! - `words 1|4 own|one`: so many threads load and store by turns, each a word of its own or all of them one word, and the
//!   bench prints how many steps they made;
//! - `book 1|2 act`: so many tokens take the book, make an act and give the book back, and the bench prints how many
//!   entries there are then.
//!
//! Any other words end with status 5. `bench/live.sh` measures the time.
#![tactic(auto)]

mod book;
mod steps;

use km_base::NoMemory;
use std::alloc::Global;
use std::process::ExitCode;
use std::sync::Wait;
use std::thread::Threads;
use std::{env, io};
use steps::Place;

/// The status of words that name no bench.
const BAD_WORDS: u8 = 5;

/// A bench, and with how many threads.
#[derive(Clone, Copy)]
enum Bench {
    StepsOfOne,
    StepsOfFour(Place),
    BookOfOne,
    BookOfTwo,
}

/// The bench of these words.
fn bench_of(words: &[String]) -> Option<Bench> {
    let [name, threads, place] = words else {
        return None;
    };
    match (name.as_str(), threads.as_str(), place.as_str()) {
        ("words", "1", "own") => Some(Bench::StepsOfOne),
        ("words", "4", "own") => Some(Bench::StepsOfFour(Place::Own)),
        ("words", "4", "one") => Some(Bench::StepsOfFour(Place::One)),
        ("book", "1", "act") => Some(Bench::BookOfOne),
        ("book", "2", "act") => Some(Bench::BookOfTwo),
        _ => None,
    }
}

/// Runs a bench, and tells what it counted.
fn count<R: Threads + Wait + Sync>(rt: &R, alloc: Global, bench: Bench) -> Result<u64, NoMemory> {
    match bench {
        Bench::StepsOfOne => steps::of_one(rt, alloc),
        Bench::StepsOfFour(place) => steps::of_four(rt, alloc, place),
        Bench::BookOfOne => book::of_one(rt, alloc),
        Bench::BookOfTwo => book::of_two(rt, alloc),
    }
}

/// What a bench counts.
fn unit(bench: Bench) -> &'static str {
    match bench {
        Bench::StepsOfOne | Bench::StepsOfFour(_) => "steps",
        Bench::BookOfOne | Bench::BookOfTwo => "entries",
    }
}

fn main(rt: HostRuntime) -> io::Result<ExitCode> {
    let mut words = Vec::new(rt.alloc());
    for word in env::args(&rt)?.skip(1) {
        words.push(word)?;
    }
    if let Some(bench) = bench_of(words.as_slice()) {
        match count(&rt, rt.alloc(), bench) {
            Ok(count) => println!(rt; "{count} {}", unit(bench))?,
            Err(NoMemory) => println!(rt; "no memory")?,
        }
        Ok(ExitCode::SUCCESS)
    } else {
        eprintln!(rt; "km_live_bench: words 1|4 own|one, book 1|2 act")?;
        Ok(ExitCode::from(BAD_WORDS))
    }
}
