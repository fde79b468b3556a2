//! The benches of the layers. The first word says which one, the second how large it is:
//!
//! - `core [zeros|chain|large]` scans the largest memory twice, with blocks of one kind or of all, and prints how many
//!   words it loaded;
//! - `lines` reads a generated script and prints how many lines were commands;
//! - `slab [BLOCKS]` allocates and frees with up to so many live blocks, 500,000 by itself, and prints how many calls
//!   succeeded;
//! - `track [BLOCKS]` registers so many blocks, ten by itself, and prints how many it found;
//! - `all` does each of them by itself.
//!
//! Any other words end with status 5. `bench/layers.sh` measures the time and the memory.
#![tactic(auto)]

mod lines;
mod scans;
mod slab;
mod track;

use km_base::NoMemory;
use scans::Kind;
use std::process::ExitCode;
use std::{env, io};

/// The status of words that name no bench.
const BAD_WORDS: u8 = 5;

/// A bench, and how large it is.
#[derive(Clone, Copy)]
enum Bench {
    Core(Option<Kind>),
    Lines,
    Slab(u32),
    Track(u32),
}

/// The benches that `all` names.
const ALL: [Bench; 4] = [
    Bench::Core(None),
    Bench::Lines,
    Bench::Slab(500_000),
    Bench::Track(10),
];

/// The kind of blocks that a word names.
fn kind_of(word: &str) -> Option<Kind> {
    match word {
        "zeros" => Some(Kind::Zeros),
        "chain" => Some(Kind::Chain),
        "large" => Some(Kind::Large),
        _ => None,
    }
}

/// The bench of these words.
fn bench_of(words: &[String]) -> Option<Bench> {
    match words {
        [name] => match name.as_str() {
            "core" => Some(ALL[0]),
            "lines" => Some(ALL[1]),
            "slab" => Some(ALL[2]),
            "track" => Some(ALL[3]),
            _ => None,
        },
        [name, size] => match name.as_str() {
            "core" => Some(Bench::Core(Some(kind_of(size.as_str())?))),
            "slab" => Some(Bench::Slab(size.as_str().parse().ok()?)),
            "track" => Some(Bench::Track(size.as_str().parse().ok()?)),
            _ => None,
        },
        _ => None,
    }
}

/// Runs a bench and prints what it counted.
fn run(rt: &HostRuntime, bench: Bench) -> io::Result<()> {
    let (counted, unit) = match bench {
        Bench::Core(only) => (scans::loads(rt.alloc(), only), "loads"),
        Bench::Lines => (lines::commands(rt.alloc()), "commands"),
        Bench::Slab(blocks) => (slab::calls(rt.alloc(), blocks), "calls"),
        Bench::Track(blocks) => (track::found(rt.alloc(), blocks), "blocks"),
    };
    match counted {
        Ok(count) => println!(rt; "{count} {unit}"),
        Err(NoMemory) => println!(rt; "no memory"),
    }
}

fn main(rt: HostRuntime) -> io::Result<ExitCode> {
    let mut words = Vec::new(rt.alloc());
    for word in env::args(&rt)?.skip(1) {
        words.push(word)?;
    }
    if let Some(bench) = bench_of(words.as_slice()) {
        run(&rt, bench)?;
    } else if words.len() == 1 && words[0].as_str() == "all" {
        for bench in ALL {
            run(&rt, bench)?;
        }
    } else {
        eprintln!(rt;
            "km_bench: core [zeros|chain|large], lines, slab [BLOCKS], track [BLOCKS], all"
        )?;
        return Ok(ExitCode::from(BAD_WORDS));
    }
    Ok(ExitCode::SUCCESS)
}
