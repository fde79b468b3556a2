//! Each line of a generated script of 1,000,000 steps is read, twenty times over.

use km_base::NoMemory;
use km_edge::StdSource;
use km_gen::script_of;
use km_reader::{Next, Reader};
use km_script::{Line, read_line};
use std::alloc::Global;

/// The steps of the script.
const STEPS: u32 = 1_000_000;

/// How often the script is read.
const TIMES: u32 = 20;

/// More bytes than the script has.
const LIMIT: u64 = 100_000_000;

/// The lines of a script that are commands.
fn count(script: &[u8]) -> u64 {
    let mut source = StdSource::new(script);
    let mut reader = Reader::new(LIMIT);
    let mut commands: u64 = 0;
    for _ in 0..u32::MAX {
        if reader.next(&mut source) != Next::Line {
            return commands;
        }
        if let Ok(Line::Command(_)) = read_line(reader.line(), commands == 0) {
            commands = commands.saturating_add(1);
        }
    }
    commands
}

/// Reads the script, and tells how many lines were commands, all times together.
pub fn commands(alloc: Global) -> Result<u64, NoMemory> {
    let script = script_of(alloc, 1, STEPS)?;
    let mut commands: u64 = 0;
    for _ in 0..TIMES {
        commands = commands.saturating_add(count(&script));
    }
    Ok(commands)
}
