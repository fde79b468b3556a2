//! Reads a live script and runs it.

ghost use Rattle.std.specs.Prelude.{◌≡◌};
ghost use Rattle.km_live_engine.specs.Session.{start};
ghost use Rattle.km_live_engine.specs.Steps.{RunsScript};

use crate::script::LiveScript;
use km_base::Status;
use km_base::sizes::{LONGEST_INPUT, TOO_LONG};
use km_edge::{Sink, Source};
use km_forms::refuse;
use km_live::Gate;
use km_reader::{Next, Reader};
use std::alloc::Global;
use std::sync::Wait;
use std::thread::Threads;

/// Reads and runs a live script, line by line: each whole line that was read runs before the next read.
pub fn run_from<R: Threads + Wait + Sync, S: Source, K: Sink, G: Gate + Sync>(
    script: &mut LiveScript,
    rt: &R,
    alloc: Global,
    source: &mut S,
    sink: &mut K,
    gate: &G,
) -> Status
    requires { script.old ≡ start }
    ensures { RunsScript (S.state source.old) (S.state source.new) (K.state sink.old) (K.state sink.new) script.new.machine result }
{
    let mut reader = Reader::new(LONGEST_INPUT);
    loop {
        match reader.next(source) {
            Next::Line => {
                if let Err(ended) = script.line(rt, alloc, reader.line(), sink, gate) {
                    return ended;
                }
            }
            Next::Rest => {
                return match script.line(rt, alloc, reader.line(), sink, gate) {
                    Ok(()) => script.end(sink),
                    Err(ended) => ended,
                };
            }
            Next::Long => return refuse(script.number(), TOO_LONG, sink),
            Next::End => return script.end(sink),
            Next::Fault => return Status::ReadFault,
            Next::TooLong => return Status::TooLong,
        }
    }
}
