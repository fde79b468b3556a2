//! Reads a script and runs it.

ghost use Rattle.std.specs.Prelude.{◌≡◌};
ghost use Rattle.km_engine.specs.Session.{start};
ghost use Rattle.km_engine.specs.Steps.{RunsScript};

use crate::script::Script;
use km_base::Status;
use km_base::sizes::{LONGEST_INPUT, TOO_LONG};
use km_edge::{Sink, Source};
use km_forms::refuse;
use km_reader::{Next, Reader};
use std::alloc::Global;

/// Reads and runs a script, line by line: each whole line that was read runs before the next read.
pub fn run_from<S: Source, K: Sink>(
    script: &mut Script,
    alloc: Global,
    source: &mut S,
    sink: &mut K,
) -> Status
    requires { script.old ≡ start }
    ensures { RunsScript (S.state source.old) (S.state source.new) (K.state sink.old) (K.state sink.new) script.new.machine result }
{
    let mut reader = Reader::new(LONGEST_INPUT);
    loop {
        match reader.next(source) {
            Next::Line => {
                if let Err(ended) = script.line(alloc, reader.line(), sink) {
                    return ended;
                }
            }
            Next::Rest => {
                return match script.line(alloc, reader.line(), sink) {
                    Ok(()) => Status::Ok,
                    Err(ended) => ended,
                };
            }
            Next::Long => return refuse(script.number(), TOO_LONG, sink),
            Next::End => return Status::Ok,
            Next::Fault => return Status::ReadFault,
            Next::TooLong => return Status::TooLong,
        }
    }
}
