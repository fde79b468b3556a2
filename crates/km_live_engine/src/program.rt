//! The top call.

ghost use Rattle.std.specs.Prelude.{map, string_bytes};
ghost use Rattle.km_live_engine.specs.Program.{DoesLive};

use crate::reading::run_from;
use crate::script::LiveScript;
use km_base::Status;
use km_edge::{Sink, Source};
use km_live::Gate;
use std::alloc::Global;
use std::sync::Wait;
use std::thread::Threads;

/// All that the program does. `words` are the words after the program's name; there may be none.
///
/// It reads a live script from the source, runs it, and writes its reports to the sink. The gate is told of each step
/// and each act of a round's threads.
pub fn run_live<R: Threads + Wait + Sync, S: Source, K: Sink, G: Gate + Sync>(
    rt: &R,
    alloc: Global,
    words: &[String],
    source: &mut S,
    sink: &mut K,
    gate: &G,
) -> Status
    // A live script is run, or a word is told that is one too many.
    ensures { DoesLive S.state K.state (map string_bytes words.now) source.old source.new sink.old sink.new result }
{
    if !words.is_empty() {
        return Status::BadWords { word: 1 };
    }
    let mut script = LiveScript::new(alloc);
    run_from(&mut script, rt, alloc, source, sink, gate)
}
