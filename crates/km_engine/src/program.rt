//! The top call.

ghost use Rattle.std.specs.Prelude.{Option, map, string_bytes};
ghost use Rattle.km_forms.specs.Forms.{form_of_words};
ghost use Rattle.km_engine.specs.Program.{Does};
ghost use Rattle.km_engine.specs.Steps.{RunsScript};
ghost use Rattle.km_machine.specs.Machines.{Simulation};

use crate::bench::bench;
use crate::reading::run_from;
use crate::script::Script;
use km_base::Status;
use km_edge::{Sink, Source};
use km_forms::{Form, check, form_of};
use std::alloc::Global;

/// Reads and runs a script from its first line.
fn run_script<S: Source, K: Sink>(alloc: Global, source: &mut S, sink: &mut K) -> Status
    ensures { (machine : Option Simulation) × RunsScript (S.state source.old) (S.state source.new) (K.state sink.old) (K.state sink.new) machine result }
{
    let mut script = Script::new();
    run_from(&mut script, alloc, source, sink)
}

/// All that the program does. `words` are the words behind the program's name.
///
/// With none it reads a script from the source, runs it, and writes its reports to the sink. With `check` it reads the
/// script, runs nothing, and writes the number of its commands. With `bench`, a number and a number of steps it reads
/// nothing, runs the script that is generated from them, and writes a summary.
pub fn run<S: Source, K: Sink>(
    alloc: Global,
    words: &[String],
    source: &mut S,
    sink: &mut K,
) -> Status
    // What the words ask for is done: a run, a check, a bench, or nothing but to tell the first word of no form.
    ensures { Does S.state K.state (form_of_words (map string_bytes words.now)) source.old source.new sink.old sink.new result }
{
    match form_of(words) {
        Err(word) => Status::BadWords { word },
        Ok(Form::Run) => run_script(alloc, source, sink),
        Ok(Form::Check) => check(source, sink),
        Ok(Form::Bench { number, steps }) => bench(alloc, number, steps, sink),
    }
}
