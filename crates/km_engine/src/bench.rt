//! Runs a generated script, and writes a summary.

ghost use Rattle.std.specs.Prelude.{◌≡◌, ◌≤◌, IfOk, length};
ghost use Rattle.std.specs.List.{count_by};
ghost use Rattle.km_edge.specs.Lines.{is_line_feed};
ghost use Rattle.km_edge.specs.Streams.{WritesAll};
ghost use Rattle.km_engine.specs.Bench.{BenchEnds, SumsUp, summary_text};

use crate::held::HeldSource;
use crate::reading::run_from;
use crate::script::Script;
use km_base::{NoMemory, Status};
use km_edge::{CountSink, Failed, Sink, write_all};
use km_gen::script_of;
use km_text::Text;
use std::alloc::Global;

/// What the run of a generated script comes to: the lines of the script, the bytes of its output, and the blocks that
/// are listed at its end.
#[derive(Drop)]
pub struct Summary {
    pub lines: u64,
    pub bytes: u64,
    pub listed: u32,
}

/// The number of line feeds.
fn line_feeds(bytes: &[u8]) -> u64
    ensures { result ≡ count_by is_line_feed bytes.now }
{
    bytes.iter().filter(|c| **c == 10).count() as u64
}

/// Runs the script of a number with so many steps over a sink that counts.
fn sum_up(alloc: Global, number: u64, steps: u32) -> Result<Summary, NoMemory>
    requires { steps ≤ 1000000 }
    ensures { IfOk result (λ s. SumsUp number steps s) }
{
    let script = script_of(alloc, number, steps)?;
    let mut source = HeldSource::new(script.as_slice());
    let mut sink = CountSink::new();
    let mut ran = Script::new();
    match run_from(&mut ran, alloc, &mut source, &mut sink) {
        Status::NoMemory => Err(NoMemory),
        // Neither the source nor the sink fails, and the script isn't too long: it ran to its end. If it had a line that
        // is no command, which no generated script has, it would end there, and so would its output.
        _ => Ok(Summary {
            lines: line_feeds(script.as_slice()),
            bytes: sink.count(),
            listed: ran.listed(),
        }),
    }
}

/// Writes the two lines of a summary.
fn write_summary<K: Sink>(
    number: u64,
    steps: u32,
    summary: &Summary,
    sink: &mut K,
) -> Result<(), Failed>
    ensures { WritesAll (K.state sink.old) (K.state sink.new) (summary_text number steps summary.now) result }
{
    let mut text = Text::new();
    km_text::bench_number(number, steps, &mut text);
    write_all(sink, text.bytes())?;
    km_text::bench_result(summary.lines, summary.bytes, summary.listed, &mut text);
    write_all(sink, text.bytes())
}

/// Runs the script of a number with so many steps, up to 1,000,000, and writes a summary in place of its output.
pub fn bench<K: Sink>(alloc: Global, number: u64, steps: u32, sink: &mut K) -> Status
    requires { steps ≤ 1000000 }
    ensures { BenchEnds number steps (K.state sink.old) (K.state sink.new) result }
{
    let Ok(summary) = sum_up(alloc, number, steps) else {
        return Status::NoMemory;
    };
    match write_summary(number, steps, &summary, sink) {
        Ok(()) => Status::Ok,
        Err(_) => Status::WriteFault,
    }
}
