//! Reads a script and runs nothing.

ghost use Rattle.km_forms.specs.Checks.{WritesCount, WritesEnd, checked};
ghost use Rattle.km_forms.specs.Lines.{Refuses};
ghost use Rattle.km_reader.specs.Causes.{EndsFrom};

use crate::count::count_script;
use km_base::Status;
use km_edge::{Sink, Source, write_all};
use km_text::Text;

/// Writes the text of a line that is no command, and gives the status that it means.
pub fn refuse<K: Sink>(line: u64, column: u32, sink: &mut K) -> Status
    ensures { Refuses line column (K.state sink.old) (K.state sink.new) result }
{
    let mut text = Text::new();
    km_text::not_a_command(line, column, &mut text);
    match write_all(sink, text.bytes()) {
        Ok(()) => Status::NotACommand { line, column },
        Err(_) => Status::WriteFault,
    }
}

/// Writes a number of commands.
fn write_count<K: Sink>(commands: u64, sink: &mut K) -> Status
    ensures { WritesCount commands (K.state sink.old) (K.state sink.new) result }
{
    let mut text = Text::new();
    km_text::commands(commands, &mut text);
    match write_all(sink, text.bytes()) {
        Ok(()) => Status::Ok,
        Err(_) => Status::WriteFault,
    }
}

/// Writes what there is to write where a script was not counted, and gives the status that it means.
fn write_end<K: Sink>(ended: Status, sink: &mut K) -> Status
    ensures { WritesEnd ended (K.state sink.old) (K.state sink.new) result }
{
    match ended {
        Status::NotACommand { line, column } => refuse(line, column, sink),
        _ => ended,
    }
}

/// Reads a script, runs nothing, and writes the number of its commands, or the text of its first line that is none.
pub fn check<S: Source, K: Sink>(source: &mut S, sink: &mut K) -> Status
    ensures { EndsFrom checked (S.state source.old) (S.state source.new) (K.state sink.old) (K.state sink.new) result }
{
    match count_script(source) {
        Ok(commands) => write_count(commands, sink),
        Err(ended) => write_end(ended, sink),
    }
}
