//! What a run must give.

use crate::rows::Row;
use crate::runs::{Run, Way, run_by};
use crate::troubles::Trouble;
use km_engine::Status;
use std::alloc::{AllocError, Global};

/// A script with what a whole run of it must give.
#[derive(Clone, Copy)]
pub struct Case<'a> {
    pub alloc: Global,
    pub row: &'a Row<'a>,
    pub words: &'a [String],
    pub script: &'a [u8],
    pub report: &'a [u8],
    /// Whether a run may also end with no memory, with nothing written.
    pub may_refuse: bool,
}

/// How a run ended, in the words of the tables.
fn status_text(alloc: Global, status: &Status) -> Result<String, AllocError> {
    match status {
        Status::Ok => String::from_str(alloc, "ok"),
        Status::ReadFault => String::from_str(alloc, "read fault"),
        Status::WriteFault => String::from_str(alloc, "write fault"),
        Status::NoMemory => String::from_str(alloc, "no memory"),
        Status::TooLong => String::from_str(alloc, "too long"),
        Status::BadWords { word } => format!(in alloc; "bad words, the one of number {word}"),
        Status::NotACommand { line, column } => {
            format!(in alloc; "not a command, line {line}, column {column}")
        }
    }
}

/// The first line in which two texts differ, as each has it.
fn first_difference<'a>(got: &'a str, wanted: &'a str) -> (&'a str, &'a str) {
    let mut others = wanted.split('\n');
    for line in got.split('\n') {
        match others.next() {
            Some(other) if line == other => {}
            Some(other) => return (line, other),
            None => return (line, ""),
        }
    }
    ("", others.next().unwrap_or(""))
}

/// A difference, in words.
fn difference(
    case: &Case<'_>,
    way: &Way,
    run: &Run,
    wanted: (&[u8], &str),
) -> Result<Trouble, AllocError> {
    let status = status_text(case.alloc, &run.status)?;
    let got = str::from_utf8(run.written.bytes()).unwrap_or("no text");
    let text = str::from_utf8(wanted.0).unwrap_or("no text");
    let (line, other) = first_difference(got, text);
    let bytes = case.script.len();
    let piece = way.piece;
    let read = way.failing_read;
    let room = way.room;
    let end = wanted.1;
    let text = format!(in case.alloc;
        "{bytes} bytes in pieces of {piece}, failing read {read}, room {room}: ended with {status} (expected {end}); first line that differs: `{line}` (expected `{other}`)"
    )?;
    Ok(Trouble::Differs(text))
}

/// Makes a run, and gives a trouble where it isn't as expected.
pub fn try_run(case: &Case<'_>, way: &Way) -> Result<(), Trouble> {
    let run = run_by(case.alloc, case.words, case.script, way)?;
    if case.may_refuse && run.status == Status::NoMemory && run.written.is(b"") {
        return Ok(());
    }
    let wanted = if way.room < case.report.len() {
        (&case.report[..way.room], "write fault")
    } else {
        (case.report, case.row.status)
    };
    if run.written.is(wanted.0) && status_text(case.alloc, &run.status)?.as_str() == wanted.1 {
        Ok(())
    } else {
        Err(difference(case, way, &run, wanted)?)
    }
}
