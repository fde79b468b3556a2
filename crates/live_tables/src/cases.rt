//! The runs of a row: its script with each text, in pieces of each size, with each read that fails and each room of the
//! sink.

use crate::rows::{Row, number_of};
use crate::runs::{Run, Way, run_by};
use crate::scripts::{report_of, script_of};
use crate::troubles::Trouble;
use km_live_engine::Status;
use std::alloc::{AllocError, Global};
use std::sync::Wait;
use std::thread::Threads;

/// A live script with what a whole run of it must give.
#[derive(Clone, Copy)]
struct Case<'a> {
    alloc: Global,
    row: &'a Row<'a>,
    words: &'a [String],
    script: &'a str,
    report: &'a str,
}

/// Whether a status has the place that the text tells.
fn is_told(alloc: Global, run: &Run) -> Result<bool, AllocError> {
    match run.status {
        Status::NotACommand { line, column } => {
            let text = format!(in alloc; "not a command: line {line}, column {column}\n")?;
            Ok(run.written.as_slice().ends_with(text.as_bytes()))
        }
        Status::BadWords { word } => Ok(word == 1),
        _ => Ok(true),
    }
}

/// Makes a run, and gives a trouble where it isn't as expected.
fn try_run<R: Threads + Wait + Sync>(rt: &R, case: &Case<'_>, way: &Way) -> Result<(), Trouble> {
    let run = run_by(rt, case.alloc, case.words, case.script.as_bytes(), way)?;
    let (report, status) = match case.report.as_bytes().get(..way.room) {
        Some(first) if way.room < case.report.len() => (first, 3),
        _ => (case.report.as_bytes(), case.row.status),
    };
    let ended = usize::from(run.status.code());
    let written = run.written.as_slice();
    if written == report && ended == status && is_told(case.alloc, &run)? {
        return Ok(());
    }
    let text = str::from_utf8(written).unwrap_or("no text");
    let text = text.replace(case.alloc, '\n', " | ")?;
    let (piece, read, room) = (way.piece, way.failing_read, way.room);
    Err(Trouble::Differs(format!(in case.alloc;
        "in pieces of {piece}, failing read {read}, room {room}: status {ended} (expected {status}), wrote `{text}`"
    )?))
}

/// Runs a script with each room of the sink, and gives the number of runs.
fn try_rooms<R: Threads + Wait + Sync>(rt: &R, case: &Case<'_>, way: &Way) -> Result<u64, Trouble> {
    let rooms = case.row.rooms(case.report.len());
    let mut runs = 0u64;
    for room in rooms.from..rooms.end {
        try_run(rt, case, &Way { room, ..*way })?;
        runs = runs.saturating_add(1);
    }
    Ok(runs)
}

/// Runs a script with each read that is to fail.
fn try_reads<R: Threads + Wait + Sync>(
    rt: &R,
    case: &Case<'_>,
    piece: usize,
) -> Result<u64, Trouble> {
    let reads = case.row.failing_reads;
    let mut runs = 0u64;
    for failing_read in reads.from..reads.end {
        let way = Way {
            piece,
            failing_read,
            failing_write: case.row.failing_write,
            room: 0,
        };
        runs = runs.saturating_add(try_rooms(rt, case, &way)?);
    }
    Ok(runs)
}

/// Runs a script in pieces of each size.
fn try_pieces<R: Threads + Wait + Sync>(rt: &R, case: &Case<'_>) -> Result<u64, Trouble> {
    let mut runs = 0u64;
    for piece in case.row.pieces.split_whitespace() {
        runs = runs.saturating_add(try_reads(rt, case, number_of(piece)?)?);
    }
    Ok(runs)
}

/// The words of a row.
fn words_of(alloc: Global, text: &str) -> Result<Vec<String>, AllocError> {
    let mut words = Vec::new(alloc);
    for word in text.split_whitespace() {
        let word = if word == "\"\"" { "" } else { word };
        words.push(String::from_str(alloc, word)?)?;
    }
    Ok(words)
}

/// Tries a row, and gives the number of its runs.
pub fn try_row<R: Threads + Wait + Sync>(
    rt: &R,
    alloc: Global,
    row: &Row<'_>,
) -> Result<u64, Trouble> {
    let words = words_of(alloc, row.words)?;
    let mut runs = 0u64;
    for text in row.with.split('|') {
        let script = script_of(alloc, row.script.replace(alloc, '@', text.trim())?.as_str())?;
        let report = report_of(alloc, row.report.replace(alloc, '@', text.trim())?.as_str())?;
        let case = Case {
            alloc,
            row,
            words: words.as_slice(),
            script: script.as_str(),
            report: report.as_str(),
        };
        runs = runs.saturating_add(try_pieces(rt, &case)?);
    }
    Ok(runs)
}
