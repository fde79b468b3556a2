//! The runs of a row: each of its scripts, cut at each place, in pieces of each size, with each read that fails and
//! each room of the sink.

use crate::checks::{Case, try_run};
use crate::layers::try_layer;
use crate::notation::number_of;
use crate::reports::report_of;
use crate::rows::{Numbers, Row};
use crate::runs::{Way, run_by};
use crate::scripts::script_of;
use crate::troubles::Trouble;
use km_engine::Status;
use std::alloc::{AllocError, Global};

/// Runs a script with each room of the sink, and gives the number of runs.
fn try_rooms(case: &Case<'_>, way: &Way) -> Result<u64, Trouble> {
    let rooms = case.row.rooms(case.report.len());
    let mut runs = 0u64;
    for room in rooms.from..rooms.end {
        try_run(case, &Way { room, ..*way })?;
        runs = runs.saturating_add(1);
    }
    Ok(runs)
}

/// Runs a script with each read that is to fail.
fn try_reads(case: &Case<'_>, way: &Way) -> Result<u64, Trouble> {
    let reads = case.row.failing_reads;
    let mut runs = 0u64;
    for failing_read in reads.from..reads.end {
        let runs_so = try_rooms(
            case,
            &Way {
                failing_read,
                ..*way
            },
        )?;
        runs = runs.saturating_add(runs_so);
    }
    Ok(runs)
}

/// Runs a script in pieces of each size.
fn try_pieces(case: &Case<'_>) -> Result<u64, Trouble> {
    let mut runs = 0u64;
    for piece in case.row.pieces.split_whitespace() {
        let way = Way {
            piece: number_of(piece)?,
            ..whole(case.row)
        };
        runs = runs.saturating_add(try_reads(case, &way)?);
    }
    Ok(runs)
}

/// Runs a script cut at each place.
fn try_cuts(case: &Case<'_>) -> Result<u64, Trouble> {
    let length = case.script.len();
    let cuts = case.row.cut.unwrap_or(Numbers::only(length));
    let mut runs = 0u64;
    for cut in cuts.from..cuts.end {
        let script = &case.script[..cut.min(length)];
        runs = runs.saturating_add(try_pieces(&Case { script, ..*case })?);
    }
    Ok(runs)
}

/// The words of a row.
fn words_of(alloc: Global, text: &str) -> Result<Vec<String>, AllocError> {
    let mut words = Vec::new(alloc);
    for word in text.split_whitespace() {
        let word = if word == "\"\"" { "" } else { word };
        words.push(String::from_str(alloc, word)?)?;
    }
    Ok(words)
}

/// How a row is run whole.
fn whole(row: &Row<'_>) -> Way {
    Way {
        streams: row.streams,
        piece: 4096,
        failing_read: 0,
        failing_write: row.failing_write,
        room: 65_536,
    }
}

/// What each run of a case must write, where its report only begins so: what a first one does. Nothing where that one
/// was refused memory and may be.
fn first_report(case: &Case<'_>) -> Result<Option<Vec<u8>>, Trouble> {
    let run = run_by(case.alloc, case.words, case.script, &whole(case.row))?;
    if case.may_refuse && run.status == Status::NoMemory && run.written.is(b"") {
        return Ok(None);
    }
    if !run.written.bytes().starts_with(case.report) {
        let text = String::from_str(case.alloc, "the report begins otherwise")?;
        return Err(Trouble::Differs(text));
    }
    Ok(Some(Vec::from_slice(case.alloc, run.written.bytes())?))
}

/// Runs a script in every way that its row names.
fn try_case(case: &Case<'_>) -> Result<u64, Trouble> {
    if !case.row.only_begins {
        return try_cuts(case);
    }
    match first_report(case)? {
        None => Ok(1),
        Some(report) => try_cuts(&Case {
            report: report.as_slice(),
            ..*case
        }),
    }
}

/// Tries a row of a script, and gives the number of its runs.
fn try_script(alloc: Global, row: &Row<'_>, may_refuse: bool) -> Result<u64, Trouble> {
    let words = words_of(alloc, row.words)?;
    let report = report_of(alloc, row.report)?;
    let mut runs = 0u64;
    for number in row.with.split_whitespace() {
        let script = script_of(alloc, row.script.replace(alloc, '@', number)?.as_str())?;
        let case = Case {
            alloc,
            row,
            words: words.as_slice(),
            script: script.as_slice(),
            report: report.as_bytes(),
            may_refuse,
        };
        runs = runs.saturating_add(try_case(&case)?);
    }
    Ok(runs)
}

/// Tries a row, and gives the number of its runs or calls.
pub fn try_row(alloc: Global, row: &Row<'_>, may_refuse: bool) -> Result<u64, Trouble> {
    if row.layer.is_empty() {
        try_script(alloc, row, may_refuse)
    } else {
        try_layer(alloc, row.layer, row.calls)
    }
}
