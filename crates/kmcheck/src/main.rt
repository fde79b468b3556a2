//! Checks a journal file on standard input, and writes to standard output whether it is one.
#![tactic(auto)]

use km_edge::{StdSink, StdSource};
use km_journal::{CheckStatus, check_journal};
use std::io::{BufWriter, ErrorKind};
use std::process::ExitCode;
use std::{env, io};

/// The bytes of output that are kept back at most: the one text has fewer.
const KEPT_BACK: usize = 4096;

/// What a status means, for standard error; nothing where standard output says it.
fn trouble(status: &CheckStatus) -> Option<&'static str> {
    match status {
        CheckStatus::Ok
        | CheckStatus::Wrong { .. }
        | CheckStatus::NotALine { .. }
        | CheckStatus::Cut => None,
        CheckStatus::ReadFault => Some("read fault"),
        CheckStatus::WriteFault => Some("write fault"),
        CheckStatus::NoMemory => Some("no memory"),
        CheckStatus::BadWords { .. } => Some("bad words"),
        CheckStatus::TooLong => Some("input too long"),
    }
}

/// Checks the journal. An error is want of memory, or a word that isn't UTF-8.
fn work(rt: &HostRuntime) -> io::Result<CheckStatus> {
    let mut words = Vec::new(rt.alloc());
    for word in env::args(rt)?.skip(1) {
        words.push(word)?;
    }
    let writer = BufWriter::with_capacity(rt.alloc(), KEPT_BACK, rt.stdout())?;
    let mut source = StdSource::new(rt.stdin());
    let mut sink = StdSink::new(writer);
    let status = check_journal(rt.alloc(), words.as_slice(), &mut source, &mut sink);
    match sink.flush() {
        Ok(()) => Ok(status),
        Err(_) => Ok(CheckStatus::WriteFault),
    }
}

fn main(rt: HostRuntime) -> io::Result<ExitCode> {
    let status = match work(&rt) {
        Ok(status) => status,
        Err(error) if error.kind() == ErrorKind::OutOfMemory => CheckStatus::NoMemory,
        Err(_) => CheckStatus::BadWords { word: 1 },
    };
    if let Some(text) = trouble(&status) {
        // The status is that of the check, whatever becomes of the message.
        let _ = eprintln!(rt; "kmcheck: {text}");
    }
    Ok(ExitCode::from(status.code()))
}
