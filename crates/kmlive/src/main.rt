//! The leak detector over a simulated kernel whose threads run at once: reads a live script on standard input and
//! writes its reports to standard output.
#![tactic(auto)]

use km_edge::{ReadAfterFlush, SharedWriter, StdSink, StdSource};
use km_live_engine::{OpenGate, Status, run_live};
use std::cell::RefCell;
use std::io::{BufWriter, ErrorKind};
use std::process::ExitCode;
use std::sync::Wait;
use std::thread::Threads;
use std::{env, io};

/// The bytes of output that are kept back at most. They are written before the next read of input.
const KEPT_BACK: usize = 65_536;

/// What a status means, for standard error; nothing where standard output says it.
fn trouble(status: &Status) -> Option<&'static str> {
    match status {
        Status::Ok | Status::NotACommand { .. } => None,
        Status::ReadFault => Some("read fault"),
        Status::WriteFault => Some("write fault"),
        Status::NoMemory => Some("no memory"),
        Status::BadWords { .. } => Some("bad words"),
        Status::TooLong => Some("input too long"),
    }
}

/// Runs the script, whose threads `rt` starts. An error is want of memory, or a word that isn't UTF-8.
fn work<R: Threads + Wait + Sync>(rt: &R, host: &HostRuntime) -> io::Result<Status> {
    let mut words = Vec::new(host.alloc());
    for word in env::args(host)?.skip(1) {
        words.push(word)?;
    }
    let writer = BufWriter::with_capacity(host.alloc(), KEPT_BACK, host.stdout())?;
    let writer = RefCell::new(writer);
    let mut source = StdSource::new(ReadAfterFlush::new(host.stdin(), &writer));
    let mut sink = StdSink::new(SharedWriter::new(&writer));
    let status = run_live(
        rt,
        host.alloc(),
        words.as_slice(),
        &mut source,
        &mut sink,
        &OpenGate,
    );
    match sink.flush() {
        Ok(()) => Ok(status),
        Err(_) => Ok(Status::WriteFault),
    }
}

fn main(rt: HostRuntime) -> io::Result<ExitCode> {
    let status = match work(&rt, &rt) {
        Ok(status) => status,
        Err(error) if error.kind() == ErrorKind::OutOfMemory => Status::NoMemory,
        Err(_) => Status::BadWords { word: 1 },
    };
    if let Some(text) = trouble(&status) {
        // The status is that of the run, whatever becomes of the message.
        let _ = eprintln!(rt; "kmlive: {text}");
    }
    Ok(ExitCode::from(status.code()))
}
