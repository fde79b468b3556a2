//! The leak detector over a simulated kernel: reads a script on standard input and writes its reports to standard output.
#![tactic(auto)]

use km_edge::{ReadAfterFlush, SharedWriter, StdSink, StdSource};
use km_engine::{Status, run};
use std::cell::RefCell;
use std::io::{BufWriter, ErrorKind};
use std::process::ExitCode;
use std::{env, io};

/// The bytes of output that are kept back at most. They are written before the next read of input.
const KEPT_BACK: usize = 65_536;

/// What a status means, for standard error; nothing where standard output says it.
fn trouble(status: &Status) -> Option<&'static str> {
    match status {
        Status::Ok | Status::NotACommand { .. } => None,
        Status::ReadFault => Some("read fault"),
        Status::WriteFault => Some("write fault"),
        Status::NoMemory => Some("no memory"),
        Status::BadWords { .. } => Some("bad words"),
        Status::TooLong => Some("input too long"),
    }
}

/// Runs the script. An error is want of memory, or a word that isn't UTF-8.
fn work(rt: &HostRuntime) -> io::Result<Status> {
    let mut words = Vec::new(rt.alloc());
    for word in env::args(rt)?.skip(1) {
        words.push(word)?;
    }
    let writer = BufWriter::with_capacity(rt.alloc(), KEPT_BACK, rt.stdout())?;
    let writer = RefCell::new(writer);
    let mut source = StdSource::new(ReadAfterFlush::new(rt.stdin(), &writer));
    let mut sink = StdSink::new(SharedWriter::new(&writer));
    let status = run(rt.alloc(), words.as_slice(), &mut source, &mut sink);
    match sink.flush() {
        Ok(()) => Ok(status),
        Err(_) => Ok(Status::WriteFault),
    }
}

fn main(rt: HostRuntime) -> io::Result<ExitCode> {
    let status = match work(&rt) {
        Ok(status) => status,
        Err(error) if error.kind() == ErrorKind::OutOfMemory => Status::NoMemory,
        Err(_) => Status::BadWords { word: 1 },
    };
    if let Some(text) = trouble(&status) {
        // The status is that of the run, whatever becomes of the message.
        let _ = eprintln!(rt; "kmemleak: {text}");
    }
    Ok(ExitCode::from(status.code()))
}
