//! Where bytes come from and where they go: sources, sinks, and the buffer that cuts a script into lines.
//!
//! `StdSource` and `StdSink` are the trusted edge: what standard input gives and standard output takes is told nowhere.
#![tactic(auto)]

pub mod errors;
pub mod lines;
pub mod memory;
pub mod standard;
pub mod streams;
pub mod turns;

pub use errors::Failed;
pub use lines::{Cut, Lines};
pub use memory::{CountSink, MemSink, MemSource};
pub use standard::{StdSink, StdSource};
pub use streams::{Sink, Source, write_all};
pub use turns::{ReadAfterFlush, SharedWriter};
