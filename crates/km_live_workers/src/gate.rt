//! What is told of each call of a worker.

/// Something that is told before and after each call of a worker, and may keep it waiting. The calls of a worker are
/// numbered from 1. No contract speaks of it.
pub trait Gate {
    /// A worker is about to make a call.
    fn before(&self, who: u32, call: u32);

    /// A worker has made a call.
    fn after(&self, who: u32, call: u32);
}

/// A gate that lets all through.
#[derive(Clone, Copy, Debug)]
pub struct OpenGate;

impl Gate for OpenGate {
    fn before(&self, _: u32, _: u32) {}

    fn after(&self, _: u32, _: u32) {}
}
