//! The threads of a live script between two rounds, and the jobs that they become.
#![tactic(auto)]

mod jobs;
mod lines;
mod thread;
mod threads;

pub use threads::Threads;
