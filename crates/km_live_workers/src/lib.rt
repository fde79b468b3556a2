//! A worker of a round at the shared words and at the book that threads hand on: its steps go through its hand, and each
//! act is one take, one act and one give.
#![tactic(auto)]

mod at_book;
mod gate;
mod gated;
mod seats;
mod threads;
mod workers;

pub use at_book::AtBook;
pub use gate::{Gate, OpenGate};
pub use gated::Gated;
pub use seats::{Chief, Seat, Shared};
pub use threads::{Scanner, together, work_all};
pub use workers::{Job, Worker};
