//! Notes what happens on a machine as the lines of a journal file, in place of the texts that it prints.
#![tactic(auto)]

pub mod laws;
mod lines;
mod listing;
mod notes;
mod run;

pub use lines::note_entries;
pub use notes::Notes;
pub use run::note;
