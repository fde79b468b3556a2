//! Makes the lines of a journal file, and the texts of a check of one.
#![tactic(auto)]

mod checks;
mod events;
mod lines;

pub use checks::{check_cut, check_form, check_ok, check_wrong};
pub use events::{event_begin, event_name, event_rest};
pub use km_text::Text;
pub use lines::{end, head, listed};
