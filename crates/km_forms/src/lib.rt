//! The forms of words of the program, and the form that reads a script and runs nothing.
#![tactic(auto)]

mod checking;
mod count;
mod words;

pub use checking::{check, refuse};
pub use words::{Form, form_of};
