//! A machine: the core over words of its own, and what each line of a script makes it do and print.
#![tactic(auto)]

mod behind;
mod line;
pub mod machine;
mod operands;
mod print;
mod scans;
mod texts;
pub mod witness;

pub use machine::Machine;
pub use witness::Witness;
