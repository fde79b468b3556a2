//! Reads the lines of a script.
#![tactic(auto)]

mod bytes;
mod file;
mod keywords;
mod line;
mod marks;
mod numbers;
mod operands;
mod rows;
mod rules;
mod word;
mod words;

pub use file::file_command;
pub use keywords::Keyword;
pub use km_base::{Base, Command, Line, NotACommand, Operand, RegName};
pub use line::read_line;
pub use operands::operand;
pub use rules::read_by;
pub use word::Word;
pub use words::Words;
