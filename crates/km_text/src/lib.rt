//! Makes the texts of a program's answers. Each call replaces what the text held before, and ends it with a line feed.
#![tactic(auto)]

mod answers;
mod dump;
mod listing;
mod summary;
mod text;

pub use answers::{at, new_leaks, not_a_command, refused, stopped, value};
pub use dump::dump_line;
pub use listing::{entry_age, entry_head, entry_hex, hex_row};
pub use summary::{bench_number, bench_result, commands};
pub use text::Text;
