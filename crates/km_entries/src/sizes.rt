//! The limit of a journal file.

/// The most bytes of a journal file.
pub const LONGEST_JOURNAL: u64 = 1_073_741_824;
