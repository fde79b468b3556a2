//! What a map keeps.

use km_base::Span;

/// A span and the slot of the table that it leads to.
#[derive(Clone, Copy, Debug, Drop, PartialEq)]
pub struct Entry {
    pub span: Span,
    pub slot: u32,
}
