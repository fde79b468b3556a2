//! A run of pages and what it is for.

ghost use Rattle.std.specs.Prelude.{◌≡◌, IsTrue};
ghost use Rattle.km_pages.specs.Uses.{same_use};

/// What a run of pages is for. The page of the vmap slots counts as a section.
#[derive(Clone, Copy, Debug, PartialEq)]
pub enum Use {
    Plain,
    Section,
    Stack,
    Slab,
    Large,
    Vmalloc,
    Boot,
}

/// A run of `len` pages from page `first` on.
#[derive(Clone, Copy, Debug, PartialEq)]
pub struct Run {
    pub kind: Use,
    pub first: u32,
    pub len: u32,
}

impl Use {
    /// Whether two uses are one.
    pub fn is(self, other: Use) -> bool
        ensures test { result ≡ same_use self other }
        ensures same { IsTrue result → self ≡ other }
    {
        self == other
    }
}
