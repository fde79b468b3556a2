//! One record.

ghost use Rattle.std.specs.Prelude.{◌≡◌, ℕ, ◌+◌, ◌-◌, ◌*◌, ◌/◌, ◌%◌, ◌<◌, ◌≤◌, IsTrue, is_ok, is_none, option_map, position, IfSome, OnErr, if◌then◌else◌};
ghost use Rattle.std.specs.List.{list_any};
ghost use Rattle.km_model.specs.Blocks.{contains, in_areas, is_within};
ghost use Rattle.km_record.specs.Least.{IsLeast, lesser};
ghost use Rattle.km_record.specs.Records.{is_met, is_unscanned, begins_full, IsLaid, area_fault, areas_in, block_of, colour_in, noted, record_noted, scanned_from, unless_fault, with_area};

use crate::kinds::{AreaFault, Colour, Minimum, Note};
use km_base::{Addr, Span};
use std::mem::size_of;

/// A registered block with what the scans keep of it: 160 bytes. Its span and its areas consist of
/// words.
#[derive(Clone, Copy, Debug, PartialEq)]
pub struct Record {
    pub span: Span,
    pub minimum: Minimum,
    /// The references that the running or last scan found.
    pub count: u8,
    pub no_scan: bool,
    /// It was unreferenced at some completed scan.
    pub flagged: bool,
    /// It was unreferenced at the last completed scan.
    pub white_last: bool,
    /// The parts that alone are scanned, filled from the front; with none, all of it is scanned.
    pub areas: [Option<Span>; 4],
    /// The start of a block to which references are passed on.
    pub excess: Option<Addr>,
    /// The moment of the registration, in milliseconds.
    pub born: u64,
    /// The content sum at the last finished summing.
    pub sum: Option<u64>,
}

const _: () = prove!(size_of::<Record>() == 160);

impl Record {
    /// White where the count is below the minimum, else grey; a black block is neither.
    pub fn colour(&self) -> Colour
        ensures { result ≡ colour_in self.now.minimum self.now.count }
    {
        match self.minimum {
            Minimum::Black => Colour::Black,
            Minimum::AtLeast(n) if self.count < n => Colour::White,
            Minimum::AtLeast(_) => Colour::Grey,
        }
    }

    /// Takes a note. The count stays.
    pub fn annotate(&mut self, note: Note)
        ensures record { self.new ≡ record_noted note self.old }
        ensures block { (id : ℕ) → block_of id self.new ≡ noted note (block_of id self.old) }
    {
        match note {
            Note::NotLeak => self.minimum = Minimum::AtLeast(0),
            Note::Ignore => {
                self.minimum = Minimum::Black;
                self.no_scan = true;
            }
            Note::NoScan => self.no_scan = true,
            Note::TransientLeak => self.sum = None,
        }
    }

    /// Whether no word of the block is scanned.
    fn is_unscanned(&self) -> bool
        ensures { result ≡ is_unscanned (block_of 0 self.now) }
    {
        self.no_scan || matches!(self.minimum, Minimum::Black)
    }

    /// Adds an area of words that begins inside the block.
    ///
    /// It is refused where it goes past the end of the block, else where it meets an area that is
    /// kept, else where four are kept. A refusal changes nothing.
    pub fn add_area(&mut self, area: Span) -> Result<(), AreaFault>
        requires laid { IsLaid self.old }
        requires start { area.start.0 % 8 ≡ 0 }
        requires size { area.size % 8 ≡ 0 }
        requires sized { 0 < area.size }
        requires inside { IsTrue (contains area.start.0 (block_of 0 self.old)) }
        ensures answer { result ≡ unless_fault (area_fault (block_of 0 self.old) area.start.0 area.size) }
        ensures block { (id : ℕ) → block_of id self.new ≡ (if is_ok result then with_area area.start.0 area.size (block_of id self.old) else block_of id self.old) }
        ensures others { self.new ≡ record self.old { areas = self.new.areas } }
        ensures refused { OnErr result (self.new ≡ self.old) }
        ensures laid { IsLaid self.new }
    {
        if area.size > self.span.size - (area.start.0 - self.span.start.0) {
            return Err(AreaFault::NotInside);
        }
        if meets_any(&self.areas, &area) {
            return Err(AreaFault::AreaOverlap);
        }
        let Some(place) = free_place(&self.areas) else {
            return Err(AreaFault::TooManyAreas);
        };
        self.areas[place] = Some(area);
        Ok(())
    }

    /// The least index, at `from` or above, of a word of the block that is scanned.
    #[inline(always)]
    pub fn next_word(&self, from: u64) -> Option<u64>
        requires { IsLaid self.now }
        ensures least { option_map (λ i. self.now.span.start.0 + 8 * i) result ≡ scanned_from (self.now.span.start.0 + 8 * from) (block_of 0 self.now) }
        ensures within { IfSome result (λ i. i < self.now.span.size / 8) }
    {
        if self.is_unscanned() {
            None
        } else if has_area(&self.areas) {
            least_in_areas(self, from)
        } else if from < self.span.size / 8 {
            Some(from)
        } else {
            None
        }
    }
}

/// Whether an area is kept.
fn has_area(areas: &[Option<Span>]) -> bool
    ensures { result ≡ begins_full areas.now }
{
    matches!(areas, [Some(_), ..])
}

/// Whether a byte is in a kept area and in another.
fn overlaps(kept: &Option<Span>, area: &Span) -> bool
    ensures { result ≡ is_met area.now kept.now }
{
    match kept {
        None => false,
        Some(kept) => {
            (area.start.0 < kept.start.0 || area.start.0 - kept.start.0 < kept.size)
                && (kept.start.0 < area.start.0 || kept.start.0 - area.start.0 < area.size)
        }
    }
}

/// Whether an area meets one that is kept.
fn meets_any(areas: &[Option<Span>], area: &Span) -> bool
    ensures { result ≡ list_any (is_met area.now) areas.now }
{
    areas.iter().any(|kept| overlaps(kept, area))
}

/// The first place where no area is kept.
fn free_place(areas: &[Option<Span>]) -> Option<usize>
    ensures { result ≡ position (λ s. is_none s) areas.now }
{
    areas.iter().position(|kept| kept.is_none())
}

/// The lesser of two indices, where they are there.
fn earlier(a: Option<u64>, b: Option<u64>) -> Option<u64>
    ensures { result ≡ lesser a b }
{
    match (a, b) {
        (Some(m), Some(n)) => Some(if n < m { n } else { m }),
        (Some(m), None) => Some(m),
        (None, b) => b,
    }
}

/// The least index, at `from` or above, of a word of a block at `start` that is in an area.
fn least_in_area(start: u64, area: &Span, from: u64) -> Option<u64>
    requires start { start % 8 ≡ 0 }
    requires area { area.now.start.0 % 8 ≡ 0 }
    requires size { area.now.size % 8 ≡ 0 }
    requires behind { start ≤ area.now.start.0 }
    ensures { (bound : ℕ) → area.now.start.0 + area.now.size ≤ start + 8 * bound → IsLeast (λ i. is_within area.now.start.0 area.now.size (start + 8 * i)) from bound result }
{
    let first = (area.start.0 - start) / 8;
    let next = if first < from { from } else { first };
    if next < first + area.size / 8 {
        Some(next)
    } else {
        None
    }
}

/// The least index, at `from` or above, of a word that is in one of the areas.
fn least_in_areas(block: &Record, from: u64) -> Option<u64>
    requires { IsLaid block.now }
    ensures { IsLeast (λ i. in_areas (areas_in block.now.areas) (block.now.span.start.0 + 8 * i)) from (block.now.span.size / 8) result }
{
    let mut least = None;
    for area in &block.areas {
        if let Some(area) = area {
            least = earlier(least, least_in_area(block.span.start.0, area, from));
        }
    }
    least
}
