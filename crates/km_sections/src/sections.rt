//! The section host.

ghost use Rattle.std.specs.Prelude.{◌≡◌, ◌+◌, ◌*◌, ◌<◌, ◌≤◌, ◌==◌, ℕ, List, ◌∷◌, [], ◌++◌, length, map, Some, None, IfOk, OnErr, option_map, codes, bytes_eq, true, false, is_some};
ghost use Rattle.std.specs.List.{All};
ghost use Rattle.std.specs.Result.{result_ok};
ghost use Rattle.km_base.specs.declared.sizes.TheConstants.{PAGE_WORDS};
ghost use Rattle.km_base.specs.declared.spans.Span.{Span};
ghost use Rattle.km_model.specs.Placement.{Allocation, lowest_run, page_start, pages_for, run_place};
ghost use Rattle.km_model.specs.World.{is_given, section_named};
ghost use Rattle.km_pages.specs.declared.runs.Use.{Use};
ghost use Rattle.km_pages.specs.declared.runs.Use.TheVariants.{Section};
ghost use Rattle.km_pages.specs.Uses.{same_use};
ghost use Rattle.km_pages.specs.Runs.{place, run_from, taken};
ghost use Rattle.km_pages.specs.Laid.{AreLaid, IsBeside};
ghost use Rattle.km_sections.specs.Named.{AreSections, answer_of, refused_first, section, section_answer};
ghost use Rattle.km_sections.specs.Parts.{allocation};

use crate::errors::{NoSection, SectionFault};
use km_base::{Addr, Name, NoMemory, Span};
use km_pages::{Pages, Use};
use std::alloc::Global;
use std::marker::Model;

/// The most sections that can be added.
const MOST: usize = 32;

/// The most words of a section.
const MOST_WORDS: u64 = 4096;

/// A section's name, its first byte and its pages.
#[derive(Clone, Copy)]
struct Part {
    name: Name,
    start: Addr,
    pages: u32,
}

/// The sections, in order of addition.
#[derive(Drop)]
pub struct Sections {
    parts: Vec<Part>,
}

impl Model for Sections {
    ghost use Rattle.std.specs.Prelude.{◌≤◌, List, map, vec_len, vec_capacity};
    ghost use Rattle.km_model.specs.Placement.{Allocation};
    ghost use Rattle.km_sections.specs.Parts.{allocation};

    ghost Value = { List Allocation };

    ghost view = { λ s. map allocation s.parts.items };

    ghost invariant = { λ s. (vec_len s.parts ≤ 32) × (32 ≤ vec_capacity s.parts) };
}

/// Whether two names are one.
fn is_same(name: Name, other: Name) -> bool
    ensures { result ≡ bytes_eq name other }
{
    name == other
}

/// Whether a name is that of the vmap slots.
fn is_reserved(name: Name) -> bool
    ensures { result ≡ bytes_eq name (codes "vmap") }
{
    match Name::read(b"vmap".as_slice()) {
        Some(vmap) => is_same(name, vmap),
        None => false,
    }
}

/// Where the section of a name begins.
fn start_of(parts: &[Part], name: Name) -> Option<Addr>
    ensures { option_map (λ a. a.0) result ≡ section_named (map allocation parts.now) name }
{
    for part in parts {
        if is_same(part.name, name) {
            return Some(part.start);
        }
    }
    None
}

/// Whether a name can't be given to a section.
fn is_taken(parts: &[Part], name: Name) -> bool
    ensures { result ≡ is_given (map allocation parts.now) name }
{
    is_reserved(name) || start_of(parts, name).is_some()
}

/// Why a section of a name and so many words is refused before any room is looked for.
fn fault(parts: &[Part], name: Name, words: u64) -> Option<SectionFault>
    requires { length parts.now ≤ 32 }
    ensures answer { refused_first result ≡ section_answer (map allocation parts.now) name words (Some 0) }
    ensures some { result ≡ None → 0 < words }
    ensures small { result ≡ None → words ≤ 4096 }
    ensures room { result ≡ None → length parts.now < 32 }
{
    if words == 0 || words > MOST_WORDS {
        return Some(SectionFault::BadSize);
    }
    if is_taken(parts, name) {
        return Some(SectionFault::SectionExists);
    }
    if parts.len() >= MOST {
        return Some(SectionFault::TooManySections);
    }
    None
}

impl Sections {
    /// No sections, with memory for all that can be added.
    pub fn new(alloc: Global) -> Result<Sections, NoMemory>
        ensures { IfOk result (λ s. s ≡ []) }
    {
        match Vec::with_capacity(alloc, MOST) {
            Ok(parts) => Ok(Sections { parts }),
            Err(_) => Err(NoMemory),
        }
    }

    /// Adds a section of so many words, on the lowest pages that have room for it.
    pub fn add(&mut self, pages: &mut Pages, name: Name, words: u64) -> Result<Span, SectionFault>
        ensures answer { answer_of result ≡ section_answer self.old name words (place pages.old (pages_for (8 * words))) }
        ensures place { IfOk result (λ s. place pages.old (pages_for (8 * words)) ≡ Some s.start.0) }
        ensures span { IfOk result (λ s. s.size ≡ 8 * words) }
        ensures added { IfOk result (λ s. self.new ≡ self.old ++ section name words s.start.0 ∷ []) }
        ensures taken { IfOk result (λ s. pages.new ≡ taken pages.old Section s.start.0 (pages_for (8 * words))) }
        ensures refused { OnErr result (self.new ≡ self.old) }
        ensures pages_stay { OnErr result (pages.new ≡ pages.old) }
        ensures pages_count { length pages.new ≡ length pages.old }
        ensures others { (other : Use) (p : ℕ) → same_use Section other ≡ false → run_from pages.new other p ≡ run_from pages.old other p }
        ensures answer_among { (used : List Allocation) → AreLaid pages.old used → AreSections self.old used → answer_of result ≡ section_answer used name words (run_place (PAGE_WORDS * length pages.old) used (pages_for (8 * words))) }
        ensures start_among { IfOk result (λ s. (used : List Allocation) → AreLaid pages.old used → s.start.0 ≡ page_start (lowest_run used (pages_for (8 * words)))) }
        ensures apart { IfOk result (λ s. (used : List Allocation) → AreLaid pages.old used → All (λ (x : Allocation). IsBeside x (section name words s.start.0)) used) }
        ensures laid { IfOk result (λ s. (used : List Allocation) → AreLaid pages.old used → AreLaid pages.new (used ++ section name words s.start.0 ∷ [])) }
        ensures sections { IfOk result (λ s. (used : List Allocation) → AreSections self.old used → AreSections self.new (used ++ section name words s.start.0 ∷ [])) }
    {
        if let Some(fault) = fault(&self.parts, name, words) {
            return Err(fault);
        }
        let count = ((8 * words + 4095) / 4096) as u32;
        let Ok(start) = pages.take(count, Use::Section) else {
            return Err(SectionFault::NoRoom);
        };
        self.parts.push_reserved(Part {
            name,
            start,
            pages: count,
        });
        Ok(Span {
            start,
            size: 8 * words,
        })
    }

    /// The first byte of the section of a name.
    pub fn start(&self, name: Name) -> Result<Addr, NoSection>
        ensures start { option_map (λ a. a.0) (result_ok result) ≡ section_named self.now name }
        ensures start_among { (used : List Allocation) → AreSections self.now used → option_map (λ a. a.0) (result_ok result) ≡ section_named used name }
    {
        start_of(&self.parts, name).ok_or(NoSection)
    }
}
