//! Runs of pages for each use.

ghost use Rattle.std.specs.Prelude.{◌≡◌, length};

use super::calls::{Call, Layer, not_a_call, shown, shown_address};
use crate::troubles::Trouble;
use km_base::sizes::{BASE, PAGE};
use km_base::{Addr, NoMemory};
use km_pages::{Pages, Use};
use std::alloc::Global;

/// Eight pages.
#[derive(Drop)]
pub struct Runs {
    pages: Pages,
    ghost sized: { length pages ≡ 8 },
}

/// The use of this name.
fn use_of(word: &str) -> Result<Use, Trouble> {
    match word {
        "slab" => Ok(Use::Slab),
        "large" => Ok(Use::Large),
        "plain" => Ok(Use::Plain),
        "boot" => Ok(Use::Boot),
        "vmalloc" => Ok(Use::Vmalloc),
        "section" => Ok(Use::Section),
        "stack" => Ok(Use::Stack),
        _ => Err(Trouble::Malformed("a use of no such name")),
    }
}

impl Runs {
    pub fn new(alloc: Global) -> Result<Runs, NoMemory> {
        let pages = Pages::new(alloc, 8)?;
        Ok(Runs { pages })
    }

    /// What an address is used for.
    fn use_at(&self, alloc: Global, a: u64) -> Result<String, Trouble> {
        if a < BASE || a - BASE >= 8 * PAGE {
            return Err(not_a_call());
        }
        shown(alloc, self.pages.run_at(Addr(a)))
    }
}

impl Layer for Runs {
    fn make(&mut self, alloc: Global, call: Call<'_>) -> Result<String, Trouble> {
        match call.name {
            "take" => {
                let (count, kind) = (call.small(0)?, use_of(call.word(1)?)?);
                if count == 0 {
                    return Err(not_a_call());
                }
                shown_address(alloc, self.pages.take(count, kind))
            }
            "give" => {
                let (start, kind) = (Addr(call.number(0)?), use_of(call.word(1)?)?);
                shown(alloc, self.pages.give(start, kind))
            }
            "use" => self.use_at(alloc, call.number(0)?),
            _ => Err(not_a_call()),
        }
    }
}
