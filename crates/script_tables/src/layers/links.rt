//! Three lists over four slots.

ghost use Rattle.std.specs.Prelude.{◌≡◌};

use super::calls::{Call, Layer, done, not_a_call, shown};
use crate::troubles::Trouble;
use km_base::NoMemory;
use km_links::{Links, Which};
use std::alloc::Global;

#[derive(Drop)]
pub struct Lists {
    links: Links,
    ghost sized: { links.capacity ≡ 4 },
}

/// The list of this name.
fn which(word: &str) -> Result<Which, Trouble> {
    match word {
        "order" => Ok(Which::Order),
        "grey" => Ok(Which::Grey),
        "free" => Ok(Which::Free),
        _ => Err(Trouble::Malformed("a list of no such name")),
    }
}

impl Lists {
    pub fn new(alloc: Global) -> Result<Lists, NoMemory> {
        let links = Links::new(alloc, 4)?;
        Ok(Lists { links })
    }

    /// Makes a call on a slot of a list.
    fn on_slot(&mut self, alloc: Global, call: Call<'_>, list: Which) -> Result<String, Trouble> {
        let slot = call.small(1)?;
        let is_in = self.links.has(list, slot);
        match call.name {
            "has" => shown(alloc, is_in),
            "push" if !is_in && slot < 4 => {
                self.links.push_back(list, slot);
                done(alloc)
            }
            "unlink" if is_in => {
                self.links.unlink(list, slot);
                done(alloc)
            }
            "next" if is_in => shown(alloc, self.links.next(list, slot)),
            _ => Err(not_a_call()),
        }
    }
}

impl Layer for Lists {
    fn make(&mut self, alloc: Global, call: Call<'_>) -> Result<String, Trouble> {
        let list = which(call.word(0)?)?;
        match call.name {
            "first" => shown(alloc, self.links.first(list)),
            "pop" => shown(alloc, self.links.pop_front(list)),
            _ => self.on_slot(alloc, call, list),
        }
    }
}
