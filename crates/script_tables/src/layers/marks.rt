//! A set of numbers.

ghost use Rattle.std.specs.Prelude.{◌≡◌, length};

use super::calls::{Call, Layer, done, not_a_call, shown};
use crate::troubles::Trouble;
use km_base::NoMemory;
use km_marks::Marks;
use std::alloc::Global;

/// A set of the numbers below 256.
#[derive(Drop)]
pub struct Set {
    marks: Marks,
    ghost sized: { length marks ≡ 4 },
}

impl Set {
    pub fn new(alloc: Global) -> Result<Set, NoMemory> {
        let marks = Marks::new(alloc, 4)?;
        Ok(Set { marks })
    }
}

impl Layer for Set {
    fn make(&mut self, alloc: Global, call: Call<'_>) -> Result<String, Trouble> {
        let number = call.small(0)? as usize;
        match call.name {
            "insert" if number < 256 => {
                self.marks.insert(number);
                done(alloc)
            }
            "remove" if number < 256 => {
                self.marks.remove(number);
                done(alloc)
            }
            "contains" if number < 256 => shown(alloc, self.marks.contains(number)),
            "lowest" => {
                let end = call.small(1)? as usize;
                if number > end || end > 4 {
                    return Err(not_a_call());
                }
                shown(alloc, self.marks.lowest(number, end))
            }
            _ => Err(not_a_call()),
        }
    }
}
