//! A core of 4096 words, step by step: no script shows which word a step loads.

ghost use Rattle.std.specs.Prelude.{◌≡◌, IfOk};
ghost use Rattle.km_model.specs.History.{ticks_of};

use super::calls::{Call, Layer, not_a_call, shown};
use crate::troubles::Trouble;
use km_base::{Act, Answer, FileCmd, Name, NoMemory};
use km_core::Core;
use km_tree::TreeMap;
use km_words::{Plain, Words};
use std::alloc::Global;

/// More acts and more milliseconds than any row has.
const MOST: u64 = 1_000_000;

/// A core with its words.
#[derive(Drop)]
pub struct Machine {
    core: Core<TreeMap>,
    words: Plain,
}

/// The act of a call. None moves the time.
fn act_of(call: Call<'_>) -> Result<Act, Trouble>
    ensures { IfOk result (λ act. ticks_of act ≡ 0) }
{
    match call.name {
        "section" => {
            let Some(name) = Name::read(call.word(0)?.as_bytes()) else {
                return Err(Trouble::Malformed("a word that is no name"));
            };
            let words = call.number(1)?;
            Ok(Act::Section { name, words })
        }
        "kmalloc" => Ok(Act::Kmalloc(call.number(0)?)),
        "store" => {
            let (addr, value) = (call.number(0)?, call.number(1)?);
            Ok(Act::Store { addr, value })
        }
        "scan" => Ok(Act::File(FileCmd::Scan)),
        "step" => Ok(Act::Step),
        _ => Err(not_a_call()),
    }
}

/// An answer, with its addresses and values in hexadecimal.
fn shown_answer(alloc: Global, answer: Answer) -> Result<String, Trouble> {
    match answer {
        Answer::At(addr) => Ok(format!(in alloc; "{addr:#018x}")?),
        Answer::Loaded { addr, value } => {
            Ok(format!(in alloc; "{addr:#018x} has {value:#018x}")?)
        }
        answer => shown(alloc, answer),
    }
}

impl Machine {
    pub fn boot(alloc: Global) -> Result<Machine, NoMemory> {
        let map = TreeMap::new(alloc, 4096)?;
        let core = Core::boot(alloc, 4096, map)?;
        let words = Plain::new(alloc, 4096)?;
        Ok(Machine { core, words })
    }

    fn act(&mut self, act: Act) -> Result<Answer, Trouble>
        requires { ticks_of act ≡ 0 }
    {
        let few = self.core.events() < MOST && self.core.now() < MOST;
        if !few || self.words.words() != self.core.words() {
            return Err(not_a_call());
        }
        Ok(self.core.apply(&mut self.words, act))
    }

    /// Makes so many steps, and gives the last answer.
    fn steps(&mut self, count: u32) -> Result<Answer, Trouble> {
        let mut answer = Answer::Skipped;
        for _ in 0..count {
            answer = self.act(Act::Step)?;
        }
        Ok(answer)
    }
}

impl Layer for Machine {
    fn make(&mut self, alloc: Global, call: Call<'_>) -> Result<String, Trouble> {
        let answer = match call.name {
            "steps" => self.steps(call.small(0)?)?,
            _ => self.act(act_of(call)?)?,
        };
        shown_answer(alloc, answer)
    }
}
