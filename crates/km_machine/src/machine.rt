//! A core and its words.

ghost use Rattle.std.specs.Prelude.{◌≡◌, ℕ, ◌+◌, ◌<◌, ◌≤◌, ◌^◌, length, IfOk, IfSome, None};
ghost use Rattle.km_base.specs.declared.acts.Act.TheVariants.{Step, Tick};
ghost use Rattle.km_base.specs.declared.acts.Answer.TheVariants.{Loaded};
ghost use Rattle.km_edge.specs.Streams.{WritesAll};
ghost use Rattle.km_model.specs.Headline.{IsMemorySize};
ghost use Rattle.km_model.specs.History.{ticks_of};
ghost use Rattle.km_model.specs.Follows.{Run, first_run, happens, told_answer};
ghost use Rattle.km_model.specs.Output.{listing_text};
ghost use Rattle.km_machine.specs.Machines.{For, HasRoom, Spent};

use crate::print;
use km_base::{Act, Addr, Answer, NoMemory};
use km_core::Core;
use km_edge::{Failed, Sink};
use km_tree::TreeMap;
use km_words::Plain;
use std::alloc::Global;
use std::marker::Model;

/// The core over a balanced tree, and words of this process's own.
#[derive(Drop)]
pub struct Machine {
    core: Core<TreeMap>,
    words: Plain,
}

impl Model for Machine {
    ghost use Rattle.km_machine.specs.Machines.{Simulation};

    ghost Value = { Simulation };

    ghost view = { λ m. record { core = m.core; memory = m.words } };
}

impl Machine {
    /// What a line `memory` makes.
    pub fn new(alloc: Global, words: u64) -> Result<Machine, NoMemory>
        requires { IsMemorySize words }
        ensures stands { IfOk result (λ m. For m (first_run m.core.parts.words)) }
        ensures words { IfOk result (λ m. m.core.parts.words ≡ words) }
        ensures size { IfOk result (λ m. length m.memory ≡ words) }
    {
        let map = TreeMap::new(alloc, words as u32)?;
        Ok(Machine {
            core: Core::boot(alloc, words, map)?,
            words: Plain::new(alloc, words)?,
        })
    }

    /// A machine of a core and words.
    pub fn of_parts(core: Core<TreeMap>, words: Plain) -> Machine
        ensures { result ≡ record { core = core; memory = words } }
    {
        Machine { core, words }
    }

    /// Its core and its words.
    pub fn into_parts(self) -> (Core<TreeMap>, Plain)
        ensures { self ≡ record { core = result.0; memory = result.1 } }
    {
        let Machine { core, words } = self;
        (core, words)
    }

    /// The core.
    pub fn core(&self) -> &Core<TreeMap>
        ensures { result.now ≡ self.now.core }
    {
        &self.core
    }

    /// Makes one event.
    #[inline(always)]
    pub fn event(&mut self, act: &Act) -> Answer
        requires room { HasRoom self.old 1 (ticks_of act.now) }
        ensures happens { (run : Run) → For self.old run → For self.new (happens run act.now) }
        ensures answer { (run : Run) → For self.old run → result ≡ told_answer run act.now }
        ensures spent { Spent self.old self.new 1 (ticks_of act.now) }
    {
        self.core.apply(&mut self.words, *act)
    }

    /// Makes a step that is a load and needs no move to it, and tells its word and its value. Where the next step isn't
    /// such, nothing changes, and `event` makes it. It is for loops that make many steps.
    #[inline(always)]
    pub fn load_due(&mut self) -> Option<(Addr, u64)>
        requires room { HasRoom self.old 1 0 }
        ensures happens { IfSome result (λ r. (run : Run) → For self.old run → For self.new (happens run Step)) }
        ensures answer { IfSome result (λ r. (run : Run) → For self.old run → Loaded r.0.0 r.1 ≡ told_answer run Step) }
        ensures spent { Spent self.old self.new 1 0 }
        ensures same { result ≡ None → self.new ≡ self.old }
    {
        let load = self.core.load_due(&mut self.words)?;
        Some(load)
    }

    /// Writes what a read prints: an entry for each listed block, in order of registration.
    pub(crate) fn list<K: Sink>(&mut self, sink: &mut K) -> Result<(), Failed>
        ensures listing { (run : Run) → For self.old run → WritesAll (K.state sink.old) (K.state sink.new) (listing_text run.memory run.history) result }
        ensures same { self.new ≡ self.old }
    {
        print::listing(&self.core, &mut self.words, sink)
    }
}
