//! A core with the journal of its acts.

ghost use Rattle.std.specs.Prelude.{◌≡◌, ℕ, ◌+◌, ◌<◌, ◌≤◌, ◌^◌, [], IfErr, IfOk};
ghost use Rattle.km_base.specs.declared.acts.Act.TheVariants.{Tick};

use km_base::{Act, Answer, NoMemory};
use km_core::Core;
use km_rounds::Entry;
use km_tree::TreeMap;
use km_words::Words;
use std::alloc::Global;
use std::marker::Model;
use std::snapshot::Snapshot;

/// The journal has no room for an act. The number is that of the entries that it has room for.
#[derive(Clone, Copy, Debug, PartialEq)]
pub struct JournalFull(pub u64);

/// A core with its journal, which is reserved once. The core lies in a box, so that threads which hand
/// the book on move few bytes. What the core was before the first entry is seen by contracts alone, and
/// has no bytes.
#[derive(Drop)]
pub struct Booked {
    core: Box<Core<TreeMap>>,
    journal: Vec<Entry>,
    entries: u64,
    opening: Snapshot<Core<TreeMap>>,
}

impl Model for Booked {
    ghost use Rattle.std.specs.Prelude.{◌≤◌, ◌+◌, vec_capacity};
    ghost use Rattle.km_live_map.specs.Books.{Book, IsBook};

    ghost Value = { Book };

    ghost view = { λ b. record { opening = b.opening.value; core = b.core.value; journal = b.journal.items; entries = b.entries } };

    ghost invariant = { λ b. IsBook (record { opening = b.opening.value; core = b.core.value; journal = b.journal.items; entries = b.entries }) × (b.entries + 1 ≤ vec_capacity b.journal) × (b.entries ≤ 4194304) };
}

/// The same act again.
fn copied(act: &Act) -> Act
    ensures { result ≡ act.now }
{
    *act
}

impl Booked {
    ghost use Rattle.km_live_map.specs.Books.{IsBook, Made, NotMade};

    /// A core with an empty journal that has room for so many entries, and one more for a last halt.
    pub fn new(alloc: Global, core: Core<TreeMap>, entries: u64) -> Result<Booked, NoMemory>
        requires entries { (1 ≤ entries) × (entries ≤ 4194304) }
        ensures book { IfOk result (λ b. b ≡ record { opening = core; core = core; journal = []; entries = entries }) }
    {
        let Ok(journal) = Vec::with_capacity(alloc, entries as usize + 1) else {
            return Err(NoMemory);
        };
        let opening = Snapshot::of(&core);
        let Ok(core) = Box::new(alloc, core) else {
            return Err(NoMemory);
        };
        Ok(Booked {
            core,
            journal,
            entries,
            opening,
        })
    }

    /// The core, without the journal.
    pub fn into_core(self) -> Core<TreeMap>
        ensures core { result ≡ self.core }
        ensures kept { IsBook self }
    {
        let Booked {
            core,
            journal: _,
            entries: _,
            opening: _,
        } = self;
        Box::into_inner(core)
    }

    /// The core.
    pub fn core(&self) -> &Core<TreeMap>
        ensures core { result.now ≡ self.now.core }
        ensures kept { IsBook self.now }
    {
        &self.core
    }

    /// The entries, the oldest first.
    pub fn journal(&self) -> &[Entry]
        ensures journal { result.now ≡ self.now.journal }
        ensures kept { IsBook self.now }
    {
        self.journal.as_slice()
    }

    /// How many entries the journal has room for, beside a last halt.
    pub fn entries(&self) -> u64
        ensures entries { result ≡ self.now.entries }
        ensures small { self.now.entries ≤ 4194304 }
        ensures kept { IsBook self.now }
    {
        self.entries
    }

    /// Makes an act and adds its entry to the journal, unless that is full. It takes no memory.
    pub fn act<W: Words>(&mut self, by: u32, words: &mut W, act: Act) -> Result<Answer, JournalFull>
        requires size { (W.told words.old).size ≡ self.old.core.parts.words }
        requires few { self.old.core.events < 2 ^ 62 }
        requires small { (n : ℕ) → act ≡ Tick n → self.old.core.parts.settings.now + n ≤ 2 ^ 62 }
        ensures made { IfOk result (λ a. Made self.old self.new by act a (W.told words.old) (W.told words.new)) }
        ensures full { IfErr result (λ f. NotMade self.old self.new act f.0 (W.told words.old) (W.told words.new)) }
    {
        let room = match act {
            Act::Halt => self.entries + 1,
            _ => self.entries,
        };
        if self.journal.len() as u64 >= room {
            return Err(JournalFull(self.entries));
        }
        let answer = self.core.apply(words, copied(&act));
        self.journal.push_reserved(Entry { by, act, answer });
        Ok(answer)
    }
}
