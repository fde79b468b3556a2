//! Two scans of the largest memory: of blocks of zeros, of a chain of small blocks, and of large blocks that words of
//! a section hold.

use km_base::{Act, Answer, FileCmd, Name, NoMemory};
use km_core::Core;
use km_tree::TreeMap;
use km_words::{Plain, Words};
use std::alloc::Global;

/// The words of the largest memory.
const WORDS: u32 = 4_194_304;

/// Where the first section begins: behind the page of vmap slots.
const SECTION: u64 = 0xffff_8880_0000_1000;

/// More events than are ever made.
const MOST_EVENTS: u64 = 1 << 40;

/// More loads than a scan makes.
const MOST_LOADS: u64 = 10_000_000;

/// What is scanned.
#[derive(Clone, Copy, PartialEq)]
pub enum Kind {
    Zeros,
    Chain,
    Large,
}

/// A core with its words.
#[derive(Drop)]
struct Bench {
    core: Core<TreeMap>,
    words: Plain,
}

impl Bench {
    /// The largest memory with a section of 4096 words.
    fn boot(alloc: Global) -> Result<Bench, NoMemory> {
        let map = TreeMap::new(alloc, WORDS)?;
        let core = Core::boot(alloc, u64::from(WORDS), map)?;
        let words = Plain::new(alloc, u64::from(WORDS))?;
        let mut bench = Bench { core, words };
        if let Some(name) = Name::read(b"data".as_slice()) {
            let _ = bench.act(Act::Section { name, words: 4096 });
        }
        Ok(bench)
    }

    /// Answers an act, other than one that moves the time.
    fn act(&mut self, act: Act) -> Answer {
        let is_ready = match act {
            Act::Tick(_) => false,
            _ => self.core.events() < MOST_EVENTS && self.words.words() == self.core.words(),
        };
        if is_ready {
            self.core.apply(&mut self.words, act)
        } else {
            Answer::Skipped
        }
    }

    /// Takes a block and stores its address in a word.
    fn hold(&mut self, size: u64, holder: u64) -> u64 {
        match self.act(Act::Kmalloc(size)) {
            Answer::At(value) => {
                let _ = self.act(Act::Store {
                    addr: holder,
                    value,
                });
                value
            }
            _ => holder,
        }
    }

    /// Takes the blocks of a kind.
    fn fill(&mut self, kind: Kind) {
        match kind {
            Kind::Zeros => {
                for _ in 0..16 {
                    let _ = self.act(Act::BootMem(1_048_576));
                }
            }
            Kind::Chain => {
                let mut holder = SECTION;
                for _ in 0..100_000 {
                    holder = self.hold(64, holder);
                }
            }
            Kind::Large => {
                for i in 1..251 {
                    let _ = self.hold(32_768, SECTION + 8 * i);
                }
            }
        }
    }

    /// Makes a scan, and tells how many words it loaded.
    fn scan(&mut self) -> u64 {
        let _ = self.act(Act::File(FileCmd::Scan));
        for loads in 0..MOST_LOADS {
            let Answer::Loaded { .. } = self.act(Act::Step) else {
                return loads;
            };
        }
        MOST_LOADS
    }
}

/// Scans the blocks of one kind or of all, and tells how many words were loaded.
pub fn loads(alloc: Global, only: Option<Kind>) -> Result<u64, NoMemory> {
    let mut bench = Bench::boot(alloc)?;
    for kind in [Kind::Zeros, Kind::Chain, Kind::Large] {
        if only.is_none() || only == Some(kind) {
            bench.fill(kind);
        }
    }
    let first = bench.scan();
    Ok(first.saturating_add(bench.scan()))
}
