//! Why a block is held: the list that ends with it.

ghost use Rattle.std.specs.Prelude.{IfOk, ◌≡◌, ◌≤◌, []};
ghost use Rattle.km_base.specs.declared.sizes.TheConstants.{MOST_WORDS};
ghost use Rattle.km_certificates.specs.Certificates.{is_held, list_of};
ghost use Rattle.km_why.specs.Search.{members_in};
ghost use Rattle.km_why.specs.Told.{AreLaidOut, TellsAll, TellsSame, blocks_of, memory_of, standing_of};

use crate::counts::new_counts;
use crate::search::{Member, Search, begin, list_others, list_roots};
use km_base::NoMemory;
use km_map::ObjectMap;
use km_record::RecId;
use km_tasks::Tasks;
use km_track::Track;
use km_words::Words;
use std::alloc::Global;
use std::collections::BinaryHeap;
use std::marker::Model;

/// Finds lists, within the memory that it took at first: 64 bytes for each word.
#[derive(Drop)]
pub struct Why {
    search: Search,
}

impl Model for Why {
    ghost use Rattle.std.specs.Prelude.{◌≤◌, length, vec_capacity};
    ghost use Rattle.std.specs.BinaryHeap.{heap_capacity};
    ghost use Rattle.km_why.specs.Found.{Found};

    ghost Value = { Found };

    ghost view = { λ w. record { capacity = length w.search.counts.items; members = w.search.members.items } };

    ghost invariant = { λ w. (length w.search.counts.items ≤ heap_capacity w.search.waiting) × (length w.search.counts.items ≤ vec_capacity w.search.members) };
}

impl Why {
    /// Room for the lists in a memory of so many words.
    pub fn new(alloc: Global, capacity: u32) -> Result<Why, NoMemory>
        ensures { IfOk result (λ w. w ≡ record { capacity = capacity; members = [] }) }
    {
        let counts = new_counts(alloc, capacity)?;
        let Ok(waiting) = BinaryHeap::with_capacity(alloc, capacity as usize) else {
            return Err(NoMemory);
        };
        let Ok(members) = Vec::with_capacity(alloc, capacity as usize) else {
            return Err(NoMemory);
        };
        Ok(Why {
            search: Search {
                counts,
                waiting,
                members,
            },
        })
    }

    /// Whether a block is held now. The members are then its list, and else all blocks that are held.
    pub fn find<M: ObjectMap, W: Words>(
        &mut self,
        track: &Track<M>,
        tasks: &Tasks,
        stacks: bool,
        words: &mut W,
        b: RecId,
    ) -> bool
        requires told { TellsAll (W.told words.old) }
        requires small { (W.told words.old).size ≤ MOST_WORDS }
        requires laid { AreLaidOut (W.told words.old).size (blocks_of track.now) tasks.now.tasks }
        requires room { (W.told words.old).size ≤ self.old.capacity }
        ensures held { result ≡ is_held (standing_of track.now tasks.now.tasks stacks (memory_of (W.told words.old))) b.generation }
        ensures members { self.new.members ≡ members_in track.now (standing_of track.now tasks.now.tasks stacks (memory_of (W.told words.old))) (list_of (standing_of track.now tasks.now.tasks stacks (memory_of (W.told words.old))) b.generation) }
        ensures capacity { self.new.capacity ≡ self.old.capacity }
        ensures told { TellsSame (W.told words.old) (W.told words.new) }
    {
        begin(&mut self.search, track, tasks, stacks, words);
        if list_roots(&mut self.search, track, words, b) {
            return true;
        }
        list_others(&mut self.search, track, words, b)
    }

    /// The list that was found last.
    pub fn members(&self) -> &[Member]
        ensures { result.now ≡ self.now.members }
    {
        self.search.members.as_slice()
    }
}
