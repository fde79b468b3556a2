//! Laws of the definitions of `km_model`, each the contract of a function: what stands never meets, a scan ends, and
//! nothing that is held is listed (`soundness`). Two more stand in `km_model::laws`: no freed block is listed
//! (`listed_are_live`), and a block is new at one completed scan at most (`new_at_most_once`).
#![tactic(auto)]

pub mod soundness;

ghost use Rattle.km_model.specs.Headline.{ScansEnd};
ghost use Rattle.km_laws.specs.Laws.{AllIsPlaced, NextIsAWord, NamesRise, NamesAreFew, LoadsLower, NothingRaises, LeftIsBounded, OnlyLoadsLoad, BlocksLie};

/// Live allocations are whole words of the memory and never meet; each live block is whole words of one, and no two
/// blocks meet; stacks are allocations.
pub fn all_is_placed()
    ensures { AllIsPlaced }
{}

/// The next load of a scan names a word of the memory.
pub fn next_is_a_word()
    ensures { NextIsAWord }
{}

/// The ids of blocks and the numbers of tasks rise.
pub fn names_rise()
    ensures { NamesRise }
{}

/// Blocks, tasks and scans are no more than the events allow.
pub fn names_are_few()
    ensures { NamesAreFew }
{}

/// Each load of a scan lowers what is left of it.
pub fn loads_lower()
    ensures { LoadsLower }
{}

/// Nothing but registering a block and starting a task raises what is left of a scan.
pub fn nothing_raises()
    ensures { NothingRaises }
{}

/// What is left of a scan is bounded.
pub fn left_is_bounded()
    ensures { LeftIsBounded }
{}

/// A scan ends.
pub fn scans_end()
    ensures { ScansEnd }
{}

/// No act but a load of a task and a step of the scanner is answered by a load.
pub fn only_loads_load()
    ensures { OnlyLoadsLoad }
{}

/// The block that a request is given is whole words of the memory.
pub fn blocks_lie()
    ensures { BlocksLie }
{}
