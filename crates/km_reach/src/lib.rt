//! What is true of each state that a history leads to.
#![tactic(auto)]

ghost use Rattle.km_reach.specs.Reached.{StatesAreReached};

/// In each state that stands for a history with few enough events what stands is placed, now and after one
/// more event; the next load of a scan names a word of the memory; and no count is greater than the events allow.
pub fn states_are_reached()
    ensures { StatesAreReached }
{}
