//! A script begins with a sound run, from each sound run there is a round, whatever its jobs, and each round and each line
//! leads to a sound run. Each law is the contract of a function.
#![tactic(auto)]

ghost use Rattle.km_schedules.specs.Schedules.{FirstRunIsSound, LineKeeps, RoundIsThere, RoundKeeps};

/// A script begins with a sound run.
pub fn first_run_is_sound()
    ensures { FirstRunIsSound }
{}

/// Each line of a script leads from a sound run to a sound run.
pub fn line_keeps()
    ensures { LineKeeps }
{}

/// From each sound run there is a round: the mutators may run one after another, and the scanner after them.
pub fn round_is_there()
    ensures { RoundIsThere }
{}

/// Each round leads from a sound run to a sound run.
pub fn round_keeps()
    ensures { RoundKeeps }
{}
