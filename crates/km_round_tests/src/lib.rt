//! Tests of rounds: what only running threads show.
#![tactic(auto)]

#[cfg(test)]
mod at_once;
