//! Certificates: why a block is held at a moment, as a list that shows it, and what `why` and `held` print. The
//! definitions stand in `specs/`.
#![tactic(auto)]
