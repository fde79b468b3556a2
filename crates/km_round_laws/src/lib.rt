//! What a round of running threads lists: nothing that is held by words that no hand stores to, and all that neither the
//! opening words nor a store mentions. Each law is the contract of a function, over a journal and an order alone.
#![tactic(auto)]

ghost use Rattle.km_round_laws.specs.RoundLaws.{ForgottenAreListedInJournals, ForgottenAreListedInRounds, ListedAreNotHeldInJournals, ListedSinceAreListed, RoundsAreTied};

/// The journal and the order of a round are tied, so what is said of such a pair holds of each round.
pub fn rounds_are_tied()
    ensures { RoundsAreTied }
{}

/// No block that is listed after a journal was held throughout the last scan that was completed in it, where the steady
/// words are those that no hand stored to.
pub fn listed_are_not_held_in_journals()
    ensures { ListedAreNotHeldInJournals }
{}

/// A set of blocks that neither the opening words nor a store of a hand mentions from outside it during two scans that were
/// completed in a journal is listed after the second, but for those that are too young, and each was new once.
pub fn forgotten_are_listed_in_journals()
    ensures { ForgottenAreListedInJournals }
{}

/// In a round no act forgets a sum, so nothing else is asked of its acts.
pub fn forgotten_are_listed_in_rounds()
    ensures { ForgottenAreListedInRounds }
{}

/// Where no scan was completed since a moment, what is listed was listed then: it was neither freed nor painted.
pub fn listed_since_are_listed()
    ensures { ListedSinceAreListed }
{}
