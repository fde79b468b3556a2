//! What the listings of a journal say of its loads, whatever values these brought: each law is the contract of a function.
#![tactic(auto)]

ghost use Rattle.km_journal_laws.specs.Accepted.{AcceptedAreJournals, JournalsAreAccepted, TextsFixHistories};
ghost use Rattle.km_journal_laws.specs.Listings.{ForgottenInJournalsAreListed, ListedInJournalsAreNotHeld};

/// A file that a check accepts is the journal of a history that follows.
pub fn accepted_are_journals()
    ensures { AcceptedAreJournals }
{}

/// The journal of a history that follows is accepted, if it isn't too long.
pub fn journals_are_accepted()
    ensures { JournalsAreAccepted }
{}

/// The text of a journal fixes its history.
pub fn texts_fix_histories()
    ensures { TextsFixHistories }
{}

/// No block that a journal lists was held in the last completed scan before the listing, by words whose loads in that
/// scan's first two phases gave one value each.
pub fn journals_list_nothing_held()
    ensures { ListedInJournalsAreNotHeld }
{}

/// A block that the loads of two completed scans outside it don't name, and whose own loads agree, is in each listing
/// after the second while it is live and can be reported, and was new once.
pub fn journals_list_the_forgotten()
    ensures { ForgottenInJournalsAreListed }
{}
