//! What a running scan has left, stated over the state in lists, and its laws.
#![tactic(auto)]

ghost use Rattle.km_left.specs.Laws.{WordsAreCounted, LoadsLowerIn, LeftInIsBounded, NothingRaisesIn, SomeIsLeft, AllMovesLowerIn};

/// The number of words above an address is what a count of them finds.
pub fn words_are_counted()
    ensures { WordsAreCounted }
{}

/// Each load of the scan lowers it by one, and by two where it moves to another holder or phase.
pub fn loads_lower_in()
    ensures { LoadsLowerIn }
{}

/// It is at most twice the words of the memory, two for each block, and four.
pub fn left_in_is_bounded()
    ensures { LeftInIsBounded }
{}

/// In any state, no event but a load of the scan, the begin of one, registering a block and starting a task raises it.
/// A load lowers it in states that stand for a history: `loads_lower_in`.
pub fn nothing_raises_in()
    ensures { NothingRaisesIn }
{}

/// Something is left while a scan runs, so that its end lowers it too.
pub fn some_is_left()
    ensures { SomeIsLeft }
{}

/// Each move lowers it: to the next entry of the queue, past a stack or block, and to a later phase. To leave out
/// entries of the queue raises nothing.
pub fn all_moves_lower_in()
    ensures { AllMovesLowerIn }
{}
