//! The scanner of a round.

ghost use Rattle.std.specs.Prelude.{◌≡◌, ℕ, ◌+◌, ◌*◌, ◌≤◌, ◌<◌, ◌^◌};
ghost use Rattle.km_model.specs.Past.{completes};
ghost use Rattle.km_rounds.specs.Journals.{ticks_in};
ghost use Rattle.km_workers.specs.Workers.{Acts as Made, AreSteps, IsOneScan, IsScan, IsSeen, IsTurn, MakesOne, May};

use crate::acts::Acts;
use km_base::{Act, Answer, FileCmd};
use km_words::Words;

/// What a turn of the scanner came to.
#[derive(Clone, Copy)]
pub enum Turn {
    Goes,
    Ended,
    Cut,
}

/// Makes an act, and says whether the journal had room for it.
fn make<W: Words, A: Acts<W>>(words: &mut W, acts: &mut A, act: Act) -> bool
    requires may { May (A.acting acts.old) (W.told words.old).size act }
    ensures { (made : Made (A.acting acts.old) (A.acting acts.new) (W.told words.old) (W.told words.new)) × MakesOne (A.acting acts.old) (A.acting acts.new) made.entries act result }
{
    acts.act(words, act).is_some()
}

/// Whether an answer ends a scan as completed.
fn ends(answer: Answer) -> bool
    ensures { result ≡ completes answer }
{
    matches!(answer, Answer::Ended { .. })
}

/// Makes a step of the running scan, or halts it where the journal has no room.
fn take_turn<W: Words, A: Acts<W>>(words: &mut W, acts: &mut A) -> Turn
    requires { (A.acting acts.old).words ≡ (W.told words.old).size }
    ensures { (made : Made (A.acting acts.old) (A.acting acts.new) (W.told words.old) (W.told words.new)) × IsTurn (A.acting acts.old) (A.acting acts.new) made.entries result }
{
    match acts.act(words, Act::Step) {
        Some(answer) => {
            if ends(answer) {
                Turn::Ended
            } else {
                Turn::Goes
            }
        }
        None => {
            let _ = acts.act(words, Act::Halt);
            Turn::Cut
        }
    }
}

/// Makes steps until the scan ends, or is cut. Whether it ended.
fn steps<W: Words, A: Acts<W>>(words: &mut W, acts: &mut A) -> bool
    requires words { (A.acting acts.old).words ≡ (W.told words.old).size }
    requires seen { IsSeen (A.acting acts.old) }
    requires few { (A.acting acts.old).limit < 2 ^ 32 }
    ensures { (made : Made (A.acting acts.old) (A.acting acts.new) (W.told words.old) (W.told words.new)) × AreSteps (A.acting acts.old) (A.acting acts.new) made.entries result }
{
    for _turn in 0..u64::MAX {
        match take_turn(words, acts) {
            Turn::Goes => {}
            Turn::Ended => return true,
            Turn::Cut => return false,
        }
    }
    unreachable!()
}

/// Lets the gap pass and makes a scan, or is cut. Whether it ended.
fn scan_once<W: Words, A: Acts<W>>(words: &mut W, acts: &mut A, gap: u64) -> bool
    requires words { (A.acting acts.old).words ≡ (W.told words.old).size }
    requires seen { IsSeen (A.acting acts.old) }
    requires few { (A.acting acts.old).limit < 2 ^ 32 }
    requires ticks { ((A.acting acts.old).by ≡ 1) × ((A.acting acts.old).moment + ticks_in (A.acting acts.old).own + gap ≤ 2 ^ 62) }
    ensures { (made : Made (A.acting acts.old) (A.acting acts.new) (W.told words.old) (W.told words.new)) × IsOneScan (A.acting acts.old) (A.acting acts.new) gap made.entries result }
{
    if !make(words, acts, Act::Tick(gap)) {
        return false;
    }
    if !make(words, acts, Act::File(FileCmd::Scan)) {
        return false;
    }
    steps(words, acts)
}

/// Makes the scans of a round, with a gap before each, until the journal has no room. Whether all were made.
pub fn scan<W: Words, A: Acts<W>>(words: &mut W, acts: &mut A, scans: u32, gap: u64) -> bool
    requires words { (A.acting acts.old).words ≡ (W.told words.old).size }
    requires seen { IsSeen (A.acting acts.old) }
    requires few { (A.acting acts.old).limit < 2 ^ 32 }
    requires ticks { ((A.acting acts.old).by ≡ 1) × ((A.acting acts.old).moment + ticks_in (A.acting acts.old).own + scans * gap ≤ 2 ^ 62) }
    ensures { (made : Made (A.acting acts.old) (A.acting acts.new) (W.told words.old) (W.told words.new)) × IsScan (A.acting acts.old) (A.acting acts.new) scans gap made.entries result }
{
    for _scan in 0..scans {
        if !scan_once(words, acts, gap) {
            return false;
        }
    }
    true
}
