//! Words that name the task of another thread.

ghost use Rattle.std.specs.Prelude.{◌≡◌, find, option_map, true};
ghost use Rattle.km_model.specs.Pieces.{Piece};
ghost use Rattle.km_live_model.specs.LiveGrammar.{is_others as is_others_base, names_other as names_other_word};
ghost use Rattle.km_script.specs.Words.{piece_of};

use km_base::compare::is;
use km_base::{Base, Name};
use km_script::{Word, Words, operand};

/// Whether a base is another task's.
fn is_others(own: &Name, base: &Base) -> bool
    ensures { result ≡ is_others_base own.now base.now }
{
    match base {
        Base::Reg { task, .. } => !is(own.bytes(), task.bytes()),
        Base::Stack(task) => !is(own.bytes(), task.bytes()),
        Base::Number(_) => false,
        Base::Section(_) => false,
    }
}

/// Whether a word names a task other than this one.
fn names_other(own: &Name, word: Word) -> bool
    ensures { result ≡ names_other_word own.now (piece_of word.entry) }
{
    match operand(word) {
        Some(operand) => is_others(own, &operand.base),
        None => false,
    }
}

/// The column of the first word that names a task other than this one.
pub fn first_other(own: &Name, mut words: Words) -> Option<u32>
    ensures { result ≡ option_map (λ (p : Piece). p.column) (find (names_other_word own.now) words.entry.pieces) }
{
    while let Some(word) = words.next() {
        if names_other(own, word) {
            return Some(word.column);
        }
    }
    None
}
