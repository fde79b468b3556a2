//! The words after the program's name.

ghost use Rattle.std.specs.Prelude.{◌≡◌, ◌≤◌, IfOk, IfSome, map, string_bytes};
ghost use Rattle.km_forms.specs.Forms.{HasFewSteps, form_of_words};
ghost use Rattle.km_forms.specs.WordByWord.{bench_form, form_by_words, named_form, only_form, steps_form};
ghost use Rattle.km_model.specs.Grammar.{number as number_of_word, number_within};

use km_base::read_number;
use km_base::sizes::MOST_STEPS;

/// What the words ask for.
#[derive(Clone, Copy, Debug, PartialEq)]
pub enum Form {
    /// Read a script, run it, and write its reports.
    Run,
    /// Read a script, and write the number of its commands.
    Check,
    /// Run the script of a number with so many steps, and write a summary.
    Bench { number: u64, steps: u32 },
}

/// A number, if the word is one.
fn number(word: &[u8]) -> Option<u64>
    ensures { result ≡ number_of_word word.now }
{
    read_number(word).ok()
}

/// A number of steps.
fn steps(word: &[u8]) -> Option<u32>
    ensures steps { result ≡ number_within 0 1000000 word.now }
    ensures few { IfSome result (λ n. n ≤ 1000000) }
{
    match number(word) {
        Some(n) if n <= MOST_STEPS => Some(n as u32),
        _ => None,
    }
}

/// No word may be left, the next of which has this place.
fn only(form: Form, place: u32, rest: &[String]) -> Result<Form, u32>
    ensures form { result ≡ only_form form place (map string_bytes rest.now) }
    ensures same { IfOk result (λ f. f ≡ form) }
{
    if rest.is_empty() {
        Ok(form)
    } else {
        Err(place)
    }
}

/// The words after `bench` and a number.
fn steps_words(number: u64, words: &[String]) -> Result<Form, u32>
    ensures form { result ≡ steps_form number (map string_bytes words.now) }
    ensures few { IfOk result HasFewSteps }
{
    let [word, rest @ ..] = words else {
        return Err(3);
    };
    match steps(word.as_bytes()) {
        Some(steps) => only(Form::Bench { number, steps }, 4, rest),
        None => Err(3),
    }
}

/// The words after `bench`.
fn bench_words(words: &[String]) -> Result<Form, u32>
    ensures form { result ≡ bench_form (map string_bytes words.now) }
    ensures few { IfOk result HasFewSteps }
{
    let [word, rest @ ..] = words else {
        return Err(2);
    };
    match number(word.as_bytes()) {
        Some(number) => steps_words(number, rest),
        None => Err(2),
    }
}

/// The form that a first word names.
fn named(word: &[u8], rest: &[String]) -> Result<Form, u32>
    ensures form { result ≡ named_form word.now (map string_bytes rest.now) }
    ensures few { IfOk result HasFewSteps }
{
    if word == b"check".as_slice() {
        only(Form::Check, 2, rest)
    } else if word == b"bench".as_slice() {
        bench_words(rest)
    } else {
        Err(1)
    }
}

/// The form that the words name, word by word.
fn word_by_word(words: &[String]) -> Result<Form, u32>
    ensures form { result ≡ form_by_words (map string_bytes words.now) }
    ensures few { IfOk result HasFewSteps }
{
    match words {
        [] => Ok(Form::Run),
        [word, rest @ ..] => named(word.as_bytes(), rest),
    }
}

/// What the words after the program's name ask for: none, `check`, or `bench`, a number and a number of steps
/// up to 1,000,000. An `Err` is the place, from 1, of the first word that doesn't fit or is missing.
pub fn form_of(words: &[String]) -> Result<Form, u32>
    ensures form { result ≡ form_of_words (map string_bytes words.now) }
    ensures few { IfOk result HasFewSteps }
{
    word_by_word(words)
}
