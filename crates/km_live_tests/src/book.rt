//! Books whose journals get full, and one that is handed on.

ghost use Rattle.std.specs.Prelude.{◌≡◌, ◌≤◌, [], IfOk, false, length};

use crate::workers::give_back;
use km_base::{Act, Answer, NoMemory, Refusal};
use km_core::Core;
use km_live_map::{Baton, Booked, JournalFull, Token};
use km_tree::TreeMap;
use km_words::{Plain, Words};
use std::alloc::Global;
use std::process::Abort;
use std::sync::Wait;

/// More acts and more milliseconds than any test has.
const MOST: u64 = 1_000_000;

/// A book of a core with 512 words, and those words.
pub fn opened(alloc: Global, entries: u64) -> Result<(Booked, Plain), NoMemory>
    requires { (1 ≤ entries) × (entries ≤ 4194304) }
    ensures { IfOk result (λ r. (r.0.journal ≡ []) × (r.0.core.parts.words ≡ 512) × (length r.1 ≡ 512)) }
{
    let map = TreeMap::new(alloc, 512)?;
    let core = Core::boot(alloc, 512, map)?;
    let book = Booked::new(alloc, core, entries)?;
    Ok((book, Plain::new(alloc, 512)?))
}

/// Makes an act that moves the time by at most a million milliseconds.
fn act(
    rt: &impl Abort,
    book: &mut Booked,
    words: &mut Plain,
    act: Act,
) -> Result<Answer, JournalFull> {
    let core = book.core();
    assert!(rt; core.events() < MOST && core.now() < MOST);
    assert!(rt; words.words() == core.words());
    assert!(rt; !matches!(act, Act::Tick(n) if n >= MOST));
    book.act(0, words, act)
}

/// Whether an act was refused by a journal of so many entries.
fn is_full(made: Result<Answer, JournalFull>, entries: u64) -> bool {
    matches!(made, Err(JournalFull(n)) if n == entries)
}

/// A journal with room for so many entries, and for a halt after them.
fn filled(rt: &impl Abort, alloc: Global, entries: u64) -> Result<(), NoMemory>
    requires { (1 ≤ entries) × (entries ≤ 4194304) }
{
    let (mut book, mut words) = opened(alloc, entries)?;
    for n in 0..entries {
        assert!(rt; book.journal().len() as u64 == n, "{n} entries");
        let made = act(rt, &mut book, &mut words, Act::Tick(3));
        assert!(rt; matches!(made, Ok(Answer::Done)));
    }
    let made = act(rt, &mut book, &mut words, Act::Tick(4));
    assert!(rt; is_full(made, entries), "no room");
    assert!(rt; book.core().now() == 3 * entries, "the moment stays");
    let made = act(rt, &mut book, &mut words, Act::Halt);
    assert!(rt;
        matches!(made, Ok(Answer::Refused(Refusal::NoScanRunning))),
        "room for a halt"
    );
    let made = act(rt, &mut book, &mut words, Act::Halt);
    assert!(rt; is_full(made, entries), "for one");
    assert!(rt; book.journal().len() as u64 == entries + 1, "a last entry");
    assert!(rt;
        book.into_core().events() == entries + 1,
        "an event an entry"
    );
    Ok(())
}

#[test]
fn journals_get_full(rt: HostRuntime) {
    let alloc: Global = rt.alloc();
    for entries in 1..5 {
        assert!(rt; filled(&rt, alloc, entries).is_ok(), "memory");
    }
}

/// One token holds the book while another tries to take it.
fn handed_on<R: Wait + Abort>(rt: &R, alloc: Global) -> Result<(), NoMemory> {
    let (book, _) = opened(alloc, 1)?;
    let (baton, mut main) = Baton::new(rt, alloc, book)?;
    let mut other = baton.split(rt, alloc, &mut main)?;
    let book = baton.take(rt, &mut main);
    assert!(rt; baton.try_take(rt, &mut other).is_err(), "the book is away");
    give_back(rt, &baton, &mut main, book);
    match baton.try_take(rt, &mut other) {
        Ok(book) => give_back(rt, &baton, &mut other, book),
        Err(_) => assert!(rt; false, "the book is there"),
    }
    Ok(())
}

#[test]
fn a_book_is_away_while_a_token_holds_it(rt: HostRuntime) {
    let alloc: Global = rt.alloc();
    assert!(rt; handed_on(&rt, alloc).is_ok(), "memory");
}

/// Takes the book, makes an act, and gives the book back. Tells how many entries there are then.
fn add_entry<R: Wait + Abort>(
    rt: &R,
    baton: &Baton,
    token: &mut Token,
    by: u32,
    words: &mut Plain,
) -> usize
    requires { (token.old.baton ≡ baton.now) × (token.old.view.holding ≡ false) × (token.old.view.member.number ≡ by) }
    ensures token { (token.new.baton ≡ token.old.baton) × (token.new.view.holding ≡ false) × (token.new.view.member.number ≡ by) }
    ensures most { token.new.view.most ≡ result }
{
    let mut book = baton.take(rt, token);
    let core = book.core();
    assert!(rt; core.events() < MOST && words.words() == core.words());
    let Ok(answer) = book.act(by, words, Act::Kfree(0)) else {
        panic!(rt; "no room for an entry of {by}")
    };
    assert!(rt; matches!(answer, Answer::Refused(Refusal::NotAllocated)));
    let length = book.journal().len();
    baton.give(rt, token, book);
    length
}

/// Takes a token in, and then the book, whose journal isn't shorter than the longest that the token saw.
fn take_after<R: Wait>(rt: &R, baton: &Baton, main: &mut Token, done: Token) -> Booked
    requires main { (main.old.baton ≡ baton.now) × (main.old.view.holding ≡ false) × (main.old.view.member.number ≡ 0) }
    requires done { (done.baton ≡ baton.now) × (done.view.holding ≡ false) }
    ensures { done.view.most ≤ length result.journal }
{
    baton.join(rt, main, done);
    baton.take(rt, main)
}

/// Number 0 takes in two tokens that made entries by turns: what it takes then is as long as what they saw.
fn taken_in<R: Wait + Abort>(rt: &R, alloc: Global) -> Result<(), NoMemory> {
    let (book, mut words) = opened(alloc, 3)?;
    let (baton, mut main) = Baton::new(rt, alloc, book)?;
    let mut one = baton.split(rt, alloc, &mut main)?;
    let mut two = baton.split(rt, alloc, &mut main)?;
    let first = add_entry(rt, &baton, &mut one, 1, &mut words);
    let second = add_entry(rt, &baton, &mut two, 2, &mut words);
    let last = add_entry(rt, &baton, &mut one, 1, &mut words);
    assert!(rt; first == 1 && second == 2 && last == 3, "an entry an act");
    baton.join(rt, &mut main, two);
    let book = take_after(rt, &baton, &mut main, one);
    let made = book.journal();
    let count = made.len();
    prove!(last <= count);
    assert!(rt; count == 3, "no other entries");
    assert!(rt;
        made[0].by == 1 && made[1].by == 2 && made[2].by == 1,
        "in turn"
    );
    Ok(())
}

#[test]
fn what_tokens_saw_is_kept_as_they_are_joined(rt: HostRuntime) {
    let alloc: Global = rt.alloc();
    assert!(rt; taken_in(&rt, alloc).is_ok(), "memory");
}
