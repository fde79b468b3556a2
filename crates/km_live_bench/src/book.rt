//! Threads take the book, make an act and give the book back.

ghost use Rattle.std.specs.Prelude.{◌≡◌, ◌<◌, [], true, false, length, All, IfOk, Some};
ghost use Rattle.km_live_bench.specs.Turns.{IsReady};

use km_base::{Act, NoMemory};
use km_core::Core;
use km_live_map::{Baton, Booked, Token};
use km_live_words::{LiveWords, Seated};
use km_tree::TreeMap;
use km_words::{Plain, Words};
use std::alloc::Global;
use std::sync::Wait;
use std::thread::{Threads, for_each_mut};

/// The words of the smallest memory.
const WORDS: u32 = 512;

/// How often each token takes the book.
const TURNS: u32 = 1_000_000;

/// More events than are ever made.
const MOST: u64 = 1 << 40;

/// A thread with its words, and with the token and its number.
#[derive(Drop)]
struct Turner<'a> {
    words: Seated<'a>,
    token: Token,
    by: u32,
}

/// Gives the book back as it was taken.
fn give_back<R: Wait>(rt: &R, baton: &Baton, token: &mut Token, by: u32, book: Booked)
    requires token { (token.old.baton ≡ baton.now) × (token.old.view.holding ≡ true) × (token.old.view.member.number ≡ by) }
    requires book { token.old.view.about ≡ Some (book.opening, book.entries) }
    requires journal { token.old.view.taken ≡ book.journal }
    ensures ready { IsReady baton.now by token.new }
{
    baton.give(rt, token, book);
}

/// Takes the book, makes an act that is refused, and gives the book back.
fn turn<'a, R: Wait>(rt: &R, baton: &Baton, token: &mut Token, by: u32, words: &mut Seated<'a>)
    requires ready { IsReady baton.now by token.old }
    ensures ready { IsReady baton.now by token.new }
{
    let mut book = baton.take(rt, token);
    let core = book.core();
    if core.events() < MOST && words.words() == core.words() {
        if book.act(by, words, Act::Kfree(0)).is_ok() {
            baton.give(rt, token, book);
            return;
        }
    }
    give_back(rt, baton, token, by, book);
}

/// Makes all turns of a thread.
fn turns<'a, R: Wait>(rt: &R, baton: &Baton, token: &mut Token, by: u32, words: &mut Seated<'a>)
    requires ready { IsReady baton.now by token.old }
{
    for _ in 0..TURNS {
        turn(rt, baton, token, by, words);
    }
}

/// All threads take turns at once.
fn turn_all<'a, R: Threads + Wait + Sync>(rt: &R, baton: &Baton, turners: &mut [Turner<'a>])
    requires ready { All (λ t. IsReady baton.now t.by t.token) turners.old }
    requires some { 0 < length turners.old }
{
    let threads = turners.len();
    for_each_mut(
        rt,
        turners,
        threads,
        &|_, t: &mut Turner|
            requires { IsReady baton.now t.old.by t.old.token }
        { turns(rt, baton, &mut t.token, t.by, &mut t.words) },
    );
}

/// A book with room for two threads' entries, and words as many as the core's.
fn opened(alloc: Global) -> Result<(Booked, Plain), NoMemory>
    ensures { IfOk result (λ r. r.0.journal ≡ []) }
{
    let map = TreeMap::new(alloc, WORDS)?;
    let core = Core::boot(alloc, u64::from(WORDS), map)?;
    let book = Booked::new(alloc, core, u64::from(2 * TURNS))?;
    Ok((book, Plain::new(alloc, u64::from(WORDS))?))
}

/// One thread takes turns by itself. Tells how many entries there are then.
pub fn of_one<R: Threads + Wait + Sync>(rt: &R, alloc: Global) -> Result<u64, NoMemory> {
    let (book, words) = opened(alloc)?;
    let (live, mut hand) = LiveWords::open(alloc, &words)?;
    let (baton, mut main) = Baton::new(rt, alloc, book)?;
    let mut turners = [Turner {
        words: live.at(live.split(&mut hand)),
        token: baton.split(rt, alloc, &mut main)?,
        by: 1,
    }];
    turn_all(rt, &baton, &mut turners);
    Ok(baton.take(rt, &mut main).journal().len() as u64)
}

/// Two threads take turns. Tells how many entries there are then.
pub fn of_two<R: Threads + Wait + Sync>(rt: &R, alloc: Global) -> Result<u64, NoMemory> {
    let (book, words) = opened(alloc)?;
    let (live, mut hand) = LiveWords::open(alloc, &words)?;
    let (baton, mut main) = Baton::new(rt, alloc, book)?;
    let mut turners = [
        Turner {
            words: live.at(live.split(&mut hand)),
            token: baton.split(rt, alloc, &mut main)?,
            by: 1,
        },
        Turner {
            words: live.at(live.split(&mut hand)),
            token: baton.split(rt, alloc, &mut main)?,
            by: 2,
        },
    ];
    turn_all(rt, &baton, &mut turners);
    Ok(baton.take(rt, &mut main).journal().len() as u64)
}
