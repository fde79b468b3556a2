//! Hands on shared words.

ghost use Rattle.std.specs.Prelude.{◌≡◌, ℕ, ◌<◌, ◌≤◌, true, length, All, IfOk};
ghost use Rattle.km_model.specs.Memory.{in_memory};

use km_base::{Addr, NoMemory};
use km_live_words::{LiveWords, Seated};
use km_words::{Plain, Words};
use std::alloc::Global;
use std::process::Abort;
use std::thread;
use std::thread::{Threads, for_each_mut, join};

const B: u64 = 0xffff_8880_0000_0000;

/// How often a thread looks for what another stores, before it gives up.
const PATIENCE: u64 = 20_000_000;

/// The words of a memory are these, and zeros after them.
fn begins_with(rt: &impl Abort, words: &Plain, first: &[u64]) {
    let values = words.values();
    assert!(rt; values.len() == 512, "as many words");
    for i in 0..values.len() {
        let wanted = if i < first.len() { first[i] } else { 0 };
        assert!(rt; values[i] == wanted, "word {i}");
    }
}

/// Two hands step in turn, and the words are put back.
fn in_turn(rt: &impl Abort, alloc: Global) -> Result<(), NoMemory> {
    let mut words = Plain::new(alloc, 512)?;
    let (live, mut main) = LiveWords::open(alloc, &words)?;
    let mut other = live.split(&mut main);
    live.store(&mut main, Addr(B), 5);
    let found = live.load(&mut other, Addr(B));
    live.store(&mut other, Addr(B + 8), 6);
    live.join(&mut main, other);
    live.close(main, &mut words);
    assert!(rt; found == 5, "{found} was loaded");
    begins_with(rt, &words, [5, 6].as_slice());
    Ok(())
}

/// Three hands step on one word by turns, and are joined in another order than they were split off.
fn by_turns(rt: &impl Abort, alloc: Global) -> Result<(), NoMemory> {
    let mut words = Plain::new(alloc, 512)?;
    let (live, mut main) = LiveWords::open(alloc, &words)?;
    let mut one = live.split(&mut main);
    let mut two = live.split(&mut main);
    live.store(&mut one, Addr(B), 1);
    assert!(rt; live.load(&mut two, Addr(B)) == 1, "the store of one");
    live.store(&mut two, Addr(B), 2);
    live.store(&mut main, Addr(B + 16), 3);
    live.join(&mut main, two);
    assert!(rt; live.load(&mut one, Addr(B)) == 2, "the store of two");
    let mut three = live.split(&mut main);
    live.store(&mut three, Addr(B + 4088), 4);
    live.join(&mut main, one);
    assert!(rt;
        live.load(&mut three, Addr(B + 16)) == 3,
        "the store of the first"
    );
    live.store(&mut three, Addr(B + 4088), 0);
    live.join(&mut main, three);
    live.close(main, &mut words);
    begins_with(rt, &words, [2, 0, 3].as_slice());
    Ok(())
}

/// Nobody steps, and the opening words are put into another memory.
fn unchanged(rt: &impl Abort, alloc: Global) -> Result<(), NoMemory> {
    let mut words = Plain::new(alloc, 512)?;
    words.store(Addr(B), 9);
    words.store(Addr(B + 16), 8);
    let mut other = Plain::new(alloc, 512)?;
    other.store(Addr(B + 8), 7);
    let (live, mut main) = LiveWords::open(alloc, &words)?;
    let idle = live.split(&mut main);
    live.join(&mut main, idle);
    live.close(main, &mut other);
    begins_with(rt, &other, [9, 0, 8].as_slice());
    Ok(())
}

#[test]
fn hands_share_the_words(rt: HostRuntime) {
    let alloc: Global = rt.alloc();
    assert!(rt; in_turn(&rt, alloc).is_ok(), "memory");
    assert!(rt; by_turns(&rt, alloc).is_ok(), "memory");
    assert!(rt; unchanged(&rt, alloc).is_ok(), "memory");
}

/// Stores 1 at a word, and waits until another word is 1.
fn meet<'a>(words: &mut Seated<'a>, mine: Addr, theirs: Addr) -> bool
    requires mine { in_memory (length words.old.words.words) mine.0 ≡ true }
    requires theirs { in_memory (length words.old.words.words) theirs.0 ≡ true }
{
    words.store(mine, 1);
    for _ in 0..PATIENCE {
        if words.load(theirs) == 1 {
            return true;
        }
        thread::yield_now();
    }
    false
}

/// Two threads, each of which waits for the other's store.
fn at_once<'a, R: Threads + Sync>(rt: &R, mut one: Seated<'a>, mut two: Seated<'a>) -> (bool, bool)
    requires { (16 ≤ length one.words.words) × (16 ≤ length two.words.words) }
{
    let (a, b) = join(
        rt,
        move || -> bool
            requires { 16 ≤ length one.words.words }
        { meet(&mut one, Addr(B), Addr(B + 8)) },
        move || -> bool
            requires { 16 ≤ length two.words.words }
        { meet(&mut two, Addr(B + 8), Addr(B)) },
    );
    (a, b)
}

/// Any number of threads step on the words at once.
fn all_at_once<'a, R: Threads + Sync>(rt: &R, hands: &mut [Seated<'a>])
    requires { All (λ s. 16 ≤ length s.words.words) hands.old × (0 < length hands.old) }
{
    let threads = hands.len();
    for_each_mut(
        rt,
        hands,
        threads,
        &|_, s: &mut Seated|
            requires { 16 ≤ length s.old.words.words }
        { s.store(Addr(B + 64), 3) },
    );
}

fn shared(rt: &(impl Abort + Threads + Sync), alloc: Global) -> Result<(), NoMemory> {
    let words = Plain::new(alloc, 512)?;
    let (live, mut main) = LiveWords::open(alloc, &words)?;
    let one = live.split(&mut main);
    let two = live.split(&mut main);
    let (a, b) = at_once(rt, live.at(one), live.at(two));
    assert!(rt; a && b, "each thread saw the other's store");
    let three = live.split(&mut main);
    let four = live.split(&mut main);
    let mut hands = [live.at(three), live.at(four)];
    all_at_once(rt, &mut hands);
    assert!(rt;
        live.load(&mut main, Addr(B + 64)) == 3,
        "what threads stored"
    );
    Ok(())
}

#[test]
fn threads_step_at_once(rt: HostRuntime) {
    let alloc: Global = rt.alloc();
    assert!(rt; shared(&rt, alloc).is_ok(), "memory");
}
