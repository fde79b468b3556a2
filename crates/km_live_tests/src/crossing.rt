//! A hand alone and a book alone, each in a thread that isn't its own.

ghost use Rattle.std.specs.Prelude.{◌≡◌, ◌≤◌, length};

use crate::book::opened;
use km_base::{Addr, NoMemory};
use km_live_map::Booked;
use km_live_words::{Hand, LiveWords};
use std::alloc::Global;
use std::process::Abort;
use std::thread::{Threads, join};

const B: u64 = 0xffff_8880_0000_0000;

/// One thread stores by the hand, while another has the book. Both come back.
fn elsewhere<R: Threads + Sync>(
    rt: &R,
    words: &LiveWords,
    mut hand: Hand,
    book: Booked,
) -> (Hand, Booked)
    requires hand { hand.table ≡ words.now.table }
    requires words { 16 ≤ length words.now.words }
    ensures hand { result.0.table ≡ words.now.table }
    ensures book { result.1 ≡ book }
{
    join(
        rt,
        move || -> Hand
            requires { (hand.table ≡ words.now.table) × (16 ≤ length words.now.words) }
            ensures { result.table ≡ words.entry.now.table }
        {
            words.store(&mut hand, Addr(B), 7);
            hand
        },
        move || -> Booked
            ensures { result ≡ book }
        { book },
    )
}

fn crossed<R: Threads + Abort + Sync>(rt: &R, alloc: Global) -> Result<(), NoMemory> {
    let (book, words) = opened(alloc, 1)?;
    let (live, mut main) = LiveWords::open(alloc, &words)?;
    let hand = live.split(&mut main);
    let (hand, book) = elsewhere(rt, &live, hand, book);
    live.join(&mut main, hand);
    assert!(rt; live.load(&mut main, Addr(B)) == 7, "what the hand stored");
    assert!(rt; book.journal().is_empty(), "nobody made an act");
    Ok(())
}

#[test]
fn a_hand_and_a_book_cross_to_other_threads(rt: HostRuntime) {
    let alloc: Global = rt.alloc();
    assert!(rt; crossed(&rt, alloc).is_ok(), "memory");
}
