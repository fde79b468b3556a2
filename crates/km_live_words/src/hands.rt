//! Words that threads share, and the hands that step on them.

ghost use Rattle.std.specs.Prelude.{◌≡◌, ℕ, ◌<◌, ◌+◌, ◌∷◌, [], true, IfOk, length};
ghost use Rattle.km_model.specs.Memory.{in_memory};
ghost use Rattle.km_numbered.specs.Members.{IsAlone, first, fresh, with_kept, with_more, with_next};
ghost use Rattle.km_words.specs.Told.{LoadStep, StoreStep};
ghost use Rattle.km_live_words.specs.Hands.{LeftBy};

use crate::known::Known;
use crate::rule::{InOneOrder, Loads, Numbers, Stores};
use atomic_table::{Seat, Table};
use km_base::{Addr, NoMemory};
use km_words::{Plain, Words};
use std::alloc::{AllocError, Global};
use std::marker::Model;

/// The start of the memory.
const BASE: u64 = 0xffff_8880_0000_0000;

/// Words that threads load and store in single steps.
#[derive(Drop)]
pub struct LiveWords {
    table: Table<(), Known, Plain, InOneOrder, Global>,
}

impl Model for LiveWords {
    ghost use Rattle.std.specs.Prelude.{◌≡◌, ◌+◌, length};
    ghost use Rattle.km_live_words.specs.Hands.{Opened};

    ghost Value = { Opened };

    ghost view = { λ w. record { table = w.table.shared.table_id; words = w.table.shared.key } };

    ghost invariant = { λ w. (w.table.shared.table_id.words ≡ length w.table.shared.key + 1) × (w.table.shared.table_id.slots ≡ 0) };
}

/// What a thread steps with. It has a number and the list of its steps, which contracts alone see: it
/// has no bytes.
#[derive(Drop)]
pub struct Hand {
    seat: Seat<(), Known>,
}

impl Model for Hand {
    ghost use Rattle.std.specs.Prelude.{◌≡◌, false, []};
    ghost use Rattle.km_live_words.specs.Hands.{HandOf};

    ghost Value = { HandOf };

    ghost view = { λ h. record { table = h.seat.table_id; hand = h.seat.me.0 } };

    ghost invariant = { λ h. (h.seat.me.0.spent ≡ false) × (h.seat.me.1 ≡ []) };
}

/// A table with an extra word and those of a memory, and its first seat.
fn opened(
    alloc: Global,
    from: &Plain,
) -> Result<(Table<(), Known, Plain, InOneOrder, Global>, Seat<(), Known>), AllocError>
    ensures words { IfOk result (λ r. (r.0.shared.key ≡ from.now) × (r.0.shared.table_id.words ≡ length from.now + 1) × (r.0.shared.table_id.slots ≡ 0)) }
    ensures seat { IfOk result (λ r. (r.1.table_id ≡ r.0.shared.table_id) × (r.1.me ≡ (first, []))) }
{
    let values = from.values();
    let mut row = Vec::with_capacity(alloc, values.len() + 1)?;
    row.push(0u64)?;
    row.extend_from_slice(values)?;
    Table::of_words(alloc, row.as_slice(), from)
}

impl LiveWords {
    /// Shares the words of a memory. The hand has number 0 and no steps.
    pub fn open(alloc: Global, from: &Plain) -> Result<(LiveWords, Hand), NoMemory>
        ensures words { IfOk result (λ r. r.0.words ≡ from.now) }
        ensures hand { IfOk result (λ r. (r.1.table ≡ r.0.table) × (r.1.hand ≡ first)) }
    {
        match opened(alloc, from) {
            Ok((table, seat)) => Ok((LiveWords { table }, Hand { seat })),
            Err(_) => Err(NoMemory),
        }
    }

    /// How many words there are.
    pub fn words(&self) -> u64
        ensures { result ≡ length self.now.words }
    {
        self.table.word_count() as u64 - 1
    }

    /// The word at an address, in one atomic step.
    pub fn load(&self, hand: &mut Hand, a: Addr) -> u64
        requires hand { hand.old.table ≡ self.now.table }
        requires word { in_memory (length self.now.words) a.0 ≡ true }
        ensures table { hand.new.table ≡ hand.old.table }
        ensures step { hand.new.hand ≡ with_more hand.old.hand (LoadStep a.0 result ∷ []) }
    {
        let word = ((a.0 - BASE) / 8) as usize + 1;
        self.table.shared.load::<Loads>(&mut hand.seat, word)
    }

    /// Stores a word at an address, in one atomic step.
    pub fn store(&self, hand: &mut Hand, a: Addr, v: u64)
        requires hand { hand.old.table ≡ self.now.table }
        requires word { in_memory (length self.now.words) a.0 ≡ true }
        ensures table { hand.new.table ≡ hand.old.table }
        ensures step { hand.new.hand ≡ with_more hand.old.hand (StoreStep a.0 v ∷ []) }
    {
        let word = ((a.0 - BASE) / 8) as usize + 1;
        self.table.shared.store::<Stores>(&mut hand.seat, word, v);
    }

    /// A hand with the next number and no steps.
    pub fn split(&self, main: &mut Hand) -> Hand
        requires hand { main.old.table ≡ self.now.table }
        requires main { main.old.hand.number ≡ 0 }
        ensures table { (main.new.table ≡ main.old.table) × (result.table ≡ self.now.table) }
        ensures main { main.new.hand ≡ with_next main.old.hand }
        ensures new { result.hand ≡ fresh main.old.hand.next }
    {
        let seat = self.table.shared.split_seat::<Numbers>(&mut main.seat);
        Hand { seat }
    }

    /// Takes a hand in: its number and its steps are kept in the first.
    pub fn join(&self, main: &mut Hand, done: Hand)
        requires hand { main.old.table ≡ self.now.table }
        requires main { main.old.hand.number ≡ 0 }
        requires done { done.table ≡ self.now.table }
        ensures table { main.new.table ≡ main.old.table }
        ensures main { main.new.hand ≡ with_kept main.old.hand done.hand }
    {
        let Hand { seat } = done;
        self.table.shared.join_seat::<Numbers>(&mut main.seat, seat);
    }

    /// Puts the words into a memory of as many.
    pub fn close(self, main: Hand, into: &mut Plain)
        requires hand { main.table ≡ self.table }
        requires main { main.hand.number ≡ 0 }
        requires alone { IsAlone main.hand }
        requires size { length into.old ≡ length self.words }
        ensures left { LeftBy self.words main.hand into.new }
    {
        let Hand { seat } = main;
        let closed = self.table.close_with(seat);
        let count = into.values().len();
        for i in 0..count {
            into.store(Addr(BASE + 8 * i as u64), closed.word(i + 1));
        }
        closed.free();
    }
}
