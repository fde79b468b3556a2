//! The baton: the one book, handed from thread to thread.

ghost use Rattle.std.specs.Prelude.{◌≡◌, ◌++◌, [], List, true, false, Some, IfOk, MatchResult};
ghost use Rattle.km_numbered.specs.Members.{AllBy};

use crate::booked::Booked;
use crate::known::Known;
use crate::rule::{Begins, Gives, Numbers, OneBook, Takes};
use crossbeam_queue::{Pass, RuledArrayQueue};
use km_base::NoMemory;
use std::alloc::Global;
use std::marker::Model;
use std::sync::Wait;
use std::thread;

/// A queue of one place, which holds the book while no token does.
#[derive(Drop)]
pub struct Baton {
    queue: RuledArrayQueue<Booked, Known, OneBook>,
}

impl Model for Baton {
    ghost use Rattle.std.specs.Prelude.{◌≡◌};
    ghost use Rattle.atomic_table.specs.Seated.{TableId};
    ghost use Rattle.crossbeam_queue.specs.Passes.{ruled_capacity};

    ghost Value = { TableId };

    ghost view = { λ b. b.queue.table.shared.table_id };

    ghost invariant = { λ b. ruled_capacity b.queue ≡ 1 };
}

/// What a thread takes and gives the book with. It has a number and the list of its entries, which
/// contracts alone see: it has no bytes.
#[derive(Drop)]
pub struct Token {
    pass: Pass<Booked, Known>,
}

impl Model for Token {
    ghost use Rattle.std.specs.Prelude.{◌≡◌, ◌≢◌, false, [], None};
    ghost use Rattle.crossbeam_queue.specs.Passes.{view as known};
    ghost use Rattle.km_live_map.specs.Views.{TokenOf};

    ghost Value = { TokenOf };

    ghost view = { λ t. record { baton = t.pass.table_id; view = known t.pass } };

    ghost invariant = { λ t. ((known t.pass).member.spent ≡ false) × ((known t.pass).about ≢ None) × (t.pass.me.1 ≡ []) };
}

/// The book was away at a moment of the call.
#[derive(Clone, Copy, Debug, PartialEq)]
pub struct Away;

impl Baton {
    ghost use Rattle.km_rounds.specs.declared.entry.Entry.{Entry};
    ghost use Rattle.km_live_map.specs.Ticks.{OnlyFirstTicks};
    ghost use Rattle.km_live_map.specs.Views.{IsAway, Knows, begun, split_off, after_give, after_take, after_join, after_split};

    /// A baton for a book, and the token number 0.
    pub fn new<R: Wait>(rt: &R, alloc: Global, booked: Booked) -> Result<(Baton, Token), NoMemory>
        requires empty { booked.journal ≡ [] }
        ensures baton { IfOk result (λ r. r.1.baton ≡ r.0) }
        ensures token { IfOk result (λ r. r.1.view ≡ begun booked) }
    {
        let Ok((queue, mut pass)) = RuledArrayQueue::ruled(alloc, 1) else {
            return Err(NoMemory);
        };
        let Ok(()) = queue.push_as::<Begins, R>(rt, &mut pass, booked) else {
            unreachable!()
        };
        Ok((Baton { queue }, Token { pass }))
    }

    /// A token with the next number and no entries. It takes no memory, and is always given.
    pub fn split<R: Wait>(&self, _: &R, _: Global, main: &mut Token) -> Result<Token, NoMemory>
        requires token { main.old.baton ≡ self.now }
        requires main { main.old.view.member.number ≡ 0 }
        ensures baton { main.new.baton ≡ main.old.baton }
        ensures main { main.new.view ≡ after_split main.old.view }
        ensures new { MatchResult result (λ t. (t.baton ≡ self.now) × (t.view ≡ split_off main.old.view)) (λ _. ⊥) }
    {
        let pass = self.queue.another::<Numbers>(&mut main.pass);
        Ok(Token { pass })
    }

    /// Takes a token in: its number and its entries are kept in the first, and the greater length.
    pub fn join<R: Wait>(&self, _: &R, main: &mut Token, done: Token)
        requires token { main.old.baton ≡ self.now }
        requires main { main.old.view.member.number ≡ 0 }
        requires done { (done.baton ≡ self.now) × (done.view.holding ≡ false) }
        ensures baton { main.new.baton ≡ main.old.baton }
        ensures main { main.new.view ≡ after_join main.old.view done.view }
    {
        let Token { pass } = done;
        self.queue.absorb::<Numbers>(&mut main.pass, pass);
    }

    /// Takes the book, unless it is away: it tries once.
    pub fn try_take<R: Wait>(&self, rt: &R, token: &mut Token) -> Result<Booked, Away>
        requires token { token.old.baton ≡ self.now }
        requires idle { token.old.view.holding ≡ false }
        ensures baton { token.new.baton ≡ token.old.baton }
        ensures taken { IfOk result (λ b. (token.new.view ≡ after_take token.old.view b) × Knows token.old.view b) }
        ensures away { MatchResult result (λ _. Unit {0}) (λ _. (token.new.view ≡ token.old.view) × IsAway token.old.view) }
    {
        match self.queue.pop_as::<Takes, R>(rt, &mut token.pass) {
            Some(booked) => Ok(booked),
            None => Err(Away),
        }
    }

    /// Takes the book, and waits for it.
    pub fn take<R: Wait>(&self, rt: &R, token: &mut Token) -> Booked
        requires token { token.old.baton ≡ self.now }
        requires idle { token.old.view.holding ≡ false }
        ensures baton { token.new.baton ≡ token.old.baton }
        ensures taken { token.new.view ≡ after_take token.old.view result }
        ensures knows { Knows token.old.view result }
    {
        for _ in rt.forever() {
            match self.try_take(rt, token) {
                Ok(booked) => return booked,
                Err(_) => thread::yield_now(),
            }
        }
        unreachable!()
    }

    /// Gives the book back. What its journal has more than the taken one are the token's entries.
    pub fn give<R: Wait>(&self, rt: &R, token: &mut Token, booked: Booked)
        requires token { token.old.baton ≡ self.now }
        requires holding { token.old.view.holding ≡ true }
        requires book { token.old.view.about ≡ Some (booked.opening, booked.entries) }
        requires journal { (new : List Entry) × (booked.journal ≡ token.old.view.taken ++ new) × AllBy (λ e. e.by) token.old.view.member.number new × OnlyFirstTicks new }
        ensures baton { token.new.baton ≡ token.old.baton }
        ensures given { token.new.view ≡ after_give token.old.view booked }
    {
        let Ok(()) = self.queue.push_as::<Gives, R>(rt, &mut token.pass, booked) else {
            unreachable!()
        };
    }
}
