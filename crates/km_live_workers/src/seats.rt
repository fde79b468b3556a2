//! How the workers of a round get their hands and tokens, and give them back.

ghost use Rattle.std.specs.Prelude.{◌≡◌};
ghost use Rattle.km_live_map.specs.Views.{after_join, after_split};
ghost use Rattle.km_live_workers.specs.Runs.{HasScanned, MayScan};
ghost use Rattle.km_live_workers.specs.Seats.{IsChief, IsSeated, newly_at, newly_on};
ghost use Rattle.km_numbered.specs.Members.{with_kept, with_next};

use crate::at_book::AtBook;
use crate::gate::Gate;
use crate::gated::Gated;
use km_live_map::{Baton, Token};
use km_live_words::{Hand, LiveWords};
use km_workers::scan;
use std::alloc::Global;
use std::sync::Wait;

/// What the workers of a round share.
#[derive(Drop)]
pub struct Shared<'a, R, G> {
    pub rt: &'a R,
    pub words: &'a LiveWords,
    pub baton: &'a Baton,
    pub gate: &'a G,
}

/// The first hand and the first token. Those of the workers are split off from them.
#[derive(Drop)]
pub struct Chief {
    pub hand: Hand,
    pub token: Token,
}

/// A hand at the words and a token at the baton, of one number.
#[derive(Drop)]
pub struct Seat<'a, R, G> {
    pub words: Gated<'a, G>,
    pub book: AtBook<'a, R>,
}

impl<'a, R: Wait, G: Gate> Shared<'a, R, G> {
    /// Splits off a hand and a token of the next number.
    pub fn seat(&self, alloc: Global, chief: &mut Chief, number: u32) -> Seat<'a, R, G>
        requires chief { IsChief self.now.words.now self.now.baton.now chief.old.hand chief.old.token }
        requires number { (chief.old.hand.hand.next ≡ number) × (chief.old.token.view.member.next ≡ number) }
        ensures chief { IsChief self.now.words.now self.now.baton.now chief.new.hand chief.new.token }
        ensures hand { chief.new.hand.hand ≡ with_next chief.old.hand.hand }
        ensures token { chief.new.token.view ≡ after_split chief.old.token.view }
        ensures words { result.words ≡ newly_on self.now.words.now number }
        ensures book { result.book ≡ newly_at self.now.baton.now chief.old.token.view }
    {
        let hand = self.words.split(&mut chief.hand);
        let Ok(token) = self.baton.split(self.rt, alloc, &mut chief.token) else {
            unreachable!()
        };
        Seat {
            words: Gated::new(self.words.at(hand), self.gate, number),
            book: AtBook::new(self.rt, self.baton, token, number),
        }
    }

    /// Takes a seat in: the numbers, the steps and the entries of its hand and of its token are kept in the first ones.
    pub fn unseat(&self, chief: &mut Chief, seat: Seat<'a, R, G>)
        requires chief { IsChief self.now.words.now self.now.baton.now chief.old.hand chief.old.token }
        requires seat { IsSeated self.now.words.now self.now.baton.now seat.words seat.book }
        ensures chief { IsChief self.now.words.now self.now.baton.now chief.new.hand chief.new.token }
        ensures hand { chief.new.hand.hand ≡ with_kept chief.old.hand.hand seat.entry.words.hand.hand }
        ensures token { chief.new.token.view ≡ after_join chief.old.token.view seat.entry.book.view }
    {
        let Seat { words, book } = seat;
        let hand = words.into_seated().into_hand();
        self.words.join(&mut chief.hand, hand);
        self.baton
            .join(self.rt, &mut chief.token, book.into_token());
    }
}

impl<'a, R: Wait, G: Gate> Seat<'a, R, G> {
    /// Makes the scans of a round, as its scanner. Whether all were made.
    pub fn scan(&mut self, scans: u32, gap: u64) -> bool
        requires { MayScan self.old.words self.old.book scans gap }
        ensures { HasScanned self.old.words self.new.words self.old.book self.new.book scans gap result }
    {
        scan(&mut self.words, &mut self.book, scans, gap)
    }
}
