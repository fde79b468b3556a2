//! A hand at shared words, after a gate.

ghost use Rattle.std.specs.Prelude.{◌≡◌};

use crate::gate::Gate;
use km_base::Addr;
use km_live_words::Seated;
use km_words::Words;
use std::marker::Model;

/// Shared words as one worker steps on them. The gate is told of each step.
#[derive(Drop)]
pub struct Gated<'a, G> {
    pub(crate) seated: Seated<'a>,
    gate: &'a G,
    who: u32,
    calls: u32,
}

impl<'a, G> Model for Gated<'a, G> {
    ghost use Rattle.km_live_words.specs.Hands.{HandOn};

    ghost Value = { HandOn };

    ghost view = { λ g. g.seated };
}

impl<'a, G: Gate> Gated<'a, G> {
    /// A hand after a gate, for the worker of this number.
    pub fn new(seated: Seated<'a>, gate: &'a G, who: u32) -> Gated<'a, G>
        ensures { result ≡ seated.entry }
    {
        Gated {
            seated,
            gate,
            who,
            calls: 0,
        }
    }

    /// The hand.
    pub fn into_seated(self) -> Seated<'a>
        ensures { result ≡ self.entry }
    {
        let Gated { seated, .. } = self;
        seated
    }

    /// A call begins. Its number.
    pub(crate) fn enter(&mut self) -> u32
        ensures { self.new ≡ self.old }
    {
        self.calls = self.calls.wrapping_add(1);
        self.gate.before(self.who, self.calls);
        self.calls
    }

    /// A call ends.
    pub(crate) fn leave(&self, call: u32) {
        self.gate.after(self.who, call);
    }
}

impl<'a, G: Gate> Words for Gated<'a, G> {
    ghost use Rattle.km_live_words.specs.Hands.{told_of};

    ghost told = { told_of };

    fn words(&self) -> u64 {
        self.seated.words()
    }

    fn load(&mut self, a: Addr) -> u64 {
        let call = self.enter();
        let found = self.seated.load(a);
        self.leave(call);
        found
    }

    fn store(&mut self, a: Addr, v: u64) {
        let call = self.enter();
        self.seated.store(a, v);
        self.leave(call);
    }
}
