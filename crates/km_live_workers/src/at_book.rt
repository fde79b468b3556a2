//! A worker's acts on the book that threads hand on.

ghost use Rattle.std.specs.Prelude.{◌≡◌, false};
ghost use Rattle.km_live_map.specs.Views.{Knows};
ghost use Rattle.km_live_words.specs.Hands.{told_of};
ghost use Rattle.km_workers.specs.Workers.{Acted, May, Stepped, loads_of};
ghost use Rattle.km_live_workers.specs.AtBooks.{Answered, IsBegun, IsIdle, acting_of};

use crate::gate::Gate;
use crate::gated::Gated;
use km_base::{Act, Answer};
use km_live_map::{Baton, Booked, Token};
use km_live_words::Seated;
use km_workers::Acts;
use std::marker::Model;
use std::sync::Wait;

/// A token at its baton. It takes the book for each act, and gives it back.
#[derive(Drop)]
pub struct AtBook<'a, R> {
    rt: &'a R,
    baton: &'a Baton,
    token: Token,
    number: u32,
}

impl<'a, R> Model for AtBook<'a, R> {
    ghost use Rattle.km_live_map.specs.Views.{TokenOf};
    ghost use Rattle.km_live_workers.specs.AtBooks.{IsIdle};

    ghost Value = { TokenOf };

    ghost view = { λ b. b.token };

    ghost invariant = { λ b. IsIdle b.token b.baton.now b.number };
}

/// Makes an act on the book that a token took, if it has room for it.
fn made<'a>(
    token: &Token,
    book: &mut Booked,
    by: u32,
    seated: &mut Seated<'a>,
    act: Act,
) -> Option<Answer>
    requires knows { Knows token.now.view book.old }
    requires begun { IsBegun token.now.view }
    requires number { token.now.view.member.number ≡ by }
    requires may { May (acting_of token.now) (told_of seated.old).size act }
    ensures { Answered token.now.view book.old book.new act seated.old seated.new result }
{
    let _ = book.journal();
    match book.act(by, seated, act) {
        Ok(answer) => {
            let _ = book.journal();
            Some(answer)
        }
        Err(_) => None,
    }
}

/// Takes the book, makes an act on it, and gives it back.
fn made_at<'a, R: Wait>(
    rt: &R,
    baton: &Baton,
    token: &mut Token,
    by: u32,
    seated: &mut Seated<'a>,
    act: Act,
) -> Option<Answer>
    requires idle { IsIdle token.old baton.now by }
    requires may { May (acting_of token.old) (told_of seated.old).size act }
    ensures idle { IsIdle token.new baton.now by }
    ensures acted { Acted (acting_of token.old) (acting_of token.new) act result }
    ensures stepped { Stepped (told_of seated.old) (told_of seated.new) (loads_of result) }
{
    let mut book = baton.take(rt, token);
    let answer = made(token, &mut book, by, seated, act);
    baton.give(rt, token, book);
    answer
}

impl<'a, R> AtBook<'a, R> {
    /// A token at its baton, whose number is given with it.
    pub fn new(rt: &'a R, baton: &'a Baton, token: Token, number: u32) -> AtBook<'a, R>
        requires idle { IsIdle token baton.now number }
        ensures { result ≡ token }
    {
        AtBook {
            rt,
            baton,
            token,
            number,
        }
    }

    /// The token.
    pub fn into_token(self) -> Token
        ensures token { result ≡ self.entry }
        ensures idle { result.view.holding ≡ false }
    {
        let AtBook { token, .. } = self;
        token
    }
}

impl<'a, R: Wait, G: Gate> Acts<Gated<'a, G>> for AtBook<'a, R> {
    ghost use Rattle.km_live_workers.specs.AtBooks.{acting_of};

    ghost acting = { acting_of };

    fn act(&mut self, words: &mut Gated<'a, G>, act: Act) -> Option<Answer> {
        let call = words.enter();
        let answer = made_at(
            self.rt,
            self.baton,
            &mut self.token,
            self.number,
            &mut words.seated,
            act,
        );
        words.leave(call);
        answer
    }
}
