//! The rule of the baton, and what each call tells.

use crate::booked::Booked;
use crate::known::Known;
use crossbeam_queue::protocol::{Join, Lesson, Outcome, Protocol, Split};

/// There is one journal, and one book that has it.
pub struct OneBook;

impl Protocol<Booked, Known> for OneBook {
    ghost use Rattle.km_live_map.specs.Rule.{Ruled};
    ghost use Rattle.km_live_map.specs.Views.{blank};

    ghost holds = { Ruled };

    ghost first = { blank };
}

/// The book is put in for the first time.
pub(crate) struct Begins;

impl Outcome<Booked, Known> for Begins {
    ghost use Rattle.std.specs.Prelude.{◌≡◌};
    ghost use Rattle.km_live_map.specs.Views.{begun};

    ghost then = { λ v b w. w ≡ begun b };
}

impl Lesson<Booked, Known> for Begins {
    ghost use Rattle.std.specs.Prelude.{◌≡◌, []};

    ghost fact = { λ v items. items ≡ [] };
}

/// A token takes the book, or learns that another has it.
pub(crate) struct Takes;

impl Outcome<Booked, Known> for Takes {
    ghost use Rattle.std.specs.Prelude.{◌≡◌};
    ghost use Rattle.km_live_map.specs.Views.{Knows, after_take};

    ghost then = { λ v b w. (w ≡ after_take v b) × Knows v b };
}

impl Lesson<Booked, Known> for Takes {
    ghost use Rattle.std.specs.Prelude.{◌≡◌, []};
    ghost use Rattle.km_live_map.specs.Views.{IsAway};

    ghost fact = { λ v items. items ≡ [] → IsAway v };
}

/// A token gives the book back.
pub(crate) struct Gives;

impl Outcome<Booked, Known> for Gives {
    ghost use Rattle.std.specs.Prelude.{◌≡◌};
    ghost use Rattle.km_live_map.specs.Views.{after_give};

    ghost then = { λ v b w. w ≡ after_give v b };
}

impl Lesson<Booked, Known> for Gives {
    ghost use Rattle.std.specs.Prelude.{◌≡◌, []};

    ghost fact = { λ v items. items ≡ [] };
}

/// How tokens get their numbers, and are taken in.
pub(crate) struct Numbers;

impl Split<Known> for Numbers {
    ghost use Rattle.km_live_map.specs.Views.{split_off, after_split};

    ghost left = { after_split };

    ghost right = { split_off };
}

impl Join<Known> for Numbers {
    ghost use Rattle.km_live_map.specs.Views.{joined, after_join};

    ghost both = { after_join };

    ghost spent = { joined };
}
