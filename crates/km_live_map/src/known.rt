//! What a token knows.

use std::marker::Model;

/// A token's number, its entries and what it knows of the book. No value of it is made: it stands in
/// contracts alone.
pub struct Known;

impl Model for Known {
    ghost use Rattle.km_live_map.specs.Views.{View, joined};

    ghost Value = { View };

    ghost view = { λ _. joined };
}
