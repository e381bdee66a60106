//! Labels.

use std::marker::Model;

/// A label, by its number: labels are numbered as they are made, from 0 on.
#[derive(Clone, Copy, Debug)]
pub struct Label {
    pub(crate) number: usize,
}

impl Model for Label {
    ghost use Rattle.std.specs.Prelude.{ℕ};

    ghost Value = { ℕ };

    ghost view = { λ label. label.number };

    ghost inverse = { λ n. record { number = n } };
}
