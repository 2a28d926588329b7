//! The rule of a board's words, and what a step on them shows.

use crate::View;
use atomic_table::{Join, Play, Split, TableRule};

/// How many studies and seats a board is made for.
#[derive(Clone, Copy)]
pub struct Size {
    pub studies: u32,
    pub seats: u32,
}

/// The rule that holds between any two atomic steps on a board's words.
pub struct BoardRule;

impl TableRule<(), View, Size> for BoardRule {
    ghost use Rattle.cut_board.specs.inside.Rule.{Kept};
    ghost use Rattle.cut_board.specs.Views.{idle};

    ghost holds = { λ size state. Kept size.studies size.seats state.words state.views };

    ghost first = { λ size. idle size.seats };
}

/// One is added to a draw word.
pub(crate) struct Draw;

impl Play<(), View> for Draw {
    ghost use Rattle.cut_board.specs.inside.Steps.{Drawing};

    ghost then = { Drawing };
}

/// Something is added to a count word.
pub(crate) struct Count;

impl Play<(), View> for Count {
    ghost use Rattle.cut_board.specs.inside.Steps.{Counting};

    ghost then = { Counting };
}

/// A count word is read.
pub(crate) struct Read;

impl Play<(), View> for Read {
    ghost use Rattle.cut_board.specs.inside.Steps.{Reading};

    ghost then = { Reading };
}

/// One part goes to a new seat.
pub(crate) struct OnePart;

impl Split<View> for OnePart {
    ghost use Rattle.cut_board.specs.Views.{idle};
    ghost use Rattle.cut_board.specs.inside.Views.{part_given};

    ghost left = { part_given };

    ghost right = { λ _. idle 1 };
}

/// One seat takes in what another has done, which is then a seat of no parts.
pub(crate) struct TakeIn;

impl Join<View> for TakeIn {
    ghost use Rattle.cut_board.specs.Views.{idle};
    ghost use Rattle.cut_board.specs.inside.Views.{joined};

    ghost both = { joined };

    ghost spent = { idle 0 };
}
