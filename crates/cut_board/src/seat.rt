//! A seat at a board.
ghost use Rattle.std.specs.Prelude.{◌≡◌, ◌≤◌, []};
ghost use Rattle.cut_board.specs.Rule.{seat_limit};
ghost use Rattle.cut_board.specs.Views.{draws_in, amount_in};

use crate::View;
use std::fmt;

/// The right of one thread to draw from a board and to count on it.
///
/// It carries in proofs what its holder drew, counted and read, and at run time how much of each, so that a
/// seat draws 2^48 numbers at most and counts 2^48 at most.
#[derive(Drop)]
pub struct Seat {
    pub(crate) token: atomic_table::Seat<(), View>,
    pub(crate) drawn: u64,
    pub(crate) counted: u64,
    ghost one_part: { token.me.0.parts ≡ 1 },
    ghost no_slot: { token.me.1 ≡ [] },
    ghost drawn_is: { drawn ≡ draws_in token.me.0 },
    ghost counted_is: { counted ≡ amount_in token.me.0 },
    ghost within: { (drawn ≤ seat_limit) × (counted ≤ seat_limit) },
}

impl fmt::Debug for Seat {
    fn fmt<W: fmt::Write>(&self, f: &mut fmt::Formatter<W>) -> fmt::Result {
        f.debug_struct("Seat")
            .field("drawn", &self.drawn)
            .field("counted", &self.counted)
            .finish()
    }
}
