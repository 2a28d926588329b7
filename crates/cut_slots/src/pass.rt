ghost use Rattle.std.specs.Prelude.{◌≡◌, length, All, IfOk};
ghost use Rattle.cut_board.specs.Names.{board_id, board_of, view_of};
ghost use Rattle.cut_board.specs.Views.{idle};

use crate::CallLedger;
use cut_board::{Board, Seat};
use std::alloc::{AllocError, Global};
use std::marker::Model;
use std::sync::ledger::Share;

/// The right of one thread to work in a hall. Contracts see whose pass it is, what its holders drew and counted
/// on the hall's board, and how many calls of books they made.
#[derive(Drop)]
pub struct Pass<M: CallLedger> {
    /// Its seat on the hall's board.
    pub seat: Seat,
    /// How many calls were made with it: one part of the hall's ledger of made calls.
    pub made: Share<M>,
}

impl<M: CallLedger> Model for Pass<M> {
    ghost use Rattle.std.specs.Prelude.{◌≡◌};
    ghost use Rattle.cut_board.specs.Names.{board_of, view_of};
    ghost use Rattle.cut_slots.specs.Pass.{Holding};

    ghost Value = { Holding };

    ghost view = { λ p.
        record { hall = board_of p.seat; view = view_of p.seat; made = p.made.amount } };

    ghost invariant = { λ p. p.made.parts ≡ 1 };
}

/// The passes of a hall, each a seat of its board with a part of the ledger of made calls.
pub fn make_passes<M: CallLedger>(
    alloc: Global,
    board: &Board,
    mut seats: Vec<Seat>,
    mut rest: Share<M>,
) -> Result<Vec<Pass<M>>, AllocError>
    requires own { All (λ s. board_of s ≡ board_id board.now) seats.items }
    requires idle { All (λ s. view_of s ≡ idle 1) seats.items }
    requires rest { (rest.parts ≡ length seats.items) × (rest.amount ≡ 0) }
    ensures many { IfOk result (λ passes. length passes.items ≡ length seats.items) }
    ensures own { IfOk result (λ passes. All (λ p. p.hall ≡ board_id board.now) passes.items) }
    ensures idle { IfOk result (λ passes. All (λ p. (p.view ≡ idle 1) × (p.made ≡ 0)) passes.items) }
{
    let mut passes = Vec::new(alloc);
    while let Some(seat) = seats.pop() {
        let made = rest.split_off(1, 0);
        passes.push(Pass { seat, made })?;
    }
    Ok(passes)
}
