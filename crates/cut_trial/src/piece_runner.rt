ghost use Rattle.std.specs.Prelude.{◌≡◌, IfSome};
ghost use Rattle.cut_outcome.specs.Outcome.{rings_of};

use crate::{run_piece, twice};
use cut_outcome::{Piece, PieceResult};
use cut_plan::Plan;
use cut_rings::Rings;
use std::alloc::Global;

/// What pieces of a plan are run with, one after another or side by side.
#[derive(Clone, Copy)]
pub struct PieceRunner<'a> {
    /// Where memory is taken from.
    pub alloc: Global,
    /// The plan.
    pub plan: &'a Plan,
    /// Its rings.
    pub rings: &'a Rings,
    pub ghost own: { rings.now ≡ rings_of plan.now },
}

impl PieceRunner<'_> {
    /// Runs a piece, and once more if memory ran out. There is no result if memory ran out again, or if the plan has no
    /// such piece.
    pub fn run(&self, piece: Piece) -> Option<PieceResult>
        ensures { IfSome result (λ r. r ≡ record { plan = self.now.plan.now; piece = piece }) }
    {
        let mut attempt = || -> Option<PieceResult>
            ensures { IfSome result (λ r. r ≡ record { plan = self.entry.now.plan.now; piece = piece }) }
        { run_piece(self.alloc, self.plan, self.rings, piece).ok() };
        twice(&mut attempt)
    }
}
