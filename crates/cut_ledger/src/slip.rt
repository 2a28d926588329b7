//! What a checkpoint says of pieces.
ghost use Rattle.std.specs.Prelude.{◌≡◌, IsTrue};
ghost use Rattle.cut_plan.specs.Plan.{IsPlan};
ghost use Rattle.cut_outcome.specs.Outcome.{cell_at};
ghost use Rattle.cut_outcome.specs.Possible.{ArePossible};
ghost use Rattle.cut_outcome.specs.Sum.{is_piece};
ghost use Rattle.cut_ledger.specs.Machine.{slip_of};

use cut_outcome::{Piece, PieceResult, Totals};
use cut_plan::laws;

/// What a checkpoint says of a piece: that its trials have these sums.
#[derive(Clone, Copy, Debug, PartialEq, Eq)]
pub struct Slip {
    /// Which trials.
    pub piece: Piece,
    /// The sums over them.
    pub totals: Totals,
}

/// What a result says of its piece, which is one of an accepted plan.
pub fn slip_of(offered: &PieceResult) -> Slip
    ensures slip { result ≡ slip_of offered.now }
    ensures plan { IsPlan offered.now.plan }
    ensures piece { IsTrue (is_piece offered.now.plan offered.now.piece) }
    ensures possible { ArePossible offered.now.plan (cell_at offered.now.plan offered.now.piece.first)
        offered.now.piece.count result.totals }
{
    laws::plans_are_accepted(offered.plan());
    Slip {
        piece: offered.piece(),
        totals: offered.totals(),
    }
}
