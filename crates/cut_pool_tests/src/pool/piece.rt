ghost use Rattle.std.specs.Prelude.{◌≡◌, false, IfOk, IsErrOf};
ghost use Rattle.cut_outcome.specs.Sum.{is_piece};

use cut_outcome::{Piece, PieceResult};
use cut_plan::Plan;
use cut_rings::Rings;
use cut_trial::{TrialFault, run_piece};
use std::alloc::Global;

/// The result of a piece of a plan's trials, over the rings of the plan. A piece that is none of the plan's is refused.
pub fn result_of(alloc: Global, plan: &Plan, piece: Piece) -> Result<PieceResult, TrialFault>
    ensures ok { IfOk result (λ r. r ≡ record { plan = plan.now; piece = piece }) }
    ensures bad { IsErrOf result TrialFault.BadPiece → (is_piece plan.now piece ≡ false) }
{
    let rings = Rings::hashed(alloc, plan)?;
    run_piece(alloc, plan, &rings, piece)
}
