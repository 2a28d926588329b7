ghost use Rattle.std.specs.Prelude.{◌≡◌, ◌+◌, ◌*◌, ◌<◌, ◌↔◌, false, IfOk, IsErrOf, IsTrue};
ghost use Rattle.cut_plan.specs.declared.limits.TheConstants.{MOST_NODES};
ghost use Rattle.cut_outcome.specs.Outcome.{rings_of};
ghost use Rattle.cut_outcome.specs.Sum.{is_piece, sum_of, trials_in, IsAtMost};

use crate::TrialFault;
use crate::input::TrialInput;
use crate::trial::Trials;
use cut_outcome::{Piece, PieceResult, Totals, is_piece};
use cut_plan::Plan;
use cut_rings::Rings;
use std::alloc::{AllocError, Global};

/// Runs a piece of a plan's trials, whose rings these are. A piece that is empty, goes past the last
/// trial or lies in two cells is refused before anything is allocated.
pub fn run_piece(
    alloc: Global,
    plan: &Plan,
    rings: &Rings,
    piece: Piece,
) -> Result<PieceResult, TrialFault>
    requires { rings.now ≡ rings_of plan.now }
    ensures ok { IfOk result (λ r. r ≡ record { plan = plan.now; piece = piece }) }
    ensures bad { IsErrOf result TrialFault.BadPiece ↔ (is_piece plan.now piece ≡ false) }
{
    if !is_piece(plan, piece) {
        return Err(TrialFault::BadPiece);
    }
    let totals = sum_piece(alloc, TrialInput::new(plan, rings), piece)?;
    let plan = plan.try_clone(alloc)?;
    Ok(PieceResult::new(plan, piece, totals))
}

/// The sums over a piece's trials.
fn sum_piece(alloc: Global, study: TrialInput<'_>, piece: Piece) -> Result<Totals, AllocError>
    requires { IsTrue (is_piece study.plan.now piece) }
    ensures value { IfOk result (λ totals. totals ≡ sum_of study.entry.plan.now (trials_in piece)) }
    ensures few { IfOk result (λ totals. IsAtMost (MOST_NODES * piece.count) totals) }
{
    let plan = study.plan;
    let cell = plan.cell(plan.cell_of(piece.first));
    let mut trials = Trials::new(alloc, study, cell)?;
    let mut totals = Totals::ZERO;
    let end = piece.first + piece.count;
    for trial in piece.first..end {
        totals = totals.plus(trials.run(trial)?);
    }
    Ok(totals)
}
