ghost use Rattle.std.specs.Prelude.{◌≡◌, ◌*◌, IsTrue};
ghost use Rattle.cut_plan.specs.declared.limits.TheConstants.{MOST_NODES};
ghost use Rattle.cut_plan.specs.Plan.{IsPlan};
ghost use Rattle.cut_outcome.specs.Outcome.{cell_at};
ghost use Rattle.cut_outcome.specs.Possible.{ArePossible};
ghost use Rattle.cut_outcome.specs.Sum.{is_piece, sum_of, trials_in, IsAtMost};

use crate::Totals;
use cut_plan::Plan;
use std::marker::Model;

/// Some trials of a study, one after another.
#[derive(Clone, Copy, Debug, PartialEq, Eq)]
pub struct Piece {
    /// The number of the first trial.
    pub first: u32,
    /// How many trials there are.
    pub count: u32,
}

/// The totals of a piece of a plan's trials. Contracts see the plan and the piece: the totals are
/// always the sum of the outcomes of the piece's trials, by this type.
#[derive(Debug, Drop)]
pub struct PieceResult {
    plan: Plan,
    piece: Piece,
    totals: Totals,
}

impl Model for PieceResult {
    ghost use Rattle.cut_outcome.specs.Computed.{Computed};

    ghost Value = { Computed };

    ghost use Rattle.cut_outcome.specs.inside.PieceInside.{computed_of, IsSummed};

    ghost view = { computed_of };

    ghost invariant = { IsSummed };
}

impl PieceResult {
    /// The result of a piece of a plan, by the sums over its trials.
    pub fn new(plan: Plan, piece: Piece, totals: Totals) -> PieceResult
        requires piece { IsTrue (is_piece plan piece) }
        requires few { IsAtMost (MOST_NODES * piece.count) totals }
        requires totals { totals ≡ sum_of plan (trials_in piece) }
        ensures { result ≡ record { plan = plan; piece = piece } }
    {
        PieceResult {
            plan,
            piece,
            totals,
        }
    }

    /// The plan whose trials these are.
    pub fn plan(&self) -> &Plan
        ensures { result.now ≡ self.now.plan }
    {
        &self.plan
    }

    /// Which trials these are: a piece of the plan.
    pub fn piece(&self) -> Piece
        ensures value { result ≡ self.now.piece }
        ensures piece { IsTrue (is_piece self.now.plan self.now.piece) }
    {
        self.piece
    }

    /// The sums over the piece's trials.
    pub fn totals(&self) -> Totals
        ensures value { result ≡ sum_of self.now.plan (trials_in self.now.piece) }
        ensures few { IsAtMost (MOST_NODES * self.now.piece.count) result }
        ensures possible { ArePossible self.now.plan (cell_at self.now.plan self.now.piece.first)
            self.now.piece.count result }
    {
        self.totals
    }
}

/// Whether a piece is one of a plan: not empty, up to the last trial at most, and in one cell.
pub fn is_piece(plan: &Plan, piece: Piece) -> bool
    ensures value { result ≡ is_piece plan.now piece }
    ensures plan { IsPlan plan.now }
{
    let repeats = u64::from(plan.repeats());
    let first = u64::from(piece.first);
    let end = first + u64::from(piece.count);
    first < end && end <= u64::from(plan.trials()) && first / repeats == (end - 1) / repeats
}
