ghost use Rattle.std.specs.Prelude.{◌≡◌, ◌+◌, ◌*◌, ◌/◌, ◌<◌, ◌≤◌, ◌↔◌, List, [], length, map, IfOk, OnOk, OnErr};
ghost use Rattle.std.specs.Prelude.{IsOk, IsTrue};
ghost use Rattle.std.specs.List.{list_any};
ghost use Rattle.cut_plan.specs.Cells.{cells_of, trial_count};
ghost use Rattle.cut_outcome.specs.Sum.{trials_in};
ghost use Rattle.cut_ledger.specs.declared.slip.Slip as slips;
ghost use Rattle.cut_ledger.specs.Gaps.{piece_at};
ghost use Rattle.cut_ledger.specs.inside.HeldTrials.{AreKept, AreOver, CanBeAdded, HoldsExactly, IsAdded, span_of};
ghost use Rattle.cut_ledger.specs.Slips.{IsGood};
ghost use Rattle.cut_sets.specs.ranges.Held.{has, has_room};

use crate::Slip;
use crate::possible::is_possible;
use cut_outcome::{Piece, Totals, is_piece};
use cut_plan::Plan;
use cut_sets::ranges::{RangeSet, Span};
use std::alloc::{AllocError, Global};

/// Which trials of a plan are held, a section for each cell, and the sums over those of each cell.
#[derive(Debug, Drop)]
pub(crate) struct HeldTrials {
    pub trials: RangeSet,
    pub sums: Vec<Totals>,
}

impl HeldTrials {
    /// No trial of a plan.
    pub fn none(alloc: Global, plan: &Plan) -> Result<HeldTrials, AllocError>
        ensures { IfOk result (λ k. AreOver plan.now [] k.trials k.sums.items) }
    {
        let trials = RangeSet::new(alloc, plan.cells(), plan.repeats())?;
        let sums = vec![in alloc; Totals::ZERO; plan.cells() as usize]?;
        Ok(HeldTrials { trials, sums })
    }

    /// Whether some trial of a piece is held.
    pub fn overlaps(&self, piece: Piece) -> bool
        requires { piece.first + piece.count ≤ length self.now.trials.held }
        ensures { result ≡ list_any (has self.now.trials) (trials_in piece) }
    {
        overlaps(&self.trials, piece)
    }

    /// Adds a piece, none of whose trials is held, with its sums.
    pub fn add(&mut self, plan: &Plan, piece: Piece, totals: Totals) -> Result<(), AllocError>
        requires kept { (base : List slips.Slip) × AreKept plan.now base self.old.trials self.old.sums.items }
        requires fits { CanBeAdded plan.now self.old.trials piece totals }
        ensures ok { OnOk result (IsAdded self.old.trials self.new.trials self.old.sums.items self.new.sums.items
            (piece.first / plan.now.repeats) piece totals) }
        ensures room { IsTrue (has_room self.old.trials (piece.first / plan.now.repeats)) → IsOk result }
        ensures err { OnErr result (self.new ≡ self.old) }
    {
        let cell = plan.cell_of(piece.first) as usize;
        self.trials.insert(span_of(piece))?;
        self.sums[cell] = self.sums[cell].plus(totals);
        Ok(())
    }
}

/// Whether a slip is a good one after those whose trials, and no others, are held. Its piece can be added then.
pub(crate) fn is_good(trials: &RangeSet, plan: &Plan, slip: &Slip) -> bool
    requires { length trials.now.held ≡ trial_count plan.now }
    ensures good { (earlier : List slips.Slip) → HoldsExactly trials.now earlier
        → (IsTrue result ↔ IsGood plan.now earlier slip.now) }
    ensures fits { IsTrue result → CanBeAdded plan.now trials.now slip.now.piece slip.now.totals }
{
    is_piece(plan, slip.piece) && !overlaps(trials, slip.piece) && is_possible(plan, slip)
}

/// Whether some trial of a piece is held.
fn overlaps(trials: &RangeSet, piece: Piece) -> bool
    requires { piece.first + piece.count ≤ length trials.now.held }
    ensures { result ≡ list_any (has trials.now) (trials_in piece) }
{
    trials.overlaps(span_of(piece))
}

/// The numbers of a piece's trials.
pub(crate) fn span_of(piece: Piece) -> Span
    ensures { result ≡ span_of piece }
{
    Span {
        first: piece.first,
        count: piece.count,
    }
}

/// The numbers of a cell's trials.
pub(crate) fn span_of_cell(plan: &Plan, cell: u32) -> Span
    requires { cell < length (cells_of plan.now) }
    ensures first { result.first ≡ cell * plan.now.repeats }
    ensures count { result.count ≡ plan.now.repeats }
    ensures within { result.first + result.count ≤ trial_count plan.now }
{
    Span {
        first: cell * plan.repeats(),
        count: plan.repeats(),
    }
}

/// The pieces whose trials have these numbers.
pub(crate) fn pieces_at(alloc: Global, spans: &[Span]) -> Result<Vec<Piece>, AllocError>
    ensures { IfOk result (λ pieces. pieces.items ≡ map piece_at spans.now) }
{
    let mut pieces = Vec::with_capacity(alloc, spans.len())?;
    for span in spans {
        pieces.push(Piece {
            first: span.first,
            count: span.count,
        })?;
    }
    Ok(pieces)
}
