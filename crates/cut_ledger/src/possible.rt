ghost use Rattle.std.specs.Prelude.{◌≡◌, ◌+◌, ◌-◌, ◌*◌, ◌≤◌, ◌^◌, ◌↔◌, IsTrue};
ghost use Rattle.cut_plan.specs.declared.limits.TheConstants.{MOST_NODES};
ghost use Rattle.cut_plan.specs.Cells.{IsCellOf};
ghost use Rattle.cut_plan.specs.Failing.{version_of};
ghost use Rattle.cut_outcome.specs.Outcome.{cell_at};
ghost use Rattle.cut_outcome.specs.Possible.{AreCounted, ArePossible, IsSettledBy};
ghost use Rattle.cut_outcome.specs.Sum.{is_piece, IsAtMost};

use crate::Slip;
use cut_outcome::Totals;
use cut_plan::{Cell, Plan, Version};

/// Whether a slip's totals are possible ones of its piece.
pub(crate) fn is_possible(plan: &Plan, slip: &Slip) -> bool
    requires { IsTrue (is_piece plan.now slip.now.piece) }
    ensures possible { IsTrue result ↔ ArePossible plan.now (cell_at plan.now slip.now.piece.first)
        slip.now.piece.count slip.now.totals }
    ensures few { IsTrue result → IsAtMost (MOST_NODES * slip.now.piece.count) slip.now.totals }
{
    let Slip { piece, totals } = *slip;
    let cell = plan.cell(plan.cell_of(piece.first));
    are_counted(plan, cell, piece.count, totals) && are_settled(plan, cell, totals)
}

/// Whether totals are possible ones of this many trials of a cell, `settled` aside.
fn are_counted(plan: &Plan, cell: Cell, trials: u32, totals: Totals) -> bool
    requires { IsCellOf plan.now cell }
    ensures counted { IsTrue result ↔ AreCounted plan.now cell trials totals }
    ensures few { IsTrue result → totals.receivers ≤ MOST_NODES * trials }
{
    let each = u64::from(plan.nodes() - cell.f);
    totals.receivers == u64::from(trials) * each
        && fit_together(totals.conflicts, totals.silent, totals.receivers)
        && fit_together(totals.extra, totals.silent, totals.receivers)
        && totals.votes <= totals.receivers
        && totals.decided <= u64::from(trials)
        && totals.right <= totals.decided
}

/// Whether `settled` is a possible sum over the receivers of a cell that propose.
fn are_settled(plan: &Plan, cell: Cell, totals: Totals) -> bool
    requires cell { IsCellOf plan.now cell }
    requires few { totals.receivers ≤ 2 ^ 43 }
    requires silent { totals.silent ≤ totals.receivers }
    ensures settled { IsTrue result ↔ IsSettledBy (version_of plan.now.failing)
        (totals.receivers - totals.silent) (plan.now.nodes * cell.k * plan.now.copies) totals.settled }
    ensures few { IsTrue result → totals.settled ≤ totals.receivers * 262144 }
{
    let proposing = totals.receivers - totals.silent;
    let deliveries = deliveries_of(plan, cell);
    is_settled_by(plan.version(), proposing, deliveries, totals.settled)
}

/// How many deliveries a trial of a cell has at most: each copy of each edge.
fn deliveries_of(plan: &Plan, cell: Cell) -> u64
    requires { IsCellOf plan.now cell }
    ensures value { result ≡ plan.now.nodes * cell.k * plan.now.copies }
    ensures few { result ≤ 262144 }
{
    u64::from(plan.nodes()) * u64::from(cell.k) * u64::from(plan.copies())
}

/// Whether this many proposals, each after a number of deliveries at most, can be settled by this number.
fn is_settled_by(version: Version, proposing: u64, deliveries: u64, settled: u64) -> bool
    requires proposing { proposing ≤ 2 ^ 43 }
    requires deliveries { deliveries ≤ 262144 }
    ensures { IsTrue result ↔ IsSettledBy version proposing deliveries settled }
{
    match version {
        Version::One => settled == 0,
        Version::Two => proposing <= settled && settled <= proposing * deliveries,
    }
}

/// Whether two numbers are together at most a third.
fn fit_together(some: u64, others: u64, most: u64) -> bool
    ensures { IsTrue result ↔ (some + others ≤ most) }
{
    some <= most && others <= most - some
}
