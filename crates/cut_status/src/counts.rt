ghost use Rattle.std.specs.Prelude.{◌≡◌, length};
ghost use Rattle.cut_plan.specs.Cells.{cells_of};
ghost use Rattle.cut_plan.specs.Plan.{IsPlan};
ghost use Rattle.cut_ledger.specs.Slips.{AreGood};
ghost use Rattle.cut_status.specs.Status.{held_trials};
ghost use Rattle.cut_status.specs.inside.Counts.{done_among};

use cut_ledger::{Slip, SlipTally};
use cut_plan::Plan;

/// How many trials of a plan slips hold, none of which is in two of them.
pub fn trials_held(plan: &Plan, slips: &[Slip]) -> u32
    requires plan { IsPlan plan.now }
    requires good { AreGood plan.now slips.now }
    ensures { result ≡ held_trials plan.now slips.now }
{
    let mut held = 0;
    for slip in slips {
        held += slip.piece.count;
    }
    held
}

/// How many cells of a tally's plan are done.
pub(crate) fn done_cells(tally: &SlipTally) -> u32
    ensures { result ≡ done_among tally.now (length (cells_of tally.now.plan)) }
{
    let mut done = 0;
    for cell in 0..tally.plan().cells() {
        if tally.cell_done(cell) {
            done += 1;
        }
    }
    done
}
