ghost use Rattle.std.specs.Prelude.{◌≡◌, List, IfOk, IfErr};
ghost use Rattle.cut_ledger.specs.Slips.{AreGood};
ghost use Rattle.cut_ledger.specs.Tally.{HasAdded};
ghost use Rattle.cut_ledger.specs.declared.slip.Slip as slips;
ghost use Rattle.cut_status.specs.Status.{status_over, status_text};
ghost use Rattle.cut_status.specs.inside.Study.{IsFaultOver};

use crate::StatusFault;
use crate::counts::done_cells;
use cut_ledger::SlipTally;
use std::alloc::{AllocError, Global};
use std::marker::Model;

/// How much of a study is kept, and the canonical text of its plan. Contracts see these as a record.
#[derive(Debug, Drop)]
pub struct Status {
    held: u32,
    trials: u32,
    done: u32,
    cells: u32,
    slips: u64,
    text: Vec<u8>,
}

impl Model for Status {
    ghost use Rattle.cut_status.specs.Status.{StatusValue};

    ghost Value = { StatusValue };

    ghost view = { λ s. record {
      held = s.held;
      trials = s.trials;
      done = s.done;
      cells = s.cells;
      slips = s.slips;
      text = s.text.items;
    } };
}

impl Status {
    /// The status of the study whose slips were added to a tally. It is refused by the number of the first slip that the
    /// tally refused.
    pub(crate) fn of(alloc: Global, tally: &SlipTally) -> Result<Status, StatusFault>
        ensures ok { IfOk result (λ status. (slips : List slips.Slip) → HasAdded tally.now slips →
            AreGood tally.now.plan slips × (status ≡ status_over tally.now.plan slips)) }
        ensures err { IfErr result (λ fault. (slips : List slips.Slip) → HasAdded tally.now slips →
            IsFaultOver tally.now.plan slips fault) }
    {
        if let Some(number) = tally.refused() {
            return Err(StatusFault::BadSlip(number));
        }
        let plan = tally.plan();
        let text = match plan.canonical(alloc) {
            Ok(text) => text,
            Err(_) => return Err(StatusFault::Memory),
        };
        Ok(Status {
            held: tally.held(),
            trials: plan.trials(),
            done: done_cells(tally),
            cells: plan.cells(),
            slips: u64::from(tally.slips()),
            text,
        })
    }

    /// The lines that are printed of it: how many trials are held, how many cells are done and how many slips there
    /// are, and then the plan.
    pub fn to_text(&self, alloc: Global) -> Result<Vec<u8>, AllocError>
        ensures { IfOk result (λ text. text.items ≡ status_text self.now) }
    {
        let counts = format!(in alloc;
            "trials {} of {}\ncells {} of {}\nslips {}\n",
            self.held, self.trials, self.done, self.cells, self.slips
        )?;
        let mut text = counts.into_bytes();
        text.extend_from_slice(self.text.as_slice())?;
        text.push(b'\n')?;
        Ok(text)
    }
}
