ghost use Rattle.std.specs.Prelude.{◌≡◌, ◌∷◌, [], All};
ghost use Rattle.cut_ledger.specs.Machine.{slip_of};
ghost use Rattle.cut_plan.specs.Failing.{version_of};
ghost use Rattle.cut_journal.specs.Adding.{EndsAdding};
ghost use Rattle.cut_journal.specs.File.{HoldsAllTotals};
ghost use Rattle.cut_journal.specs.inside.Adding.{store_fault_of};

use crate::{Journal, JournalFault, StoreFault, laws};
use cut_disks::Disk;
use cut_ledger::{Slip, slip_of};
use cut_outcome::PieceResult;

impl<D: Disk> Journal<D> {
    /// Adds the slip of a result of its plan by one append.
    ///
    /// If the disk fails it is not known whether the slip is kept, and nothing is taken any more.
    pub fn add(&mut self, offered: &PieceResult) -> Result<(), StoreFault>
        requires { offered.now.plan ≡ self.old.plan }
        ensures { EndsAdding D.log result (slip_of offered.now ∷ []) self.old self.new }
    {
        self.add_slip(slip_of(offered))
    }

    /// Adds slips that are known already, by one append each. A plan of version 1 keeps no `settled`, so that of each
    /// slip has to be 0 there.
    ///
    /// If the disk fails the slips before the present one are kept, and the present one may be kept too. So a crash at
    /// any moment leaves the slips that were acknowledged by then, and at most one more.
    pub fn add_all(&mut self, slips: &[Slip]) -> Result<(), StoreFault>
        requires { All (λ s. HoldsAllTotals (version_of self.old.plan.failing) s.totals) slips.now }
        ensures { EndsAdding D.log result slips.now self.old self.new }
    {
        laws::journals_stay_readable(self);
        for slip in slips {
            self.add_slip(*slip)?;
        }
        Ok(())
    }

    /// Adds a slip.
    fn add_slip(&mut self, slip: Slip) -> Result<(), StoreFault>
        requires { HoldsAllTotals (version_of self.old.plan.failing) slip.totals }
        ensures { EndsAdding D.log result (slip ∷ []) self.old self.new }
    {
        laws::journals_stay_readable(self);
        match self.append_slip(slip) {
            Ok(_) => Ok(()),
            Err(fault) => Err(store_fault_of(fault)),
        }
    }
}

/// The fault of the storing of slips for the fault of an append.
fn store_fault_of(fault: JournalFault) -> StoreFault
    ensures { result ≡ store_fault_of fault }
{
    match fault {
        JournalFault::Disk => StoreFault::Disk,
        _ => StoreFault::Broken,
    }
}
