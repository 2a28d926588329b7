ghost use Rattle.std.specs.Prelude.{◌≡◌, Bool, true, false, ⊤, Option, Result, Ok, None, IfOk};
ghost use Rattle.cut_plan.specs.Values.{Values};
ghost use Rattle.cut_book.specs.declared.shelf.ShelfFault.{ShelfFault};
ghost use Rattle.cut_journal.specs.Trust.{IsTrueStore};

use cut_disks::Disk;
use cut_plan::Plan;
use std::alloc::Global;
use thiserror::Error;

/// Why a shelf gave no disk.
#[derive(Clone, Copy, Debug, PartialEq, Eq, Error)]
pub enum ShelfFault {
    /// Memory ran out.
    #[error("the shelf was refused memory")]
    Memory,
    /// The disk could not be opened.
    #[error("the shelf could not open the disk")]
    Open,
}

/// What keeps the disks of studies: it gives each plan its disk, or none if nothing is kept.
pub trait Shelf<D: Disk> {
    /// Whether the slips on its disks are those that their trials give: certainly if it has no disk.
    ghost is_true: { Self → Bool } = { λ _. false };

    /// What it may give for a plan.
    ghost gives: { Self → Values → Result (Option D) ShelfFault → Type 0 } = { λ _ _ _. ⊤ };

    /// The disk of a plan's study, if studies are kept.
    fn open(&self, alloc: Global, plan: &Plan) -> Result<Option<D>, ShelfFault>
        ensures trusted { is_true self.now ≡ true →
            IfOk result (λ disk. IsTrueStore D.log plan.now disk) }
        ensures given { gives self.now plan.now result };
}

/// A shelf without disks: no study is kept.
#[derive(Clone, Copy, Debug)]
pub struct NoShelf;

impl<D: Disk> Shelf<D> for NoShelf {
    ghost is_true = { λ _. true };

    ghost gives = { λ _ _ given. given ≡ Ok None };

    fn open(&self, _alloc: Global, _plan: &Plan) -> Result<Option<D>, ShelfFault>
        ensures { result ≡ Ok None }
    {
        Ok(None)
    }
}
