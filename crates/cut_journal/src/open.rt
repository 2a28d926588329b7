ghost use Rattle.std.specs.Prelude.{◌≡◌, None, length, IfOk, IfErr};
ghost use Rattle.cut_faults.specs.Failures.{counted};
ghost use Rattle.cut_disks.specs.Log.{Goes, Shows};
ghost use Rattle.cut_journal.specs.Journal.{fault_counts};
ghost use Rattle.cut_journal.specs.Opening.{IsClaimed, IsNotClaimed, MayNotClaim, IsOpened, IsNotOpened, MayNotOpen};
ghost use Rattle.cut_journal.specs.Opening.{is_foreign};

use crate::format::{CLOSED_GATE, OPEN_GATE};
use crate::{Journal, JournalFault};
use cut_disks::{Disk, DiskFault};
use cut_ledger::Slip;
use cut_plan::Plan;
use std::alloc::Global;

impl<D: Disk> Journal<D> {
    /// Makes the journal of a study on an unclaimed disk: one that is empty, or whose first byte is zero, as an
    /// interrupted creation leaves it. The disk is handed back if none is made: it holds a study already, or something
    /// else, which stays as it is; it failed; or memory ran out.
    pub fn claim(alloc: Global, disk: D, plan: &Plan) -> Result<Journal<D>, (JournalFault, D)>
        ensures plan { IfOk result (λ journal. journal.plan ≡ plan.now) }
        ensures empty { IfOk result (λ journal. (journal.count ≡ 0) × (journal.doubtful ≡ None)) }
        ensures made { IfOk result (λ journal. Goes (λ n. n) (IsClaimed plan.now) (D.log disk)
            (D.log journal.disk)) }
        ensures refused { IfErr result (λ e. Goes (fault_counts e.0) (IsNotClaimed plan.now e.0) (D.log disk)
            (D.log e.1)) }
        ensures may { IfErr result (λ e. MayNotClaim e.0) }
    {
        let mut disk = disk;
        match is_foreign(&mut disk) {
            Ok(false) => Journal::create(alloc, disk, plan),
            Ok(true) => Err((JournalFault::NoStudy, disk)),
            Err(_) => Err((JournalFault::Disk, disk)),
        }
    }

    /// Opens the journal of a study again with the slips that are kept, or makes one without slips on an unclaimed
    /// disk, as `claim` does. The disk is handed back if its study is of another plan or is damaged, where it holds
    /// something else than a study, if it failed, or memory ran out.
    ///
    /// Of a disk of which nothing is known, the answer may also be that it holds a study after all.
    pub fn open(
        alloc: Global,
        disk: D,
        plan: &Plan,
    ) -> Result<(Journal<D>, Vec<Slip>), (JournalFault, D)>
        ensures plan { IfOk result (λ r. r.0.plan ≡ plan.now) }
        ensures count { IfOk result (λ r. (r.0.count ≡ length r.1.items) × (r.0.doubtful ≡ None)) }
        ensures found { IfOk result (λ r. Goes (λ n. n) (IsOpened plan.now r.1.items) (D.log disk) (D.log r.0.disk)) }
        ensures refused { IfErr result (λ e. Goes (fault_counts e.0) (IsNotOpened plan.now e.0) (D.log disk)
            (D.log e.1)) }
        ensures may { IfErr result (λ e. MayNotOpen e.0) }
    {
        let (fault, disk) = match Journal::reopen(alloc, disk, plan) {
            Ok(opened) => return Ok(opened),
            Err(refused) => refused,
        };
        if fault != JournalFault::NoStudy {
            return Err((fault, disk));
        }
        match Journal::claim(alloc, disk, plan) {
            Ok(journal) => Ok((journal, Vec::new(alloc))),
            Err(refused) => Err(refused),
        }
    }
}

/// Whether a disk holds something else than a study, and is not unclaimed.
fn is_foreign<D: Disk>(disk: &mut D) -> Result<bool, DiskFault>
    ensures reads { Goes (counted result) (Shows (λ bytes. IfOk result (λ found. found ≡ is_foreign bytes)))
        (D.log disk.old) (D.log disk.new) }
{
    let length = disk.length()?;
    if length == 0 {
        return Ok(false);
    }
    let mut first = [0];
    disk.read(0, &mut first)?;
    let is_study = length > 1 && first[0] == OPEN_GATE;
    Ok(!is_study && first[0] != CLOSED_GATE)
}
