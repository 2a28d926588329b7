ghost use Rattle.std.specs.Prelude.{◌≡◌, ◌≢◌, ◌↔◌, None, length, IfOk, IfErr, IsErrOf, IsSome};
ghost use Rattle.cut_ledger.specs.Machine.{slip_of};
ghost use Rattle.cut_plan.specs.Failing.{version_of};
ghost use Rattle.cut_disks.specs.Log.{Goes, Knows};
ghost use Rattle.cut_journal.specs.File.{HoldsAllTotals};
ghost use Rattle.cut_journal.specs.Journal.{JournalValue, IsFileOf, IsAppendFault, LeavesAppend, IsSlipAppendFault};
ghost use Rattle.cut_journal.specs.Journal.{Appends, fault_counts};
ghost use Rattle.cut_journal.specs.Opening.{IsReopened, IsRefused, IsOpeningFaultOf, IsMade, IsNotMade, MayNotMake};

use crate::JournalFault;
use crate::format::{FileHeader, Gate};
use crate::kept_study::find_study;
use crate::new_study::make_study;
use crate::slip_append::{NextSlip, keep_slip};
use crate::slips::Slips;
use cut_disks::Disk;
use cut_ledger::{Slip, slip_of};
use cut_outcome::PieceResult;
use cut_plan::Plan;
use std::alloc::Global;
use std::marker::Model;

/// The journal of a study, on a disk. Contracts see the disk, the plan, how many slips are kept, and the
/// slip of an append in which the disk failed.
///
/// What is said of the bytes is said of a disk of which they are known.
#[derive(Drop)]
pub struct Journal<D: Disk> {
    disk: D,
    study: FileHeader,
    gate: Gate,
    doubtful: Option<Slip>,
}

impl<D: Disk> Model for Journal<D> {
    ghost use Rattle.std.specs.Prelude.{◌≡◌, ◌<◌, ◌^◌};
    ghost use Rattle.cut_disks.specs.Log.{Knows};
    ghost use Rattle.cut_journal.specs.Journal.{JournalValue, IsFileOf};
    ghost use Rattle.cut_journal.specs.inside.Places.{gate_place};

    ghost Value = { JournalValue D };

    ghost view = { λ j.
        record { disk = j.disk; plan = j.study; count = j.gate.number; doubtful = j.doubtful } };

    ghost invariant = { λ j.
        (j.gate.place ≡ gate_place j.study j.gate.number)
        × (j.gate.place < 2 ^ 63)
        × Knows (D.log j.disk) (IsFileOf j.study j.gate.number j.doubtful) };
}

impl<D: Disk> Journal<D> {
    /// Makes the journal of a study on a disk that holds none. The disk is handed back if none is made: it holds a
    /// study already, it failed, or memory ran out.
    pub fn create(alloc: Global, disk: D, plan: &Plan) -> Result<Journal<D>, (JournalFault, D)>
        ensures plan { IfOk result (λ journal. journal.plan ≡ plan.now) }
        ensures empty { IfOk result (λ journal. (journal.count ≡ 0) × (journal.doubtful ≡ None)) }
        ensures made { IfOk result (λ journal. Goes (λ n. n) (IsMade plan.now) (D.log disk) (D.log journal.disk)) }
        ensures refused { IfErr result (λ e. Goes (fault_counts e.0) (IsNotMade plan.now e.0) (D.log disk)
            (D.log e.1)) }
        ensures may { IfErr result (λ e. MayNotMake e.0) }
    {
        let mut disk = disk;
        let study = match FileHeader::of(alloc, plan) {
            Ok(study) => study,
            Err(_) => return Err((JournalFault::Memory, disk)),
        };
        match make_study(alloc, &mut disk, &study) {
            Ok(()) => {
                let gate = study.first_gate();
                Ok(Journal {
                    disk,
                    study,
                    gate,
                    doubtful: None,
                })
            }
            Err(fault) => Err((fault, disk)),
        }
    }

    /// Opens the journal of a study again, with the slips that are kept. The disk is handed back where it holds no
    /// study, or one of another plan, or is damaged, if it failed, or memory ran out.
    ///
    /// Nothing is written.
    pub fn reopen(
        alloc: Global,
        disk: D,
        plan: &Plan,
    ) -> Result<(Journal<D>, Vec<Slip>), (JournalFault, D)>
        ensures plan { IfOk result (λ r. r.0.plan ≡ plan.now) }
        ensures count { IfOk result (λ r. (r.0.count ≡ length r.1.items) × (r.0.doubtful ≡ None)) }
        ensures found { IfOk result (λ r. Goes (λ n. n) (IsReopened plan.now r.1.items) (D.log disk)
            (D.log r.0.disk)) }
        ensures refused { IfErr result (λ e. Goes (fault_counts e.0) (IsRefused plan.now e.0) (D.log disk)
            (D.log e.1)) }
        ensures may { IfErr result (λ e. IsOpeningFaultOf e.0) }
    {
        let mut disk = disk;
        let study = match FileHeader::of(alloc, plan) {
            Ok(study) => study,
            Err(_) => return Err((JournalFault::Memory, disk)),
        };
        match find_study(alloc, &mut disk, &study) {
            Ok(found) => {
                let Slips { slips, gate } = found;
                let journal = Journal {
                    disk,
                    study,
                    gate,
                    doubtful: None,
                };
                Ok((journal, slips))
            }
            Err(fault) => Err((fault, disk)),
        }
    }

    /// Appends the slip of a result, and returns its number, from 1. Takes no memory.
    ///
    /// If the disk fails it is not known whether the slip is kept, and nothing is taken any more.
    pub fn append(&mut self, offered: &PieceResult) -> Result<u64, JournalFault>
        ensures broken { IsErrOf result JournalFault.Broken ↔ IsSome self.old.doubtful }
        ensures other_plan { IsErrOf result JournalFault.OtherPlan
            ↔ ((self.old.doubtful ≡ None) × (offered.now.plan ≢ self.old.plan)) }
        ensures others { IfErr result IsAppendFault }
        ensures number { IfOk result (λ number. number ≡ self.new.count) }
        ensures left { LeavesAppend result (slip_of offered.now) self.old self.new }
        ensures appends { Appends D.log result (slip_of offered.now) self.old self.new }
    {
        if self.doubtful.is_some() {
            return Err(JournalFault::Broken);
        }
        if !self.study.plan().same(offered.plan()) {
            return Err(JournalFault::OtherPlan);
        }
        self.append_slip(slip_of(offered))
    }

    /// Appends a slip that is known already, as one of another file of this plan, and returns its number, from 1. Takes
    /// no memory. A plan of version 1 keeps no `settled`, so the slip's has to be 0 there.
    ///
    /// If the disk fails it is not known whether the slip is kept, and nothing is taken any more.
    pub fn append_slip(&mut self, slip: Slip) -> Result<u64, JournalFault>
        requires { HoldsAllTotals (version_of self.old.plan.failing) slip.totals }
        ensures broken { IsErrOf result JournalFault.Broken ↔ IsSome self.old.doubtful }
        ensures others { IfErr result IsSlipAppendFault }
        ensures number { IfOk result (λ number. number ≡ self.new.count) }
        ensures left { LeavesAppend result slip self.old self.new }
        ensures appends { Appends D.log result slip self.old self.new }
    {
        if self.doubtful.is_some() {
            return Err(JournalFault::Broken);
        }
        let next = NextSlip {
            study: &self.study,
            gate: self.gate,
            slip,
        };
        match keep_slip(&mut self.disk, next) {
            Ok(()) => {
                self.gate = Gate {
                    number: self.gate.number + 1,
                    place: self.gate.place + self.study.slip_length(),
                };
                Ok(self.gate.number)
            }
            Err(_) => {
                self.doubtful = Some(slip);
                Err(JournalFault::Disk)
            }
        }
    }

    /// The plan of the study.
    pub fn plan(&self) -> &Plan
        ensures { result.now ≡ self.now.plan }
    {
        self.study.plan()
    }

    /// The disk. Between calls, whatever a crash may leave of one that is known is read as the slips that
    /// are kept, or as these and the doubtful one.
    pub fn disk(&self) -> &D
        ensures disk { result.now ≡ self.now.disk }
        ensures sound { Knows (D.log self.now.disk)
            (IsFileOf self.now.plan self.now.count self.now.doubtful) }
    {
        &self.disk
    }

    /// Gives the disk back.
    pub fn into_disk(self) -> D
        ensures disk { result ≡ self.disk }
        ensures sound { Knows (D.log self.disk) (IsFileOf self.plan self.count self.doubtful) }
    {
        self.disk
    }
}
