//! What a thread does in a hall: it submits a study, does a deed for it, and sees how that ends.
ghost use Rattle.std.specs.Prelude.{true, ◌≡◌, ◌<◌, All, IfOk};

use cut_book::{Opened, Shelf, ShelfFault, SubmitFault};
use cut_disks::{FaultyDisk, MemoryDisk, Tear};
use cut_hall::{CallLedger, Hall, NextRowFault, OpenGate, Pass, Report, StudyCell, WorkEnv};
use cut_journal::Journal;
use cut_plan::Plan;
use cut_pool_cases::Study;
use std::alloc::Global;
use std::sync::Wait;
use std::test::Fail;

/// A hall whose disks may fail.
pub(crate) type Stormy<M, K> = Hall<FaultyDisk, M, K>;

/// A shelf whose disks each fail at the call of this number, or never if that is 0.
#[derive(Clone, Copy)]
pub(crate) struct Brittle {
    pub fail_at: u64,
}

impl Shelf<FaultyDisk> for Brittle {
    ghost use Rattle.std.specs.Prelude.{true};

    ghost is_true = { λ _. true };

    fn open(&self, alloc: Global, _plan: &Plan) -> Result<Option<FaultyDisk>, ShelfFault> {
        let Ok(disk) = FaultyDisk::of(alloc, Vec::new(alloc), self.fail_at, Tear::Nothing) else {
            return Err(ShelfFault::Memory);
        };
        disk.arm();
        Ok(Some(disk))
    }
}

/// A shelf whose disks hold the study of this plan, with a byte of its header changed if it is damaged.
#[derive(Clone, Copy)]
pub(crate) struct Foul {
    pub held: Study,
    pub is_damaged: bool,
}

impl Foul {
    /// What its disks hold, if there is memory for it.
    fn bytes(&self, alloc: Global) -> Option<Vec<u8>> {
        let plan = Plan::from_json(alloc, self.held.plan.as_bytes()).ok()?;
        let disk = MemoryDisk::of(alloc, Vec::new(alloc)).ok()?;
        let Ok(journal) = Journal::create(alloc, disk, &plan) else {
            return None;
        };
        let mut bytes = Vec::from_slice(alloc, journal.into_disk().bytes()).ok()?;
        if let Some(byte) = bytes.get_mut(20) {
            *byte ^= u8::from(self.is_damaged);
        }
        Some(bytes)
    }
}

impl Shelf<FaultyDisk> for Foul {
    fn open(&self, alloc: Global, _plan: &Plan) -> Result<Option<FaultyDisk>, ShelfFault> {
        let Some(bytes) = self.bytes(alloc) else {
            return Err(ShelfFault::Memory);
        };
        match FaultyDisk::of(alloc, bytes, 0, Tear::Nothing) {
            Ok(disk) => Ok(Some(disk)),
            Err(_) => Err(ShelfFault::Memory),
        }
    }
}

/// What a thread does for a study, which it submits first.
#[derive(Clone, Copy)]
pub(crate) enum Deed {
    /// Nothing more.
    Submit,
    /// Works until a cell is done, and asks for its line, twice if it comes.
    Row(u32),
    /// Waits for the line of a cell.
    Wait(u32),
    /// Asks for the line of a cell if it was given before.
    Again(u32),
    /// Works until nothing is left.
    WorkOff,
    /// Asks how many trials are counted.
    Count,
    /// Notes that a piece is lost.
    Lose(u64),
    /// Gives a piece up, and once more, which is not noted.
    LoseTwice(u64),
    /// Ends the work of all.
    Stop,
}

/// How a deed ended.
#[derive(Clone, Copy, PartialEq, Eq)]
pub(crate) enum End {
    /// In a slot of this number.
    Slot(u32),
    /// With the right line.
    Line,
    /// The line was not given before.
    NotGiven,
    /// The work may go on in other slots, or not.
    Worked(bool),
    /// This many trials are counted, which are not more than the study has.
    Counted(u64),
    /// The loss was noted, or not.
    Noted(bool),
    /// The work of all is ended.
    Ended,
    /// There was no slot for the study.
    NoSlot,
    /// The disk of the study had failed.
    Failed,
    /// A piece was lost.
    Lost,
    /// The work was ended before.
    Stopped,
    /// The slot has another study, or none, or one over other slips.
    Mismatch,
    /// With something that must not be.
    Wrong,
}

/// The end of who is refused a line.
fn end_of_fault(fault: NextRowFault) -> End {
    match fault {
        NextRowFault::Stopped => End::Stopped,
        NextRowFault::WorkMemory => End::Lost,
        NextRowFault::Checkpoint => End::Failed,
        NextRowFault::AuditMismatch => End::Mismatch,
    }
}

/// The end of who is given a line, if it is that of the cell.
fn end_of_line(study: Study, cell: u32, line: &[u8]) -> End {
    match study.lines.lines().nth(cell as usize) {
        Some(right) if line.strip_suffix(b"\n") == Some(right.as_bytes()) => End::Line,
        _ => End::Wrong,
    }
}

/// What a thread works with, wherever it works.
#[derive(Clone, Copy)]
pub(crate) struct Tools<'a, R> {
    pub rt: &'a R,
    pub alloc: Global,
}

/// A thread that comes to a hall with a pass.
#[derive(Clone, Copy)]
pub(crate) struct Guest<'a, M: CallLedger, K: CallLedger, R: Wait> {
    pub rt: &'a R,
    pub alloc: Global,
    pub hall: &'a Stormy<M, K>,
}

impl<M: CallLedger, K: CallLedger, R: Wait> Guest<'_, M, K, R> {
    /// Waits for the line of a cell.
    fn wait_for_row(&self, pass: &mut Pass<M>, opened: &Opened, study: Study, cell: u32) -> End
        requires own { pass.old.hall ≡ self.now.hall.now.id }
        requires slot { opened.now.study < self.now.hall.now.slots }
        ensures { pass.new.hall ≡ pass.old.hall }
    {
        if cell >= opened.plan.cells() {
            return End::Wrong;
        }
        match self.hall.next_row(self.rt, self.alloc, pass, opened, cell) {
            Ok(line) => end_of_line(study, cell, line.as_slice()),
            Err(fault) => end_of_fault(fault),
        }
    }

    /// Asks for the line of a cell if it was given before.
    fn ask_again(&self, opened: &Opened, study: Study, cell: u32) -> End
        requires { opened.now.study < self.now.hall.now.slots }
    {
        if cell >= opened.plan.cells() {
            return End::Wrong;
        }
        match self.hall.given_row(self.rt, self.alloc, opened, cell) {
            Ok(Some(line)) => end_of_line(study, cell, line.as_slice()),
            Ok(None) => End::NotGiven,
            Err(fault) => end_of_fault(fault),
        }
    }

    /// Works on an opened study until a cell is done, and asks for its line, twice if it comes.
    fn make_row(&self, pass: &mut Pass<M>, opened: &Opened, study: Study, cell: u32) -> End
        requires own { pass.old.hall ≡ self.now.hall.now.id }
        requires slot { opened.now.study < self.now.hall.now.slots }
        ensures { pass.new.hall ≡ pass.old.hall }
    {
        let wanted = StudyCell {
            study: opened.study,
            cell,
        };
        self.hall.work_on_cell(&self.env(), pass, wanted);
        match self.wait_for_row(pass, opened, study, cell) {
            End::Line => self.ask_again(opened, study, cell),
            end => end,
        }
    }

    /// Asks how many trials of an opened study are counted, which are not more than it has.
    fn ask_count(&self, pass: &mut Pass<M>, opened: &Opened) -> End
        requires { pass.old.hall ≡ self.now.hall.now.id }
        ensures { pass.new.hall ≡ pass.old.hall }
    {
        match self.hall.counted(pass, opened.study) {
            Ok(count) if count <= u64::from(opened.plan.trials()) => End::Counted(count),
            _ => End::Wrong,
        }
    }

    /// Gives a piece of a study up, twice: whether it is noted the first time alone.
    fn lose_twice(&self, pass: &mut Pass<M>, study: u32, piece: u64) -> End
        requires own { pass.old.hall ≡ self.now.hall.now.id }
        requires slot { study < self.now.hall.now.slots }
        ensures { pass.new.hall ≡ pass.old.hall }
    {
        let first = self.hall.give_up(self.rt, pass, study, piece);
        let second = self.hall.give_up(self.rt, pass, study, piece);
        End::Noted(first && !second)
    }

    /// What it works with, with a gate that lets all pass.
    pub(crate) fn env(&self) -> WorkEnv<'_, R, OpenGate> {
        WorkEnv {
            rt: self.rt,
            alloc: self.alloc,
            gate: &OpenGate,
        }
    }

    /// Works on an opened study until nothing is left of it.
    pub(crate) fn work_off(&self, pass: &mut Pass<M>, study: u32) -> End
        requires own { pass.old.hall ≡ self.now.hall.now.id }
        requires slot { study < self.now.hall.now.slots }
        ensures { pass.new.hall ≡ pass.old.hall }
    {
        let may_go_on = self.hall.work_off(&self.env(), pass, study);
        End::Worked(may_go_on)
    }

    /// Does a deed for an opened study, which is of this plan and has these lines.
    pub(crate) fn act_in(
        &self,
        pass: &mut Pass<M>,
        opened: &Opened,
        study: Study,
        deed: Deed,
    ) -> End
        requires own { pass.old.hall ≡ self.now.hall.now.id }
        requires slot { opened.now.study < self.now.hall.now.slots }
        ensures { pass.new.hall ≡ pass.old.hall }
    {
        match deed {
            Deed::Submit => End::Slot(opened.study),
            Deed::Row(cell) => self.make_row(pass, opened, study, cell),
            Deed::Wait(cell) => self.wait_for_row(pass, opened, study, cell),
            Deed::Again(cell) => self.ask_again(opened, study, cell),
            Deed::Count => self.ask_count(pass, opened),
            Deed::Lose(piece) => End::Noted(self.hall.give_up(self.rt, pass, opened.study, piece)),
            Deed::LoseTwice(piece) => self.lose_twice(pass, opened.study, piece),
            Deed::WorkOff => self.work_off(pass, opened.study),
            Deed::Stop => {
                self.hall.stop(self.rt);
                End::Ended
            }
        }
    }

    /// Submits a study, and does a deed for it.
    pub(crate) fn act<S: Shelf<FaultyDisk>>(
        &self,
        pass: &mut Pass<M>,
        shelf: &S,
        study: Study,
        deed: Deed,
    ) -> End
        requires own { pass.old.hall ≡ self.now.hall.now.id }
        requires trusted { self.now.hall.now.is_trusted ≡ true → S.is_true shelf.now ≡ true }
        ensures { pass.new.hall ≡ pass.old.hall }
    {
        let Ok(plan) = Plan::from_json(self.alloc, study.plan.as_bytes()) else {
            return End::Wrong;
        };
        match self.hall.submit(self.rt, self.alloc, pass, plan, shelf) {
            Ok(opened) => self.act_in(pass, &opened, study, deed),
            Err(SubmitFault::SlotsFull) => End::NoSlot,
            Err(SubmitFault::Checkpoint) => End::Failed,
            Err(SubmitFault::WorkMemory) => End::Wrong,
        }
    }
}

/// Puts a pass of a hall among others of it.
pub(crate) fn put_back<M: CallLedger, K: CallLedger>(
    hall: &Stormy<M, K>,
    passes: &mut Vec<Pass<M>>,
    pass: Pass<M>,
) -> Result<(), Fail>
    requires own { All (λ p. p.hall ≡ hall.now.id) passes.old.items }
    requires pass { pass.hall ≡ hall.now.id }
    ensures { IfOk result (λ _. All (λ p. p.hall ≡ hall.now.id) passes.new.items) }
{
    passes.push(pass)?;
    Ok(())
}

/// Closes a hall with its passes.
pub(crate) fn close_hall<M: CallLedger, K: CallLedger>(
    alloc: Global,
    hall: Stormy<M, K>,
    passes: Vec<Pass<M>>,
) -> Result<Report, Fail>
    requires ledgers { (M.all ≡ M.parts) × (K.all ≡ K.parts) }
    requires own { All (λ p. p.hall ≡ hall.id) passes.items }
{
    match hall.close(alloc, passes) {
        Ok(report) => Ok(report),
        Err(_) => Err("the hall was not closed")?,
    }
}
