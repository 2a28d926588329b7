ghost use Rattle.std.specs.Prelude.{◌≡◌, ◌<◌, ◌≤◌, ⊤, [], ◌∷◌, Some, length, vec_len, All, IfOk, IfSome};
ghost use Rattle.std.specs.Prelude.{IfErr, OnOk};
ghost use Rattle.cut_slots.specs.Report.{calls_recorded, calls_in_all, made_in_all};
ghost use Rattle.cut_slots.specs.Report.{IsAudited, opening_recorded};
ghost use Rattle.cut_slots.specs.Start.{AreOpenedWith, IsLeftOf};
ghost use Rattle.cut_hall.specs.Closing.{IsNotClosed, IsStudyEnd};

use crate::hall::LockedSlot;
use crate::{CallLedger, Hall, NotClosed, Pass, Report, SlotReport};
use cut_board::Board;
use cut_disks::Disk;
use cut_journal::Journal;
use cut_slots::{Accounts, EndedSlot, Parts, audit, lacks_passes, take_apart};
use std::alloc::{AllocError, Global};
use std::marker::Model;
use std::sync::ledger::Share;

/// The reports of all slots, and the share of the calls that all of them had.
#[derive(Drop)]
struct EndedSlots<K: CallLedger> {
    slots: Vec<SlotReport>,
    kept: Share<K>,
}

/// How the only study of a hall ended.
#[derive(Drop)]
pub struct ClosedStudy<D: Disk> {
    /// What became of its slot, or why the hall was not closed.
    pub report: Result<Report, NotClosed<()>>,
    /// Whether an append of the study failed.
    pub is_broken: bool,
    /// The study's journal, if it had one.
    pub journal: Option<Journal<D>>,
}

/// What compares the counts of passes with those of slots, once the work in a hall has ended. Contracts see the hall.
#[derive(Drop)]
struct Auditor<M: CallLedger, K: CallLedger> {
    board: Board,
    accounts: Accounts<M, K>,
    passes: u32,
}

impl<M: CallLedger, K: CallLedger> Model for Auditor<M, K> {
    ghost use Rattle.std.specs.Prelude.{◌≡◌, ◌≤◌};
    ghost use Rattle.cut_board.specs.Names.{board_id, studies_of, seats_of};
    ghost use Rattle.cut_hall.specs.Hall.{HallValue};

    ghost Value = { HallValue };

    ghost view = { λ a.
        record {
          id = board_id a.board;
          slots = studies_of a.board;
          passes = seats_of a.board;
          is_trusted = K.trusts;
          opening = K.opening;
        } };

    ghost invariant = { λ a.
        (a.passes ≡ seats_of a.board)
        × (1 ≤ studies_of a.board)
        × (studies_of a.board ≤ 64)
        × (1 ≤ seats_of a.board)
        × (seats_of a.board ≡ M.all)
        × (studies_of a.board ≡ K.all) };
}

impl<M: CallLedger, K: CallLedger> Auditor<M, K> {
    /// Takes all passes, and compares what they counted with what the slots say.
    fn audit<T: Drop>(
        self,
        alloc: Global,
        passes: Vec<Pass<M>>,
        ends: EndedSlots<K>,
    ) -> Result<Report, NotClosed<T>>
        requires own { All (λ p. p.hall ≡ self.id) passes.items }
        requires enough { self.passes ≤ length passes.items }
        requires ledgers { (M.all ≡ M.parts) × (K.all ≡ K.parts) }
        requires slots { length ends.slots.items ≡ self.slots }
        requires kept { (ends.kept.parts ≡ self.slots) × (ends.kept.amount ≡ calls_in_all ends.slots.items) }
        requires opened { AreOpenedWith self.opening ends.slots.items }
        ensures same { IfOk result (λ slots. slots ≡ ends.slots.items) }
        ensures whole { OnOk result (length passes.items ≡ self.passes) }
        ensures calls { IfOk result (λ slots. calls_in_all slots ≡ made_in_all passes.items) }
        ensures audit { IfOk result (λ slots. IsAudited slots passes.items) }
        ensures why { IfErr result (λ e. IsNotClosed (λ _. ⊥) self passes.items e) }
    {
        let Auditor {
            board,
            mut accounts,
            passes: _,
        } = self;
        let Ok(parts) = take_apart(alloc, &board, passes) else {
            return Err(NotClosed::Memory);
        };
        let Parts { seats, mut made } = parts;
        let Ok(totals) = board.finish(alloc, seats) else {
            return Err(NotClosed::Memory);
        };
        let EndedSlots { slots, mut kept } = ends;
        accounts.compare(&mut made, &mut kept);
        match audit(&totals, slots) {
            Ok(report) => Ok(report),
            Err(mismatch) => Err(NotClosed::AuditMismatch(mismatch)),
        }
    }

    /// The same where there is one slot, with its report and the share of its calls. Passes may be missing.
    fn audit_one(
        self,
        alloc: Global,
        passes: Vec<Pass<M>>,
        report: SlotReport,
        kept: Share<K>,
    ) -> Result<Report, NotClosed<()>>
        requires own { All (λ p. p.hall ≡ self.id) passes.items }
        requires ledgers { (M.all ≡ M.parts) × (K.all ≡ K.parts) }
        requires one { self.slots ≡ 1 }
        requires kept { (kept.parts ≡ 1) × (kept.amount ≡ calls_recorded report.history) }
        requires opened { IfSome self.opening (λ o. opening_recorded report.history ≡ Some o.opening) }
        ensures same { IfOk result (λ slots. slots ≡ report ∷ []) }
        ensures whole { OnOk result (length passes.items ≡ self.passes) }
        ensures calls { IfOk result (λ slots. calls_in_all slots ≡ made_in_all passes.items) }
        ensures audit { IfOk result (λ slots. IsAudited slots passes.items) }
        ensures why { IfErr result (λ e. IsNotClosed (λ _. ⊤) self passes.items e) }
    {
        if lacks_passes(&passes, self.passes) {
            return Err(NotClosed::SeatMissing(()));
        }
        let mut slots = Vec::new(alloc);
        let Ok(()) = slots.push(report) else {
            return Err(NotClosed::Memory);
        };
        self.audit(alloc, passes, EndedSlots { slots, kept })
    }
}

impl<D: Disk + Drop, M: CallLedger, K: CallLedger> Hall<D, M, K> {
    /// Ends the hall, which takes all its passes, and reports what became of each slot. The calls that the slots'
    /// histories have together are as many as the passes made together, and what the passes counted of a study is what
    /// its history accepted; if these differ, that is reported, with what became of all slots. Of a hall that was made
    /// of a book the one slot's history begins with what that book was opened with. Where passes are missing, the hall
    /// and these passes come back as they were; if it is refused otherwise, they don't.
    pub fn close(
        self,
        alloc: Global,
        passes: Vec<Pass<M>>,
    ) -> Result<Report, NotClosed<(Hall<D, M, K>, Vec<Pass<M>>)>>
        requires own { All (λ p. p.hall ≡ self.id) passes.items }
        requires ledgers { (M.all ≡ M.parts) × (K.all ≡ K.parts) }
        ensures slots { IfOk result (λ slots. length slots ≡ self.slots) }
        ensures whole { OnOk result (length passes.items ≡ self.passes) }
        ensures calls { IfOk result (λ slots. calls_in_all slots ≡ made_in_all passes.items) }
        ensures audit { IfOk result (λ slots. IsAudited slots passes.items) }
        ensures opened { IfOk result (λ slots. AreOpenedWith self.opening slots) }
        ensures why { IfErr result (λ e. IsNotClosed
            (λ back. (back.0 ≡ self) × (back.1.items ≡ passes.items))
            self passes.items e) }
    {
        if lacks_passes(&passes, self.passes) {
            return Err(NotClosed::SeatMissing((self, passes)));
        }
        let Hall {
            board,
            places,
            accounts,
            passes: given,
            piece_size: _,
        } = self;
        let Ok(ends) = end_all(alloc, places) else {
            return Err(NotClosed::Memory);
        };
        let auditor = Auditor {
            board,
            accounts: accounts.into_inner(),
            passes: given,
        };
        auditor.audit(alloc, passes, ends)
    }

    /// Ends a hall of one slot as `close` does, and gives back the journal of its study, however that ends. Passes that
    /// are missing are reported, and those that were brought are gone.
    pub fn close_study(self, alloc: Global, passes: Vec<Pass<M>>) -> ClosedStudy<D>
        requires own { All (λ p. p.hall ≡ self.id) passes.items }
        requires ledgers { (M.all ≡ M.parts) × (K.all ≡ K.parts) }
        requires one { self.slots ≡ 1 }
        ensures slots { IfOk result.report (λ slots. length slots ≡ 1) }
        ensures whole { OnOk result.report (length passes.items ≡ self.passes) }
        ensures calls { IfOk result.report (λ slots. calls_in_all slots ≡ made_in_all passes.items) }
        ensures audit { IfOk result.report (λ slots. IsAudited slots passes.items) }
        ensures opened { IfOk result.report (λ slots. AreOpenedWith self.opening slots) }
        ensures why { IfErr result.report (λ e. IsNotClosed (λ _. ⊤) self passes.items e) }
        ensures ends { IsStudyEnd D.log self.opening result.report result.is_broken result.journal }
    {
        let Hall {
            board,
            mut places,
            accounts,
            passes: given,
            piece_size: _,
        } = self;
        let EndedSlot {
            report,
            kept,
            is_broken,
            journal,
        } = places.remove(0).end();
        let auditor = Auditor {
            board,
            accounts: accounts.into_inner(),
            passes: given,
        };
        ClosedStudy {
            report: auditor.audit_one(alloc, passes, report, kept),
            is_broken,
            journal,
        }
    }
}

/// Ends all slots, in order.
fn end_all<D: Disk + Drop, K: CallLedger>(
    alloc: Global,
    mut places: Vec<LockedSlot<D, K>>,
) -> Result<EndedSlots<K>, AllocError>
    requires some { 0 < vec_len places }
    ensures slots { IfOk result (λ ends. length ends.slots.items ≡ vec_len places) }
    ensures kept { IfOk result (λ ends.
        (ends.kept.parts ≡ vec_len places) × (ends.kept.amount ≡ calls_in_all ends.slots.items)) }
    ensures opened { IfOk result (λ ends. AreOpenedWith K.opening ends.slots.items) }
{
    let mut slots = Vec::with_capacity(alloc, places.len())?;
    let EndedSlot {
        report,
        mut kept,
        ..
    } = places.remove(0).end();
    slots.push(report)?;
    for place in places {
        let EndedSlot {
            report,
            kept: more,
            ..
        } = place.end();
        slots.push(report)?;
        kept.merge(more);
    }
    Ok(EndedSlots { slots, kept })
}

impl<D: Disk + Drop, K: CallLedger> LockedSlot<D, K> {
    /// Ends the slot.
    fn end(self) -> EndedSlot<D, K>
        ensures part { result.kept.parts ≡ 1 }
        ensures calls { result.kept.amount ≡ calls_recorded result.report.history }
        ensures opened { IfSome K.opening (λ o. opening_recorded result.report.history ≡ Some o.opening) }
        ensures left { IfSome K.opening (λ o. IsLeftOf D.log o result.report result.is_broken result.journal) }
    {
        let LockedSlot { slot, .. } = self;
        slot.into_inner().end()
    }
}
