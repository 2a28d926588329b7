ghost use Rattle.std.proofs.Props.{props};
ghost use Rattle.std.specs.Prelude.{◌≡◌, ◌+◌, ◌<◌, ◌≤◌, ◌&&◌, ◌↔◌, true, false, not, [], length, take};
ghost use Rattle.std.specs.Prelude.{Some, None, is_some, IsTrue, IfOk, IfSome, IfNone, OnOk, OnErr, IfErr, IsErrOf};
ghost use Rattle.std.specs.Prelude.{◌⊎◌, MatchOption, replicate, slice_index_or, slice_set};
ghost use Rattle.std.specs.List.{list_any};
ghost use Rattle.cut_ledger.specs.declared.lines.line.TheConstants.{LONGEST_LINE};
ghost use Rattle.cut_plan.specs.Cells.{cells_of};
ghost use Rattle.cut_slots.specs.Lines.{full_line};
ghost use Rattle.cut_slots.specs.Report.{calls_recorded, opening_recorded};
ghost use Rattle.cut_slots.specs.Trust.{IsSettledBy-prop, MayBegin, begun_props};
ghost use Rattle.cut_slots.specs.Slot.{CanNotBegin, has_journal_in, IsBegunOver};
ghost use Rattle.cut_slots.specs.Start.{IsLeftOf, start_in};
ghost use Rattle.cut_slots.specs.Slot.{calls_in, IsBegunStudy, base_of, kept_of, unkept_of, Matches};
ghost use Rattle.cut_slots.specs.Slot.{TakesLoss, GivesLine, losses_of, lines_of};
ghost use Rattle.cut_book.specs.Book.{IsFresh};
ghost use Rattle.cut_ledger.specs.Slips.{AreGood};
ghost use Rattle.cut_ledger.specs.World.{AreTrue};
ghost use Rattle.cut_slots.specs.Slot.{IsOpenedAs, SaysWhyUndone, AnswersLine, AnswersAgain, IsNotDone};
ghost use Rattle.cut_slots.specs.Slot.{is_pending, remembered_after, piece_at, HasDone, HasPlan};
ghost use Rattle.cut_slots.specs.inside.Slot.{CanGive};

use crate::{CallCounter, CallLedger, NextRowFault, SlotReport};
use cut_book::{Book, BookFault, Opened, Shelf, SubmitFault, open_book};
use cut_disks::Disk;
use cut_journal::Journal;
use cut_outcome::Piece;
use cut_plan::Plan;
use cut_table::{RowFault, row};
use std::alloc::{AllocError, Global};
use std::sync::ledger::Share;

/// Whether a slot has the book of a plan.
#[derive(Clone, Copy)]
pub enum Match {
    /// It has no book.
    Free,
    /// It has.
    Same,
    /// It has the book of another plan.
    Other,
}

/// Why a call of a slot's book did nothing.
#[derive(Drop)]
pub enum CallFault {
    /// There is no book.
    NoBook,
    /// No further call can be counted.
    Full,
    /// The book refused it.
    Refused(BookFault),
}

/// The line of a cell of an opened study, which is asked for.
#[derive(Clone, Copy)]
pub struct Asked<'a> {
    pub opened: &'a Opened,
    pub cell: u32,
    pub ghost is_cell: { cell < length (cells_of opened.now.plan) },
}

/// A study that was opened, with its book, and with which of its lines were given.
#[derive(Drop)]
struct BegunStudy<D: Disk> {
    opened: Opened,
    book: Book<D>,
    given: Vec<bool>,
    ghost uncalled: { calls_in (Some book) ≡ 0 },
    ghost first: { take (length (base_of (Some book))) (kept_of (Some book)) ≡ base_of (Some book) },
    ghost unkept: { unkept_of (Some book) ≡ [] },
}

/// What a slot leaves at its end.
#[derive(Drop)]
pub struct EndedSlot<D: Disk, K: CallLedger> {
    /// What is reported of it.
    pub report: SlotReport,
    /// The share of its calls.
    pub kept: Share<K>,
    /// Whether an append of its study failed.
    pub is_broken: bool,
    /// The journal of its study, if that had one.
    pub journal: Option<Journal<D>>,
}

/// A place for the book of one study in a hall, with how many calls it had, and which of its lines were given.
#[derive(Drop)]
pub struct Slot<D: Disk, K: CallLedger> {
    pub(crate) book: Option<Book<D>>,
    pub(crate) kept: Share<K>,
    stopped: bool,
    /// Of each cell whether its line was given. If this is shorter, it is not remembered.
    given: Vec<bool>,
    ghost one_part: { kept.parts ≡ 1 },
    ghost counted: { kept.amount ≡ calls_in book },
    ghost first: { take (length (base_of book)) (kept_of book) ≡ base_of book },
    ghost unkept: { unkept_of book ≡ [] },
    ghost begun: { IfSome book
        (λ b. MayBegin K.trusts b.state.ledger.plan b.state.ledger.base) } by { Prim.hlevel begun_props },
    ghost opened: { IfSome K.opening (λ o. start_in D.log book ≡ Some o) } by { Prim.hlevel props },
}

impl<D: Disk + Drop, K: CallLedger> Slot<D, K> {
    /// A slot with the book of a study of which nothing was asked yet, or without one. It does not remember which
    /// lines of that study it gives.
    pub fn new(alloc: Global, book: Option<Book<D>>, kept: Share<K>) -> Slot<D, K>
        requires part { (kept.parts ≡ 1) × (kept.amount ≡ 0) }
        requires fresh { IfSome book (λ b. IsFresh b.state.ledger.plan b.size b) }
        requires begun { IfSome book (λ b. MayBegin K.trusts b.state.ledger.plan b.state.ledger.base) }
        requires opened { IfSome K.opening (λ o. start_in D.log book ≡ Some o) }
        ensures book { result.book ≡ book }
        ensures works { result.stopped ≡ false }
    {
        Slot {
            book,
            kept,
            stopped: false,
            given: Vec::new(alloc),
        }
    }

    /// Whether it has the book of a plan.
    pub fn match_with(&self, plan: &Plan) -> Match
        ensures { Matches result self.now.book plan.now }
    {
        let Some(book) = &self.book else {
            return Match::Free;
        };
        if book.ledger().plan().same(plan) {
            Match::Same
        } else {
            Match::Other
        }
    }

    /// Records in the book that a piece is lost.
    pub fn lose<M: CallLedger, C: CallCounter<M, K>>(
        &mut self,
        counter: &C,
        made: &mut Share<M>,
        piece: u64,
    ) -> Result<(), CallFault>
        requires { made.old.parts ≡ 1 }
        ensures taken { TakesLoss result piece self.old.book self.new.book }
        ensures full { IsErrOf result CallFault.Full → C.may_be_full counter.now }
        ensures stays { (self.new.stopped ≡ self.old.stopped) × (self.new.given ≡ self.old.given) }
        ensures calls { calls_in self.new.book ≡ calls_in self.old.book + losses_of result }
        ensures made { made.new.amount ≡ made.old.amount + losses_of result }
        ensures parts { made.new.parts ≡ 1 }
    {
        let Slot { book, kept, .. } = self;
        let Some(book) = book else {
            return Err(CallFault::NoBook);
        };
        if counter.count(made, kept).is_err() {
            return Err(CallFault::Full);
        }
        match book.lose(piece) {
            Ok(()) => Ok(()),
            Err(fault) => {
                counter.take_back(made, kept);
                Err(CallFault::Refused(fault))
            }
        }
    }

    /// The line that is asked for, once every trial of its cell is held; none while it can still come.
    pub fn line<M: CallLedger, C: CallCounter<M, K>>(
        &mut self,
        alloc: Global,
        counter: &C,
        made: &mut Share<M>,
        asked: Asked<'_>,
    ) -> Result<Option<Vec<u8>>, NextRowFault>
        requires part { made.old.parts ≡ 1 }
        ensures line { IfOk result (λ found.
            IfSome found (λ line. line.items
            ≡ full_line asked.entry.opened.now.plan asked.entry.opened.now.base asked.entry.cell)) }
        ensures short { IfOk result (λ found. IfSome found (λ line. length line.items ≤ LONGEST_LINE)) }
        ensures given { GivesLine result asked.entry.cell self.old.book self.new.book }
        ensures answers { AnswersLine result asked.entry.opened.now asked.entry.cell self.old.book }
        ensures waits { IfOk result (λ found. IfNone found (self.old.stopped ≡ false)) }
        ensures stopped { IsErrOf result NextRowFault.Stopped
            → (self.old.stopped ≡ true) ⊎ C.may_be_full counter.now }
        ensures remembered { self.new.given.items ≡ remembered_after result asked.entry.cell self.old.given.items }
        ensures stays { self.new.stopped ≡ self.old.stopped }
        ensures calls { calls_in self.new.book ≡ calls_in self.old.book + lines_of result }
        ensures made { made.new.amount ≡ made.old.amount + lines_of result }
        ensures parts { made.new.parts ≡ 1 }
    {
        if !self.can_give(counter, asked)? {
            return Ok(None);
        }
        let cell = asked.cell;
        let Slot {
            book,
            kept,
            given,
            ..
        } = self;
        let Some(book) = book else { unreachable!() };
        if counter.count(made, kept).is_err() {
            return Err(NextRowFault::Stopped);
        }
        match book.row(alloc, cell) {
            Ok(line) => {
                remember(given, cell);
                Ok(Some(line))
            }
            Err(_) => {
                counter.take_back(made, kept);
                Err(NextRowFault::WorkMemory)
            }
        }
    }

    /// Whether the line that is asked for can be given now; not while it can still come.
    fn can_give<M: CallLedger, C: CallCounter<M, K>>(
        &self,
        counter: &C,
        asked: Asked<'_>,
    ) -> Result<bool, NextRowFault>
        ensures answers { CanGive result asked.entry.opened.now asked.entry.cell self.now.book }
        ensures waits { IfOk result (λ is_done. is_done ≡ false → self.now.stopped ≡ false) }
        ensures stopped { IsErrOf result NextRowFault.Stopped
            → (self.now.stopped ≡ true) ⊎ C.may_be_full counter.now }
    {
        let Asked { opened, cell } = asked;
        let Some(book) = &self.book else {
            return Err(NextRowFault::AuditMismatch);
        };
        if !is_opened_as(book, opened) {
            return Err(NextRowFault::AuditMismatch);
        }
        if book.ledger().cell_done(cell) {
            return Ok(true);
        }
        may_still_come(book, self.stopped || counter.is_full())?;
        Ok(false)
    }

    /// Whether the line of a cell is still to come: the cell is not done, the book is whole, no piece is lost, and
    /// the slot works. Those who wait ask this at each wake-up: it takes the same short time whatever the study began
    /// with.
    pub fn is_pending(&self, cell: u32) -> bool
        ensures { result ≡ is_pending self.now.book self.now.stopped cell }
    {
        let Some(book) = &self.book else {
            return false;
        };
        let ledger = book.ledger();
        cell < ledger.plan().cells()
            && !ledger.cell_done(cell)
            && !book.is_broken()
            && !book.has_lost()
            && !self.stopped
    }

    /// The line that is asked for, if it was given before: it is read from the ledger once more, which is no call
    /// of the book.
    pub fn line_again(
        &self,
        alloc: Global,
        asked: Asked<'_>,
    ) -> Result<Option<Vec<u8>>, NextRowFault>
        ensures line { IfOk result (λ found.
            IfSome found (λ line. line.items
            ≡ full_line asked.entry.opened.now.plan asked.entry.opened.now.base asked.entry.cell)) }
        ensures short { IfOk result (λ found. IfSome found (λ line. length line.items ≤ LONGEST_LINE)) }
        ensures answers { AnswersAgain result asked.entry.opened.now asked.entry.cell self.now.book }
        ensures given { IfOk result (λ found.
            IfSome found (λ line. slice_index_or self.now.given.items asked.entry.cell false ≡ true)) }
        ensures not_given { IfOk result (λ found. IfNone found
            (slice_index_or self.now.given.items asked.entry.cell false ≡ true
            → IsNotDone self.now.book asked.entry.cell)) }
    {
        let Asked { opened, cell } = asked;
        let Some(book) = &self.book else {
            return Err(NextRowFault::AuditMismatch);
        };
        let is_its_book = is_opened_as(book, opened);
        if !is_its_book {
            return Err(NextRowFault::AuditMismatch);
        }
        if self.given.get(cell as usize) != Some(&true) {
            return Ok(None);
        }
        match row(alloc, book.ledger(), cell) {
            Ok(line) => Ok(Some(line)),
            Err(RowFault::NotDone(_)) => Ok(None),
            Err(RowFault::Memory) => Err(NextRowFault::WorkMemory),
        }
    }

    /// Begins a study in a slot that has no book: its disk comes from the shelf, and the journal on it is opened again,
    /// or made where it holds no study. If it is refused the slot is as it was.
    pub fn begin<S: Shelf<D>>(
        &mut self,
        alloc: Global,
        study: u32,
        plan: Plan,
        shelf: &S,
        piece_size: u32,
    ) -> Result<Opened, SubmitFault>
        requires free { self.old.book ≡ None }
        requires size { 1 ≤ piece_size }
        requires trusted { K.trusts ≡ true → S.is_true shelf.now ≡ true }
        ensures opened { IfOk result (λ o. (o.study ≡ study) × (o.plan ≡ plan)) }
        ensures base { IfOk result (λ o. MayBegin K.trusts plan o.base) }
        ensures begun { IfOk result (λ o. IsBegunStudy o piece_size self.new.book) }
        ensures over { OnOk result (IsBegunOver (S.gives shelf.now plan) (has_journal_in self.new.book)) }
        ensures why { IfErr result (CanNotBegin (S.gives shelf.now plan)) }
        ensures none_given { OnOk result (self.new.given.items ≡ replicate (length (cells_of plan)) false) }
        ensures stays { self.new.stopped ≡ self.old.stopped }
        ensures err { OnErr result (self.new ≡ self.old) }
    {
        let begun = open_study(alloc, study, plan, shelf, piece_size)?;
        Ok(self.keep(begun))
    }

    /// Keeps a study that was begun: what was opened.
    fn keep(&mut self, begun: BegunStudy<D>) -> Opened
        requires free { self.old.book ≡ None }
        requires begun { MayBegin K.trusts begun.book.state.ledger.plan begun.book.state.ledger.base }
        requires any { K.opening ≡ None }
        ensures opened { result ≡ begun.opened }
        ensures book { self.new.book ≡ Some begun.book }
        ensures given { self.new.given.items ≡ begun.given.items }
        ensures stays { self.new.stopped ≡ self.old.stopped }
    {
        let BegunStudy {
            opened,
            book,
            given,
        } = begun;
        self.book = Some(book);
        self.given = given;
        opened
    }

    /// What was opened in the slot, which has the book of this plan.
    pub fn opened(&self, alloc: Global, study: u32, plan: &Plan) -> Result<Opened, SubmitFault>
        requires { Matches Match.Same self.now.book plan.now }
        ensures opened { IfOk result (λ o. (o.study ≡ study) × (o.plan ≡ plan.now)) }
        ensures base { IfOk result (λ o. o.base ≡ base_of self.now.book) }
        ensures begun { IfOk result (λ o. MayBegin K.trusts plan.now o.base) }
        ensures why { IfErr result (λ e. e ≡ SubmitFault.WorkMemory) }
    {
        let Some(book) = &self.book else {
            unreachable!()
        };
        Ok(opened_of(alloc, study, book)?)
    }

    /// Ends the work in the slot.
    pub fn stop(&mut self)
        ensures book { self.new.book ≡ self.old.book }
        ensures stopped { self.new.stopped ≡ true }
    {
        self.stopped = true;
    }

    /// Whether the work in the slot was ended.
    pub fn is_stopped(&self) -> bool
        ensures { result ≡ self.now.stopped }
    {
        self.stopped
    }

    /// Ends the slot. Where its study began with a known start, the journal is what that study leaves.
    pub fn end(self) -> EndedSlot<D, K>
        ensures part { result.kept.parts ≡ 1 }
        ensures calls { result.kept.amount ≡ calls_recorded result.report.history }
        ensures opened { IfSome K.opening (λ o. opening_recorded result.report.history ≡ Some o.opening) }
        ensures left { IfSome K.opening (λ o. IsLeftOf D.log o result.report result.is_broken result.journal) }
    {
        let Slot { book, kept, .. } = self;
        let Some(book) = book else {
            return EndedSlot {
                report: SlotReport::new(None, false),
                kept,
                is_broken: false,
                journal: None,
            };
        };
        let complete = book.ledger().complete();
        let is_broken = book.is_broken();
        let (history, journal) = book.into_parts();
        EndedSlot {
            report: SlotReport::new(Some(history), complete),
            kept,
            is_broken,
            journal,
        }
    }

    /// Whether there is nothing to work on yet: there is no book, and the work was not ended.
    pub fn is_idle(&self) -> bool
        ensures { result ≡ (not (is_some self.now.book) && not self.now.stopped) }
    {
        self.book.is_none() && !self.stopped
    }

    /// A copy of the study's plan, if there is a study.
    pub fn plan(&self, alloc: Global) -> Result<Option<Plan>, AllocError>
        ensures { IfOk result (λ found. MatchOption found (self.now.book ≡ None) (HasPlan self.now.book)) }
    {
        match &self.book {
            Some(book) => Ok(Some(book.ledger().plan().try_clone(alloc)?)),
            None => Ok(None),
        }
    }

    /// Whether there is a study, and this cell of it is done.
    pub fn is_done(&self, cell: u32) -> bool
        ensures { IsTrue result ↔ HasDone self.now.book cell }
    {
        match &self.book {
            Some(book) => cell < book.ledger().plan().cells() && book.ledger().cell_done(cell),
            None => false,
        }
    }

    /// The piece of a number in the book's division.
    pub(crate) fn piece(&self, number: u64) -> Option<Piece>
        ensures { result ≡ piece_at self.now.book number }
    {
        match &self.book {
            Some(book) => book.piece(number),
            None => None,
        }
    }
}

/// Opens the book of a plan's study, whose disk comes from the shelf, with what is remembered of its lines: none was
/// given yet.
fn open_study<D: Disk + Drop, S: Shelf<D>>(
    alloc: Global,
    study: u32,
    plan: Plan,
    shelf: &S,
    piece_size: u32,
) -> Result<BegunStudy<D>, SubmitFault>
    requires { 1 ≤ piece_size }
    ensures opened { IfOk result (λ r. (r.opened.study ≡ study) × (r.opened.plan ≡ plan)) }
    ensures fresh { IfOk result (λ r. IsFresh plan piece_size r.book) }
    ensures base { IfOk result (λ r. r.book.state.ledger.base ≡ r.opened.base) }
    ensures good { IfOk result (λ r. AreGood plan r.opened.base) }
    ensures trusted { S.is_true shelf.now ≡ true → IfOk result (λ r. AreTrue plan r.opened.base) }
    ensures over { IfOk result (λ r. IsBegunOver (S.gives shelf.now plan) (is_some r.book.journal)) }
    ensures why { IfErr result (CanNotBegin (S.gives shelf.now plan)) }
    ensures none_given { IfOk result (λ r. r.given.items ≡ replicate (length (cells_of plan)) false) }
{
    let given = none_given(alloc, &plan)?;
    let book = open_book(alloc, plan, shelf, piece_size)?;
    let opened = opened_of(alloc, study, &book)?;
    Ok(BegunStudy {
        opened,
        book,
        given,
    })
}

/// What is remembered of the lines of a plan's cells at first: that none was given.
fn none_given(alloc: Global, plan: &Plan) -> Result<Vec<bool>, AllocError>
    ensures { IfOk result (λ given. given.items ≡ replicate (length (cells_of plan.now)) false) }
{
    vec![in alloc; false; plan.cells() as usize]
}

/// What was opened in a slot that has this book.
fn opened_of<D: Disk + Drop>(
    alloc: Global,
    study: u32,
    book: &Book<D>,
) -> Result<Opened, AllocError>
    ensures opened { IfOk result (λ o. (o.study ≡ study) × (o.plan ≡ book.now.state.ledger.plan)) }
    ensures base { IfOk result (λ o. o.base ≡ book.now.state.ledger.base) }
{
    let ledger = book.ledger();
    let base = ledger.base().try_clone(alloc)?;
    let plan = ledger.plan().try_clone(alloc)?;
    Ok(Opened { study, plan, base })
}

/// Notes that the line of a cell was given.
fn remember(given: &mut Vec<bool>, cell: u32)
    ensures { given.new.items ≡ slice_set given.old.items cell true }
{
    if let Some(is_given) = given.get_mut(cell as usize) {
        *is_given = true;
    }
}

/// Whether a book is of an opened study: of its plan, and begun with its slips.
fn is_opened_as<D: Disk + Drop>(book: &Book<D>, opened: &Opened) -> bool
    ensures yes { result ≡ true → IsOpenedAs opened.now book.now }
    ensures no { result ≡ false → IsOpenedAs opened.now book.now → ⊥ }
{
    let ledger = book.ledger();
    ledger.plan().same(&opened.plan) && ledger.same_base(&opened.base)
}

/// Whether a cell that is not done can still be: the book is whole, no piece is lost, and work goes on.
fn may_still_come<D: Disk + Drop>(book: &Book<D>, stopped: bool) -> Result<(), NextRowFault>
    ensures ok { OnOk result ((book.now.state.broken ≡ false)
        × (list_any (λ is_lost. is_lost) book.now.state.lost ≡ false) × (stopped ≡ false)) }
    ensures err { IfErr result (λ fault. SaysWhyUndone fault book.now.state) }
    ensures stopped { IsErrOf result NextRowFault.Stopped → stopped ≡ true }
{
    if book.is_broken() {
        return Err(NextRowFault::Checkpoint);
    }
    if book.has_lost() {
        return Err(NextRowFault::WorkMemory);
    }
    if stopped {
        return Err(NextRowFault::Stopped);
    }
    Ok(())
}
