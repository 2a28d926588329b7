ghost use Rattle.std.specs.Prelude.{◌≡◌, ◌+◌, ◌^◌, ◌<◌, ◌≤◌, ◌++◌, [], ◌∷◌, ℕ, List, None, Some, Ok, true, false};
ghost use Rattle.std.specs.Prelude.{length, is_some, replicate, slice_get, slice_index_or, if◌then◌else◌};
ghost use Rattle.std.specs.Prelude.{IsTrue, IfSome, IfNone, IfOk, IfErr, OnOk, IsErr, IsErrOf, IsSome, All};
ghost use Rattle.std.specs.Prelude.{option_copied};
ghost use Rattle.std.specs.List.{list_any};
ghost use Rattle.cut_ledger.specs.declared.lines.line.TheConstants.{LONGEST_LINE};
ghost use Rattle.cut_faults.specs.Failures.{one_more};
ghost use Rattle.cut_plan.specs.Cells.{cells_of};
ghost use Rattle.cut_outcome.specs.Sum.{is_piece};
ghost use Rattle.cut_disks.specs.State.{IsImage};
ghost use Rattle.cut_disks.specs.Log.{IsKnown, on};
ghost use Rattle.cut_ledger.specs.Machine.{opened, reply_to, after, slip_of};
ghost use Rattle.cut_ledger.specs.Contents.{over_base};
ghost use Rattle.cut_ledger.specs.Gaps.{pieces_of};
ghost use Rattle.cut_ledger.specs.Slips.{AreGood};
ghost use Rattle.cut_ledger.specs.World.{HasTrueResult};
ghost use Rattle.cut_ledger.specs.Refusals.{is_same_plan};
ghost use Rattle.cut_ledger.specs.declared.event.Event.TheVariants as event;
ghost use Rattle.cut_ledger.specs.declared.event.Reply.TheVariants as reply;
ghost use Rattle.cut_faults.specs.declared.code.FaultCode.TheVariants as code;
ghost use Rattle.cut_journal.specs.Reading.{reading};
ghost use Rattle.cut_journal.specs.Laws.{IsResumed};
ghost use Rattle.cut_table.specs.Table.{row_of};
ghost use Rattle.cut_book.specs.declared.call.Call.TheVariants as call;
ghost use Rattle.cut_book.specs.History.{opened_by, LeadsTo};
ghost use Rattle.cut_book.specs.Book.{BookValue, opening_of, failures_of, answer_of, HandsIn, IsHandInFault, AsksRow};
ghost use Rattle.cut_book.specs.Book.{IsOpeningFault, faults_after, FollowsState, LeavesResumed};
ghost use Rattle.cut_book.specs.Kept.{disk_start_of, IsLeftWith};
ghost use Rattle.cut_book.specs.inside.Book.{IsFree, IsRefused};
ghost use Rattle.cut_book.specs.Book.{IsAsKnown, failed_since};

use crate::append::append;
use crate::{Answer, BookFault, Call, History};
use cut_disks::Disk;
use cut_journal::{Journal, laws};
use cut_ledger::{Division, Ledger, OfferFault, Slip, slip_of};
use cut_outcome::{Piece, PieceResult};
use cut_plan::Plan;
use cut_sets::bits::BitList;
use cut_table::{RowFault, row};
use std::alloc::Global;
use std::marker::Model;

/// A study under way: its ledger, its journal if it has one, which of its pieces are lost, and its history.
///
/// Contracts see the journal; the state of the study, as the machine of a run has it, though what is drawn and what
/// wires took is not a book's; the size of its pieces; its calls; and how many calls of the disk had failed when it was
/// opened. What is said of the bytes on a disk is said if they are known.
#[derive(Drop)]
pub struct Book<D: Disk> {
    ledger: Ledger,
    journal: Option<Journal<D>>,
    division: Division,
    lost: BitList,
    /// How many pieces are not lost.
    losable: u64,
    history: History,
    broken: bool,
    failed: u64,
}

impl<D: Disk> Model for Book<D> {
    ghost use Rattle.cut_book.specs.Book.{BookValue};
    ghost use Rattle.cut_book.specs.inside.Book.{state_in, book_value_in, IsBook};

    ghost Value = { BookValue D };

    ghost view = { λ b. book_value_in b.journal
        (state_in b.ledger.contents b.journal b.division b.lost b.history b.broken)
        b.history b.failed };

    ghost invariant = { λ b. IsBook D.log b.journal
        (state_in b.ledger.contents b.journal b.division b.lost b.history b.broken)
        b.history b.losable b.failed };
}

impl<D: Disk> Book<D> {
    /// Opens a study over slips, with its journal if it has one, and divides the other trials into pieces of this size.
    /// It is refused by the number of the first slip that is not a piece of the plan, has a trial of an earlier one, or
    /// whose totals are not possible ones. A journal is given up then: [`Book::over`] hands it back.
    ///
    /// The journal is as `create` or `reopen` answered it for that plan, and the slips are those that it answered.
    pub fn new(
        alloc: Global,
        plan: Plan,
        journal: Option<Journal<D>>,
        slips: &[Slip],
        piece_size: u32,
    ) -> Result<Book<D>, BookFault>
    where
        D: Drop,
        requires size { 1 ≤ piece_size }
        requires journal { IfSome journal (λ log.
            (log.plan ≡ plan) × (log.count ≡ length slips.now) × (log.doubtful ≡ None)) }
        requires read { IfSome journal (λ log. IsKnown (D.log log.disk) → reading plan (on (D.log log.disk)).bytes ≡ Ok slips.now) }
        ensures state { IfOk result (λ b. b.state ≡ opened plan (is_some journal) slips.now piece_size) }
        ensures begun { IfOk result (λ b.
            (b.journal ≡ journal) × (b.size ≡ piece_size) × (b.calls ≡ [])) }
        ensures failed { IfOk result (λ b. b.failed ≡ failures_of D.log journal) }
        ensures good { OnOk result (AreGood plan slips.now) }
        ensures err { IfErr result (λ e. IsOpeningFault plan slips.now e) }
    {
        match Book::over(alloc, plan, journal, slips, piece_size) {
            Ok(book) => Ok(book),
            Err((fault, _journal)) => Err(fault),
        }
    }

    /// Opens a study as [`Book::new`] does. If it is refused, the journal comes back as it was.
    pub fn over(
        alloc: Global,
        plan: Plan,
        journal: Option<Journal<D>>,
        slips: &[Slip],
        piece_size: u32,
    ) -> Result<Book<D>, (BookFault, Option<Journal<D>>)>
        requires size { 1 ≤ piece_size }
        requires journal { IfSome journal (λ log.
            (log.plan ≡ plan) × (log.count ≡ length slips.now) × (log.doubtful ≡ None)) }
        requires read { IfSome journal (λ log. IsKnown (D.log log.disk) → reading plan (on (D.log log.disk)).bytes ≡ Ok slips.now) }
        ensures state { IfOk result (λ b. b.state ≡ opened plan (is_some journal) slips.now piece_size) }
        ensures begun { IfOk result (λ b.
            (b.journal ≡ journal) × (b.size ≡ piece_size) × (b.calls ≡ [])) }
        ensures failed { IfOk result (λ b. b.failed ≡ failures_of D.log journal) }
        ensures good { OnOk result (AreGood plan slips.now) }
        ensures err { IfErr result (λ e. IsOpeningFault plan slips.now e.0 × (e.1 ≡ journal)) }
    {
        laws::journals_begin_with_their_runs();
        let failed = failures(&journal);
        let has_journal = journal.is_some();
        match begin(alloc, plan, has_journal, slips, piece_size) {
            Ok((ledger, division, lost, history)) => Ok(Book {
                ledger,
                journal,
                losable: division.len(),
                division,
                lost,
                history,
                broken: false,
                failed,
            }),
            Err(fault) => Err((fault, journal)),
        }
    }

    /// Takes a result: keeps its slip, if there is a journal, and enters it into the ledger.
    ///
    /// It is refused, in this order: if memory runs out for its place in the history; with Checkpoint if an append has
    /// failed before; as a stranger, or an overlap; if memory runs out in the ledger; and with Checkpoint if the disk
    /// fails now, after which nothing is taken any more. Every call is added to the history, unless memory ran out.
    ///
    /// Whatever a crash leaves of the disk at any moment says the run as it is resumed after an append that failed.
    pub fn hand_in(&mut self, offered: &PieceResult) -> Result<(), BookFault>
        ensures answer { HandsIn (answer_of result self.old.state) offered.now self.old self.new }
        ensures only_faults { IfErr result IsHandInFault }
        ensures journal { IsErrOf result BookFault.Checkpoint → IsSome self.old.journal }
        ensures risen { IsErrOf result BookFault.Checkpoint →
            failures_of D.log self.new.journal ≡ one_more self.old.failed }
        ensures faults { failures_of D.log self.new.journal
            ≡ faults_after (answer_of result self.old.state) (failures_of D.log self.old.journal) }
        ensures known { IsAsKnown D.log self.old.journal self.new.journal }
        ensures start { disk_start_of D.log self.new ≡ disk_start_of D.log self.old }
        ensures moments { LeavesResumed D.log self.old.journal self.new.journal
            (after self.old.state (event.HandInDiskFails offered.now)) }
    {
        if let Some(answer) = self.refusal(offered) {
            return self.refuse(offered, answer);
        }
        self.is_resumable(offered);
        self.history.reserve()?;
        let cell = self.ledger.plan().cell_of(offered.piece().first);
        self.ledger.reserve(cell)?;
        match append(&mut self.journal, offered) {
            Ok(()) => {
                let call = call_of(&self.ledger, offered, Answer::Accepted);
                self.history.push(call);
                let _ = self.ledger.take(offered);
                Ok(())
            }
            Err(_) => {
                let call = call_of(&self.ledger, offered, Answer::DiskFails);
                self.history.push(call);
                self.broken = true;
                Err(BookFault::Checkpoint)
            }
        }
    }

    /// Notes that the piece of this number, counted from 0 in the division, is lost. Takes no memory.
    pub fn lose(&mut self, piece: u64) -> Result<(), BookFault>
        ensures ok { OnOk result ((reply_to self.old.state (event.Lose piece) ≡ reply.Noted)
            × (self.new ≡ record self.old {
              state = after self.old.state (event.Lose piece);
              calls = self.old.calls ++ call.Lose piece ∷ [];
            })) }
        ensures bad { IfErr result (λ e. (e ≡ BookFault.BadPiece)
            × (reply_to self.old.state (event.Lose piece) ≡ reply.Refused code.BadPiece)
            × (self.new ≡ self.old)) }
    {
        if self.is_lost(piece) {
            return Err(BookFault::BadPiece);
        }
        self.lost.set(piece);
        self.losable -= 1;
        self.history.lose(piece as u32);
        Ok(())
    }

    /// Whether the piece of this number is lost, or there is none.
    fn is_lost(&self, piece: u64) -> bool
        ensures value { result ≡ slice_index_or self.now.state.lost piece true }
        ensures few { result ≡ false → piece < 2 ^ 32 }
    {
        piece >= self.division.len() || self.lost.get(piece).unwrap_or(true)
    }

    /// The line of a cell, whose trials are all held, with a line feed. It has at most 294 bytes. That memory ran out
    /// for its place in the history is reported first, and that it ran out for the line only if they are all held.
    /// Every call is added to the history, unless memory ran out.
    pub fn row(&mut self, alloc: Global, cell: u32) -> Result<Vec<u8>, BookFault>
        requires { cell < length (cells_of self.old.state.ledger.plan) }
        ensures line { IfOk result (λ line. line.items ≡ row_of self.old.state.ledger cell) }
        ensures short { IfOk result (λ line. length line.items ≤ LONGEST_LINE) }
        ensures asked { AsksRow result cell self.old self.new }
    {
        self.history.reserve()?;
        match row(alloc, &self.ledger, cell) {
            Ok(line) => {
                self.history.push(Call::Row {
                    cell,
                    is_given: true,
                });
                Ok(line)
            }
            Err(RowFault::NotDone(undone)) => {
                self.history.push(Call::Row {
                    cell,
                    is_given: false,
                });
                Err(BookFault::NotDone(undone))
            }
            Err(RowFault::Memory) => Err(BookFault::Memory),
        }
    }

    /// The piece of this number, counted from 0 in the division.
    pub fn piece(&self, number: u64) -> Option<Piece>
        ensures value { result ≡ slice_get self.now.state.division number }
        ensures piece { IfSome result (λ p. IsTrue (is_piece self.now.state.ledger.plan p)) }
    {
        self.division.get(number)
    }

    /// How many calls the history has.
    pub fn history_len(&self) -> u64
        ensures { result ≡ length self.now.calls }
    {
        self.history.len()
    }

    /// The ledger.
    pub fn ledger(&self) -> &Ledger
        ensures { result.now.contents ≡ self.now.state.ledger }
    {
        &self.ledger
    }

    /// Whether an append has failed. Nothing fails without a journal.
    pub fn is_broken(&self) -> bool
        ensures value { result ≡ self.now.state.broken }
        ensures journal { IsTrue result → IsSome self.now.journal }
    {
        self.broken
    }

    /// Whether some piece is lost.
    pub fn has_lost(&self) -> bool
        ensures { result ≡ list_any (λ is_lost. is_lost) self.now.state.lost }
    {
        self.losable < self.lost.len()
    }

    /// The journal, if there is one. It is that of the study: the same slips are kept, and the same one is doubtful.
    /// Whatever a crash leaves of its disk now says the run as it is resumed. As many calls of the disk have failed as
    /// when the book was opened, and one more if it is broken.
    pub fn journal(&self) -> Option<&Journal<D>>
        ensures value { option_copied result ≡ self.now.journal }
        ensures has { self.now.state.has_journal ≡ is_some self.now.journal }
        ensures plan { IfSome self.now.journal (λ log. log.plan ≡ self.now.state.ledger.plan) }
        ensures kept { FollowsState D.log self.now.journal self.now.state }
        ensures images { IfSome self.now.journal (λ log. IsKnown (D.log log.disk) → (image : List ℕ) → IsImage (on (D.log log.disk)).stable image
            → IsResumed log.plan self.now.state image) }
        ensures faults { failures_of D.log self.now.journal
            ≡ failed_since self.now.state.broken self.now.failed }
    {
        self.leaves_resumed();
        self.journal.as_ref()
    }

    /// The history, which leads to the present state.
    pub fn history(&self) -> &History
        ensures opening { result.now.opening ≡ opening_of self.now }
        ensures calls { result.now.calls ≡ self.now.calls }
        ensures legal { LeadsTo (opened_by (opening_of self.now)) self.now.calls self.now.state }
    {
        &self.history
    }

    /// Gives the history back, which leads to the last state, and the journal, which is as the study leaves it.
    pub fn into_parts(self) -> (History, Option<Journal<D>>)
        ensures opening { result.0.opening ≡ opening_of self }
        ensures calls { result.0.calls ≡ self.calls }
        ensures legal { LeadsTo (opened_by (opening_of self)) self.calls self.state }
        ensures journal { result.1 ≡ self.journal }
        ensures left { IsLeftWith D.log (opening_of self) (disk_start_of D.log self) self.state result.1 }
    {
        (self.history, self.journal)
    }

    /// How a result is answered that is refused before its append: an append has failed, or the ledger
    /// refuses it.
    fn refusal(&self, offered: &PieceResult) -> Option<Answer>
        ensures some { IfSome result (IsRefused self.now.state offered.now) }
        ensures none { IfNone result (IsFree self.now.state offered.now) }
    {
        if self.broken {
            return Some(Answer::Broken);
        }
        match self.ledger.refusal(offered) {
            Some(OfferFault::Stranger) => Some(Answer::Stranger),
            Some(_) => Some(Answer::Overlap),
            None => None,
        }
    }

    /// Adds a result that is refused before its append to the history.
    fn refuse(&mut self, offered: &PieceResult, answer: Answer) -> Result<(), BookFault>
        requires { IsRefused self.old.state offered.now answer }
        ensures answer { HandsIn (answer_of result self.old.state) offered.now self.old self.new }
        ensures only_faults { IfErr result IsHandInFault }
        ensures refused { IsErr result }
        ensures broken { IsErrOf result BookFault.Checkpoint → IsSome self.old.journal }
        ensures risen { IsErrOf result BookFault.Checkpoint →
            failures_of D.log self.new.journal ≡ one_more self.old.failed }
        ensures faults { failures_of D.log self.new.journal
            ≡ faults_after (answer_of result self.old.state) (failures_of D.log self.old.journal) }
        ensures journal { self.new.journal ≡ self.old.journal }
        ensures moments { LeavesResumed D.log self.old.journal self.new.journal
            (after self.old.state (event.HandInDiskFails offered.now)) }
    {
        self.is_resumable(offered);
        self.history.reserve()?;
        let call = call_of(&self.ledger, offered, answer);
        self.history.push(call);
        answer.into_result()
    }

    /// Whatever a crash leaves of the disk now says the run as it is resumed.
    fn leaves_resumed(&self)
        ensures { IfSome self.now.journal (λ log. IsKnown (D.log log.disk) → (image : List ℕ) → IsImage (on (D.log log.disk)).stable image
            → IsResumed log.plan self.now.state image) }
    {
        laws::crashes_are_resumptions();
        if let Some(journal) = &self.journal {
            laws::journals_stay_readable(journal);
        }
    }

    /// Whatever a crash leaves of the disk now says the run as it is resumed after the append of a result's
    /// slip failed.
    fn is_resumable(&self, offered: &PieceResult)
        ensures { LeavesResumed D.log self.now.journal self.now.journal
            (after self.now.state (event.HandInDiskFails offered.now)) }
    {
        laws::crashes_are_resumptions();
        if let Some(journal) = &self.journal {
            laws::journals_stay_readable(journal);
        }
    }
}

/// The ledger over slips, its division into pieces of this size, which of them are lost, which is none yet, and a
/// history with room for the loss of each.
fn begin(
    alloc: Global,
    plan: Plan,
    has_journal: bool,
    slips: &[Slip],
    piece_size: u32,
) -> Result<(Ledger, Division, BitList, History), BookFault>
    requires { 1 ≤ piece_size }
    ensures ledger { IfOk result (λ r. r.0.contents ≡ over_base plan slips.now) }
    ensures division { IfOk result (λ r. r.1 ≡ pieces_of r.0.contents piece_size) }
    ensures pieces { IfOk result (λ r. All (λ p. IsTrue (is_piece r.0.contents.plan p)) r.1) }
    ensures lost { IfOk result (λ r. r.2 ≡ replicate (length r.1) false) }
    ensures opening { IfOk result (λ r. r.3.opening ≡ record {
      plan = r.0.contents.plan;
      has_journal = has_journal;
      base = r.0.contents.base;
      size = piece_size;
    }) }
    ensures calls { IfOk result (λ r. r.3.calls ≡ []) }
    ensures room { IfOk result (λ r. length r.1 ≤ r.3.room) }
    ensures good { OnOk result (AreGood plan slips.now) }
    ensures err { IfErr result (λ e. IsOpeningFault plan slips.now e) }
{
    let ledger = Ledger::from_slips(alloc, plan, slips)?;
    let division = ledger.divide(alloc, piece_size)?;
    let losable = division.len();
    let lost = BitList::new(alloc, losable)?;
    let history = History::begin(alloc, &ledger, has_journal, piece_size, losable)?;
    Ok((ledger, division, lost, history))
}

/// How many calls of a journal's disk have failed, 0 without a journal.
fn failures<D: Disk>(journal: &Option<Journal<D>>) -> u64
    ensures { result ≡ failures_of D.log journal.now }
{
    match journal {
        Some(journal) => journal.disk().failures(),
        None => 0,
    }
}

/// The call of a result, with an answer, of a book with this ledger.
fn call_of(ledger: &Ledger, offered: &PieceResult, answer: Answer) -> Call
    ensures call { result ≡ call.HandIn (slip_of offered.now)
        (is_same_plan ledger.now.contents.plan offered.now.plan) answer }
    ensures real { HasTrueResult (event.HandIn offered.now) }
{
    Call::HandIn {
        slip: slip_of(offered),
        is_own: ledger.plan().same(offered.plan()),
        answer,
    }
}
