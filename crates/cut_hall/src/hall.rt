ghost use Rattle.std.specs.Prelude.{true, false, Some, None, ◌≡◌, ◌+◌, ◌<◌, ◌≤◌, length, vec_capacity, vec_len, All, IfOk, IfSome, OnErr};
ghost use Rattle.std.specs.Prelude.{IfErr};
ghost use Rattle.cut_ledger.specs.declared.lines.line.TheConstants.{LONGEST_LINE};
ghost use Rattle.cut_plan.specs.Cells.{cells_of};
ghost use Rattle.cut_board.specs.Views.{idle, read, seen_in};
ghost use Rattle.cut_board.specs.Refusals.{IsRefusedBy, read_refusal};
ghost use Rattle.cut_hall.specs.Hall.{made_more};
ghost use Rattle.cut_slots.specs.Lines.{full_line};
ghost use Rattle.cut_book.specs.Book.{IsFresh};
ghost use Rattle.cut_board.specs.Names.{board_id, seats_of, studies_of};
ghost use Rattle.cut_slots.specs.Start.{start_of};
ghost use Rattle.cut_hall.specs.Rows.{CanNotGiveAgain, rows_of};
ghost use Rattle.cut_slots.specs.Slot.{CanNotTake};
ghost use Rattle.cut_slots.specs.Trust.{MayBegin};
ghost use Rattle.cut_ledger.specs.Slips.{AreGood};

use crate::locked_accounts::LockedAccounts;
use crate::work::SharedInput;
use crate::{Blanks, CallLedger, NextRowFault, Pass};
use cut_board::{Board, SeatFault};
use cut_book::{Book, Opened, Shelf, SubmitFault};
use cut_disks::Disk;
use cut_plan::Plan;
use cut_slots::{Accounts, Asked, CallCounter, Match, Slot, make_passes};
use std::alloc::{AllocError, Global};
use std::marker::Model;
use std::sync::ledger::Share;
use std::sync::{Condvar, Mutex, Wait};

/// The lock of a slot, the condition on which threads wait for its changes, and what its workers share.
#[derive(Drop)]
pub(crate) struct LockedSlot<D: Disk, K: CallLedger> {
    pub(crate) slot: Mutex<Slot<D, K>>,
    pub(crate) changed: Condvar,
    pub(crate) input: SharedInput,
}

/// A hall in which many threads work on the studies that are submitted to it, each with a pass. Contracts see
/// which hall it is, and how many slots and passes it has.
///
/// Two ledgers count the calls of its books: in the one those that the passes made, in the other those that
/// the slots keep.
#[derive(Drop)]
pub struct Hall<D: Disk, M: CallLedger, K: CallLedger> {
    pub(crate) board: Board,
    pub(crate) places: Vec<LockedSlot<D, K>>,
    pub(crate) accounts: Mutex<Accounts<M, K>>,
    pub(crate) passes: u32,
    pub(crate) piece_size: u32,
}

impl<D: Disk, M: CallLedger, K: CallLedger> Model for Hall<D, M, K> {
    ghost use Rattle.std.specs.Prelude.{◌≡◌, ◌≤◌, vec_len};
    ghost use Rattle.cut_board.specs.Names.{board_id, studies_of, seats_of};
    ghost use Rattle.cut_hall.specs.Hall.{HallValue};

    ghost Value = { HallValue };

    ghost view = { λ h.
        record {
          id = board_id h.board;
          slots = studies_of h.board;
          passes = seats_of h.board;
          is_trusted = K.trusts;
          opening = K.opening;
        } };

    ghost invariant = { λ h.
        (vec_len h.places ≡ studies_of h.board)
        × (h.passes ≡ seats_of h.board)
        × (1 ≤ h.piece_size)
        × (1 ≤ studies_of h.board)
        × (studies_of h.board ≤ 64)
        × (1 ≤ seats_of h.board)
        × (seats_of h.board ≡ M.all)
        × (studies_of h.board ≡ K.all) };
}

impl<D: Disk + Drop, K: CallLedger> LockedSlot<D, K> {
    /// The place of a slot, if no worker has been yet.
    fn new(slot: Slot<D, K>) -> LockedSlot<D, K> {
        LockedSlot {
            slot: Mutex::new(slot),
            changed: Condvar::new(),
            input: SharedInput::none(),
        }
    }
}

impl<D: Disk + Drop, M: CallLedger, K: CallLedger> Hall<D, M, K> {
    /// A hall of 1 to 64 slots without studies, and its 1 to 129 passes. The blanks are for the two ledgers of calls,
    /// of which the first has as many parts as passes, and the second as many as slots.
    pub fn start(
        alloc: Global,
        slots: u32,
        passes: u32,
        piece_size: u32,
        blanks: Blanks,
    ) -> Result<(Hall<D, M, K>, Vec<Pass<M>>), AllocError>
        requires slots { (0 < slots) × (slots ≤ 64) }
        requires passes { (0 < passes) × (passes ≤ 129) }
        requires size { 1 ≤ piece_size }
        requires made { (blanks.made.name ≡ M.name) × (blanks.made.parts ≡ M.parts)
            × (M.all ≡ M.parts) × (M.all ≡ passes) }
        requires kept { (blanks.kept.name ≡ K.name) × (blanks.kept.parts ≡ K.parts)
            × (K.all ≡ K.parts) × (K.all ≡ slots) × (K.opening ≡ None) }
        ensures hall { IfOk result (λ r. (r.0.slots ≡ slots) × (r.0.passes ≡ passes)) }
        ensures trusted { IfOk result (λ r. r.0.is_trusted ≡ K.trusts) }
        ensures opening { IfOk result (λ r. r.0.opening ≡ None) }
        ensures passes { IfOk result (λ r. length r.1.items ≡ passes) }
        ensures own { IfOk result (λ r. All (λ p. p.hall ≡ r.0.id) r.1.items) }
        ensures idle { IfOk result (λ r. All (λ p. (p.view ≡ idle 1) × (p.made ≡ 0)) r.1.items) }
    {
        let (board, seats) = Board::start(alloc, slots, passes)?;
        let (accounts, made, kept) = Accounts::open(blanks);
        let places = places_of(alloc, slots, kept)?;
        let given = make_passes(alloc, &board, seats, made)?;
        let hall = Hall {
            board,
            places,
            accounts: Mutex::new(accounts),
            passes,
            piece_size,
        };
        Ok((hall, given))
    }

    /// A hall whose only slot has this book, of which nothing was asked yet, and its 1 to 129 passes. The blanks are as
    /// in `start`. If memory runs out the book comes back as it was.
    pub fn of_book(
        alloc: Global,
        book: Book<D>,
        piece_size: u32,
        passes: u32,
        blanks: Blanks,
    ) -> Result<(Hall<D, M, K>, Vec<Pass<M>>), Book<D>>
        requires fresh { IsFresh book.state.ledger.plan book.size book }
        requires good { AreGood book.state.ledger.plan book.state.ledger.base }
        requires untrusted { K.trusts ≡ false }
        requires size { 1 ≤ piece_size }
        requires passes { (0 < passes) × (passes ≤ 129) }
        requires made { (blanks.made.name ≡ M.name) × (blanks.made.parts ≡ M.parts)
            × (M.all ≡ M.parts) × (M.all ≡ passes) }
        requires kept { (blanks.kept.name ≡ K.name) × (blanks.kept.parts ≡ K.parts)
            × (K.all ≡ K.parts) × (K.all ≡ 1) × (K.opening ≡ Some (start_of D.log book)) }
        ensures hall { IfOk result (λ r. (r.0.slots ≡ 1) × (r.0.passes ≡ passes)) }
        ensures opening { IfOk result (λ r. r.0.opening ≡ Some (start_of D.log book)) }
        ensures passes { IfOk result (λ r. length r.1.items ≡ passes) }
        ensures own { IfOk result (λ r. All (λ p. p.hall ≡ r.0.id) r.1.items) }
        ensures back { IfErr result (λ back. back ≡ book) }
    {
        match EmptyHall::make(alloc, passes, blanks) {
            Ok(empty) => Ok(empty.keep(alloc, book, piece_size)),
            Err(_refused) => Err(book),
        }
    }

    /// Gives a plan's study a slot: that which it has already, or else the next that is free, for which its disk comes
    /// from the shelf. If it is refused no slot is taken.
    pub fn submit<S: Shelf<D>, R: Wait>(
        &self,
        rt: &R,
        alloc: Global,
        pass: &mut Pass<M>,
        plan: Plan,
        shelf: &S,
    ) -> Result<Opened, SubmitFault>
        requires own { pass.old.hall ≡ self.now.id }
        requires trusted { self.now.is_trusted ≡ true → S.is_true shelf.now ≡ true }
        ensures plan { IfOk result (λ o. o.plan ≡ plan) }
        ensures base { IfOk result (λ o. MayBegin self.now.is_trusted plan o.base) }
        ensures slot { IfOk result (λ o. o.study < self.now.slots) }
        ensures why { IfErr result (CanNotTake (S.gives shelf.now plan)) }
        ensures pass { pass.new ≡ pass.old }
    {
        // Of the pass it matters only that it is one of this hall.
        let _ = pass;
        for (study, place) in self.places.iter().enumerate() {
            let mut slot = place.slot.lock(rt);
            match slot.match_with(&plan) {
                Match::Same => return slot.opened(alloc, study as u32, &plan),
                Match::Free => {
                    let opened = slot.begin(alloc, study as u32, plan, shelf, self.piece_size);
                    place.changed.notify_all();
                    return opened;
                }
                Match::Other => {}
            }
        }
        Err(SubmitFault::SlotsFull)
    }

    /// Ends the work in every slot, and wakes all threads that wait there.
    pub fn stop<R: Wait>(&self, rt: &R) {
        for place in &self.places {
            place.slot.lock(rt).stop();
            place.changed.notify_all();
        }
    }

    /// The line of a cell of an opened study, once every trial of it is held. It waits until then, or until
    /// it is known that the line won't come. It has at most 294 bytes.
    pub fn next_row<R: Wait>(
        &self,
        rt: &R,
        alloc: Global,
        pass: &mut Pass<M>,
        opened: &Opened,
        cell: u32,
    ) -> Result<Vec<u8>, NextRowFault>
        requires own { pass.old.hall ≡ self.now.id }
        requires slot { opened.now.study < self.now.slots }
        requires cell { cell < length (cells_of opened.now.plan) }
        ensures line { IfOk result (λ line. line.items ≡ full_line opened.now.plan opened.now.base cell) }
        ensures short { IfOk result (λ line. length line.items ≤ LONGEST_LINE) }
        ensures pass { pass.new ≡ made_more pass.old (rows_of result) }
    {
        self.wait_for_line(rt, alloc, &mut pass.made, Asked { opened, cell })
    }

    /// The line of a cell of an opened study, if it was given before; else none, and `next_row` waits for it. It
    /// is read from the study's trials once more, and is no call of its book: so a line that is asked for again
    /// and again takes no memory in the history. It has at most 294 bytes.
    pub fn given_row<R: Wait>(
        &self,
        rt: &R,
        alloc: Global,
        opened: &Opened,
        cell: u32,
    ) -> Result<Option<Vec<u8>>, NextRowFault>
        requires slot { opened.now.study < self.now.slots }
        requires cell { cell < length (cells_of opened.now.plan) }
        ensures line { IfOk result (λ found.
            IfSome found (λ line. line.items ≡ full_line opened.now.plan opened.now.base cell)) }
        ensures short { IfOk result (λ found. IfSome found (λ line. length line.items ≤ LONGEST_LINE)) }
        ensures why { IfErr result CanNotGiveAgain }
    {
        let slot = self.places[opened.study as usize].slot.lock(rt);
        slot.line_again(alloc, Asked { opened, cell })
    }

    /// The line that is asked for, which is a call of the share's holder.
    fn wait_for_line<R: Wait>(
        &self,
        rt: &R,
        alloc: Global,
        made: &mut Share<M>,
        asked: Asked<'_>,
    ) -> Result<Vec<u8>, NextRowFault>
        requires part { made.old.parts ≡ 1 }
        requires slot { asked.opened.now.study < self.now.slots }
        ensures line { IfOk result (λ line. line.items
            ≡ full_line asked.entry.opened.now.plan asked.entry.opened.now.base asked.entry.cell) }
        ensures short { IfOk result (λ line. length line.items ≤ LONGEST_LINE) }
        ensures part { made.new.parts ≡ 1 }
        ensures made { made.new.amount ≡ made.old.amount + rows_of result }
    {
        let cell = asked.cell;
        let place = &self.places[asked.opened.study as usize];
        let counter = self.counter(rt);
        let mut slot = place.slot.lock(rt);
        for _ in rt.forever() {
            let found = slot.line(alloc, &counter, made, asked);
            if let Some(found) = found.transpose() {
                return found;
            }
            slot = place.changed.wait_while(rt, slot, |slot| {
                !counter.is_full() && slot.is_pending(cell)
            });
        }
        unreachable!()
    }

    /// Where a slot's calls are counted: in the hall's accounts, under their lock.
    pub(crate) fn counter<'a, R: Wait>(&'a self, rt: &'a R) -> LockedAccounts<'a, M, K, R> {
        LockedAccounts {
            rt,
            accounts: &self.accounts,
        }
    }

    /// How many trials of a study the passes counted: at least as many as this pass saw before.
    pub fn counted(&self, pass: &mut Pass<M>, study: u32) -> Result<u64, SeatFault>
        requires { pass.old.hall ≡ self.now.id }
        ensures pass { (pass.new.hall ≡ pass.old.hall) × (pass.new.made ≡ pass.old.made) }
        ensures reads { IfOk result (λ n. pass.new.view ≡ read pass.old.view study n) }
        ensures seen { IfOk result (λ n. n ≡ seen_in study pass.new.view) }
        ensures rises { IfOk result (λ n. seen_in study pass.old.view ≤ n) }
        ensures why { IsRefusedBy (read_refusal self.now.slots study) result }
        ensures err { OnErr result (pass.new ≡ pass.old) }
    {
        self.board.read(&mut pass.seat, study)
    }
}

/// A hall that is to have one slot, for which there is room, and its passes.
#[derive(Drop)]
struct EmptyHall<D: Disk, M: CallLedger, K: CallLedger> {
    board: Board,
    places: Vec<LockedSlot<D, K>>,
    accounts: Accounts<M, K>,
    passes: Vec<Pass<M>>,
    count: u32,
    kept: Share<K>,
    ghost none: { vec_len places ≡ 0 },
    ghost room: { 0 < vec_capacity places },
    ghost one: { studies_of board ≡ 1 },
    ghost seats: { (count ≡ seats_of board) × (0 < count) × (count ≡ M.all) × (K.all ≡ 1) },
    ghost given: { length passes.items ≡ count },
    ghost own: { All (λ p. p.hall ≡ board_id board) passes.items },
    ghost part: { (kept.parts ≡ 1) × (kept.amount ≡ 0) },
}

impl<D: Disk + Drop, M: CallLedger, K: CallLedger> EmptyHall<D, M, K> {
    /// The hall with this many passes.
    fn make(alloc: Global, passes: u32, blanks: Blanks) -> Result<EmptyHall<D, M, K>, AllocError>
        requires passes { (0 < passes) × (passes ≤ 129) }
        requires made { (blanks.made.name ≡ M.name) × (blanks.made.parts ≡ M.parts)
            × (M.all ≡ M.parts) × (M.all ≡ passes) }
        requires kept { (blanks.kept.name ≡ K.name) × (blanks.kept.parts ≡ K.parts)
            × (K.all ≡ K.parts) × (K.all ≡ 1) }
        ensures count { IfOk result (λ h. h.count ≡ passes) }
    {
        let (accounts, made, kept) = Accounts::open(blanks);
        let places = Vec::with_capacity(alloc, 1)?;
        let (board, seats) = Board::start(alloc, 1, passes)?;
        let given = make_passes(alloc, &board, seats, made)?;
        Ok(EmptyHall {
            board,
            places,
            accounts,
            passes: given,
            count: passes,
            kept,
        })
    }

    /// The hall with a book of which nothing was asked yet. Takes no memory.
    fn keep(self, alloc: Global, book: Book<D>, piece_size: u32) -> (Hall<D, M, K>, Vec<Pass<M>>)
        requires fresh { IsFresh book.state.ledger.plan book.size book }
        requires begun { MayBegin K.trusts book.state.ledger.plan book.state.ledger.base }
        requires opened { K.opening ≡ Some (start_of D.log book) }
        requires size { 1 ≤ piece_size }
        ensures hall { (result.0.slots ≡ 1) × (result.0.passes ≡ self.count) }
        ensures opening { result.0.opening ≡ Some (start_of D.log book) }
        ensures passes { length result.1.items ≡ self.count }
        ensures own { All (λ p. p.hall ≡ result.0.id) result.1.items }
    {
        let EmptyHall {
            board,
            mut places,
            accounts,
            passes,
            count,
            kept,
        } = self;
        places.push_reserved(LockedSlot::new(Slot::new(alloc, Some(book), kept)));
        let hall = Hall {
            board,
            places,
            accounts: Mutex::new(accounts),
            passes: count,
            piece_size,
        };
        (hall, passes)
    }
}

/// The slots, each without a book and with a part of the ledger of kept calls.
fn places_of<D: Disk + Drop, K: CallLedger>(
    alloc: Global,
    slots: u32,
    mut rest: Share<K>,
) -> Result<Vec<LockedSlot<D, K>>, AllocError>
    requires parts { rest.parts ≡ slots }
    requires none { rest.amount ≡ 0 }
    requires any { K.opening ≡ None }
    ensures { IfOk result (λ places. vec_len places ≡ slots) }
{
    let mut places = Vec::with_capacity(alloc, slots as usize)?;
    for _ in 0..slots {
        let slot = Slot::new(alloc, None, rest.split_off(1, 0));
        places.push_reserved(LockedSlot::new(slot));
    }
    Ok(places)
}
