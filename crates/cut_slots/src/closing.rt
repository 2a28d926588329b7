ghost use Rattle.std.specs.Prelude.{ℕ, ◌≡◌, ◌≢◌, ◌<◌, ◌≤◌, true, false, Some, length, slice_get, All, IfOk};
ghost use Rattle.std.specs.Prelude.{IfErr, OnOk};
ghost use Rattle.cut_board.specs.Names.{board_id, board_of};
ghost use Rattle.cut_board.specs.declared.totals.StudyTotals.{StudyTotals};
ghost use Rattle.cut_slots.specs.Report.{SlotEnd, accepted_recorded};
ghost use Rattle.cut_slots.specs.Closing.{IsTakenApart};

use crate::{CallLedger, Mismatch, Pass, Report, SlotReport};
use cut_board::{Board, BoardTotals, Seat};
use std::alloc::{AllocError, Global};
use std::sync::ledger::Share;

/// The seats of passes, and the share of the calls that all of them made.
#[derive(Drop)]
pub struct Parts<M: CallLedger> {
    /// Their seats.
    pub seats: Vec<Seat>,
    /// What they made, with a part for each.
    pub made: Share<M>,
}

/// Whether these are fewer passes than were given.
pub fn lacks_passes<M: CallLedger>(passes: &Vec<Pass<M>>, given: u32) -> bool
    ensures fewer { result ≡ true → length passes.now.items < given }
    ensures all { result ≡ false → given ≤ length passes.now.items }
{
    passes.len() < given as usize
}

/// Takes a board's passes apart. Fails only if memory runs out; then they are gone.
pub fn take_apart<M: CallLedger>(
    alloc: Global,
    board: &Board,
    mut passes: Vec<Pass<M>>,
) -> Result<Parts<M>, AllocError>
    requires some { 0 < length passes.items }
    requires own { All (λ p. p.hall ≡ board_id board.now) passes.items }
    ensures own { IfOk result (λ parts. All (λ s. board_of s ≡ board_id board.now) parts.seats.items) }
    ensures parts { IfOk result (λ parts.
        IsTakenApart passes.items parts.seats.items parts.made.parts parts.made.amount) }
{
    let Some(first) = passes.pop() else {
        unreachable!()
    };
    let Pass { seat, mut made } = first;
    let mut seats = Vec::new(alloc);
    seats.push(seat)?;
    while let Some(pass) = passes.pop() {
        let Pass { seat, made: more } = pass;
        seats.push(seat)?;
        made.merge(more);
    }
    Ok(Parts { seats, made })
}

/// Compares what was counted of each study with what its history accepted.
pub fn audit(totals: &BoardTotals, slots: Vec<SlotReport>) -> Result<Report, Mismatch>
    requires counted { length slots.items ≤ length totals.now }
    requires few { length totals.now ≤ 64 }
    ensures same { IfOk result (λ report. report ≡ slots.items) }
    ensures audited { OnOk result ((study : ℕ) (s : SlotEnd) (t : StudyTotals)
        → slice_get slots.items study ≡ Some s → slice_get totals.now study ≡ Some t
        → t.count ≡ accepted_recorded s.history) }
    ensures report { IfErr result (λ m. m.report ≡ slots.items) }
    ensures within { IfErr result (λ m. m.study < length slots.items) }
    ensures differs { IfErr result (λ m. (t : StudyTotals)
        → slice_get totals.now m.study ≡ Some t → t.count ≡ m.counted) }
{
    for study in 0..slots.len() {
        let counted = totals.as_slice()[study].count;
        if !agrees(counted, &slots[study]) {
            let report = Report::from_vec(slots);
            return Err(Mismatch {
                study: study as u32,
                counted,
                report,
            });
        }
    }
    Ok(Report::from_vec(slots))
}

/// Whether a slot accepted as many trials as were counted.
fn agrees(counted: u64, slot: &SlotReport) -> bool
    ensures yes { result ≡ true → counted ≡ accepted_recorded slot.now.history }
    ensures no { result ≡ false → counted ≢ accepted_recorded slot.now.history }
{
    counted == slot.accepted()
}
