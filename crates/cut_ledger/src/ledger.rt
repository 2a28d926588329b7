ghost use Rattle.std.specs.Prelude.{◌≡◌, ◌+◌, ◌<◌, ◌≤◌, ◌^◌, ◌↔◌, ◌++◌, [], true, length, slice_set};
ghost use Rattle.std.specs.Prelude.{Some, None, IsTrue, IfOk, OnOk, OnErr, IfErr, IsOk, IfNone, All};
ghost use Rattle.cut_plan.specs.Cells.{cells_of, trial_count};
ghost use Rattle.cut_plan.specs.Plan.{IsPlan};
ghost use Rattle.cut_outcome.specs.Sum.{is_piece};
ghost use Rattle.cut_ledger.specs.Account.{has_room, KeepsRoomOfOthers};
ghost use Rattle.cut_ledger.specs.Contents.{has, over_base, with_piece, cell_of_piece, cell_done, cell_sum};
ghost use Rattle.cut_ledger.specs.Contents.{is_complete};
ghost use Rattle.cut_ledger.specs.Gaps.{gaps_of, parts_of, pieces_of};
ghost use Rattle.cut_ledger.specs.inside.HeldTrials.{AreOver};
ghost use Rattle.cut_ledger.specs.Refusals.{CanTake, refusal_of, fault_of_offer};
ghost use Rattle.cut_ledger.specs.Slips.{AreGood, IsFaultOfSlips};

use crate::held_trials::{HeldTrials, is_good, pieces_at, span_of_cell};
use crate::{Base, Division, OfferFault, Slip, SlipsFault};
use cut_outcome::{Piece, PieceResult, Totals};
use cut_plan::Plan;
use cut_sets::ranges::{Span, laws};
use std::alloc::{AllocError, Global};
use std::marker::Model;

/// Which trials of a study are held, and the sums over them. Contracts see its contents, which are the
/// plan, the base and the set of held trials, and in which cells a piece can be added without memory.
#[derive(Debug, Drop)]
pub struct Ledger {
    plan: Plan,
    base: Base,
    held_trials: HeldTrials,
}

impl Model for Ledger {
    ghost use Rattle.cut_ledger.specs.Account.{Account};

    ghost Value = { Account };

    ghost use Rattle.cut_ledger.specs.inside.LedgerInside.{account_of, IsKeeping};

    ghost view = { account_of };

    ghost invariant = { IsKeeping };
}

impl Ledger {
    /// A ledger that holds no trial.
    pub fn fresh(alloc: Global, plan: Plan) -> Result<Ledger, AllocError>
        ensures { IfOk result (λ l. l.contents ≡ over_base plan []) }
    {
        let held_trials = HeldTrials::none(alloc, &plan)?;
        let base = Base::from_vec(Vec::new(alloc));
        Ok(Ledger {
            plan,
            base,
            held_trials,
        })
    }

    /// A ledger that holds the trials of slips, with their sums. The fault is the number of the first slip that is not
    /// of a piece of the plan, has a trial of an earlier one, or has impossible totals.
    pub fn from_slips(alloc: Global, plan: Plan, slips: &[Slip]) -> Result<Ledger, SlipsFault>
        ensures ok { IfOk result (λ l. l.contents ≡ over_base plan slips.now) }
        ensures good { OnOk result (AreGood plan slips.now) }
        ensures err { IfErr result (λ e. IsFaultOfSlips plan slips.now e) }
    {
        let mut held_trials = HeldTrials::none(alloc, &plan)?;
        add_slips(&mut held_trials, &plan, slips)?;
        let base = Base::from_vec(Vec::from_slice(alloc, slips)?);
        Ok(Ledger {
            plan,
            base,
            held_trials,
        })
    }

    /// The plan of the study.
    pub fn plan(&self) -> &Plan
        ensures value { result.now ≡ self.now.contents.plan }
        ensures plan { IsPlan self.now.contents.plan }
    {
        &self.plan
    }

    /// The slips that it began with.
    pub fn base(&self) -> &Base
        ensures { result.now ≡ self.now.contents.base }
    {
        &self.base
    }

    /// Whether a base has the same slips in the same order.
    pub fn same_base(&self, base: &Base) -> bool
        ensures { IsTrue result ↔ (self.now.contents.base ≡ base.now) }
    {
        self.base.as_slice() == base.as_slice()
    }

    /// Whether a trial is held.
    pub fn has(&self, trial: u32) -> bool
        requires { trial < trial_count self.now.contents.plan }
        ensures { result ≡ has self.now.contents trial }
    {
        self.held_trials.trials.contains(trial)
    }

    /// Whether every trial of a cell is held.
    pub fn cell_done(&self, cell: u32) -> bool
        requires { cell < length (cells_of self.now.contents.plan) }
        ensures { result ≡ cell_done self.now.contents cell }
    {
        self.held_trials
            .trials
            .covers(span_of_cell(&self.plan, cell))
    }

    /// The sums of a cell: the totals of the base's slips, and the outcome of each other held trial, once. There are
    /// fewer than 2^32 conflicts.
    pub fn cell_sum(&self, cell: u32) -> Totals
        requires { cell < length (cells_of self.now.contents.plan) }
        ensures value { result ≡ cell_sum self.now.contents cell }
        ensures few { result.conflicts < 2 ^ 32 }
    {
        self.held_trials.sums[cell as usize]
    }

    /// Whether every trial is held.
    pub fn complete(&self) -> bool
        ensures { result ≡ is_complete self.now.contents }
    {
        let all = Span {
            first: 0,
            count: self.plan.trials(),
        };
        self.held_trials.trials.covers(all)
    }

    /// The gaps: the greatest runs of trials that are not held, ascending, none over two cells. Each is a piece of the
    /// plan.
    pub fn gaps(&self, alloc: Global) -> Result<Vec<Piece>, AllocError>
        ensures value { IfOk result (λ gaps. gaps.items ≡ gaps_of self.now.contents) }
        ensures pieces { IfOk result
            (λ gaps. All (λ p. IsTrue (is_piece self.now.contents.plan p)) gaps.items) }
        ensures plan { IsPlan self.now.contents.plan }
    {
        laws::spans_are_what_passes();
        let mut gaps = Vec::new(alloc);
        for cell in 0..self.plan.cells() {
            let span = span_of_cell(&self.plan, cell);
            self.held_trials.trials.gaps_into(span, &mut gaps)?;
        }
        pieces_at(alloc, &gaps)
    }

    /// The gaps in order, each cut from its beginning into pieces of this size, the last one shorter if less is left.
    pub fn pieces(&self, alloc: Global, size: u32) -> Result<Vec<Piece>, AllocError>
        requires { 1 ≤ size }
        ensures value { IfOk result (λ pieces. pieces.items ≡ pieces_of self.now.contents size) }
        ensures pieces { IfOk result
            (λ pieces. All (λ p. IsTrue (is_piece self.now.contents.plan p)) pieces.items) }
    {
        laws::spans_are_what_passes();
        let gaps = self.gaps(alloc)?;
        let mut pieces = Vec::new(alloc);
        for gap in &gaps {
            add_parts(&mut pieces, *gap, size)?;
        }
        Ok(pieces)
    }

    /// The same pieces, each computed from its number. It takes memory for each gap, and none for a piece.
    pub fn divide(&self, alloc: Global, size: u32) -> Result<Division, AllocError>
        requires { 1 ≤ size }
        ensures value { IfOk result (λ pieces. pieces ≡ pieces_of self.now.contents size) }
        ensures pieces { IfOk result (λ pieces. All (λ p. IsTrue (is_piece self.now.contents.plan p)) pieces) }
    {
        laws::spans_are_what_passes();
        let gaps = self.gaps(alloc)?;
        Division::of_gaps(alloc, &gaps, size)
    }

    /// Whether a piece of a cell can be added without memory.
    pub fn has_room(&self, cell: u32) -> bool
        requires { cell < length (cells_of self.now.contents.plan) }
        ensures { result ≡ has_room self.now cell }
    {
        self.held_trials.trials.has_room(cell)
    }

    /// Reserves room for a piece of a cell.
    pub fn reserve(&mut self, cell: u32) -> Result<(), AllocError>
        requires { cell < length (cells_of self.old.contents.plan) }
        ensures ok { OnOk result (self.new ≡ record self.old { room = slice_set self.old.room cell true }) }
        ensures room { OnOk result (IsTrue (has_room self.new cell)) }
        ensures err { OnErr result (self.new ≡ self.old) }
    {
        self.held_trials.trials.reserve(cell)
    }

    /// Why a result is not taken, if it is not: it is of another plan, or else a trial of it is held.
    pub fn refusal(&self, offered: &PieceResult) -> Option<OfferFault>
        ensures value { result ≡ refusal_of self.now.contents offered.now }
        ensures none { IfNone result (CanTake self.now.contents offered.now) }
    {
        if !self.plan.same(offered.plan()) {
            return Some(OfferFault::Stranger);
        }
        if self.held_trials.overlaps(offered.piece()) {
            return Some(OfferFault::Overlap);
        }
        None
    }

    /// Takes a result that is not refused: its trials are held, and their outcomes are added to the sums. Fails only if
    /// memory runs out, and never where there is room.
    pub fn take(&mut self, offered: &PieceResult) -> Result<(), AllocError>
        requires { CanTake self.old.contents offered.now }
        ensures ok { OnOk result (self.new.contents ≡ with_piece self.old.contents offered.now.piece) }
        ensures others { OnOk result
            (KeepsRoomOfOthers self.old self.new (cell_of_piece self.old.contents offered.now.piece)) }
        ensures room { IsTrue (has_room self.old (cell_of_piece self.old.contents offered.now.piece)) →
            IsOk result }
        ensures err { OnErr result (self.new ≡ self.old) }
    {
        self.held_trials
            .add(&self.plan, offered.piece(), offered.totals())
    }

    /// Takes a result, or refuses it.
    pub fn offer(&mut self, offered: &PieceResult) -> Result<(), OfferFault>
        ensures free { OnOk result (refusal_of self.old.contents offered.now ≡ None) }
        ensures taken { OnOk result (self.new.contents ≡ with_piece self.old.contents offered.now.piece) }
        ensures others { OnOk result
            (KeepsRoomOfOthers self.old self.new (cell_of_piece self.old.contents offered.now.piece)) }
        ensures err { IfErr result (λ e. e ≡ fault_of_offer (refusal_of self.old.contents offered.now)) }
        ensures unchanged { OnErr result (self.new ≡ self.old) }
        ensures room { IsTrue (has_room self.old (cell_of_piece self.old.contents offered.now.piece)) →
            refusal_of self.old.contents offered.now ≡ None → IsOk result }
    {
        if let Some(refusal) = self.refusal(offered) {
            return Err(refusal);
        }
        self.take(offered)?;
        Ok(())
    }
}

/// Adds slips, each after those before it, up to the first that is not good.
fn add_slips(held_trials: &mut HeldTrials, plan: &Plan, slips: &[Slip]) -> Result<(), SlipsFault>
    requires { AreOver plan.now [] held_trials.old.trials held_trials.old.sums.items }
    ensures ok { OnOk result (AreOver plan.now slips.now held_trials.new.trials held_trials.new.sums.items) }
    ensures good { OnOk result (AreGood plan.now slips.now) }
    ensures err { IfErr result (λ e. IsFaultOfSlips plan.now slips.now e) }
{
    for (i, slip) in slips.iter().enumerate() {
        if !is_good(&held_trials.trials, plan, slip) {
            return Err(SlipsFault::BadSlip(i as u64 + 1));
        }
        held_trials.add(plan, slip.piece, slip.totals)?;
    }
    Ok(())
}

/// Adds the parts of a piece, from its beginning, each of this size but for the last.
fn add_parts(parts: &mut Vec<Piece>, piece: Piece, size: u32) -> Result<(), AllocError>
    requires some { 1 ≤ size }
    requires fits { piece.first + piece.count < 2 ^ 32 }
    ensures { OnOk result (parts.new.items ≡ parts.old.items ++ parts_of size piece) }
{
    for i in 0..piece.count.div_ceil(size) {
        let before = i * size;
        parts.push(Piece {
            first: piece.first + before,
            count: size.min(piece.count - before),
        })?;
    }
    Ok(())
}
