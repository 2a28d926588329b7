ghost use Rattle.std.specs.Prelude.{◌≡◌, ◌+◌, ◌-◌, ◌<◌, ◌≤◌, ◌++◌, [], ◌∷◌, true, length, map, OnOk, IfOk};
ghost use Rattle.cut_plan.specs.Cells.{trial_count};
ghost use Rattle.cut_plan.specs.Plan.{IsPlan};
ghost use Rattle.cut_book.specs.History.{IsLegalHistory, accepted_in};
ghost use Rattle.cut_book.specs.inside.HistoryInside.{IsReserved, Noted, count_in, lost_call};
ghost use Rattle.cut_book.specs.declared.call.Call.TheVariants as call;

use crate::{Answer, Call};
use cut_ledger::{Base, Ledger, laws};
use cut_plan::Plan;
use std::alloc::{AllocError, Global};
use std::marker::Model;
use std::snapshot::Snapshot;

/// A call that is no loss, and how many losses came before it.
#[derive(Clone, Copy, Debug)]
struct Entry {
    call: Call,
    losses: usize,
}

/// The calls of a book that changed its history, in order, with their answers. Contracts see them, with what
/// the book was opened with, how many more losses fit in the memory that there is, and whether one more call
/// of another kind does.
///
/// Only a book makes one, and it is always legal: from the opening on, each call is a step of the machine. A
/// piece that is lost takes four bytes of it, which are there from the beginning.
#[derive(Drop)]
pub struct History {
    plan: Snapshot<Plan>,
    has_journal: Snapshot<bool>,
    base: Snapshot<Base>,
    size: Snapshot<u32>,
    entries: Vec<Entry>,
    losses: Vec<u32>,
}

impl Model for History {
    ghost use Rattle.cut_book.specs.History.{HistoryValue, IsLegalHistory};

    ghost Value = { HistoryValue };

    ghost use Rattle.cut_book.specs.inside.HistoryInside.{course_of, IsHistory};

    ghost view = { course_of };

    ghost invariant = { IsHistory };
}

impl History {
    /// The history of a study that is opened over a ledger, with room for `losable` losses.
    pub(crate) fn begin(
        alloc: Global,
        ledger: &Ledger,
        has_journal: bool,
        size: u32,
        losses: u64,
    ) -> Result<History, AllocError>
        ensures opening { IfOk result (λ h. h.opening ≡ record {
          plan = ledger.now.contents.plan;
          has_journal = has_journal;
          base = ledger.now.contents.base;
          size = size;
        }) }
        ensures calls { IfOk result (λ h. h.calls ≡ []) }
        ensures room { IfOk result (λ h. losses ≤ h.room) }
    {
        Ok(History {
            plan: Snapshot::of(ledger.plan()),
            has_journal: Snapshot::of(&has_journal),
            base: Snapshot::of(ledger.base()),
            size: Snapshot::of(&size),
            entries: Vec::new(alloc),
            losses: Vec::with_capacity(alloc, losses as usize)?,
        })
    }

    /// How many calls there are.
    pub fn len(&self) -> u64
        ensures { result ≡ length self.now.calls }
    {
        self.entries.len() as u64 + self.losses.len() as u64
    }

    /// A list of the calls, in order.
    pub fn calls(&self, alloc: Global) -> Result<Vec<Call>, AllocError>
        ensures calls { IfOk result (λ calls. calls.items ≡ self.now.calls) }
        ensures legal { IsLegalHistory self.now.opening self.now.calls }
    {
        let losses = self.losses.as_slice();
        let mut calls = Vec::new(alloc);
        let mut listed = 0;
        for entry in &self.entries {
            push_losses(&mut calls, &losses[listed..entry.losses])?;
            calls.push(entry.call)?;
            listed = entry.losses;
        }
        push_losses(&mut calls, &losses[listed..])?;
        Ok(calls)
    }

    /// How many trials the accepted results have together: no more than the study's plan has.
    pub fn accepted(&self) -> u64
        ensures value { result ≡ accepted_in self.now.calls }
        ensures plan { IsPlan self.now.opening.plan }
        ensures few { result ≤ trial_count self.now.opening.plan }
    {
        laws::same_plans_are_equal();
        let mut sum = 0;
        for entry in &self.entries {
            sum += accepted_count(entry.call);
        }
        sum
    }

    /// Makes room for a call that is no loss.
    pub(crate) fn reserve(&mut self) -> Result<(), AllocError>
        ensures reserved { IsReserved self.old self.new }
        ensures ok { OnOk result (self.new.has_place ≡ true) }
    {
        self.entries.reserve(1)
    }

    /// Adds a call for which there is room. Takes no memory.
    pub(crate) fn push(&mut self, call: Call)
        requires place { self.old.has_place ≡ true }
        requires legal { IsLegalHistory self.old.opening (self.old.calls ++ call ∷ []) }
        ensures noted { Noted call self.old self.new }
        ensures room { self.new.room ≡ self.old.room }
    {
        let losses = self.losses.len();
        self.entries.push_reserved(Entry { call, losses });
    }

    /// Adds the loss of a piece, for which there is room. Takes no memory.
    pub(crate) fn lose(&mut self, piece: u32)
        requires room { 0 < self.old.room }
        requires legal { IsLegalHistory self.old.opening (self.old.calls ++ call.Lose piece ∷ []) }
        ensures noted { Noted (call.Lose piece) self.old self.new }
        ensures room { self.old.room ≤ self.new.room + 1 }
    {
        self.losses.push_reserved(piece);
    }
}

/// Adds losses to calls.
fn push_losses(calls: &mut Vec<Call>, losses: &[u32]) -> Result<(), AllocError>
    ensures { OnOk result (calls.new.items ≡ calls.old.items ++ map lost_call losses.now) }
{
    for piece in losses {
        calls.push(Call::Lose {
            piece: u64::from(*piece),
        })?;
    }
    Ok(())
}

/// How many trials a call added to a ledger.
fn accepted_count(call: Call) -> u64
    ensures { result ≡ count_in call }
{
    match call {
        Call::HandIn {
            slip,
            answer: Answer::Accepted,
            ..
        } => u64::from(slip.piece.count),
        _ => 0,
    }
}
