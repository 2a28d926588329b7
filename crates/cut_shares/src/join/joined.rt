//! The slips of a plan, joined.

ghost use Rattle.std.specs.Prelude.{◌≡◌, All, IfOk, OnOk, IsTrue};
ghost use Rattle.std.specs.List.Sorted.{IsNonDecreasingBy, IsPermutation};
ghost use Rattle.cut_outcome.specs.Sum.{is_piece};
ghost use Rattle.cut_ledger.specs.Slips.{AreGood};
ghost use Rattle.cut_shares.specs.join.Joined.{joined};
ghost use Rattle.cut_shares.specs.join.inside.Merging.{AreAscending, IsSmall, adjoins, with_next, with_slip};

use cut_journal::AcceptedSlips;
use cut_ledger::Slip;
use cut_outcome::Piece;
use cut_plan::{Plan, laws};
use std::alloc::{AllocError, Global};

/// Slips that were accepted, joined.
pub(crate) fn joined(alloc: Global, accepted: &AcceptedSlips<'_>) -> Result<Vec<Slip>, AllocError>
    ensures joined { IfOk result (λ found. found.items ≡ joined accepted.now.plan accepted.now.slips) }
    ensures good { IfOk result (λ found. AreGood accepted.now.plan found.items) }
{
    let plan = accepted.plan();
    laws::plans_are_accepted(plan);
    let ascending = ascending(alloc, accepted.slips())?;
    merged(alloc, plan, &ascending)
}

/// The slips in the order of their first trials.
fn ascending(alloc: Global, slips: &[Slip]) -> Result<Vec<Slip>, AllocError>
    ensures permutation { IfOk result (λ found. IsPermutation slips.now found.items) }
    ensures sorted { IfOk result (λ found. IsNonDecreasingBy (λ s. s.piece.first) found.items) }
{
    let mut ascending = Vec::from_slice(alloc, slips)?;
    ascending.sort_unstable_by_key(|slip| slip.piece.first);
    Ok(ascending)
}

/// Slips that ascend, joined.
fn merged(alloc: Global, plan: &Plan, slips: &[Slip]) -> Result<Vec<Slip>, AllocError>
    requires { AreAscending plan.now slips.now }
    ensures { IfOk result (λ found. found.items ≡ joined plan.now slips.now) }
{
    let mut merged = Vec::new(alloc);
    for slip in slips {
        add(&mut merged, plan, *slip)?;
    }
    Ok(merged)
}

/// Adds a slip after others: to the last of them if it goes on from there, and else as one of its own.
fn add(merged: &mut Vec<Slip>, plan: &Plan, slip: Slip) -> Result<(), AllocError>
    requires others { All (IsSmall plan.now) merged.old.items }
    requires slip { IsSmall plan.now slip }
    ensures { OnOk result (merged.new.items ≡ with_slip plan.now merged.old.items slip) }
{
    let before = merged.len();
    if before > 0 && adjoins(plan, merged[before - 1].piece, slip.piece) {
        merged[before - 1] = with_next(plan, merged[before - 1], slip);
        return Ok(());
    }
    merged.push(slip)?;
    Ok(())
}

/// Whether a piece goes on where another ends, in the same cell.
fn adjoins(plan: &Plan, piece: Piece, next: Piece) -> bool
    requires piece { IsTrue (is_piece plan.now piece) }
    requires next { IsTrue (is_piece plan.now next) }
    ensures { result ≡ adjoins plan.now piece next }
{
    plan.cell_of(piece.first) == plan.cell_of(next.first) && piece.first + piece.count == next.first
}

/// A slip with one that goes on where it ends.
fn with_next(plan: &Plan, slip: Slip, next: Slip) -> Slip
    requires slip { IsSmall plan.now slip }
    requires next { IsSmall plan.now next }
    requires adjoins { IsTrue (adjoins plan.now slip.piece next.piece) }
    ensures { result ≡ with_next slip next }
{
    laws::plans_are_accepted(plan);
    Slip {
        piece: Piece {
            first: slip.piece.first,
            count: slip.piece.count + next.piece.count,
        },
        totals: slip.totals.plus(next.totals),
    }
}
