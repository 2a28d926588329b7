ghost use Rattle.std.specs.Prelude.{◌≡◌, ℕ, ◌+◌, ◌/◌, ◌%◌, ◌^◌, ◌<◌, ◌≤◌, ◌==◌, cond, length, slice_index, All};
ghost use Rattle.std.specs.List.{list_any};
ghost use Rattle.cut_arrivals.specs.blocks.Images.{never};
ghost use Rattle.cut_arrivals.specs.ranks.Ranks.{IsRank};
ghost use Rattle.cut_arrivals.specs.ranks.Closing.{IsLeast, IsBegun, IsRaised, IsClosing, is_doubtful};
ghost use Rattle.cut_arrivals.specs.lanes.Lanes.{lane};

use crate::blocks::NEVER;
use crate::lanes::lanes::{doubts, has_risen, marked, next_time, raised};
use crate::lanes::ranks::insert;
use std::simd::u32x4;

/// When four receivers' processes have ended.
#[derive(Clone, Copy, Debug, Drop)]
pub struct ProposalTime {
    /// The first beginning of all.
    pub first: u32x4,
    /// The least time by which has ended what began at the first beginning, and all that began before it.
    pub time: u32x4,
    /// A bit for each receiver: whether equal times may stand for different ones where it matters.
    pub doubt: u64,
}

/// The proposal time of four receivers, of whose processes each begins at its low and ends at its high.
pub fn compute_proposal_time(reported_at: &[u32x4], stable_at: &[u32x4]) -> ProposalTime
    requires pairs { length reported_at.now ≡ length stable_at.now }
    requires some { 0 < length reported_at.now }
    requires times { (i : ℕ) → i < 4 → All (λ x. x ≤ never) (lane i reported_at.now) }
    ensures first { (i : ℕ) → i < 4 → IsLeast (lane i reported_at.now) (slice_index result.first i) }
    ensures time { (i : ℕ) → i < 4 → IsClosing (slice_index result.first i) (lane i reported_at.now)
        (lane i stable_at.now)
        (slice_index result.time i) }
    ensures four { result.doubt < 2 ^ 4 }
    ensures doubt { (i : ℕ) → i < 4 → result.doubt / 2 ^ i % 2
        ≡ cond (is_doubtful (lane i reported_at.now) (slice_index result.first i) (slice_index result.time i)) 1 0 }
{
    let (first, second) = two_least(reported_at);
    let time = closing_time(reported_at, stable_at, first);
    let marked = marks(reported_at, time);
    let doubt = doubts(first, second, time, marked);
    ProposalTime { first, time, doubt }
}

/// The first beginning and the second.
#[inline(always)]
fn two_least(reported_at: &[u32x4]) -> (u32x4, u32x4)
    requires times { (i : ℕ) → i < 4 → All (λ x. x ≤ never) (lane i reported_at.now) }
    ensures first { (i : ℕ) → i < 4 → IsRank (never + 1) 1 (lane i reported_at.now) (slice_index result.0 i) }
    ensures second { (i : ℕ) → i < 4 → IsRank (never + 1) 2 (lane i reported_at.now) (slice_index result.1 i) }
{
    let mut least = [u32x4::splat(NEVER + 1); 2];
    for low in reported_at {
        insert(&mut least, *low);
    }
    (least[0], least[1])
}

/// The least time by which has ended what began at the first beginning, and all that began before it.
#[inline(always)]
fn closing_time(reported_at: &[u32x4], stable_at: &[u32x4], first: u32x4) -> u32x4
    requires pairs { length reported_at.now ≡ length stable_at.now }
    requires first { (i : ℕ) → i < 4 → slice_index first i ≤ never + 1 }
    ensures { (i : ℕ) → i < 4 → IsClosing (slice_index first i) (lane i reported_at.now) (lane i stable_at.now)
        (slice_index result i) }
{
    let mut time = first_time(reported_at, stable_at, first);
    loop {
        let later = later_time(reported_at, stable_at, time);
        if !has_risen(time, later) {
            return time;
        }
        time = later;
    }
}

/// The time by which has ended what began at the first beginning.
#[inline(always)]
fn first_time(reported_at: &[u32x4], stable_at: &[u32x4], first: u32x4) -> u32x4
    requires pairs { length reported_at.now ≡ length stable_at.now }
    requires first { (i : ℕ) → i < 4 → slice_index first i ≤ never + 1 }
    ensures { (i : ℕ) → i < 4 → IsBegun (slice_index first i) (lane i reported_at.now) (lane i stable_at.now)
        (slice_index result i) }
{
    let bound = next_time(first);
    let mut time = u32x4::splat(0);
    for (place, low) in reported_at.iter().enumerate() {
        let next = raised(time, *low, bound, stable_at[place]);
        time = next;
    }
    time
}

/// A time by which has ended what began before another.
#[inline(always)]
fn later_time(reported_at: &[u32x4], stable_at: &[u32x4], time: u32x4) -> u32x4
    requires pairs { length reported_at.now ≡ length stable_at.now }
    ensures { (i first : ℕ) → i < 4 → IsRaised first (lane i reported_at.now) (lane i stable_at.now)
        (slice_index time i)
        (slice_index result i) }
{
    let mut later = time;
    for (place, low) in reported_at.iter().enumerate() {
        let next = raised(later, *low, later, stable_at[place]);
        later = next;
    }
    later
}

/// 1 where some process begins at the time, 0 elsewhere.
#[inline(always)]
fn marks(reported_at: &[u32x4], time: u32x4) -> u32x4
    ensures { (i : ℕ) → i < 4
        → slice_index result i ≡ cond (list_any (λ x. x == slice_index time i) (lane i reported_at.now)) 1 0 }
{
    let mut marks = u32x4::splat(0);
    for low in reported_at {
        let next = marked(marks, *low, time);
        marks = next;
    }
    marks
}
