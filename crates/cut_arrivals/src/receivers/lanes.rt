//! What is done in each lane of vectors alike.
ghost use Rattle.std.specs.Prelude.{◌≡◌, ℕ, ◌<◌, ◌/◌, ◌%◌, ◌^◌, ◌==◌, cond, ◌+◌, ◌≤◌, nat_lt, nat_le, min, max};
ghost use Rattle.std.specs.Prelude.{map, length, slice_index, All};
ghost use Rattle.cut_plan.specs.declared.limits.TheConstants.{MOST_NODES};
ghost use Rattle.cut_arrivals.specs.blocks.Images.{never, row_of};
ghost use Rattle.cut_arrivals.specs.lanes.Lanes.{lane};
ghost use Rattle.cut_arrivals.specs.receivers.inside.LaneVerdicts.{is_other};

use crate::blocks::NEVER;
use std::simd::prelude::*;

/// Where the rows of receivers begin, in which the keys of a copy stand.
#[inline(always)]
pub(crate) fn rows_of(receivers: [u16; 4], copy: u8) -> u32x4
    requires receivers { All (λ j. j < MOST_NODES) receivers }
    requires copy { copy < 4 }
    ensures rows { result ≡ map (λ j. row_of copy j) receivers }
    ensures few { All (λ row. row < 2 ^ 27) result }
{
    let [a, b, c, d] = receivers;
    u32x4::from_array([
        row_of(copy, a),
        row_of(copy, b),
        row_of(copy, c),
        row_of(copy, d),
    ])
}

/// Where the row of a receiver begins.
#[inline(always)]
fn row_of(copy: u8, receiver: u16) -> u32
    requires receiver { receiver < MOST_NODES }
    requires copy { copy < 4 }
    ensures row { result ≡ row_of copy receiver }
    ensures few { result < 2 ^ 27 }
{
    (1 << 16) + (u32::from(copy) * 2048 + u32::from(receiver)) * 8192
}

/// The image, or the greater of two times if that is earlier.
#[inline(always)]
pub(crate) fn earlier(image: u32x4, own: u32x4, other: u32x4) -> u32x4
    ensures { (i : ℕ) → i < 4 → slice_index result i
        ≡ min (slice_index image i) (max (slice_index own i) (slice_index other i)) }
{
    image.simd_min(own.simd_max(other))
}

/// 1 if the time never comes, 0 elsewhere.
#[inline(always)]
pub(crate) fn silences(time: u32x4) -> u32x4
    ensures { (i : ℕ) → i < 4 → slice_index result i ≡ cond (nat_lt (slice_index time i) never) 0 1 }
{
    time.simd_lt(u32x4::splat(NEVER))
        .select(u32x4::splat(0), u32x4::splat(1))
}

/// 1 if some candidate has ended by the time and is not expected, or is expected and has not ended; 0 elsewhere.
#[inline(always)]
pub(crate) fn others(stable_at: &[u32x4], time: u32x4, wanted: &[bool]) -> u32x4
    requires { length wanted.now ≡ length stable_at.now }
    ensures { (i : ℕ) → i < 4 → slice_index result i
        ≡ cond (is_other (slice_index time i) (lane i stable_at.now) wanted.now (length stable_at.now)) 1 0 }
{
    let mut marks = u32x4::splat(0);
    for (place, high) in stable_at.iter().enumerate() {
        let next = if wanted[place] {
            marked_late(marks, time, *high)
        } else {
            marked_ended(marks, time, *high)
        };
        marks = next;
    }
    marks
}

/// 1 if the high is after the time, and what was there before elsewhere.
#[inline(always)]
fn marked_late(marks: u32x4, time: u32x4, high: u32x4) -> u32x4
    ensures { (i : ℕ) → i < 4 → slice_index result i
        ≡ cond (nat_lt (slice_index time i) (slice_index high i)) 1 (slice_index marks i) }
{
    time.simd_lt(high).select(u32x4::splat(1), marks)
}

/// What was there before if the high is after the time, and 1 elsewhere.
#[inline(always)]
fn marked_ended(marks: u32x4, time: u32x4, high: u32x4) -> u32x4
    ensures { (i : ℕ) → i < 4 → slice_index result i
        ≡ cond (nat_lt (slice_index time i) (slice_index high i)) (slice_index marks i) 1 }
{
    time.simd_lt(high).select(marks, u32x4::splat(1))
}

/// A bit for each lane that is 1.
#[inline(always)]
pub(crate) fn bits_of(marks: u32x4) -> u64
    ensures four { result < 2 ^ 4 }
    ensures bits { (i : ℕ) → i < 4 → result / 2 ^ i % 2 ≡ cond (slice_index marks i == 1) 1 0 }
{
    marks.simd_eq(u32x4::splat(1)).to_bitmask()
}

/// Whether the high in a lane is at most the time.
#[inline(always)]
pub(crate) fn has_ended(high: u32x4, time: u32x4, lane: usize) -> bool
    requires { lane < 4 }
    ensures { result ≡ nat_le (slice_index high lane) (slice_index time lane) }
{
    high.to_array()[lane] <= time.to_array()[lane]
}

/// The time after each.
#[inline(always)]
pub(crate) fn next_of(time: u32x4) -> u32x4
    ensures next { (i : ℕ) → i < 4 → slice_index time i ≤ never → slice_index result i ≡ slice_index time i + 1 }
    ensures four { length result ≡ 4 }
{
    time + u32x4::splat(1)
}

/// A count, and one more if an image is below a bound.
#[inline(always)]
pub(crate) fn counted(count: u32x4, image: u32x4, bound: u32x4) -> u32x4
    requires { (i : ℕ) → i < 4 → slice_index count i + 1 < 2 ^ 32 }
    ensures { (i : ℕ) → i < 4 → slice_index result i
        ≡ slice_index count i + cond (nat_lt (slice_index image i) (slice_index bound i)) 1 0 }
{
    count
        + image
            .simd_lt(bound)
            .select(u32x4::splat(1), u32x4::splat(0))
}

/// 0 if the second count is one more than the first, 1 elsewhere.
#[inline(always)]
pub(crate) fn not_next(before: u32x4, until: u32x4) -> u32x4
    ensures { (i : ℕ) → i < 4 → slice_index before i ≤ never → slice_index result i
        ≡ cond (slice_index until i == slice_index before i + 1) 0 1 }
{
    until
        .simd_eq(next_of(before))
        .select(u32x4::splat(0), u32x4::splat(1))
}
