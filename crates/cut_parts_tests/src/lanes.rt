//! Ranks beside a plain sort, and proposal times beside a search through all times.
ghost use Rattle.std.specs.Prelude.{◌≡◌, ℕ, ◌<◌, ◌≤◌, length, slice_index, All, IfOk};
ghost use Rattle.cut_arrivals.specs.blocks.Images.{never};
ghost use Rattle.cut_arrivals.specs.lanes.Lanes.{lane};

use cut_arrivals::blocks::NEVER;
use cut_arrivals::lanes::{ProposalTime, compute_proposal_time, ordered, select};
use rand_chacha::ChaCha8Rng;
use rand_core::SeedableRng;
use rand_core::utils::NextWord;
use std::alloc::{AllocError, Global};
use std::simd::u32x4;
use std::test::Fail;

/// Draws a time of each receiver: below a bound, or `NEVER` one time in eight.
fn drawn_times(words: &mut ChaCha8Rng, bound: u32) -> u32x4
    ensures { (i : ℕ) → i < 4 → slice_index result i ≤ never }
{
    u32x4::from_array([
        drawn_time(words, bound),
        drawn_time(words, bound),
        drawn_time(words, bound),
        drawn_time(words, bound),
    ])
}

fn drawn_time(words: &mut ChaCha8Rng, bound: u32) -> u32
    ensures { result ≤ never }
{
    let word = words.next_word();
    if word % 8 == 0 {
        NEVER
    } else {
        (words.next_word() % bound.max(1)).min(NEVER)
    }
}

/// Draws `many` times of each receiver.
fn drawn(
    alloc: Global,
    words: &mut ChaCha8Rng,
    many: usize,
    bound: u32,
) -> Result<Vec<u32x4>, AllocError>
    ensures times { IfOk result (λ v. (i : ℕ) → i < 4 → All (λ x. x ≤ never) (lane i v.items)) }
    ensures many { IfOk result (λ v. length v.items ≡ many) }
{
    let mut times = Vec::new(alloc);
    for _ in 0..many {
        times.push(drawn_times(words, bound))?;
    }
    Ok(times)
}

/// Draws an end for each beginning: less than 20 after it.
fn drawn_stable_at(
    alloc: Global,
    words: &mut ChaCha8Rng,
    reported_at: &[u32x4],
    bound: u32,
) -> Result<Vec<u32x4>, AllocError>
    ensures { IfOk result (λ v. length v.items ≡ length reported_at.now) }
{
    let mut stable_at = Vec::new(alloc);
    for low in reported_at {
        let width = u32x4::splat(words.next_word() % 20);
        stable_at.push(
            low.simd_max(drawn_times(words, bound))
                .simd_min(*low + width),
        )?;
    }
    Ok(stable_at)
}

/// The times of one receiver.
fn lane_of(alloc: Global, vectors: &[u32x4], lane: usize) -> Result<Vec<u32>, AllocError> {
    let mut times = Vec::new(alloc);
    for vector in vectors {
        times.push(vector.to_array()[lane % 4])?;
    }
    Ok(times)
}

/// A rank by a plain sort.
fn rank_by_sorting(alloc: Global, times: &[u32], rank: u32) -> Result<u32, AllocError> {
    let mut sorted = Vec::from_slice(alloc, times)?;
    sorted.sort()?;
    let place = (rank as usize).saturating_sub(1);
    Ok(sorted.get(place).copied().unwrap_or(NEVER))
}

/// Whether both ranks of each receiver are those of its sorted times.
fn are_ranks(
    alloc: Global,
    times: &[u32x4],
    ranks: [u32; 2],
    found: (u32x4, u32x4),
) -> Result<bool, AllocError> {
    let [low, high] = ranks;
    for lane in 0..4 {
        let times = lane_of(alloc, times, lane)?;
        if found.0.to_array()[lane] != rank_by_sorting(alloc, times.as_slice(), low)?
            || found.1.to_array()[lane] != rank_by_sorting(alloc, times.as_slice(), high)?
        {
            return Ok(false);
        }
    }
    Ok(true)
}

#[test]
fn each_receiver_has_its_lesser_and_greater(rt: HostRuntime) {
    let a = u32x4::from_array([3, 7, 5, NEVER]);
    let b = u32x4::from_array([4, 6, 5, 0]);
    let (lesser, greater) = ordered(a, b);
    assert_eq!(rt; lesser.to_array(), [3, 6, 5, 0]);
    assert_eq!(rt; greater.to_array(), [4, 7, 5, NEVER]);
}

#[test]
fn ranks_are_those_of_sorted_times(rt: HostRuntime) -> Result<(), Fail> {
    let alloc = rt.alloc();
    let mut words = ChaCha8Rng::from_seed([1; 32]);
    for many in 0..65 {
        for bound in [4, 1000, NEVER] {
            let times = drawn(alloc, &mut words, many, bound)?;
            for low in 1..6 {
                for high in [low, low + 1, 2 * low + 1, 64] {
                    let found = select(times.as_slice(), low, high);
                    let right = are_ranks(alloc, times.as_slice(), [low, high], found)?;
                    assert!(rt; right, "{many} {bound} {low} {high}");
                }
            }
        }
    }
    Ok(())
}

/// What closes at a receiver, found by a search through all times below a bound.
fn proposal_time_by_search(reported_at: &[u32], stable_at: &[u32], first: u32, bound: u32) -> u32 {
    for time in 0..bound {
        if is_enough(reported_at, stable_at, first, time) {
            return time;
        }
    }
    NEVER
}

fn is_enough(reported_at: &[u32], stable_at: &[u32], first: u32, time: u32) -> bool {
    for (low, high) in reported_at.iter().zip(stable_at) {
        if (*low <= first || *low < time) && *high > time {
            return false;
        }
    }
    true
}

/// How many times are equal to one.
fn count_of(times: &[u32], time: u32) -> usize {
    let mut count: usize = 0;
    for other in times {
        if *other == time {
            count = count.saturating_add(1);
        }
    }
    count
}

/// Whether a receiver's proposal time is what a search finds.
fn is_right(
    alloc: Global,
    reported_at: &[u32x4],
    stable_at: &[u32x4],
    proposal_time: &ProposalTime,
    lane: usize,
) -> Result<bool, AllocError> {
    let lane = lane % 4;
    let reported_at = lane_of(alloc, reported_at, lane)?;
    let stable_at = lane_of(alloc, stable_at, lane)?;
    let first = rank_by_sorting(alloc, reported_at.as_slice(), 1)?;
    let time = proposal_time_by_search(reported_at.as_slice(), stable_at.as_slice(), first, 200);
    let doubt = count_of(reported_at.as_slice(), first) > 1
        || (first < time && count_of(reported_at.as_slice(), time) > 0);
    Ok(
        proposal_time.first.to_array()[lane] == first
            && proposal_time.time.to_array()[lane] == time
            && ((proposal_time.doubt >> lane) & 1 == 1) == doubt,
    )
}

#[test]
fn closings_are_those_of_a_search(rt: HostRuntime) -> Result<(), Fail> {
    let alloc = rt.alloc();
    let mut words = ChaCha8Rng::from_seed([2; 32]);
    for number in 0..500 {
        let many = 1 + number % 12;
        for bound in [8, 30, 100] {
            let reported_at = drawn(alloc, &mut words, many, bound)?;
            let stable_at = drawn_stable_at(alloc, &mut words, reported_at.as_slice(), bound)?;
            let proposal_time = compute_proposal_time(reported_at.as_slice(), stable_at.as_slice());
            for lane in 0..4 {
                let right = is_right(
                    alloc,
                    reported_at.as_slice(),
                    stable_at.as_slice(),
                    &proposal_time,
                    lane,
                )?;
                assert!(rt; right, "{number} {bound} {lane}");
            }
        }
    }
    Ok(())
}
