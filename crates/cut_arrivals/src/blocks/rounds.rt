//! The rounds of the cipher (RFC 8439, 2.1 to 2.3) on four blocks side by side: each word of a state is a vector, with
//! a lane for each block.
ghost use Rattle.std.specs.Prelude.{◌≡◌, ℕ, ◌<◌, List, length, slice_index};
ghost use Rattle.rand_chacha.specs.Block.{add32, xor_rotate, quarter_round, column_round, diagonal_round};
ghost use Rattle.rand_chacha.specs.Block.{double_rounds, initial_state};
ghost use Rattle.rand_chacha.specs.Lanes.{lane};

use std::simd::u32x4;

/// The state of four blocks: sixteen words of each.
pub(crate) type States = [u32x4; 16];

/// The sums of the lanes, each with its carry dropped.
#[inline(always)]
pub(crate) fn sum(a: u32x4, b: u32x4) -> u32x4
    ensures four { length result ≡ 4 }
    ensures lanes { (j : ℕ) → j < 4 → slice_index result j ≡ add32 (slice_index a j) (slice_index b j) }
{
    a + b
}

/// The exclusive or of the lanes, each rotated to the left by this many bits.
#[inline(always)]
fn turned(a: u32x4, b: u32x4, bits: u32) -> u32x4
    requires { (0 < bits) × (bits < 32) }
    ensures { (j : ℕ) → j < 4 → slice_index result j ≡ xor_rotate (slice_index a j) (slice_index b j) bits }
{
    let both = a ^ b;
    (both << u32x4::splat(bits)) | (both >> u32x4::splat(32 - bits))
}

/// A quarter round in each lane (2.1).
#[inline(always)]
#[tactic(auto, unfolding(rand_chacha::specs::Block::quarter_round))]
fn quarter(a: u32x4, b: u32x4, c: u32x4, d: u32x4) -> (u32x4, u32x4, u32x4, u32x4)
    ensures { (j : ℕ) → j < 4
        → (slice_index result.0 j, slice_index result.1 j, slice_index result.2 j, slice_index result.3 j)
        ≡ quarter_round (slice_index a j) (slice_index b j) (slice_index c j) (slice_index d j) }
{
    let first_a = sum(a, b);
    let first_d = turned(d, first_a, 16);
    let first_c = sum(c, first_d);
    let first_b = turned(b, first_c, 12);
    let last_a = sum(first_a, first_b);
    let last_d = turned(first_d, last_a, 8);
    let last_c = sum(first_c, last_d);
    let last_b = turned(first_b, last_c, 7);
    (last_a, last_b, last_c, last_d)
}

/// A quarter round on each column of the states, read as four rows of four words (2.3).
#[inline(always)]
#[tactic(auto, unfolding(rand_chacha::specs::Block::column_round))]
fn columns(states: States) -> States
    ensures { (j : ℕ) → j < 4 → lane j result ≡ column_round (lane j states) }
{
    let [
        a0,
        a1,
        a2,
        a3,
        b0,
        b1,
        b2,
        b3,
        c0,
        c1,
        c2,
        c3,
        d0,
        d1,
        d2,
        d3,
    ] = states;
    let (a0, b0, c0, d0) = quarter(a0, b0, c0, d0);
    let (a1, b1, c1, d1) = quarter(a1, b1, c1, d1);
    let (a2, b2, c2, d2) = quarter(a2, b2, c2, d2);
    let (a3, b3, c3, d3) = quarter(a3, b3, c3, d3);
    [
        a0, a1, a2, a3, b0, b1, b2, b3, c0, c1, c2, c3, d0, d1, d2, d3,
    ]
}

/// A quarter round on each diagonal of the states (2.3).
#[inline(always)]
#[tactic(auto, unfolding(rand_chacha::specs::Block::diagonal_round))]
fn diagonals(states: States) -> States
    ensures { (j : ℕ) → j < 4 → lane j result ≡ diagonal_round (lane j states) }
{
    let [
        a0,
        a1,
        a2,
        a3,
        b0,
        b1,
        b2,
        b3,
        c0,
        c1,
        c2,
        c3,
        d0,
        d1,
        d2,
        d3,
    ] = states;
    let (a0, b1, c2, d3) = quarter(a0, b1, c2, d3);
    let (a1, b2, c3, d0) = quarter(a1, b2, c3, d0);
    let (a2, b3, c0, d1) = quarter(a2, b3, c0, d1);
    let (a3, b0, c1, d2) = quarter(a3, b0, c1, d2);
    [
        a0, a1, a2, a3, b0, b1, b2, b3, c0, c1, c2, c3, d0, d1, d2, d3,
    ]
}

/// A double round: the columns, then the diagonals (2.3).
#[inline(always)]
fn double_round(states: States) -> States
    ensures { (j : ℕ) → j < 4 → lane j result ≡ diagonal_round (column_round (lane j states)) }
{
    diagonals(columns(states))
}

/// The states after 8 rounds, which are 4 double ones.
#[inline(always)]
#[tactic(auto, unfolding(rand_chacha::specs::Block::double_rounds))]
pub(crate) fn eight_rounds(states: States) -> States
    ensures { (j : ℕ) → j < 4 → lane j result ≡ double_rounds 4 (lane j states) }
{
    double_round(double_round(double_round(double_round(states))))
}

/// The states with other numbers of blocks.
#[inline(always)]
pub(crate) fn with_blocks(states: States, blocks: u32x4) -> States
    ensures { (key : List ℕ) (stream j : ℕ) → j < 4 → lane j states ≡ initial_state key 0 stream
        → lane j result ≡ initial_state key (slice_index blocks j) stream }
{
    let mut moved = states;
    moved[12] = blocks;
    moved
}
