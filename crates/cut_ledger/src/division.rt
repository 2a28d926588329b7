ghost use Rattle.std.specs.Prelude.{◌≡◌, ◌+◌, ◌-◌, ◌≤◌, ◌<◌, ◌^◌, All, IfOk, length, slice_get};
ghost use Rattle.std.specs.Int.{div_ceil};
ghost use Rattle.std.specs.List.{flat_map};
ghost use Rattle.std.specs.List.Sorted.{IsNonDecreasingBy, IsPartitionPoint};
ghost use Rattle.cut_ledger.specs.Gaps.{parts_of};
ghost use Rattle.cut_ledger.specs.inside.DivisionInside.{HasNumber, piece_of};

use cut_outcome::Piece;
use std::alloc::{AllocError, Global};
use std::marker::Model;

/// A gap, and how many pieces there are up to its end.
#[derive(Clone, Copy, Debug)]
struct Stretch {
    gap: Piece,
    end: u32,
}

/// How the gaps of a ledger are cut into pieces of one size: each gap from its beginning, the last piece of a gap
/// shorter if less is left. Contracts see the list of its pieces, in order.
///
/// It takes memory for each gap and none for a piece, which is computed from its number.
#[derive(Debug, Drop)]
pub struct Division {
    stretches: Vec<Stretch>,
    size: u32,
}

impl Model for Division {
    ghost use Rattle.std.specs.Prelude.{List};
    ghost use Rattle.cut_outcome.specs.declared.piece.Piece.{Piece};
    ghost use Rattle.cut_ledger.specs.inside.DivisionInside.{pieces_in, IsDivision};

    ghost Value = { List Piece };

    ghost view = { pieces_in };

    ghost invariant = { IsDivision };
}

impl Division {
    /// The pieces of gaps.
    pub(crate) fn of_gaps(alloc: Global, gaps: &[Piece], size: u32) -> Result<Division, AllocError>
        requires size { 1 ≤ size }
        requires fit { All (λ p. p.first + p.count < 2 ^ 32) gaps.now }
        requires few { length (flat_map (parts_of size) gaps.now) < 2 ^ 32 }
        ensures { IfOk result (λ pieces. pieces ≡ flat_map (parts_of size) gaps.now) }
    {
        let mut stretches = Vec::with_capacity(alloc, gaps.len())?;
        let mut end = 0;
        for gap in gaps {
            end += gap.count.div_ceil(size);
            stretches.push(Stretch { gap: *gap, end })?;
        }
        Ok(Division { stretches, size })
    }

    /// How many pieces there are.
    pub fn len(&self) -> u64
        ensures value { result ≡ length self.now }
        ensures few { result < 2 ^ 32 }
    {
        match self.stretches.last() {
            Some(stretch) => u64::from(stretch.end),
            None => 0,
        }
    }

    /// The piece of a number, counted from 0, or `None` past the last one. Takes no memory.
    pub fn get(&self, number: u64) -> Option<Piece>
        ensures { result ≡ slice_get self.now number }
    {
        let at = gaps_before(&self.stretches, number);
        match self.stretches.get(at) {
            Some(stretch) => Some(piece_in(*stretch, self.size, number)),
            None => None,
        }
    }
}

/// How many gaps have all their pieces before a piece number.
fn gaps_before(stretches: &[Stretch], number: u64) -> usize
    requires { IsNonDecreasingBy (λ s. s.end) stretches.now }
    ensures within { result ≤ length stretches.now }
    ensures parts { IsPartitionPoint (λ s. s.end ≤ number) (λ s. number < s.end) stretches.now result }
{
    stretches.partition_point(|stretch| u64::from(stretch.end) <= number)
}

/// The piece of a number, which is one of this gap.
fn piece_in(stretch: Stretch, size: u32, number: u64) -> Piece
    requires some { 1 ≤ size }
    requires within { stretch.gap.first + stretch.gap.count < 2 ^ 32 }
    requires number { HasNumber size stretch number }
    ensures { result ≡ piece_of size stretch number }
{
    let parts = stretch.gap.count.div_ceil(size);
    let number_in_gap = number - u64::from(stretch.end - parts);
    let before = number_in_gap as u32 * size;
    Piece {
        first: stretch.gap.first + before,
        count: size.min(stretch.gap.count - before),
    }
}
