ghost use Rattle.std.specs.Prelude.{◌≡◌, ◌+◌, ◌<◌, ◌≤◌, ◌↔◌, IfSome, IsSome, IsTrue, ℕ, length, count_by};
ghost use Rattle.cut_plan.specs.Cells.{cells_of, trial_count};
ghost use Rattle.cut_outcome.specs.Sum.{is_piece, trials_of_cell};
ghost use Rattle.cut_shares.specs.share.Bounds.{IsShare};
ghost use Rattle.cut_shares.specs.share.Blocks.{block_of};

use cut_outcome::Piece;
use cut_plan::{MOST_REPEATS, Plan};

/// How many shares a study may have.
const MOST_SHARES: u32 = 100_000;

/// The part of a plan's trials that one of several machines runs.
///
/// The trials of each cell are cut into blocks, which are numbered through all cells. Of N shares, share I has the
/// blocks whose number leaves I - 1 on division by N.
#[derive(Clone, Copy, Debug, PartialEq, Eq)]
pub struct Share {
    /// Which share, from 1.
    pub index: u32,
    /// How many shares there are, at most 100,000.
    pub shares: u32,
    /// How many trials a block has, 1 to 1,000,000, the most that a cell has; the last of a cell has what is left.
    pub block_size: u32,
    pub ghost bounds: { IsShare index shares block_size },
}

impl Share {
    ghost use Rattle.cut_shares.specs.share.Share.{has_block, is_in_share, trials_of_share};

    /// The share of these numbers, if they are in their ranges.
    pub fn new(index: u32, shares: u32, block_size: u32) -> Option<Share>
        ensures some { IsSome result ↔ IsShare index shares block_size }
        ensures value { IfSome result (λ s.
            (s.index ≡ index) × (s.shares ≡ shares) × (s.block_size ≡ block_size)) }
    {
        let is_numbered = 1 <= index && index <= shares && shares <= MOST_SHARES;
        if is_numbered && 1 <= block_size && u64::from(block_size) <= MOST_REPEATS {
            Some(Share {
                index,
                shares,
                block_size,
            })
        } else {
            None
        }
    }

    /// Whether it has a trial of a plan.
    pub fn has(self, plan: &Plan, trial: u32) -> bool
        requires { trial < trial_count plan.now }
        ensures { result ≡ is_in_share self plan.now trial }
    {
        self.has_block(block_of(plan, self.block_size, trial))
    }

    /// The first trials of a piece of a plan, up to the end of the block of its first trial. The share has all of them
    /// or none.
    pub(crate) fn block_at(self, plan: &Plan, piece: Piece) -> Piece
        requires { IsTrue (is_piece plan.now piece) }
        ensures first { result.first ≡ piece.first }
        ensures some { 1 ≤ result.count }
        ensures within { result.count ≤ piece.count }
        ensures alike { (t : ℕ) → piece.first ≤ t → t < piece.first + result.count →
            is_in_share self plan.now t ≡ is_in_share self plan.now piece.first }
    {
        let before = piece.first % plan.repeats() % self.block_size;
        Piece {
            first: piece.first,
            count: piece.count.min(self.block_size - before),
        }
    }

    /// How many trials of a plan it has.
    #[tactic(auto, using(crate::proofs::Counting::count_all, crate::proofs::Counting::count_at_most))]
    pub fn trials(self, plan: &Plan) -> u32
        ensures { result ≡ length (trials_of_share self plan.now) }
    {
        let mut count = 0;
        for cell in 0..plan.cells() {
            count += self.trials_in_cell(plan, cell);
        }
        count
    }

    /// How many trials of a cell it has.
    #[tactic(auto, using(crate::proofs::Counting::block_counted, crate::proofs::Counting::count_at_most))]
    fn trials_in_cell(self, plan: &Plan, cell: u32) -> u32
        requires { cell < length (cells_of plan.now) }
        ensures { result ≡ count_by (is_in_share self plan.now) (trials_of_cell plan.now cell) }
    {
        let repeats = plan.repeats();
        let blocks = repeats.div_ceil(self.block_size);
        let first = u64::from(cell) * u64::from(blocks);
        let mut count = 0;
        for block in 0..blocks {
            if self.has_block(first + u64::from(block)) {
                count += self.block_size.min(repeats - block * self.block_size);
            }
        }
        count
    }

    /// Whether it has the block of a number.
    fn has_block(self, block: u64) -> bool
        ensures { result ≡ has_block self block }
    {
        block % u64::from(self.shares) == u64::from(self.index - 1)
    }
}

/// The number of a trial's block.
fn block_of(plan: &Plan, block_size: u32, trial: u32) -> u64
    requires { 1 ≤ block_size }
    ensures { result ≡ block_of block_size plan.now trial }
{
    let repeats = plan.repeats();
    let blocks = repeats.div_ceil(block_size);
    u64::from(trial / repeats) * u64::from(blocks) + u64::from(trial % repeats / block_size)
}
