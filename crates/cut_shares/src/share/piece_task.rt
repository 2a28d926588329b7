ghost use Rattle.std.specs.Prelude.{◌≡◌, ℕ, ◌+◌, ◌<◌, ◌≤◌, ◌∷◌, take, length, All, IfOk, vec_len};
ghost use Rattle.std.specs.List.{list_all};
ghost use Rattle.cut_ledger.specs.World.{times_in};
ghost use Rattle.cut_shares.specs.share.inside.Pieces.{IsSharePiece, own_times, trials_in_all};
ghost use Rattle.cut_shares.specs.share.inside.Tasks.{has_result, pieces_of};

use crate::share::share_pieces::SharePieces;
use cut_outcome::{Piece, PieceResult};
use std::alloc::{AllocError, Global};

/// A piece that some thread runs, and its result, once there is one.
#[derive(Drop)]
pub(crate) struct PieceTask {
    pub(crate) piece: Piece,
    pub(crate) result: Option<PieceResult>,
}

/// This many tasks without pieces.
pub(crate) fn new_tasks(alloc: Global, count: usize) -> Result<Vec<PieceTask>, AllocError>
    ensures { IfOk result (λ tasks. vec_len tasks ≡ count) }
{
    let mut tasks = Vec::with_capacity(alloc, count)?;
    for _ in 0..count {
        tasks.push(PieceTask {
            piece: Piece { first: 0, count: 0 },
            result: None,
        })?;
    }
    Ok(tasks)
}

/// Gives tasks the next pieces of a share, one each, as long as there are pieces. Returns how many tasks have one:
/// the first ones.
pub(crate) fn deal_pieces(pieces: &mut SharePieces<'_>, tasks: &mut [PieceTask]) -> usize
    ensures plan { pieces.new.plan.now ≡ pieces.old.plan.now }
    ensures share { pieces.new.share ≡ pieces.old.share }
    ensures within { result ≤ length tasks.old }
    ensures own { All (IsSharePiece pieces.old.share pieces.old.plan.now) (pieces_of (take result tasks.new)) }
    ensures taken { (t : ℕ) → times_in (pieces_of (take result tasks.new)) t
        + own_times pieces.old.share pieces.old.plan.now (pieces.new.rest ∷ pieces.new.later.now) t
        ≡ own_times pieces.old.share pieces.old.plan.now (pieces.old.rest ∷ pieces.old.later.now) t }
    ensures none { result < length tasks.old → (t : ℕ) →
        own_times pieces.old.share pieces.old.plan.now (pieces.new.rest ∷ pieces.new.later.now) t ≡ 0 }
    ensures fewer { trials_in_all (pieces.new.rest ∷ pieces.new.later.now) + result
        ≤ trials_in_all (pieces.old.rest ∷ pieces.old.later.now) }
{
    for count in 0..tasks.len() {
        let Some(piece) = pieces.next() else {
            return count;
        };
        tasks[count] = PieceTask {
            piece,
            result: None,
        };
    }
    tasks.len()
}

/// Whether each task has a result.
pub(crate) fn are_done(tasks: &[PieceTask]) -> bool
    ensures { result ≡ list_all has_result tasks.now }
{
    tasks.iter().all(|task| task.result.is_some())
}
