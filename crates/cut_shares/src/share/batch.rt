ghost use Rattle.std.specs.Prelude.{◌≡◌, ◌≤◌, ◌∷◌, IfOk, length};
ghost use Rattle.std.specs.List.{list_all};
ghost use Rattle.cut_journal.specs.Adding.{EndsAdding};
ghost use Rattle.cut_shares.specs.share.inside.Running.{slips_at};
ghost use Rattle.cut_shares.specs.share.inside.Batches.{EndsPieces};
ghost use Rattle.cut_shares.specs.share.inside.Tasks.{done_of, has_result, pieces_of};

use crate::share::append::append_all;
use crate::share::env::ShareEnv;
use crate::share::piece_task::{PieceTask, are_done, deal_pieces};
use crate::share::share_pieces::SharePieces;
use cut_disks::Disk;
use cut_journal::{Journal, StoreFault, laws};
use cut_outcome::Gate;
use std::sync::Wait;
use std::thread::Threads;

/// Runs the pieces of a share in batches, each of as many pieces as there are tasks, and appends the results to the
/// journal of their plan. Returns whether memory sufficed for all of them.
pub(crate) fn run_pieces<D: Disk, G: Gate + Sync, R: Threads + Wait + Sync>(
    rt: &R,
    env: &ShareEnv<'_, G>,
    pieces: SharePieces<'_>,
    tasks: &mut [PieceTask],
    journal: &mut Journal<D>,
) -> Result<bool, StoreFault>
    requires some { 1 ≤ length tasks.old }
    requires plan { env.now.runner.plan.now ≡ pieces.plan.now }
    requires own { journal.old.plan ≡ pieces.plan.now }
    ensures { EndsPieces D.log result pieces.entry.share pieces.entry.plan.now
        (pieces.entry.rest ∷ pieces.entry.later.now) journal.old journal.new }
{
    laws::journals_stay_readable(journal);
    let mut pieces = pieces;
    let mut is_whole = true;
    loop {
        let count = deal_pieces(&mut pieces, tasks);
        if count == 0 {
            return Ok(is_whole);
        }
        let is_done = run_batch(rt, env, &mut tasks[..count], journal)?;
        is_whole &= is_done;
    }
}

/// Runs the pieces of tasks, and appends the results. Returns whether each has one.
fn run_batch<D: Disk, G: Gate + Sync, R: Threads + Wait + Sync>(
    rt: &R,
    env: &ShareEnv<'_, G>,
    tasks: &mut [PieceTask],
    journal: &mut Journal<D>,
) -> Result<bool, StoreFault>
    requires { journal.old.plan ≡ env.now.runner.plan.now }
    ensures pieces { pieces_of tasks.new ≡ pieces_of tasks.old }
    ensures ends { EndsAdding D.log result (slips_at journal.old.plan (done_of tasks.new)) journal.old journal.new }
    ensures done { IfOk result (λ is_done. is_done ≡ list_all has_result tasks.new) }
{
    env.run_all(rt, tasks);
    append_all(rt, env.gate, journal, tasks)?;
    Ok(are_done(tasks))
}
