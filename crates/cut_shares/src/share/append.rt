ghost use Rattle.std.specs.Prelude.{◌∷◌, [], All};
ghost use Rattle.cut_journal.specs.Adding.{EndsAdding};
ghost use Rattle.cut_shares.specs.share.inside.Running.{slips_at};
ghost use Rattle.cut_shares.specs.share.inside.Tasks.{IsRun, done_of};

use crate::share::piece_task::PieceTask;
use cut_disks::Disk;
use cut_journal::{Journal, StoreFault, laws};
use cut_outcome::Gate;
use std::sync::Wait;

/// Appends the results of tasks to a journal of their plan, in order, up to the first that it refuses.
pub(crate) fn append_all<D: Disk, G: Gate, R: Wait>(
    rt: &R,
    gate: &G,
    journal: &mut Journal<D>,
    tasks: &[PieceTask],
) -> Result<(), StoreFault>
    requires { All (IsRun journal.old.plan) tasks.now }
    ensures { EndsAdding D.log result (slips_at journal.old.plan (done_of tasks.now)) journal.old journal.new }
{
    laws::journals_stay_readable(journal);
    for task in tasks {
        append(rt, gate, journal, task)?;
    }
    Ok(())
}

/// Appends the result of a task, if it has one.
fn append<D: Disk, G: Gate, R: Wait>(
    rt: &R,
    gate: &G,
    journal: &mut Journal<D>,
    task: &PieceTask,
) -> Result<(), StoreFault>
    requires { IsRun journal.old.plan task.now }
    ensures { EndsAdding D.log result (slips_at journal.old.plan (done_of (task.now ∷ []))) journal.old journal.new }
{
    laws::journals_stay_readable(journal);
    let Some(result) = &task.result else {
        return Ok(());
    };
    journal.add(result)?;
    gate.accepted(rt, task.piece);
    Ok(())
}
