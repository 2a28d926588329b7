ghost use Rattle.std.specs.Prelude.{◌≡◌, ◌≤◌};

use crate::share::piece_task::PieceTask;
use cut_outcome::Gate;
use cut_trial::PieceRunner;
use std::sync::Wait;
use std::thread;
use std::thread::Threads;

/// What runs pieces of a plan, and by how many threads it may.
#[derive(Drop)]
pub(crate) struct ShareEnv<'a, G> {
    pub(crate) runner: PieceRunner<'a>,
    pub(crate) workers: u32,
    pub(crate) gate: &'a G,
    ghost some: { 1 ≤ workers },
}

impl<G: Gate> ShareEnv<'_, G> {
    ghost use Rattle.std.specs.Prelude.{All};
    ghost use Rattle.cut_shares.specs.share.inside.Tasks.{IsRun, pieces_of};

    /// Runs the piece of each task, in as many threads as are allowed and can be made. If memory runs out twice for a
    /// piece, its task has no result.
    pub(crate) fn run_all<R: Threads + Wait + Sync>(&self, rt: &R, tasks: &mut [PieceTask])
    where
        G: Sync,
        ensures pieces { pieces_of tasks.new ≡ pieces_of tasks.old }
        ensures run { All (IsRun self.now.runner.plan.now) tasks.new }
    {
        thread::for_each_mut(
            rt,
            tasks,
            self.workers as usize,
            &|_, task: &mut PieceTask|
                ensures piece { task.new.piece ≡ task.old.piece }
                ensures run { IsRun self.entry.now.runner.plan.now task.new }
            { self.run(rt, task) },
        );
    }

    /// Runs the piece of a task once the gate lets it pass.
    fn run<R: Wait>(&self, rt: &R, task: &mut PieceTask)
        ensures piece { task.new.piece ≡ task.old.piece }
        ensures run { IsRun self.now.runner.plan.now task.new }
    {
        self.gate.pass(rt, task.piece);
        task.result = self.runner.run(task.piece);
    }
}
