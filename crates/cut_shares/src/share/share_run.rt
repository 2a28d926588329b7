ghost use Rattle.std.specs.Prelude.{◌≡◌, ◌≤◌, All, IfErr, IfOk, IsTrue, OnOk};
ghost use Rattle.cut_outcome.specs.Sum.{is_piece};
ghost use Rattle.cut_ledger.specs.Contents.{over_base};
ghost use Rattle.cut_ledger.specs.Gaps.{gaps_of};
ghost use Rattle.cut_ledger.specs.Slips.{AreGood};
ghost use Rattle.cut_shares.specs.share.inside.Running.{IsFaultOfOpening};

use crate::share::Share;
use crate::share::batch::run_pieces;
use crate::share::env::ShareEnv;
use crate::share::piece_task::new_tasks;
use crate::share::share_pieces::SharePieces;
use cut_disks::Disk;
use cut_journal::{Journal, StoreFault, laws};
use cut_ledger::{Ledger, Slip};
use cut_outcome::{Gate, Piece};
use cut_plan::Plan;
use cut_rings::Rings;
use cut_trial::PieceRunner;
use std::alloc::Global;
use std::sync::Wait;
use std::thread::Threads;

/// How many pieces of a batch each worker has.
const PIECES_A_WORKER: usize = 8;

/// The share of a plan that one machine is to run, over the slips that its journal was opened with.
#[derive(Drop)]
pub struct ShareRun<'a, G> {
    /// The plan.
    pub plan: &'a Plan,
    /// The slips that the journal was opened with.
    pub slips: &'a [Slip],
    /// The share.
    pub share: Share,
    /// How many threads there may be, 1 to 64.
    pub workers: u32,
    /// What is called before each piece is run, and after its result is kept.
    pub gate: &'a G,
    pub ghost few: { (1 ≤ workers) × (workers ≤ 64) },
}

impl<G: Gate + Sync> ShareRun<'_, G> {
    ghost use Rattle.std.specs.Prelude.{◌↔◌, ◌≢◌, IsErrOf};
    ghost use Rattle.cut_shares.specs.share.Running.{EndsShare};

    /// Runs the trials of the share that the slips lack, and keeps them in the journal. Returns how many trials the
    /// share has, all of which are held then.
    ///
    /// Pieces are run in batches, in several threads, and each result is appended to the journal as a slip of its own.
    /// If memory runs out, twice for a piece, the others are run all the same, and then this is reported. A disk that
    /// fails ends the run at once.
    pub fn run<D: Disk, R: Threads + Wait + Sync>(
        self,
        rt: &R,
        alloc: Global,
        journal: &mut Journal<D>,
    ) -> Result<u32, StoreFault>
        ensures other_plan { IsErrOf result StoreFault.OtherPlan ↔ (journal.old.plan ≢ self.entry.plan.now) }
        ensures ends { EndsShare D.log result self.entry.share self.entry.plan.now self.entry.slips.now
            journal.old journal.new }
    {
        laws::journals_stay_readable(journal);
        if !journal.plan().same(self.plan) {
            return Err(StoreFault::OtherPlan);
        }
        cut_ledger::laws::gaps_are_what_is_not_held();
        let gaps = gaps_over(alloc, self.plan, self.slips)?;
        let rings = Rings::hashed(alloc, self.plan)?;
        let mut tasks = new_tasks(alloc, PIECES_A_WORKER * self.workers as usize)?;
        let pieces = SharePieces::of(self.plan, self.share, &gaps);
        let all = self.share.trials(self.plan);
        let left = pieces.trials_left();
        self.gate
            .opened(rt, u64::from(all).saturating_sub(left), u64::from(all));
        let runner = PieceRunner {
            alloc,
            plan: self.plan,
            rings: &rings,
        };
        let env = ShareEnv {
            runner,
            workers: self.workers,
            gate: self.gate,
        };
        if run_pieces(rt, &env, pieces, tasks.as_mut_slice(), journal)? {
            Ok(all)
        } else {
            Err(StoreFault::WorkMemory)
        }
    }
}

/// The gaps of the ledger over slips: the trials of the plan that they lack.
fn gaps_over(alloc: Global, plan: &Plan, slips: &[Slip]) -> Result<Vec<Piece>, StoreFault>
    ensures ok { IfOk result (λ gaps. gaps.items ≡ gaps_of (over_base plan.now slips.now)) }
    ensures pieces { IfOk result (λ gaps. All (λ p. IsTrue (is_piece plan.now p)) gaps.items) }
    ensures good { OnOk result (AreGood plan.now slips.now) }
    ensures err { IfErr result (IsFaultOfOpening plan.now slips.now) }
{
    let ledger = Ledger::from_slips(alloc, plan.try_clone(alloc)?, slips)?;
    Ok(ledger.gaps(alloc)?)
}
