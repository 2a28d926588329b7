ghost use Rattle.std.specs.Prelude.{◌≡◌, ◌≤◌, is_some, option_map};
ghost use Rattle.cut_commands.specs.Run.{source_place};
ghost use Rattle.cut_commands.specs.Study.{EndsRun, RunsFrom, RunsOn};

use crate::checkpoint::open_checkpoint;
use crate::input::PlanSource;
use crate::{CliFault, Ended};
use cut_disks::Disk;
use cut_files::{Files, MemoryFiles, Mode};
use cut_outcome::Gate;
use cut_pool::{EndedRun, StudyRun};
use cut_wires::Wire;
use std::alloc::Global;
use std::sync::Wait;
use std::thread::Threads;

/// How a study is worked on, which changes nothing of its table.
#[derive(Drop)]
pub struct Work<'a, G> {
    /// How many trials a piece has, except for the last one of a gap.
    pub piece_size: u32,
    /// How many workers there are, 1 to 64.
    pub workers: u32,
    /// What they call at each stage of their work.
    pub gate: &'a G,
    pub ghost size: { 1 ≤ piece_size },
    pub ghost few: { (1 ≤ workers) × (workers ≤ 64) },
}

/// Reads a plan from a wire, runs its study, and writes its table to the wire, each line as soon as its cell and those
/// before it are done.
///
/// With a disk the study is kept there: it goes on from the slips that the disk holds, or begins where it holds none,
/// and each piece is kept once it is done. The disk is given up: a caller that wants it back lends it, or calls
/// [`run_from`].
///
/// For every plan, piece size, number of workers, gate, checkpoint and wire, what the wire took is a prefix of the
/// plan's table, trial by trial as it is defined: all of it at `Ok`, and exactly as many bytes as are reported if a
/// write failed. That is the part `table` of the contract, without a disk or over one that is known to hold no study,
/// or true slips, as those are that this program writes. Over any other disk `command` says the same of the table over
/// the slips that were found there.
///
/// At most 65,537 bytes are read. Nothing is written at a fault of the reading, the plan, the opening of the checkpoint
/// or its slips; some first bytes may be written where the checkpoint, memory or the audit stop a study that has begun.
/// Read comes exactly if a read failed, and Write exactly if a write failed or took nothing. What is too long or no
/// UTF-8 is refused without memory once it is read.
pub fn run_io<W, D, G, R>(
    rt: &R,
    alloc: Global,
    wire: &mut W,
    work: Work<'_, G>,
    disk: Option<D>,
) -> Result<(), CliFault>
where
    W: Wire,
    D: Disk + Drop + Send,
    G: Gate + Sync,
    R: Threads + Wait + Sync,
    ensures { RunsOn (option_map D.log disk) (W.log wire.old) (W.log wire.new) result }
{
    let source = PlanSource::<MemoryFiles>::Input;
    let Ended { ended, .. } = run_from(rt, alloc, wire, Study::new(work, disk, source));
    ended
}

/// A study: how it is worked on, the disk that keeps it, if there is one, and where its plan is read from.
#[derive(Drop)]
pub struct Study<'a, G, D, F> {
    /// How it is worked on.
    pub work: Work<'a, G>,
    /// The disk that keeps it.
    pub disk: Option<D>,
    /// Where its plan is read from.
    pub source: PlanSource<'a, F>,
}

impl<'a, G, D, F> Study<'a, G, D, F> {
    /// A study that is worked on so, on a disk or on none, by the plan that is read there.
    pub fn new(work: Work<'a, G>, disk: Option<D>, source: PlanSource<'a, F>) -> Study<'a, G, D, F>
        ensures { (result.work ≡ work.entry) × (result.disk ≡ disk) × (result.source ≡ source.entry) }
    {
        Study { work, disk, source }
    }
}

/// Runs a study as `run_io` does, whose plan is read from a wire or a file, and gives its disk back. Of the table and of
/// what is on the disk then the contract speaks over the same slips.
pub fn run_from<F, W, D, G, R>(
    rt: &R,
    alloc: Global,
    wire: &mut W,
    study: Study<'_, G, D, F>,
) -> Ended<Option<D>, ()>
where
    F: Files,
    W: Wire,
    D: Disk + Drop + Send,
    G: Gate + Sync,
    R: Threads + Wait + Sync,
    ensures runs { RunsFrom (option_map D.log study.entry.disk) (option_map D.log result.disk)
        (source_place F.log study.entry.source) (W.log wire.old) (W.log wire.new) result.ended }
    ensures disk { is_some result.disk ≡ is_some study.entry.disk }
{
    cut_plan::laws::accepted_texts_give_plans();
    cut_ledger::laws::true_slips_give_the_table();
    let Study { work, disk, source } = study;
    let plan = match source.read_plan(alloc, wire) {
        Ok(plan) => plan,
        Err(fault) => {
            return Ended {
                disk,
                ended: Err(fault),
            };
        }
    };
    let kept = match open_checkpoint(alloc, disk, &plan) {
        Ok(kept) => kept,
        Err((fault, disk)) => {
            return Ended {
                disk,
                ended: Err(fault),
            };
        }
    };
    let run = StudyRun {
        plan: &plan,
        kept,
        piece_size: work.piece_size,
        workers: work.workers,
    };
    let EndedRun { ended, disk } = run.run(rt, alloc, wire, work.gate);
    match ended {
        Ok(_done) => Ended {
            disk,
            ended: Ok(()),
        },
        Err(fault) => Ended {
            disk,
            ended: Err(CliFault::from(fault)),
        },
    }
}

/// A study whose files are named by their paths.
#[derive(Drop)]
pub struct StudyWork<'a, G> {
    /// How it is worked on.
    pub work: Work<'a, G>,
    /// The path of the file that keeps it, if it is kept.
    pub checkpoint: Option<&'a str>,
    /// The path of the file that the plan is read from, if it is not the wire.
    pub plan: Option<&'a str>,
}

/// Runs a study as `run_io` does, and keeps it in the file at a path, if there is one.
///
/// That file is opened before anything is read, made if there is none, and shut at the end, however the study ended. The
/// file of a plan is read after it was opened, where the wire would be read. Where what stands at the path is known, the
/// contract says of which slips the table is, and what stands there afterwards: these and, in order, true slips of what
/// was run, all that were lacking where the answer is `Ok`.
pub fn run<F, W, G, R>(
    files: &mut F,
    rt: &R,
    alloc: Global,
    wire: &mut W,
    study: StudyWork<'_, G>,
) -> Result<(), CliFault>
where
    F: Files,
    W: Wire,
    G: Gate + Sync,
    R: Threads + Wait + Sync,
    ensures { EndsRun study.entry.checkpoint study.entry.plan (F.log files.old) (F.log files.new)
        (W.log wire.old) (W.log wire.new) result }
{
    let StudyWork {
        work,
        checkpoint,
        plan,
    } = study;
    let Some(path) = checkpoint else {
        let study = Study::new(work, None::<F::Disk>, PlanSource::of(&*files, plan));
        return run_from(rt, alloc, wire, study).ended;
    };
    let disk = files.open(path, Mode::Create)?;
    let study = Study::new(work, Some(disk), PlanSource::of(&*files, plan));
    let Ended { disk, ended } = run_from(rt, alloc, wire, study);
    let Some(disk) = disk else { unreachable!() };
    files.close(path, disk);
    ended
}
