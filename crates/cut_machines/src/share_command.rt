ghost use Rattle.std.specs.Prelude.{◌≡◌, ◌≤◌};
ghost use Rattle.cut_files.specs.Place.{StaysElsewhere, while_open};
ghost use Rattle.cut_commands.specs.Run.{plan_place, source_place};
ghost use Rattle.cut_machines.specs.Share.{EndsShare, SharesFrom, fault_of_share};
ghost use Rattle.cut_machines.specs.inside.Share.{KeepsShare};

use crate::share_answer::share_line;
use cut_commands::{CliFault, Ended, PlanSource, write_answer};
use cut_disks::Disk;
use cut_files::{Files, Mode};
use cut_journal::{Journal, StoreFault};
use cut_outcome::Gate;
use cut_plan::Plan;
use cut_shares::share::{Share, ShareRun};
use cut_wires::Wire;
use std::alloc::Global;
use std::sync::Wait;
use std::thread::Threads;

/// Which share of a study a machine runs, and how it is worked on.
#[derive(Drop)]
pub struct ShareWork<'a, G> {
    /// The share.
    pub share: Share,
    /// How many workers there are, 1 to 64.
    pub workers: u32,
    /// What they call at each stage of their work.
    pub gate: &'a G,
    /// The path of the file that keeps the share.
    pub file: &'a str,
    /// The path of the file that the plan is read from, if it is not the wire.
    pub plan: Option<&'a str>,
    pub ghost few: { (1 ≤ workers) × (workers ≤ 64) },
}

/// Reads a plan from a wire, runs the trials of a share that the file of the work lacks, keeps them there, and writes
/// the line `share I of N: n of n`, where n is how many trials the share has. All of them are held then.
///
/// The file is opened before anything is read, and made if there is none. The file of a plan is read after that, where
/// the wire would be read; if it is not read, the share's file is left as it was opened. The journal is opened once the
/// plan is read: it holds one of the plan, or it is unclaimed, and then a journal is made. Where what stands at the
/// path is known, the contract says which slips were found and which were added, at each end: at `Ok`, and if the write
/// of the answer failed, exactly the trials of the share that were lacking; none at a fault of the opening or a slip
/// that is bad; some if memory ran out or the disk failed. Whenever a crash comes, what it leaves is read as the slips
/// that were found and some first ones of those that were added. WorkMemory comes if memory ran out once the journal
/// was opened.
///
/// At most 65,537 bytes are read, and nothing is written at a fault other than that of a write. Checkpoint, and the
/// fault Disk of the journal, come exactly if a call of the disk failed, or a file was not opened or not read.
pub fn share<F, W, G, R>(
    files: &mut F,
    rt: &R,
    alloc: Global,
    wire: &mut W,
    work: ShareWork<'_, G>,
) -> Result<(), CliFault>
where
    F: Files,
    W: Wire,
    G: Gate + Sync,
    R: Threads + Wait + Sync,
    ensures ends { EndsShare result work.entry.share
        (plan_place (while_open work.entry.file.now (F.log files.old)) work.entry.plan)
        (F.log files.old work.entry.file.now) (F.log files.new work.entry.file.now) (W.log wire.old) (W.log wire.new) }
    ensures elsewhere { StaysElsewhere work.entry.file.now (F.log files.old) (F.log files.new) }
{
    let path = work.file;
    let disk = files.open(path, Mode::Create)?;
    let Ended { disk, ended } = share_on(rt, alloc, wire, work.on(&*files, disk));
    files.close(path, disk);
    ended
}

/// A share over a disk.
#[derive(Drop)]
struct DiskShare<'a, G, D, F> {
    /// Which one, and how it is worked on.
    work: ShareWork<'a, G>,
    /// The disk that keeps it.
    disk: D,
    /// Where its plan is read from.
    source: PlanSource<'a, F>,
}

impl<'a, G> ShareWork<'a, G> {
    /// The share on a disk, whose plan is read of these files if it has a path.
    fn on<F: Files, D>(self, files: &'a F, disk: D) -> DiskShare<'a, G, D, F>
        ensures { (result.work ≡ self.entry) × (result.disk ≡ disk)
            × (source_place F.log result.source ≡ plan_place (F.log files.now) self.entry.plan) }
    {
        let source = PlanSource::of(files, self.plan);
        DiskShare {
            work: self,
            disk,
            source,
        }
    }
}

/// Runs a share over a disk.
fn share_on<F, W, D, G, R>(
    rt: &R,
    alloc: Global,
    wire: &mut W,
    share: DiskShare<'_, G, D, F>,
) -> Ended<D, ()>
where
    F: Files,
    W: Wire,
    D: Disk,
    G: Gate + Sync,
    R: Threads + Wait + Sync,
    ensures { SharesFrom (source_place F.log share.entry.source) result.ended share.entry.work.share
        (D.log share.entry.disk) (D.log result.disk) (W.log wire.old) (W.log wire.new) }
{
    let DiskShare { work, disk, source } = share;
    let share = work.share;
    let plan = match source.read_plan(alloc, wire) {
        Ok(plan) => plan,
        Err(fault) => {
            return Ended {
                disk,
                ended: Err(fault),
            };
        }
    };
    let Ended { disk, ended: kept } = keep_share(rt, alloc, &plan, work, disk);
    match kept {
        Ok(count) => {
            let ended = write_answer(wire, share_line(share, count).as_bytes());
            Ended { disk, ended }
        }
        Err(fault) => Ended {
            disk,
            ended: Err(fault),
        },
    }
}

/// Opens the journal of a plan on a disk, and runs the trials of a share that it lacks. Returns how many trials the
/// share has.
fn keep_share<D, G, R>(
    rt: &R,
    alloc: Global,
    plan: &Plan,
    work: ShareWork<'_, G>,
    disk: D,
) -> Ended<D, u32>
where
    D: Disk,
    G: Gate + Sync,
    R: Threads + Wait + Sync,
    ensures { KeepsShare result.ended work.entry.share plan.now (D.log disk) (D.log result.disk) }
{
    let (mut journal, slips) = match Journal::open(alloc, disk, plan) {
        Ok(opened) => opened,
        Err((fault, disk)) => {
            return Ended {
                disk,
                ended: Err(CliFault::from(fault)),
            };
        }
    };
    let run = ShareRun {
        plan,
        slips: slips.as_slice(),
        share: work.share,
        workers: work.workers,
        gate: work.gate,
    };
    let ended = run.run(rt, alloc, &mut journal);
    let disk = journal.into_disk();
    match ended {
        Ok(count) => Ended {
            disk,
            ended: Ok(count),
        },
        Err(fault) => Ended {
            disk,
            ended: Err(fault_of_share(fault)),
        },
    }
}

/// The fault of the program if a share was not run to its end: as of a study that is run. A journal that was just opened
/// is of the plan and not broken, so the last ones do not come.
fn fault_of_share(fault: StoreFault) -> CliFault
    ensures { result ≡ fault_of_share fault }
{
    match fault {
        StoreFault::BadSlip(number) => CliFault::BadSlip(number),
        StoreFault::Disk => CliFault::Checkpoint,
        StoreFault::Memory | StoreFault::WorkMemory => CliFault::WorkMemory,
        fault => CliFault::from(fault),
    }
}
