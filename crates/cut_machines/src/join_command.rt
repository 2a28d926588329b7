//! The command that joins checkpoints.

ghost use Rattle.std.specs.Prelude.{◌≡◌, IfErr, IfOk, length, map, string_bytes};
ghost use Rattle.cut_disks.specs.Log.{Goes, is_known};
ghost use Rattle.cut_ledger.specs.Slips.{AreGood};
ghost use Rattle.cut_shares.specs.join.Joined.{joined};
ghost use Rattle.cut_shares.specs.join.Laws.{JoinedAreTrue, JoinedGiveThePlansTable};
ghost use Rattle.cut_commands.specs.Run.{plan_place};
ghost use Rattle.cut_machines.specs.JoinCommand.{EndsJoin, EndsJoinFrom, NamesRefusedFile, joined_text};
ghost use Rattle.cut_machines.specs.inside.JoinCommand.{EndsJoining};
ghost use Rattle.cut_machines.specs.inside.JoinSources.{StaysOpen};
ghost use Rattle.cut_commands.specs.NewStudy.{writing_faults};
ghost use Rattle.cut_machines.specs.JoinTarget.{LeavesDisk, StopsWriting};

use crate::join_sources::judged_slips;
use crate::join_target::write_joined;
use cut_commands::{CliFault, Ended, PlanSource, write_answer};
use cut_disks::Disk;
use cut_files::{Files, Mode};
use cut_journal::AcceptedSlips;
use cut_ledger::Slip;
use cut_plan::Plan;
use cut_shares::join::laws;
use cut_status::trials_held;
use cut_wires::Wire;
use std::alloc::Global;

/// The files of a join.
#[derive(Clone, Copy)]
pub struct JoinedFiles<'a> {
    /// The paths of the old checkpoints, in the order in which they are read.
    pub from: &'a [&'a str],
    /// The path of the new one.
    pub to: &'a str,
    /// The path of the file that the plan is read from, if it is not the wire.
    pub plan: Option<&'a str>,
}

/// How a join of files ended.
#[derive(Drop)]
pub struct Joined {
    /// Which of the old files was refused, from 1, if one was.
    pub refused: Option<usize>,
    /// Whether all were joined and the answer was written, or why not.
    pub ended: Result<(), CliFault>,
}

/// The disk of the new file, which old file was refused, if one was, and how a step of the join ended.
#[derive(Drop)]
struct Answered<N, T> {
    disk: N,
    refused: Option<usize>,
    ended: Result<T, CliFault>,
}

/// Reads a plan, joins the slips of its study that the old files hold in a new checkpoint, in the file at another path,
/// and writes how many slips there were, how many there are now, and how many trials of how many they hold.
///
/// The new file is opened before anything is read, and made if there is none; it is given back at the end. So an old
/// path that names the same file is refused, as a file that can't be opened. The plan is read next, from its own file
/// if it has one, which is only read and may be open. Each old file is opened when its turn comes, only read, and
/// closed, so there may be more of them than a process can have open.
///
/// The old files are read in their order, and their slips are judged as one list, each by its number in that list,
/// before anything is done to the new file. Then a study is made there, which has to hold none, and gets one slip for
/// each longest run of adjacent trials of a cell. A fault of an earlier step is reported before one of a later: Journal
/// by an old file, BadSlip, Journal by the new file, and then Store, which is a disk that failed while slips were
/// written. What is read from the wire and written to it, and each fault of it, is as in `run_io`.
///
/// If it is an old file that is refused, `refused` is its place among them, from 1. The fault is one of a journal then;
/// where such a fault is that of the new file, and at every other end, `refused` is `None`.
///
/// Once the journal of the new file is open, and what was there before is sure, a crash at any moment leaves no study
/// there, or some first ones of the joined slips; a write of the answer that fails leaves all of them. If the slips are
/// true and no trial is in two of them, the joined ones are so too, and theirs is the table of the plan.
pub fn join<F: Files, W: Wire>(
    files: &mut F,
    alloc: Global,
    wire: &mut W,
    paths: JoinedFiles<'_>,
) -> Joined
    ensures ends { EndsJoin paths.entry.to.now (map (λ s. s.now) paths.entry.from.now) paths.entry.plan
        (F.log files.old) (F.log files.new) (W.log wire.old) (W.log wire.new) result.ended result.refused }
    ensures names { NamesRefusedFile (length paths.entry.from.now) result.ended result.refused }
    ensures slips { JoinedAreTrue }
    ensures table { JoinedGiveThePlansTable }
{
    laws::joined_slips_give_the_same_table();
    let to = paths.to;
    let disk = match files.open(to, Mode::Create) {
        Ok(disk) => disk,
        Err(fault) => {
            return Joined {
                refused: None,
                ended: Err(CliFault::from(fault)),
            };
        }
    };
    let Answered {
        disk,
        refused,
        ended,
    } = join_onto(files, alloc, wire, paths, disk);
    files.close(to, disk);
    Joined { refused, ended }
}

/// Joins old files on the disk of the new one.
fn join_onto<F: Files, W: Wire>(
    files: &mut F,
    alloc: Global,
    wire: &mut W,
    paths: JoinedFiles<'_>,
    disk: F::Disk,
) -> Answered<F::Disk, ()>
    ensures ends { EndsJoinFrom (plan_place (F.log files.old) paths.entry.plan) (record {
      old = map (λ s. s.now) paths.entry.from.now;
      found = F.log files.old;
      left = F.log files.new;
      disk = F.Disk.log disk;
      back = F.Disk.log result.disk;
    }) (W.log wire.old) (W.log wire.new) result.ended result.refused }
    ensures stays { StaysOpen (F.log files.old) (F.log files.new) }
{
    let source = PlanSource::of(&*files, paths.plan);
    let plan = match source.read_plan(alloc, wire) {
        Ok(plan) => plan,
        Err(fault) => {
            return Answered {
                disk,
                refused: None,
                ended: Err(fault),
            };
        }
    };
    let Answered {
        disk,
        refused,
        ended: text,
    } = join_slips_of(files, alloc, &plan, paths.from, disk);
    match text {
        Ok(text) => {
            let ended = write_answer(wire, text.as_bytes());
            Answered {
                disk,
                refused,
                ended,
            }
        }
        Err(fault) => Answered {
            disk,
            refused,
            ended: Err(fault),
        },
    }
}

/// Joins the slips of a plan's study in old files on the disk of the new one, and says how many there are.
fn join_slips_of<F: Files>(
    files: &mut F,
    alloc: Global,
    plan: &Plan,
    old: &[&str],
    disk: F::Disk,
) -> Answered<F::Disk, String>
    ensures ends { EndsJoining (record {
      old = map (λ s. s.now) old.now;
      found = F.log files.old;
      left = F.log files.new;
      disk = F.Disk.log disk;
      back = F.Disk.log result.disk;
    }) plan.now result.ended result.refused }
    ensures known { is_known (F.Disk.log result.disk) ≡ is_known (F.Disk.log disk) }
    ensures stays { StaysOpen (F.log files.old) (F.log files.new) }
{
    match judged_slips(files, alloc, plan, old) {
        Ok(accepted) => {
            let Ended { disk, ended } = join_slips(alloc, &accepted, disk);
            Answered {
                disk,
                refused: None,
                ended,
            }
        }
        Err(unjoined) => Answered {
            disk,
            refused: unjoined.refused,
            ended: Err(unjoined.fault),
        },
    }
}

/// Writes slips of a plan, joined, to a new checkpoint, and says how many there are.
fn join_slips<N: Disk + Drop>(
    alloc: Global,
    accepted: &AcceptedSlips<'_>,
    disk: N,
) -> Ended<N, String>
    ensures text { IfOk result.ended
        (λ text. string_bytes text ≡ joined_text accepted.now.plan accepted.now.slips) }
    ensures stops { IfErr result.ended StopsWriting }
    ensures left { Goes (writing_faults result.ended)
        (LeavesDisk result.ended accepted.now.plan accepted.now.slips) (N.log disk) (N.log result.disk) }
{
    let Ended {
        disk,
        ended: written,
    } = write_joined(alloc, accepted, disk);
    let ended = match written {
        Ok(count) => joined_text(alloc, accepted.plan(), accepted.slips(), count),
        Err(fault) => Err(fault),
    };
    Ended { disk, ended }
}

/// The line that says how many slips were joined to how many, and how many trials of how many they hold.
fn joined_text(alloc: Global, plan: &Plan, slips: &[Slip], count: u64) -> Result<String, CliFault>
    requires good { AreGood plan.now slips.now }
    requires count { count ≡ length (joined plan.now slips.now) }
    ensures text { IfOk result (λ text. string_bytes text ≡ joined_text plan.now slips.now) }
    ensures memory { IfErr result (λ e. e ≡ CliFault.Memory) }
{
    let trials = plan.trials();
    let held = trials_held(plan, slips);
    Ok(format!(in alloc; "joined {} into {count}, {held} of {trials}\n", slips.len())?)
}
