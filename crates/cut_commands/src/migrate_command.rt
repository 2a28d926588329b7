ghost use Rattle.std.specs.Prelude.{◌≡◌, None, IfErr, IfOk, string_bytes};
ghost use Rattle.cut_disks.specs.Log.{Goes};
ghost use Rattle.cut_journal.specs.Opening.{IsReopened};
ghost use Rattle.cut_plan.specs.Targets.{upgraded};
ghost use Rattle.cut_commands.specs.Migrate.{EndsMigrate, EndsMove, MigrateDisks, MigratesFrom, StaysBeside, moved_text};
ghost use Rattle.cut_commands.specs.NewStudy.{IsNewJournal};
ghost use Rattle.cut_commands.specs.Run.{source_place};
ghost use Rattle.cut_commands.specs.inside.Migrate.{EndsFilling, Fills, IsOldRefused, WritesCount};

use crate::input::PlanSource;
use crate::output::{push_line, write_answer};
use crate::{CliFault, Ended};
use cut_disks::Disk;
use cut_files::{Files, MemoryFiles, Mode};
use cut_journal::Journal;
use cut_ledger::Slip;
use cut_plan::Plan;
use cut_wires::Wire;
use std::alloc::{AllocError, Global};

/// The files of a migration.
#[derive(Clone, Copy, Debug)]
pub struct MigratedFiles<'a> {
    /// The path of the old checkpoint.
    pub from: &'a str,
    /// The path of the new one.
    pub to: &'a str,
    /// The path of the file that the plan is read from, if it is not the wire.
    pub plan: Option<&'a str>,
}

/// Both disks of a migration.
#[derive(Drop)]
struct Disks<O, N> {
    old: O,
    new: N,
}

/// Reads a plan of version 1, moves the slips of its study from the file at one path to that at another, as a study of
/// the plan's upgrade, and writes how many there are.
///
/// Both files are opened before anything is read, the old one first, and closed at the end. The new one is created if
/// there is none. One path can't be both. The file of a plan is read while both are open.
///
/// The old disk is read first, then a study without slips is made on the new one, and then the slips are moved: a fault
/// of an earlier step is reported before one of a later. That the plan is of version 2 is found in the last step. The
/// trials of each slip are run again: what the new disk has are the sums that they give for the upgrade, and the first
/// slip that is not true ends it. The old disk is only read. What is read and written, and each fault of the wire, is as
/// in `run_io`.
///
/// Whatever crash comes once the journal of the new file is open, it leaves no study there, or some first ones of the
/// moved slips.
pub fn migrate<F: Files, W: Wire>(
    files: &mut F,
    alloc: Global,
    wire: &mut W,
    paths: MigratedFiles<'_>,
) -> Result<(), CliFault>
    ensures ends { EndsMigrate paths.entry.from.now paths.entry.to.now paths.entry.plan (F.log files.old)
        (F.log files.new) (W.log wire.old) (W.log wire.new) result }
    ensures beside { StaysBeside paths.entry.from.now paths.entry.to.now (F.log files.old) (F.log files.new) }
{
    let MigratedFiles { from, to, plan } = paths;
    let old = files.open(from, Mode::Existing)?;
    let new = match files.open(to, Mode::Create) {
        Ok(new) => new,
        Err(fault) => {
            files.close(from, old);
            return Err(CliFault::from(fault));
        }
    };
    let source = PlanSource::of(&*files, plan);
    let Ended { disk, ended } = migrate_from(alloc, source, wire, Disks { old, new });
    files.close(from, disk.old);
    files.close(to, disk.new);
    ended
}

/// Migrates as `migrate` does, from one disk to another, by a plan that is read from a wire.
pub fn migrate_io<W, O, N>(alloc: Global, wire: &mut W, old: O, new: N) -> Result<(), CliFault>
where
    W: Wire,
    O: Disk + Drop,
    N: Disk + Drop,
    ensures { (disks : MigrateDisks) × (disks.old ≡ O.log old) × (disks.new ≡ N.log new)
        × MigratesFrom None disks (W.log wire.old) (W.log wire.new) result }
{
    let source = PlanSource::<MemoryFiles>::Input;
    migrate_from(alloc, source, wire, Disks { old, new }).ended
}

/// Moves a study from one disk to another, by a plan that is read from a wire or a file.
fn migrate_from<F, W, O, N>(
    alloc: Global,
    source: PlanSource<'_, F>,
    wire: &mut W,
    disks: Disks<O, N>,
) -> Ended<Disks<O, N>, ()>
where
    F: Files,
    W: Wire,
    O: Disk + Drop,
    N: Disk + Drop,
    ensures { MigratesFrom (source_place F.log source.entry) (record {
      old = O.log disks.old;
      old_back = O.log result.disk.old;
      new = N.log disks.new;
      new_back = N.log result.disk.new;
    }) (W.log wire.old) (W.log wire.new) result.ended }
{
    let plan = match source.read_plan(alloc, wire) {
        Ok(plan) => plan,
        Err(fault) => {
            return Ended {
                disk: disks,
                ended: Err(fault),
            };
        }
    };
    let Ended { disk, ended: moved } = move_study(alloc, &plan, disks);
    let ended = match moved {
        Ok(count) => write_moved(alloc, wire, count),
        Err(fault) => Err(fault),
    };
    Ended { disk, ended }
}

/// Writes how many slips were moved.
fn write_moved<W: Wire>(alloc: Global, wire: &mut W, count: u64) -> Result<(), CliFault>
    ensures { WritesCount count result (W.log wire.old) (W.log wire.new) }
{
    let text = moved_text(alloc, count)?;
    write_answer(wire, text.as_bytes())
}

/// Moves the slips of a plan's study, and returns how many there are.
fn move_study<O, N>(alloc: Global, plan: &Plan, disks: Disks<O, N>) -> Ended<Disks<O, N>, u64>
where
    O: Disk + Drop,
    N: Disk + Drop,
    ensures { EndsMove (record {
      old = O.log disks.old;
      old_back = O.log result.disk.old;
      new = N.log disks.new;
      new_back = N.log result.disk.new;
    }) plan.now result.ended }
{
    let Disks { old, new } = disks;
    let Ended {
        disk: old,
        ended: slips,
    } = slips_on(alloc, plan, old);
    match slips {
        Ok(slips) => {
            let Ended { disk: new, ended } = move_slips(alloc, plan, &slips, new);
            Ended {
                disk: Disks { old, new },
                ended,
            }
        }
        Err(fault) => Ended {
            disk: Disks { old, new },
            ended: Err(fault),
        },
    }
}

/// The slips that a disk holds for a plan.
fn slips_on<O: Disk + Drop>(alloc: Global, plan: &Plan, disk: O) -> Ended<O, Vec<Slip>>
    ensures read { IfOk result.ended (λ slips. Goes (λ n. n) (IsReopened plan.now slips.items) (O.log disk)
        (O.log result.disk)) }
    ensures refused { IfErr result.ended (λ e. IsOldRefused e plan.now (O.log disk) (O.log result.disk)) }
{
    match Journal::reopen(alloc, disk, plan) {
        Ok((journal, slips)) => Ended {
            disk: journal.into_disk(),
            ended: Ok(slips),
        },
        Err((fault, disk)) => Ended {
            disk,
            ended: Err(CliFault::from(fault)),
        },
    }
}

/// Makes a study of a plan's upgrade on an unclaimed disk, moves slips there, and returns how many there are.
fn move_slips<N: Disk + Drop>(alloc: Global, plan: &Plan, slips: &[Slip], disk: N) -> Ended<N, u64>
    ensures { EndsFilling result.ended plan.now slips.now (N.log disk) (N.log result.disk) }
{
    let upgrade = match plan.upgrade(alloc) {
        Ok(upgrade) => upgrade,
        Err(_) => {
            return Ended {
                disk,
                ended: Err(CliFault::Memory),
            };
        }
    };
    match Journal::claim(alloc, disk, &upgrade) {
        Ok(journal) => fill_journal(alloc, plan, slips, journal),
        Err((fault, disk)) => Ended {
            disk,
            ended: Err(CliFault::from(fault)),
        },
    }
}

/// Moves slips to a journal of the plan's upgrade that has none yet.
fn fill_journal<N: Disk>(
    alloc: Global,
    plan: &Plan,
    slips: &[Slip],
    journal: Journal<N>,
) -> Ended<N, u64>
    requires new { IsNewJournal (upgraded plan.now) journal }
    ensures { Fills result.ended plan.now slips.now (N.log journal.disk) (N.log result.disk) }
{
    let mut journal = journal;
    let ended = match cut_migration::migrate(alloc, slips, plan, &mut journal) {
        Ok(count) => Ok(count),
        Err(fault) => Err(CliFault::from(fault)),
    };
    Ended {
        disk: journal.into_disk(),
        ended,
    }
}

/// The line that says how many slips were moved.
fn moved_text(alloc: Global, count: u64) -> Result<String, AllocError>
    ensures { IfOk result (λ text. string_bytes text ≡ moved_text count) }
{
    let mut text = String::new(alloc);
    push_line(alloc, &mut text, "migrated", count)?;
    Ok(text)
}
