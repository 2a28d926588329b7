//! The files that are joined, and what they hold.

ghost use Rattle.std.specs.Prelude.{◌≡◌, IfErr, IfOk, None, OnOk, map};
ghost use Rattle.cut_files.specs.Place.{StaysElsewhere};
ghost use Rattle.cut_files.specs.Place as place;
ghost use Rattle.cut_ledger.specs.Slips.{AreGood};
ghost use Rattle.cut_machines.specs.JoinSources.{AreRead, HoldAll, Holds, StopsReading};
ghost use Rattle.cut_machines.specs.inside.JoinSources.{AddsHeld, HaveBadSlip, IsUnopened, IsUnread, LeavesFile};
ghost use Rattle.cut_machines.specs.inside.JoinSources.{NamesFile, StaysOpen, fault_of_slips, refused_at};

use cut_commands::{CliFault, Ended};
use cut_disks::Disk;
use cut_files::{Files, Mode};
use cut_journal::{AcceptedSlips, Journal};
use cut_ledger::{Slip, SlipsFault};
use cut_plan::Plan;
use std::alloc::Global;

/// Why checkpoints are not joined: the fault, and which of them is refused, from 1, if one is.
#[derive(Drop)]
pub(crate) struct Unjoined {
    pub(crate) fault: CliFault,
    pub(crate) refused: Option<usize>,
}

/// The slips that the files at some paths hold for a plan, in the order of the paths, judged as one list.
pub(crate) fn judged_slips<'a, F: Files>(
    files: &mut F,
    alloc: Global,
    plan: &'a Plan,
    paths: &[&str],
) -> Result<AcceptedSlips<'a>, Unjoined>
    ensures plan { IfOk result (λ accepted. accepted.plan ≡ plan.now) }
    ensures held { IfOk result (λ accepted. HoldAll (F.log files.old) (map (λ s. s.now) paths.now) plan.now
        accepted.slips) }
    ensures read { OnOk result (AreRead (F.log files.old) (F.log files.new) (map (λ s. s.now) paths.now)) }
    ensures good { IfOk result (λ accepted. AreGood plan.now accepted.slips) }
    ensures stops { IfErr result (λ e. StopsReading (F.log files.old) (F.log files.new) (map (λ s. s.now) paths.now)
        plan.now e.fault) }
    ensures names { IfErr result (λ e. NamesFile (F.log files.old) (F.log files.new) (map (λ s. s.now) paths.now)
        plan.now e.fault e.refused) }
    ensures stays { StaysOpen (F.log files.old) (F.log files.new) }
{
    check_slips(alloc, plan, slips_of_all(files, alloc, plan, paths)?)
}

/// Slips of a plan, if a ledger can begin with them.
fn check_slips<'a>(
    alloc: Global,
    plan: &'a Plan,
    slips: Vec<Slip>,
) -> Result<AcceptedSlips<'a>, Unjoined>
    ensures plan { IfOk result (λ accepted. accepted.plan ≡ plan.now) }
    ensures same { IfOk result (λ accepted. accepted.slips ≡ slips.items) }
    ensures good { IfOk result (λ accepted. AreGood plan.now accepted.slips) }
    ensures stops { IfErr result (λ e. HaveBadSlip plan.now slips.items e.fault) }
    ensures none { IfErr result (λ e. e.refused ≡ None) }
{
    match AcceptedSlips::judge(alloc, plan, slips) {
        Ok(accepted) => Ok(accepted),
        Err(fault) => Err(Unjoined {
            fault: fault_of_slips(fault),
            refused: None,
        }),
    }
}

/// The fault of the program where slips were not accepted.
fn fault_of_slips(fault: SlipsFault) -> CliFault
    ensures { result ≡ fault_of_slips fault }
{
    match fault {
        SlipsFault::Memory => CliFault::Memory,
        SlipsFault::BadSlip(number) => CliFault::BadSlip(number),
    }
}

/// The slips that the files at some paths hold for a plan, in the order of the paths.
fn slips_of_all<F: Files>(
    files: &mut F,
    alloc: Global,
    plan: &Plan,
    paths: &[&str],
) -> Result<Vec<Slip>, Unjoined>
    ensures held { IfOk result (λ slips. HoldAll (F.log files.old) (map (λ s. s.now) paths.now) plan.now slips.items) }
    ensures read { OnOk result (AreRead (F.log files.old) (F.log files.new) (map (λ s. s.now) paths.now)) }
    ensures stops { IfErr result (λ e. IsUnread (F.log files.old) (F.log files.new) (map (λ s. s.now) paths.now)
        plan.now e.fault) }
    ensures names { IfErr result (λ e. NamesFile (F.log files.old) (F.log files.new) (map (λ s. s.now) paths.now)
        plan.now e.fault e.refused) }
    ensures stays { StaysOpen (F.log files.old) (F.log files.new) }
{
    let mut slips = Vec::new(alloc);
    for (index, path) in paths.iter().enumerate() {
        if let Err(fault) = add_slips(files, alloc, plan, path, &mut slips) {
            return Err(unread_at(index + 1, fault));
        }
    }
    Ok(slips)
}

/// Why the checkpoint at a place, from 1, is not joined.
fn unread_at(place: usize, fault: CliFault) -> Unjoined
    ensures same { result.fault ≡ fault }
    ensures refused { result.refused ≡ refused_at place fault }
{
    let refused = match &fault {
        CliFault::Journal(_) => Some(place),
        _ => None,
    };
    Unjoined { fault, refused }
}

/// Adds to slips those that the file at a path holds for a plan.
fn add_slips<F: Files>(
    files: &mut F,
    alloc: Global,
    plan: &Plan,
    path: &str,
    slips: &mut Vec<Slip>,
) -> Result<(), CliFault>
    ensures adds { IfOk result (λ _. AddsHeld (F.log files.old path.now) plan.now slips.old.items slips.new.items) }
    ensures stops { IfErr result (IsUnopened (F.log files.old path.now) plan.now) }
    ensures left { LeavesFile result (F.log files.old path.now) (F.log files.new path.now) }
    ensures elsewhere { StaysElsewhere path.now (F.log files.old) (F.log files.new) }
{
    let found = slips_in(files, alloc, plan, path)?;
    slips.extend_from_slice(&found)?;
    Ok(())
}

/// The slips that the file at a path holds for a plan. The file is open meanwhile.
fn slips_in<F: Files>(
    files: &mut F,
    alloc: Global,
    plan: &Plan,
    path: &str,
) -> Result<Vec<Slip>, CliFault>
    ensures held { IfOk result (λ slips. Holds (F.log files.old path.now) plan.now slips.items) }
    ensures stops { IfErr result (IsUnopened (F.log files.old path.now) plan.now) }
    ensures left { LeavesFile result (F.log files.old path.now) (F.log files.new path.now) }
    ensures elsewhere { StaysElsewhere path.now (F.log files.old) (F.log files.new) }
{
    let disk = files.open(path, Mode::Existing)?;
    let Ended { disk, ended } = slips_on(alloc, plan, disk);
    files.close(path, disk);
    ended
}

/// The slips that a disk holds for a plan.
fn slips_on<O: Disk + Drop>(alloc: Global, plan: &Plan, disk: O) -> Ended<O, Vec<Slip>>
    ensures held { IfOk result.ended (λ slips. Holds (place.Holds (O.log disk)) plan.now slips.items) }
    ensures stops { IfErr result.ended (IsUnopened (place.Holds (O.log disk)) plan.now) }
    ensures left { LeavesFile result.ended (place.Holds (O.log disk)) (place.Holds (O.log result.disk)) }
{
    match Journal::reopen(alloc, disk, plan) {
        Ok((journal, slips)) => Ended {
            disk: journal.into_disk(),
            ended: Ok(slips),
        },
        Err((fault, disk)) => Ended {
            disk,
            ended: Err(CliFault::from(fault)),
        },
    }
}
