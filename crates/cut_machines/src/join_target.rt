//! The new checkpoint of a join.

ghost use Rattle.std.specs.Prelude.{◌≡◌, IfErr, IfOk, length};
ghost use Rattle.cut_disks.specs.Log.{Goes};
ghost use Rattle.cut_shares.specs.join.Joined.{joined};
ghost use Rattle.cut_commands.specs.NewStudy.{IsNewJournal, writing_faults};
ghost use Rattle.cut_machines.specs.JoinTarget.{LeavesDisk, StopsWriting};
ghost use Rattle.cut_machines.specs.inside.JoinTarget.{FillsJoined};

use cut_commands::{CliFault, Ended};
use cut_disks::Disk;
use cut_journal::{AcceptedSlips, Journal};
use cut_shares::join::join;
use std::alloc::Global;

/// Makes a journal of a plan on an unclaimed disk, writes slips of the plan to it, joined, and returns how many there are.
pub(crate) fn write_joined<N: Disk + Drop>(
    alloc: Global,
    accepted: &AcceptedSlips<'_>,
    disk: N,
) -> Ended<N, u64>
    ensures left { Goes (writing_faults result.ended)
        (LeavesDisk result.ended accepted.now.plan accepted.now.slips) (N.log disk) (N.log result.disk) }
    ensures count { IfOk result.ended (λ n. n ≡ length (joined accepted.now.plan accepted.now.slips)) }
    ensures stops { IfErr result.ended StopsWriting }
{
    match Journal::claim(alloc, disk, accepted.plan()) {
        Ok(journal) => fill_journal(alloc, accepted, journal),
        Err((fault, disk)) => Ended {
            disk,
            ended: Err(CliFault::from(fault)),
        },
    }
}

/// Writes slips, joined, to a journal of their plan that has none yet.
fn fill_journal<N: Disk>(
    alloc: Global,
    accepted: &AcceptedSlips<'_>,
    journal: Journal<N>,
) -> Ended<N, u64>
    requires { IsNewJournal accepted.now.plan journal }
    ensures { FillsJoined result.ended accepted.now.plan accepted.now.slips (N.log journal.disk) (N.log result.disk) }
{
    let mut journal = journal;
    let ended = match join(alloc, accepted, &mut journal) {
        Ok(count) => Ok(count),
        Err(fault) => Err(CliFault::from(fault)),
    };
    Ended {
        disk: journal.into_disk(),
        ended,
    }
}
