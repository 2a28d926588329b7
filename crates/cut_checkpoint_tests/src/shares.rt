//! Shares of a small plan, and runs of them on disks in memory. Who has which trial, and the pieces, were computed apart
//! from this program by a script written from the definitions.

use cut_disks::MemoryDisk;
use cut_journal::Journal;
use cut_ledger::Slip;
use cut_outcome::OpenGate;
use cut_plan::Plan;
use cut_shares::share::{Share, ShareRun};
use std::alloc::Global;
use std::sync::Wait;
use std::test::Fail;
use std::thread::Threads;

/// Two cells of five trials each.
pub(crate) const PLAN: &str =
    r#"{"copies":1,"dead":"silent","f":[0,1],"faults":"crash","h":[1],"implicit":true,"k":[1],"l":[1],
"liars":0,"links":0,"nodes":5,"repeats":5,
"seed":"0000000000000000000000000000000000000000000000000000000000000000","version":1}"#;

/// How many trials a block has, how many shares there are, and of each trial the number of the share that has it.
type Owners = (u32, u32, [u32; 10]);

const OWNERS: [Owners; 6] = [
    (1, 1, [1, 1, 1, 1, 1, 1, 1, 1, 1, 1]),
    (2, 2, [1, 1, 2, 2, 1, 2, 2, 1, 1, 2]),
    (2, 3, [1, 1, 2, 2, 3, 1, 1, 2, 2, 3]),
    (3, 7, [1, 1, 1, 2, 2, 3, 3, 3, 4, 4]),
    (7, 2, [1, 1, 1, 1, 1, 2, 2, 2, 2, 2]),
    (1, 9, [1, 2, 3, 4, 5, 6, 7, 8, 9, 1]),
];

/// Whether a share has the trials that have its number, and no others.
fn has_its_trials(plan: &Plan, share: Share, owners: &[u32]) -> bool {
    for trial in 0..plan.trials() {
        let is_own = owners.get(trial as usize).copied() == Some(share.index);
        if share.has(plan, trial) != is_own {
            return false;
        }
    }
    let count = owners.iter().filter(|owner| **owner == share.index).count();
    share.trials(plan) as usize == count
}

#[test]
fn shares_have_their_trials(rt: HostRuntime) -> Result<(), Fail> {
    let plan = Plan::from_json(rt.alloc(), PLAN.as_bytes())?;
    for (size, shares, owners) in &OWNERS {
        for index in 1..11u32 {
            if let Some(share) = Share::new(index, *shares, *size) {
                assert!(rt;
                    has_its_trials(&plan, share, owners),
                    "{size} {shares} {index}"
                );
            }
        }
    }
    Ok(())
}

/// Whether slips are of these pieces, in this order: of each the first trial, and how many it has.
pub(crate) fn are_of(slips: &[Slip], pieces: &[(u32, u32)]) -> bool {
    slips
        .iter()
        .map(|slip| (slip.piece.first, slip.piece.count))
        .eq(pieces.iter().copied())
}

/// Runs a share by two workers on a new disk, and returns how many trials it has. Whether its pieces are kept then.
fn keeps<R: Threads + Wait + Sync>(
    rt: &R,
    alloc: Global,
    share: Share,
    pieces: &[(u32, u32)],
) -> Result<bool, Fail> {
    let plan = Plan::from_json(alloc, PLAN.as_bytes())?;
    let disk = MemoryDisk::of(alloc, Vec::new(alloc))?;
    let mut journal = match Journal::create(alloc, disk, &plan) {
        Ok(journal) => journal,
        Err((fault, _disk)) => Err(fault)?,
    };
    let run = ShareRun {
        plan: &plan,
        slips: &[],
        share,
        workers: 2,
        gate: &OpenGate,
    };
    let count = run.run(rt, alloc, &mut journal)?;
    match Journal::reopen(alloc, journal.into_disk(), &plan) {
        Ok((_journal, slips)) => Ok(count == share.trials(&plan) && are_of(&slips, pieces)),
        Err((fault, _disk)) => Err(fault)?,
    }
}

#[test]
fn runs_keep_the_pieces_of_their_share(rt: HostRuntime) -> Result<(), Fail> {
    for (index, pieces) in [
        (1, &[(0, 2), (4, 1), (7, 2)]),
        (2, &[(2, 2), (5, 2), (9, 1)]),
    ] {
        if let Some(share) = Share::new(index, 2, 2) {
            assert!(rt; keeps(&rt, rt.alloc(), share, pieces)?, "{index}");
        }
    }
    Ok(())
}
