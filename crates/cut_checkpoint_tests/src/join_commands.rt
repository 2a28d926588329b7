//! The command that joins checkpoints, over files in memory and the system's: disks that fail at each of their calls, files
//! that do not open, and refused memory.

use cut_commands::CliFault;
use cut_disks::{FaultyDisk, Tear};
use cut_files::{MemoryFiles, SystemFiles};
use cut_journal::{AcceptedSlips, Journal};
use cut_ledger::Slip;
use cut_machines::{Joined, JoinedFiles, join};
use cut_outcome::{Piece, Totals};
use cut_plan::Plan;
use cut_shares::join::join as join_slips;
use cut_wires::MemoryWire;
use std::alloc::{AllocError, Global};
use std::fs;
use std::test::Fail;

// Two cells of six trials each.
const PLAN: &str =
    r#"{"copies":1,"dead":"silent","deaf":0,"f":[0,1],"h":[1],"implicit":true,"k":[1],"l":[1],"liars":0,
"links":0,"nodes":5,"repeats":6,
"seed":"0000000000000000000000000000000000000000000000000000000000000000","version":2}"#;

// The pieces of three checkpoints, and what they print that are joined.
const PIECES: [&[(u32, u32)]; 3] = [&[(0, 2), (4, 2)], &[(9, 3), (2, 2), (6, 1)], &[(8, 1)]];

const LINE: &str = "joined 6 into 3, 11 of 12\n";

// The slip of a piece: nobody is reported in the first cell, and in the second each receiver proposes who crashed.
fn slip_of((first, count): (u32, u32)) -> Slip {
    let trials = u64::from(count.min(6));
    let totals = if first < 6 {
        Totals {
            receivers: 5 * trials,
            silent: 5 * trials,
            ..Totals::ZERO
        }
    } else {
        Totals {
            receivers: 4 * trials,
            votes: 4 * trials,
            decided: trials,
            right: trials,
            settled: 4 * trials,
            ..Totals::ZERO
        }
    };
    Slip {
        piece: Piece { first, count },
        totals,
    }
}

// A disk of these bytes that fails at a call from now on, or at none if that is 0.
fn failing_disk(alloc: Global, bytes: &[u8], fail_at: u64) -> Result<FaultyDisk, AllocError> {
    let bytes = Vec::from_slice(alloc, bytes)?;
    let disk = FaultyDisk::of(alloc, bytes, fail_at, Tear::Nothing)?;
    disk.arm();
    Ok(disk)
}

// The checkpoint of the plan with the slips of pieces, no two of which are adjacent.
fn checkpoint_of(alloc: Global, pieces: &[(u32, u32)]) -> Result<FaultyDisk, Fail> {
    let plan = Plan::from_json(alloc, PLAN.as_bytes())?;
    let slips = pieces
        .iter()
        .map(|piece| slip_of(*piece))
        .collect::<Vec<Slip>>(alloc)?;
    let accepted = AcceptedSlips::judge(alloc, &plan, slips)?;
    match Journal::create(alloc, failing_disk(alloc, b"", 0)?, &plan) {
        Ok(mut journal) => {
            join_slips(alloc, &accepted, &mut journal)?;
            Ok(journal.into_disk())
        }
        Err((fault, _disk)) => Err(fault)?,
    }
}

// The paths of three checkpoints in memory, and of the new one.
const OLD: [&str; 3] = ["1.cut", "2.cut", "3.cut"];

const NEW: &str = "new.cut";

// The three checkpoints, the second of which fails at a call, and an empty file that fails at another.
fn files_of(alloc: Global, old_at: u64, new_at: u64) -> Result<MemoryFiles<FaultyDisk>, Fail> {
    let mut files = MemoryFiles::new(alloc);
    for (place, (path, pieces)) in OLD.iter().zip(PIECES.iter()).enumerate() {
        let disk = checkpoint_of(alloc, *pieces)?;
        let fail_at = if place == 1 { old_at } else { 0 };
        files.put(*path, failing_disk(alloc, disk.memory().bytes(), fail_at)?)?;
    }
    files.put(NEW, failing_disk(alloc, b"", new_at)?)?;
    Ok(files)
}

// How a join ended.
#[derive(Clone, Copy, PartialEq, Eq)]
enum End {
    Joined,
    Memory,
    Disk,
    Other,
}

// How joining files in the new one ends, by a plan from a file or else from the wire, and which of them is refused.
fn end_of(
    alloc: Global,
    files: &mut MemoryFiles<FaultyDisk>,
    old: &[&str],
    plan: Option<&str>,
) -> Result<(End, Option<usize>), Fail> {
    let mut wire = MemoryWire::new(alloc, Vec::from_slice(alloc, PLAN.as_bytes())?, 4096);
    let paths = JoinedFiles {
        from: old,
        to: NEW,
        plan,
    };
    let Joined { refused, ended } = join(files, alloc, &mut wire, paths);
    let end = match ended {
        Ok(()) if wire.taken() == LINE.as_bytes() => End::Joined,
        Err(CliFault::Memory) => End::Memory,
        Err(fault) if fault.number() == 20 => End::Disk,
        _ => End::Other,
    };
    Ok((end, refused))
}

// How joining the three checkpoints ends, if the second of them fails at a call, and the new one at another.
fn end_where(alloc: Global, old_at: u64, new_at: u64) -> Result<(End, Option<usize>), Fail> {
    let mut files = files_of(alloc, old_at, new_at)?;
    end_of(alloc, &mut files, &OLD, None)
}

#[test]
fn each_call_of_a_disk_fails(rt: HostRuntime) -> Result<(), Fail> {
    let alloc = rt.alloc();
    // An old disk of three slips is read in 11 calls.
    for fail_at in 1..=11 {
        assert!(rt;
            end_where(alloc, fail_at, 0)? == (End::Disk, Some(2)),
            "{fail_at}"
        );
    }
    // A new one is looked at and a study made in nine, and each slip takes four.
    for fail_at in 1..=21 {
        assert!(rt;
            end_where(alloc, 0, fail_at)? == (End::Disk, None),
            "{fail_at}"
        );
    }
    assert!(rt; end_where(alloc, 12, 22)? == (End::Joined, None));
    Ok(())
}

// A file that is not there, and the new file, which is open, are refused when their turn comes. All files are given back
// then, so the next join can open them.
#[test]
fn a_file_that_does_not_open_is_refused(rt: HostRuntime) -> Result<(), Fail> {
    let mut files = files_of(rt.alloc(), 0, 0)?;
    let absent = ["1.cut", "2.cut", "4.cut"];
    assert!(rt; end_of(rt.alloc(), &mut files, &absent, None)? == (End::Disk, Some(3)));
    let new = ["1.cut", NEW, "3.cut"];
    assert!(rt; end_of(rt.alloc(), &mut files, &new, None)? == (End::Disk, Some(2)));
    assert!(rt; end_of(rt.alloc(), &mut files, &OLD, None)? == (End::Joined, None));
    Ok(())
}

// By a plan's file that is not there no old file is refused, and the new one stays empty, so that a join by a file that
// is there can follow. It may be any file, also one of those that are joined: its first bytes are no plan.
#[test]
fn a_plan_is_read_from_its_file(rt: HostRuntime) -> Result<(), Fail> {
    let mut files = files_of(rt.alloc(), 0, 0)?;
    let disk = failing_disk(rt.alloc(), PLAN.as_bytes(), 0)?;
    files.put("plan.json", disk)?;
    let absent = Some("no.json");
    assert!(rt; end_of(rt.alloc(), &mut files, &OLD, absent)? == (End::Disk, None));
    let checkpoint = Some("1.cut");
    assert!(rt; end_of(rt.alloc(), &mut files, &OLD, checkpoint)? == (End::Other, None));
    let plan = Some("plan.json");
    assert!(rt; end_of(rt.alloc(), &mut files, &OLD, plan)? == (End::Joined, None));
    Ok(())
}

// Three checkpoints are joined three times. If no allocation is refused, each join is whole; the test also holds where
// any one allocation of the joins is refused, and is meant to be run so by hand.
#[test]
fn a_refused_allocation_stops_one_join(rt: HostRuntime) -> Result<(), Fail> {
    let mut stopped = 0u32;
    for _ in 0..3 {
        let (end, _) = end_where(rt.alloc(), 0, 0)?;
        if end == End::Memory {
            stopped = stopped.saturating_add(1);
        } else {
            assert!(rt; end == End::Joined);
        }
    }
    assert!(rt; stopped <= 1);
    Ok(())
}

const FOLDER: &str = "cutlab_join_test";

const FILES: [&str; 3] = [
    "cutlab_join_test/1.cut",
    "cutlab_join_test/2.cut",
    "cutlab_join_test/3.cut",
];

#[test]
fn files_are_joined(rt: HostRuntime) -> Result<(), Fail> {
    let _ = fs::remove_dir_all(&rt, FOLDER);
    fs::create_dir(&rt, FOLDER)?;
    for (path, pieces) in FILES.iter().zip(PIECES.iter()) {
        let disk = checkpoint_of(rt.alloc(), *pieces)?;
        fs::write(&rt, *path, disk.memory().bytes())?;
    }
    fs::write(&rt, "cutlab_join_test/plan.json", PLAN.as_bytes())?;
    let mut wire = MemoryWire::new(rt.alloc(), Vec::new(rt.alloc()), 4096);
    let paths = JoinedFiles {
        from: &FILES,
        to: "cutlab_join_test/new.cut",
        plan: Some("cutlab_join_test/plan.json"),
    };
    let Joined { refused, ended } = join(&mut SystemFiles::of(&rt), rt.alloc(), &mut wire, paths);
    assert!(rt; refused == None && matches!(ended, Ok(())) && wire.taken() == LINE.as_bytes());
    Ok(fs::remove_dir_all(&rt, FOLDER)?)
}
