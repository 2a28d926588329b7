//! The command `share` over wires and files in memory: a share of three, stopped by a disk, a wire or refused memory, and
//! resumed.

use crate::shares::{PLAN, are_of};
use cut_commands::CliFault;
use cut_disks::{Disk, FaultyDisk, Tear};
use cut_files::{Files, MemoryFiles, Mode};
use cut_journal::{Journal, JournalFault};
use cut_machines::{ShareWork, share};
use cut_outcome::{Gate, OpenGate};
use cut_plan::Plan;
use cut_pool_cases::{Calls, MeetingGate, NotingGate};
use cut_shares::share::Share;
use cut_wires::{FaultyWire, Sent};
use std::alloc::{AllocError, Global};
use std::sync::Wait;
use std::test::Fail;
use std::thread::Threads;

/// The line that the second share of three writes, by blocks of two trials, and the pieces that are kept.
const LINE: &[u8] = b"share 2 of 3: 4 of 4\n";

const PIECES: [(u32, u32); 2] = [(2, 2), (7, 2)];

/// The path of the file that keeps the share.
const FILE: &str = "share.cut";

/// Files of which one is a new disk that is to fail at this call.
fn files_with(alloc: Global, fail_at: u64) -> Result<MemoryFiles<FaultyDisk>, AllocError> {
    let disk = FaultyDisk::of(alloc, Vec::new(alloc), fail_at, Tear::Nothing)?;
    disk.arm();
    let mut files = MemoryFiles::new(alloc);
    files.put(FILE, disk)?;
    Ok(files)
}

/// Runs the share by two workers that pass a gate over a wire, and returns how that ended.
fn run_share<G: Gate + Sync, R: Threads + Wait + Sync>(
    rt: &R,
    alloc: Global,
    gate: &G,
    wire: &mut FaultyWire,
    files: &mut MemoryFiles<FaultyDisk>,
) -> Result<(), CliFault> {
    let Some(part) = Share::new(2, 3, 2) else {
        return Err(CliFault::Socket);
    };
    let work = ShareWork {
        share: part,
        workers: 2,
        gate,
        file: FILE,
        plan: None,
    };
    share(files, rt, alloc, wire, work)
}

/// A wire that gives the plan, and has room for this many bytes.
fn wire_of(alloc: Global, room: usize) -> Result<FaultyWire, AllocError> {
    let input = Vec::from_slice(alloc, PLAN.as_bytes())?;
    Ok(FaultyWire::new(alloc, input, 4096, room, 0))
}

/// The share by two workers, whose plan is read from a file.
fn planned_share(plan: &'static str) -> Option<ShareWork<'static, OpenGate>> {
    Some(ShareWork {
        share: Share::new(2, 3, 2)?,
        workers: 2,
        gate: &OpenGate,
        file: FILE,
        plan: Some(plan),
    })
}

/// Whether the share of the plan in a file is kept, and a file that is not there ends it with its fault, the disk untouched.
fn is_planned<R: Threads + Wait + Sync>(rt: &R, alloc: Global) -> Result<bool, Fail> {
    let (Some(work), Some(other)) = (planned_share("plan.json"), planned_share("none.json")) else {
        return Ok(false);
    };
    let mut files = MemoryFiles::new(alloc);
    let text = Vec::from_slice(alloc, PLAN.as_bytes())?;
    files.put("plan.json", FaultyDisk::of(alloc, text, 0, Tear::Nothing)?)?;
    let mut wire = FaultyWire::new(alloc, Vec::new(alloc), 4096, 100, 1);
    let ended = share(&mut files, rt, alloc, &mut wire, other);
    let is_refused = matches!(ended, Err(CliFault::Journal(JournalFault::Disk)));
    let is_untouched = files.read(alloc, FILE)?.is_empty();
    share(&mut files, rt, alloc, &mut wire, work)?;
    Ok(is_refused && is_untouched && wire.taken() == LINE)
}

// The wire fails at its first read, which does not come.
#[test]
fn the_plan_of_a_share_is_read_from_a_file(rt: HostRuntime) -> Result<(), Fail> {
    assert!(rt; is_planned(&rt, rt.alloc())?);
    Ok(())
}

/// Whether the file has slips of the share's pieces, and no others.
fn is_kept(alloc: Global, files: &mut MemoryFiles<FaultyDisk>) -> Result<bool, Fail> {
    let plan = Plan::from_json(alloc, PLAN.as_bytes())?;
    let disk = files.open(FILE, Mode::Existing)?;
    match Journal::reopen(alloc, disk, &plan) {
        Ok((journal, slips)) => {
            files.close(FILE, journal.into_disk());
            Ok(are_of(&slips, &PIECES))
        }
        Err((fault, _)) => Err(fault)?,
    }
}

/// Whether the share is run and writes its line.
fn is_run<R: Threads + Wait + Sync>(
    rt: &R,
    alloc: Global,
    files: &mut MemoryFiles<FaultyDisk>,
) -> Result<bool, AllocError> {
    let mut wire = wire_of(alloc, 100)?;
    let ended = run_share(rt, alloc, &OpenGate, &mut wire, files);
    Ok(matches!(ended, Ok(())) && wire.taken() == LINE)
}

/// How many calls of a disk without a study its opening takes.
const OPENING_CALLS: u64 = 11;

/// Whether a run ended with the fault of this call of the disk.
fn is_reported(ended: Result<(), CliFault>, fail_at: u64) -> bool {
    match ended {
        Err(CliFault::Journal(JournalFault::Disk)) => fail_at <= OPENING_CALLS,
        Err(CliFault::Checkpoint) => fail_at > OPENING_CALLS,
        _ => false,
    }
}

/// Runs the share on a disk that fails at a call. Whether the run reports the failure, where there was one, and writes
/// nothing.
fn is_stopped<R: Threads + Wait + Sync>(
    rt: &R,
    alloc: Global,
    fail_at: u64,
    files: &mut MemoryFiles<FaultyDisk>,
) -> Result<bool, AllocError> {
    let mut wire = wire_of(alloc, 100)?;
    let ended = run_share(rt, alloc, &OpenGate, &mut wire, files);
    let is_counted = match files.disk(FILE) {
        Some(disk) => disk.failures() == 1,
        None => false,
    };
    Ok(is_reported(ended, fail_at) && wire.taken().is_empty() && is_counted)
}

// The calls of the opening, and four for each of two slips; the next run keeps all.
#[test]
fn each_call_of_the_disk_fails(rt: HostRuntime) -> Result<(), Fail> {
    for fail_at in 1..20 {
        let mut files = files_with(rt.alloc(), fail_at)?;
        assert!(rt;
            is_stopped(&rt, rt.alloc(), fail_at, &mut files)?,
            "{fail_at}"
        );
        assert!(rt; is_run(&rt, rt.alloc(), &mut files)? && is_kept(rt.alloc(), &mut files)?);
    }
    Ok(())
}

// A wire has room for 12 bytes of the answer. All of the share is kept, and nothing is lacking in the next run.
#[test]
fn a_share_outlives_its_wire(rt: HostRuntime) -> Result<(), Fail> {
    let mut files = MemoryFiles::new(rt.alloc());
    let mut wire = wire_of(rt.alloc(), 12)?;
    let ended = run_share(&rt, rt.alloc(), &OpenGate, &mut wire, &mut files);
    assert!(rt; matches!(ended, Err(CliFault::Write(Sent { sent: 12 }))));
    assert!(rt; is_kept(rt.alloc(), &mut files)? && is_run(&rt, rt.alloc(), &mut files)?);
    Ok(())
}

// The share is run three times over one file. If no allocation is refused, each run is whole; the test also holds if
// any one allocation of the runs is refused, and is meant to be run so by hand.
#[test]
fn a_refused_allocation_stops_one_run(rt: HostRuntime) -> Result<(), Fail> {
    let mut files = MemoryFiles::new(rt.alloc());
    let mut stopped = 0u32;
    for _ in 0..3 {
        if !is_run(&rt, rt.alloc(), &mut files)? {
            stopped = stopped.saturating_add(1);
        }
    }
    assert!(rt; stopped <= 1 && is_kept(rt.alloc(), &mut files)?);
    Ok(())
}

/// The calls of the gate in a run of the share that was opened with this many held trials, where `pieces` pieces of two
/// trials each passed, and `kept` of them were accepted.
fn calls_of(held: u64, pieces: u64, kept: u64) -> Calls {
    Calls {
        opened: 1,
        held,
        all: 4,
        passed: (pieces, pieces.saturating_mul(2)),
        accepted: (kept, kept.saturating_mul(2)),
        misplaced: 0,
    }
}

/// The calls of the gate in a run of the share over files.
fn calls_over<R: Threads + Wait + Sync>(
    rt: &R,
    alloc: Global,
    files: &mut MemoryFiles<FaultyDisk>,
) -> Result<Calls, AllocError> {
    let gate = NotingGate::new();
    let mut wire = wire_of(alloc, 100)?;
    let _ = run_share(rt, alloc, &gate, &mut wire, files);
    Ok(gate.calls())
}

// The disk fails in the append of the second piece, and then in none.
#[test]
fn a_gate_is_called_around_each_piece(rt: HostRuntime) -> Result<(), Fail> {
    let mut files = files_with(rt.alloc(), OPENING_CALLS.saturating_add(5))?;
    assert!(rt; calls_over(&rt, rt.alloc(), &mut files)? == calls_of(0, 2, 1));
    assert!(rt; calls_over(&rt, rt.alloc(), &mut files)? == calls_of(2, 1, 1));
    assert!(rt; calls_over(&rt, rt.alloc(), &mut files)? == calls_of(4, 0, 0));
    Ok(())
}

#[test]
fn both_workers_are_in_work_at_once(rt: HostRuntime) -> Result<(), Fail> {
    let mut files = MemoryFiles::new(rt.alloc());
    let mut wire = wire_of(rt.alloc(), 100)?;
    let gate = MeetingGate::new(&rt, 2);
    let ended = run_share(&rt, rt.alloc(), &gate, &mut wire, &mut files);
    assert!(rt; matches!(ended, Ok(())) && gate.counts() == (2, 0));
    Ok(())
}
