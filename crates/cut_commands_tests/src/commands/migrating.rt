//! Studies of version 1 that are moved to their upgrade: true ones, false ones, and disks and wires that fail.

use super::PLAN;
use super::checkpoints::{
    FIRST_FALSE, KeptSlip, disk_of, empty_disk, file_with, push_numbers, whole_file, written,
};
use cut_commands::{MigratedFiles, migrate};
use cut_disks::{Disk, FaultyDisk, Tear};
use cut_files::MemoryFiles;
use cut_wires::FaultyWire;
use std::alloc::Global;
use std::sync::Wait;
use std::test::Fail;
use std::thread::Threads;

/// The plan's upgrade.
const UPGRADE: &str =
    r#"{"copies":1,"dead":"silent","deaf":0,"f":[1],"h":[1],"implicit":true,"k":[1],"l":[1],"liars":0,"links":0,"nodes":5,"repeats":2,"seed":"0000000000000000000000000000000000000000000000000000000000000000","version":2}"#;

/// The whole table of the upgrade.
const UPGRADE_TABLE: &str =
    "k,h,l,f,trials,receivers,conflicts,silent,extra,votes,decided,right,settled,ppm\n1,1,1,1,2,8,0,0,0,8,2,2,8,0\n";

/// How long the file of the upgrade is without slips, and with one.
const NO_SLIP: usize = 259;

const ONE_SLIP: usize = 372;

/// The digest of the slip of the first trial.
const TRUE_FIRST: [u8; 32] = [
    0x60, 0xe1, 0xb7, 0x68, 0x94, 0x20, 0x30, 0xe0, 0x9a, 0x8b, 0xf8, 0xfd, 0xfa, 0xc5, 0xd9, 0xb8,
    0xb2, 0xcc, 0xae, 0xd9, 0x48, 0xca, 0x80, 0x10, 0x18, 0x9f, 0xfd, 0x0b, 0x52, 0x45, 0xfa, 0x2c,
];

/// The digest of the slip of the second trial with four conflicts, if there is none.
const FALSE_SECOND: [u8; 32] = [
    0x25, 0x6c, 0xe1, 0x93, 0x93, 0x21, 0xb3, 0x89, 0x23, 0x74, 0x8a, 0x6e, 0x0d, 0x91, 0x6c, 0x24,
    0xd0, 0x3f, 0x62, 0x8e, 0xb2, 0x1d, 0x26, 0x31, 0x5f, 0xde, 0xb1, 0xd4, 0x02, 0xd9, 0xaf, 0x2b,
];

/// The slip of the first trial, and a false one of the second.
pub(super) const FIRST: KeptSlip = ([0, 1, 4, 0, 0, 0, 4, 1, 1], TRUE_FIRST);

const SECOND_FALSE: KeptSlip = ([1, 1, 4, 4, 0, 0, 4, 1, 0], FALSE_SECOND);

/// What the old disk has: nothing, the plan's study with some slips, or the upgrade's study.
#[derive(Clone, Copy)]
enum Old {
    Nothing,
    Slips(&'static [KeptSlip]),
    Upgrade,
}

/// The old disk.
fn old_disk<T: Threads + Wait + Sync>(rt: &T, alloc: Global, old: Old) -> Result<FaultyDisk, Fail> {
    let file = match old {
        Old::Nothing => Vec::new(alloc),
        Old::Slips(slips) => file_with(rt, alloc, slips)?,
        Old::Upgrade => whole_file(rt, alloc, UPGRADE)?,
    };
    disk_of(alloc, file)
}

/// A migration by the plan of a text, over a wire with so much room for the answer: with which status and text it ends,
/// the text being that of its fault at a status above 0, and how many bytes it leaves on the new disk.
#[derive(Clone, Copy)]
struct Move {
    text: &'static str,
    room: usize,
    status: u8,
    line: &'static str,
    length: usize,
}

/// One that moves a slip by the plan, with nothing that fails.
const MOVES_ONE: Move = Move {
    text: PLAN,
    room: 1000,
    status: 0,
    line: "migrated 1\n",
    length: ONE_SLIP,
};

/// The paths of both files.
const OLD: &str = "old.cut";

const NEW: &str = "new.cut";

/// Both files.
fn files_of(
    alloc: Global,
    old: FaultyDisk,
    new: FaultyDisk,
) -> Result<MemoryFiles<FaultyDisk>, Fail> {
    let mut files = MemoryFiles::new(alloc);
    files.put(OLD, old)?;
    files.put(NEW, new)?;
    Ok(files)
}

/// The bytes of a file that is closed.
fn bytes_of<'a>(files: &'a MemoryFiles<FaultyDisk>, path: &str) -> &'a [u8] {
    match files.disk(path) {
        Some(disk) => disk.memory().bytes(),
        None => &[],
    }
}

/// Whether a migration ends with this status and this text.
fn ends_so(
    alloc: Global,
    wanted: &Move,
    files: &mut MemoryFiles<FaultyDisk>,
) -> Result<bool, Fail> {
    let input = Vec::from_slice(alloc, wanted.text.as_bytes())?;
    let mut wire = FaultyWire::new(alloc, input, 4096, wanted.room, 0);
    let paths = MigratedFiles {
        from: OLD,
        to: NEW,
        plan: None,
    };
    match migrate(files, alloc, &mut wire, paths) {
        Ok(_) => Ok(wanted.status == 0 && wire.taken() == wanted.line.as_bytes()),
        Err(fault) => {
            Ok(fault.status() == wanted.status && fault.to_string(alloc)?.as_str() == wanted.line)
        }
    }
}

/// Whether a migration goes so, and leaves the old file as it is.
fn goes_so(
    alloc: Global,
    wanted: &Move,
    files: &mut MemoryFiles<FaultyDisk>,
) -> Result<bool, Fail> {
    let before = Vec::from_slice(alloc, bytes_of(&*files, OLD))?;
    let is_right = ends_so(alloc, wanted, &mut *files)?;
    Ok(
        is_right
            && bytes_of(&*files, OLD) == before.as_slice()
            && bytes_of(&*files, NEW).len() == wanted.length,
    )
}

/// Whether the new file has the first slip of the upgrade.
fn has_first(alloc: Global, files: &MemoryFiles<FaultyDisk>) -> Result<bool, Fail> {
    let mut slip = Vec::new(alloc);
    push_numbers(&mut slip, &[0, 1, 4, 0, 0, 0, 4, 1, 1, 4])?;
    Ok(bytes_of(files, NEW).get(258..339) == Some(slip.as_slice()))
}

/// Whether the upgrade's study writes its whole table over the new file.
fn writes_upgrade<T: Threads + Wait + Sync>(
    rt: &T,
    alloc: Global,
    files: &MemoryFiles<FaultyDisk>,
) -> Result<bool, Fail> {
    let mut disk = disk_of(alloc, Vec::from_slice(alloc, bytes_of(files, NEW))?)?;
    let table = written(rt, alloc, UPGRADE, 1, &mut disk)?;
    Ok(table.as_slice() == UPGRADE_TABLE.as_bytes())
}

/// Whether a migration to a file that holds a study is refused, and leaves that file as it is.
fn is_held(alloc: Global, files: &mut MemoryFiles<FaultyDisk>) -> Result<bool, Fail> {
    let after = Vec::from_slice(alloc, bytes_of(&*files, NEW))?;
    let held = Move {
        status: 4,
        line: "cutlab: fault 25 Held",
        length: after.len(),
        ..MOVES_ONE
    };
    let is_right = goes_so(alloc, &held, &mut *files)?;
    Ok(is_right && bytes_of(&*files, NEW) == after.as_slice())
}

#[test]
fn a_true_slip_is_moved(rt: HostRuntime) -> Result<(), Fail> {
    let alloc = rt.alloc();
    let old = old_disk(&rt, alloc, Old::Slips(&[FIRST]))?;
    let mut files = files_of(alloc, old, empty_disk(alloc)?)?;
    assert!(rt; goes_so(alloc, &MOVES_ONE, &mut files)?);
    assert!(rt; has_first(alloc, &files)?);
    assert!(rt; writes_upgrade(&rt, alloc, &files)?);
    assert!(rt; is_held(alloc, &mut files)?);
    Ok(())
}

/// Whether a migration from an old disk with this study to an empty one goes so.
fn moves<T: Threads + Wait + Sync>(
    rt: &T,
    alloc: Global,
    old: Old,
    wanted: &Move,
) -> Result<bool, Fail> {
    let old = old_disk(rt, alloc, old)?;
    let mut files = files_of(alloc, old, empty_disk(alloc)?)?;
    goes_so(alloc, wanted, &mut files)
}

/// How a migration ends whose text is not the plan's, or whose study has no true slip.
type End = (Old, &'static str, u8, &'static str, usize);

const ENDS: &[End] = &[
    (Old::Slips(&[]), PLAN, 0, "migrated 0\n", NO_SLIP),
    (
        Old::Slips(&[FIRST_FALSE]),
        PLAN,
        4,
        "cutlab: fault 46 Disagrees 1",
        NO_SLIP,
    ),
    (
        Old::Slips(&[FIRST, SECOND_FALSE]),
        PLAN,
        4,
        "cutlab: fault 46 Disagrees 2",
        ONE_SLIP,
    ),
    (
        Old::Slips(&[FIRST]),
        UPGRADE,
        4,
        "cutlab: fault 23 OtherPlan",
        0,
    ),
    (Old::Nothing, PLAN, 4, "cutlab: fault 22 NoStudy", 0),
    (Old::Nothing, UPGRADE, 4, "cutlab: fault 22 NoStudy", 0),
    (
        Old::Upgrade,
        UPGRADE,
        3,
        "cutlab: fault 47 NotVersion1",
        NO_SLIP,
    ),
];

/// Whether a migration ends so.
fn ends<T: Threads + Wait + Sync>(rt: &T, alloc: Global, end: &End) -> Result<bool, Fail> {
    let (old, text, status, line, length) = *end;
    let wanted = Move {
        text,
        room: 1000,
        status,
        line,
        length,
    };
    moves(rt, alloc, old, &wanted)
}

#[test]
fn migrations_that_move_no_slip_or_end_early(rt: HostRuntime) -> Result<(), Fail> {
    for (number, end) in ENDS.iter().enumerate() {
        assert!(rt; ends(&rt, rt.alloc(), end)?, "{number}");
    }
    Ok(())
}

/// Whether a migration of one slip is reported so whose wire has room for this many bytes of the answer.
fn is_cut_off<T: Threads + Wait + Sync>(
    rt: &T,
    alloc: Global,
    room: usize,
    line: &'static str,
) -> Result<bool, Fail> {
    let wanted = Move {
        room,
        status: 4,
        line,
        ..MOVES_ONE
    };
    moves(rt, alloc, Old::Slips(&[FIRST]), &wanted)
}

#[test]
fn an_answer_that_fails(rt: HostRuntime) -> Result<(), Fail> {
    assert!(rt; is_cut_off(&rt, rt.alloc(), 0, "cutlab: fault 31 Write 0")?);
    assert!(rt; is_cut_off(&rt, rt.alloc(), 4, "cutlab: fault 31 Write 4")?);
    assert!(rt; is_cut_off(&rt, rt.alloc(), 10, "cutlab: fault 31 Write 10")?);
    Ok(())
}

/// How many calls of the new disk a migration of one slip takes: nine to look at it and to make the study, and
/// four for the slip.
const MOVING_CALLS: u64 = 13;

/// How many calls of the new file's disk failed.
fn failures_of(files: &MemoryFiles<FaultyDisk>) -> u64 {
    match files.disk(NEW) {
        Some(disk) => disk.failures(),
        None => 0,
    }
}

/// Whether a migration of one slip to a disk that fails at this call reports so, and the upgrade's study goes on from
/// what the disk has; or moves the slip where it makes fewer calls.
fn goes_on<T: Threads + Wait + Sync>(
    rt: &T,
    alloc: Global,
    fail_at: u64,
    tear: Tear,
) -> Result<bool, Fail> {
    let old = old_disk(rt, alloc, Old::Slips(&[FIRST]))?;
    let new = FaultyDisk::of(alloc, Vec::new(alloc), fail_at, tear)?;
    new.arm();
    let mut files = files_of(alloc, old, new)?;
    if fail_at > MOVING_CALLS {
        let is_moved = ends_so(alloc, &MOVES_ONE, &mut files)?;
        return Ok(is_moved && failures_of(&files) == 0);
    }
    let failed = Move {
        status: 4,
        line: "cutlab: fault 20 Disk",
        ..MOVES_ONE
    };
    let is_reported = ends_so(alloc, &failed, &mut files)?;
    Ok(is_reported && failures_of(&files) == 1 && writes_upgrade(rt, alloc, &files)?)
}

#[test]
fn each_call_of_the_new_disk_fails(rt: HostRuntime) -> Result<(), Fail> {
    let alloc = rt.alloc();
    for tear in [Tear::Nothing, Tear::Everything] {
        for fail_at in 1..=15 {
            assert!(rt; goes_on(&rt, alloc, fail_at, tear)?, "{fail_at}");
        }
    }
    Ok(())
}
