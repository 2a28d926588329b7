//! Studies that are kept on a disk: resumed, stopped at each call of the disk, and refused.

use super::{LINE, PLAN, is_table, plan_with, work_of};
use cut_commands::{CliFault, run_io};
use cut_disks::{Disk, FaultyDisk, FileDisk, Tear};
use cut_journal::JournalFault;
use cut_wires::{FaultyWire, Sent, StreamWire};
use std::alloc::Global;
use std::fs;
use std::sync::Wait;
use std::test::Fail;
use std::thread::Threads;

/// What a study over a disk writes, by pieces of this size and two workers.
pub(super) fn written<T, D>(
    rt: &T,
    alloc: Global,
    text: &str,
    size: u32,
    disk: D,
) -> Result<Vec<u8>, CliFault>
where
    T: Threads + Wait + Sync,
    D: Disk + Drop + Send,
{
    let mut output = Vec::new(alloc);
    let mut wire = StreamWire::new(text.as_bytes(), &mut output);
    run_io(rt, alloc, &mut wire, work_of(size, 2), Some(disk))?;
    drop(wire);
    Ok(output)
}

/// An empty disk on which nothing fails.
pub(super) fn empty_disk(alloc: Global) -> Result<FaultyDisk, Fail> {
    disk_of(alloc, Vec::new(alloc))
}

/// A disk of these bytes on which nothing fails.
pub(super) fn disk_of(alloc: Global, bytes: Vec<u8>) -> Result<FaultyDisk, Fail> {
    Ok(FaultyDisk::of(alloc, bytes, 0, Tear::Nothing)?)
}

/// Whether the plan's study over a disk, by pieces of this size, writes its table and leaves this many bytes there.
fn leaves<T: Threads + Wait + Sync>(
    rt: &T,
    alloc: Global,
    size: u32,
    disk: &mut FaultyDisk,
    length: usize,
) -> Result<bool, Fail> {
    let output = written(rt, alloc, PLAN, size, &mut *disk)?;
    Ok(is_table(&output, LINE) && disk.memory().bytes().len() == length)
}

#[test]
fn a_study_is_kept_and_read_back(rt: HostRuntime) -> Result<(), Fail> {
    let alloc = rt.alloc();
    for (size, length) in [(2, 372), (1, 477), (16, 372)] {
        let mut disk = empty_disk(alloc)?;
        assert!(rt; leaves(&rt, alloc, size, &mut disk, length)?);
        assert!(rt; leaves(&rt, alloc, size, &mut disk, length)?);
    }
    Ok(())
}

/// How many calls of a disk without a study the opening of a checkpoint takes: two to look at it, one to
/// see that it is unclaimed, and eight to look again and to make the study.
const OPENING_CALLS: u64 = 11;

/// Whether a run reported the failure of this call of the disk.
fn is_reported(ended: Result<Vec<u8>, CliFault>, fail_at: u64) -> bool {
    match ended {
        Err(CliFault::Journal(JournalFault::Disk)) => fail_at <= OPENING_CALLS,
        Err(CliFault::Checkpoint) => fail_at > OPENING_CALLS,
        _ => false,
    }
}

/// Runs the plan on a disk that fails at this call, and if it did then again. Whether the disk failed; and whether the
/// first run reported it if it did, and the second one wrote the table.
fn runs_twice<T: Threads + Wait + Sync>(
    rt: &T,
    alloc: Global,
    fail_at: u64,
    disk: &mut FaultyDisk,
) -> Result<(bool, bool), Fail> {
    let is_right = is_reported(written(rt, alloc, PLAN, 1, &mut *disk), fail_at);
    if disk.failures() != 1 {
        return Ok((false, !is_right));
    }
    let second = written(rt, alloc, PLAN, 2, disk)?;
    Ok((true, is_right && is_table(&second, LINE)))
}

/// The same on a new disk.
fn resumes<T: Threads + Wait + Sync>(
    rt: &T,
    alloc: Global,
    fail_at: u64,
    tear: Tear,
) -> Result<(bool, bool), Fail> {
    let mut disk = FaultyDisk::of(alloc, Vec::new(alloc), fail_at, tear)?;
    disk.arm();
    runs_twice(rt, alloc, fail_at, &mut disk)
}

#[test]
fn each_call_of_the_disk_fails(rt: HostRuntime) -> Result<(), Fail> {
    for tear in [Tear::Nothing, Tear::Everything] {
        // Those of the opening, and four for each of two pieces.
        for fail_at in 1..=20 {
            let (failed, right) = resumes(&rt, rt.alloc(), fail_at, tear)?;
            assert!(rt; right && (failed || fail_at > 19), "{fail_at}");
        }
    }
    Ok(())
}

/// Whether a run whose wire has room for 80 bytes reports as many, and keeps both trials on the disk.
fn is_cut_off<T: Threads + Wait + Sync>(
    rt: &T,
    alloc: Global,
    disk: &mut FaultyDisk,
) -> Result<bool, Fail> {
    let input = Vec::from_slice(alloc, PLAN.as_bytes())?;
    let mut wire = FaultyWire::new(alloc, input, 4096, 80, 0);
    let ended = run_io(rt, alloc, &mut wire, work_of(1, 2), Some(&mut *disk));
    let is_reported = matches!(ended, Err(CliFault::Write(Sent { sent: 80 })));
    Ok(is_reported && disk.memory().bytes().len() == 477)
}

#[test]
fn a_study_outlives_its_wire(rt: HostRuntime) -> Result<(), Fail> {
    let mut disk = empty_disk(rt.alloc())?;
    assert!(rt; is_cut_off(&rt, rt.alloc(), &mut disk)?);
    assert!(rt; leaves(&rt, rt.alloc(), 2, &mut disk, 477)?);
    Ok(())
}

/// The digest of the slip of the first trial with five receivers, if the plan has four.
const MORE_RECEIVERS: [u8; 32] = [
    0xde, 0x01, 0xd7, 0xc1, 0x5b, 0xf5, 0x19, 0x3d, 0xaf, 0x18, 0x25, 0x60, 0x39, 0x50, 0x78, 0x45,
    0x37, 0x09, 0x9b, 0x7f, 0xd3, 0xc8, 0x0a, 0x5f, 0x7d, 0x1c, 0x5c, 0xfe, 0x29, 0x62, 0x90, 0x39,
];

/// The digest of the slip of the first trial with four conflicts, if there is none.
const FALSE_CONFLICTS: [u8; 32] = [
    0x47, 0xc9, 0xae, 0x50, 0x79, 0x9f, 0x45, 0xa5, 0x99, 0xa6, 0x76, 0x11, 0xd6, 0x8c, 0x96, 0xcb,
    0x82, 0x3d, 0xf6, 0x51, 0xb9, 0x10, 0x05, 0x15, 0xe5, 0x3b, 0xc4, 0x01, 0x17, 0xeb, 0x75, 0x77,
];

/// A slip as a file has it: its numbers and its digest.
pub(super) type KeptSlip = ([u64; 9], [u8; 32]);

/// The slip of the first trial with five receivers, and with four conflicts.
const IMPOSSIBLE: KeptSlip = ([0, 1, 5, 0, 0, 0, 4, 1, 1], MORE_RECEIVERS);

pub(super) const FIRST_FALSE: KeptSlip = ([0, 1, 4, 4, 0, 0, 4, 1, 0], FALSE_CONFLICTS);

/// The file of a plan whose trials are all kept, by pieces of two.
pub(super) fn whole_file<T: Threads + Wait + Sync>(
    rt: &T,
    alloc: Global,
    text: &str,
) -> Result<Vec<u8>, Fail> {
    let mut disk = empty_disk(alloc)?;
    let _ = written(rt, alloc, text, 2, &mut disk)?;
    Ok(Vec::from_slice(alloc, disk.memory().bytes())?)
}

/// Writes an open gate and these numbers after it.
pub(super) fn push_numbers(file: &mut Vec<u8>, numbers: &[u64]) -> Result<(), Fail> {
    file.push(0xA5)?;
    for number in numbers {
        file.extend_from_slice(number.to_be_bytes().as_slice())?;
    }
    Ok(())
}

/// The file of the plan with these slips.
pub(super) fn file_with<T: Threads + Wait + Sync>(
    rt: &T,
    alloc: Global,
    slips: &[KeptSlip],
) -> Result<Vec<u8>, Fail> {
    let mut file = whole_file(rt, alloc, PLAN)?;
    file.truncate(266);
    for (numbers, digest) in slips {
        push_numbers(&mut file, numbers.as_slice())?;
        file.extend_from_slice(digest.as_slice())?;
    }
    file.push(0)?;
    Ok(file)
}

/// Whether a study over a disk with these bytes is refused by this line.
fn is_refused<T: Threads + Wait + Sync>(
    rt: &T,
    alloc: Global,
    text: &str,
    file: Vec<u8>,
    line: &str,
) -> Result<bool, Fail> {
    let mut disk = disk_of(alloc, file)?;
    match written(rt, alloc, text, 1, &mut disk) {
        Ok(_) => Ok(false),
        Err(fault) => Ok(fault.to_string(alloc)?.as_str() == line),
    }
}

/// What a slip says is taken for true where it could be.
#[test]
fn slips_that_could_be_true(rt: HostRuntime) -> Result<(), Fail> {
    let alloc = rt.alloc();
    let mut disk = disk_of(alloc, file_with(&rt, alloc, &[FIRST_FALSE])?)?;
    let output = written(&rt, alloc, PLAN, 1, &mut disk)?;
    let line = output.get(72..);
    assert!(rt; line == Some(b"1,1,1,1,2,8,4,0,0,8,2,1,500000\n".as_slice()));
    Ok(())
}

/// The file of the plan, in which the byte at this place is another.
fn changed_file<T: Threads + Wait + Sync>(
    rt: &T,
    alloc: Global,
    at: usize,
) -> Result<Vec<u8>, Fail> {
    let mut file = whole_file(rt, alloc, PLAN)?;
    if let Some(byte) = file.get_mut(at) {
        *byte = !*byte;
    }
    Ok(file)
}

#[test]
fn files_that_are_refused(rt: HostRuntime) -> Result<(), Fail> {
    let alloc = rt.alloc();
    let other = plan_with(alloc, &[(r#""f":[1]"#, r#""f":[0]"#)])?;
    let rows = [
        (other.as_str(), usize::MAX, "cutlab: fault 23 OtherPlan"),
        (PLAN, 20, "cutlab: fault 24 Damaged 0"),
        (PLAN, 300, "cutlab: fault 24 Damaged 1"),
    ];
    for (text, at, line) in rows {
        let file = changed_file(&rt, alloc, at)?;
        assert!(rt; is_refused(&rt, alloc, text, file, line)?, "{line}");
    }
    let file = file_with(&rt, alloc, &[IMPOSSIBLE])?;
    assert!(rt; is_refused(&rt, alloc, PLAN, file, "cutlab: fault 17 BadSlip 1")?);
    Ok(())
}

const FOLDER: &str = "cutlab_checkpoint_test";

const FILE: &str = "cutlab_checkpoint_test/study.cut";

/// Whether the plan's study, kept in the file, writes its table and leaves the file as long as its slip needs.
fn is_kept<T: Threads + Wait + Sync>(host: &HostRuntime, rt: &T) -> Result<bool, Fail> {
    let output = written(rt, host.alloc(), PLAN, 2, FileDisk::open(host, FILE)?)?;
    Ok(is_table(&output, LINE) && fs::read(host, FILE)?.len() == 372)
}

#[test]
fn a_study_is_kept_in_a_file(rt: HostRuntime) -> Result<(), Fail> {
    let _ = fs::remove_dir_all(&rt, FOLDER);
    fs::create_dir(&rt, FOLDER)?;
    for _ in 0..2 {
        assert!(rt; is_kept(&rt, &rt)?);
    }
    Ok(fs::remove_dir_all(&rt, FOLDER)?)
}
