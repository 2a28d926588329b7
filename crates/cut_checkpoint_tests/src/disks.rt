mod raw_files;
mod system_files;

use cut_disks::{Disk, DiskCall, DiskFault, FaultyDisk, FileDisk, MemoryDisk, Tear};
use std::alloc::{AllocError, Global};
use std::fs;
use std::test::Fail;

// A disk in memory of four bytes.
fn four(alloc: Global) -> Result<MemoryDisk, AllocError> {
    MemoryDisk::of(alloc, Vec::from_slice(alloc, b"abcd")?)
}

// Whether a call is a write of the bytes at the beginning that are written, or a torn one up to the place.
fn is_call(call: &DiskCall, wanted: &str) -> bool {
    let (word, rest) = wanted.split_once(' ').unwrap_or((wanted, ""));
    match call {
        DiskCall::Write { at, put } => {
            *at == 0 && word == "put" && put.as_slice() == rest.as_bytes()
        }
        DiskCall::Torn { at, stop } => {
            *at == 0 && word == "torn" && rest.parse::<u64>() == Ok(*stop)
        }
        _ => false,
    }
}

// Whether a disk that is borrowed answers as one.
fn is_disk(borrowed: &mut &mut MemoryDisk) -> Result<bool, DiskFault> {
    borrowed.write_at(0, b"XY")?;
    borrowed.sync()?;
    borrowed.read(0, &mut [])?;
    Ok(borrowed.length() == Ok(4) && borrowed.failures() == 0)
}

#[test]
fn a_disk_that_is_borrowed(rt: HostRuntime) -> Result<(), Fail> {
    let mut disk = four(rt.alloc())?;
    assert!(rt; is_disk(&mut &mut disk)?);
    assert!(rt; disk.bytes() == b"XYcd".as_slice());
    Ok(())
}

// Two writes at the beginning of a disk, each made durable.
fn change(disk: &mut FaultyDisk) -> Result<(), DiskFault> {
    disk.write_at(0, b"XY")?;
    disk.sync()?;
    disk.write_at(0, b"Z")?;
    disk.sync()
}

// A disk of four bytes that fails at this call once it is armed.
fn faulty(alloc: Global, fail_at: u64, tear: Tear) -> Result<FaultyDisk, AllocError> {
    FaultyDisk::of(alloc, Vec::from_slice(alloc, b"abcd")?, fail_at, tear)
}

// Whether the first two writes fail and leave these bytes, after this last call, and two more are made.
fn fails_once(disk: &mut FaultyDisk, left: &str, last: &str) -> bool {
    disk.arm();
    let has_failed = change(disk).is_err() && disk.memory().bytes() == left.as_bytes();
    let is_last = match disk.memory().calls() {
        [.., call] => is_call(call, last),
        [] => false,
    };
    let is_made = change(disk).is_ok() && disk.memory().bytes() == b"ZYcd".as_slice();
    has_failed && is_last && is_made && disk.failures() == 1
}

// Which call fails, how it is torn, the bytes that are left, and the last call.
const FAILURES: &str = "1 Nothing abcd torn 2
2 Nothing XYcd put XY
3 Nothing XYcd torn 1
4 Nothing ZYcd put Z
1 Everything XYcd put XY
2 Everything XYcd put XY
3 Everything ZYcd put Z
4 Everything ZYcd put Z";

/// How a call that fails is torn, as it is written.
pub(crate) fn tear_of(word: &str) -> Tear {
    if word == "Nothing" {
        Tear::Nothing
    } else {
        Tear::Everything
    }
}

// Whether a disk fails as a row says.
fn is_failure(alloc: Global, row: &str) -> Result<bool, AllocError> {
    let (fail_at, rest) = row.split_once(' ').unwrap_or((row, ""));
    let (tear, rest) = rest.split_once(' ').unwrap_or((rest, ""));
    let (left, last) = rest.split_once(' ').unwrap_or((rest, ""));
    let fail_at = fail_at.parse::<u64>().unwrap_or(0);
    let mut disk = faulty(alloc, fail_at, tear_of(tear))?;
    Ok(fails_once(&mut disk, left, last))
}

#[test]
fn a_disk_fails_once(rt: HostRuntime) -> Result<(), Fail> {
    for row in FAILURES.lines() {
        assert!(rt; is_failure(rt.alloc(), row)?, "{row}");
    }
    Ok(())
}

// Whether the second look at the length fails after a disk is armed, and no other read does.
fn reads_fail(disk: &mut FaultyDisk) -> bool {
    let before = disk.read(0, &mut []) == Ok(());
    disk.arm();
    let looks = [disk.length(), disk.length(), disk.length()];
    before && looks == [Ok(4), Err(DiskFault), Ok(4)] && disk.read(0, &mut []) == Ok(())
}

#[test]
fn reads_fail_too(rt: HostRuntime) -> Result<(), Fail> {
    let mut disk = faulty(rt.alloc(), 2, Tear::Everything)?;
    assert!(rt; reads_fail(&mut disk));
    Ok(())
}

const FOLDER: &str = "cut_disks_test";

const FILE: &str = "cut_disks_test/file";

// Writes of which the second stands over the end of the first.
fn write_over(disk: &mut FileDisk) -> Result<(), DiskFault> {
    disk.write_at(0, b"abcd")?;
    disk.write_at(2, b"xyz")?;
    disk.sync()
}

// Whether writes past the largest file are refused.
fn are_refused(disk: &mut FileDisk) -> bool {
    let last = disk.write_at(u64::MAX, b"abc").is_err();
    last && disk.write_at((1 << 63) - 2, b"ab").is_err()
}

// Whether a read within the file gives its bytes, and one past its end is refused.
fn are_read(disk: &mut FileDisk) -> bool {
    let mut found = [0; 3];
    let is_read = disk.read(1, &mut found) == Ok(()) && found == *b"bxy";
    let is_refused = disk.read(3, &mut found).is_err() && disk.failures() == 3;
    is_read && is_refused && disk.length() == Ok(5)
}

// Whether a new file has what was written, and no other disk has it while this one does.
fn is_new_file(host: &HostRuntime, disk: &mut FileDisk) -> Result<bool, Fail> {
    write_over(disk)?;
    let is_changed = are_refused(disk) && are_read(disk);
    let is_held = FileDisk::open(host, FILE).is_err();
    Ok(is_changed && is_held && fs::read(host, FILE)?.as_slice() == b"abxyz".as_slice())
}

#[test]
fn a_file(rt: HostRuntime) -> Result<(), Fail> {
    let _ = fs::remove_dir_all(&rt, FOLDER);
    assert!(rt; FileDisk::open(&rt, FILE).is_err());
    fs::create_dir(&rt, FOLDER)?;
    assert!(rt; FileDisk::open_existing(&rt, FILE).is_err());
    assert!(rt; FileDisk::open(&rt, FILE)?.length() == Ok(0));
    assert!(rt; is_new_file(&rt, &mut FileDisk::open(&rt, FILE)?)?);
    assert!(rt; FileDisk::open(&rt, FILE)?.length() == Ok(5));
    let mut old = FileDisk::open_existing(&rt, FILE)?;
    assert!(rt; old.length() == Ok(5) && old.write_at(0, b"c").is_err());
    // A folder is no file, and neither is a device.
    assert!(rt; FileDisk::open(&rt, FOLDER).is_err());
    assert!(rt; FileDisk::open_existing(&rt, FOLDER).is_err());
    assert!(rt; FileDisk::open(&rt, "/dev/null").is_err());
    fs::remove_dir_all(&rt, FOLDER)?;
    Ok(())
}

#[test]
fn faults_are_printed(rt: HostRuntime) -> Result<(), Fail> {
    assert!(rt; DiskFault.to_string(rt.alloc())?.as_str() == "a call of the disk failed");
    Ok(())
}
