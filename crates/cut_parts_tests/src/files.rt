//! Files of the system and in memory, each through the trait that opens them.

use cut_disks::{Disk, FaultyDisk, MemoryDisk, Tear};
use cut_files::{Files, MemoryFiles, Mode, OpenFault, SystemFiles};
use std::alloc::Global;
use std::fs;
use std::test::Fail;

/// Writes two bytes to the file at a path, which is made if there is none, and gives it back.
fn write<F: Files>(files: &mut F, path: &str) -> Result<bool, OpenFault> {
    let mut disk = files.open(path, Mode::Create)?;
    let is_empty = disk.length() == Ok(0);
    let is_written = disk.write_at(0, b"ab").is_ok() && disk.sync().is_ok();
    files.close(path, disk);
    Ok(is_empty && is_written)
}

/// Whether the file at a path is opened again while it is open, or not at all.
fn opens_twice<F: Files>(files: &mut F, path: &str) -> Result<bool, OpenFault> {
    let disk = files.open(path, Mode::Existing)?;
    let is_opened = match files.open(path, Mode::Create) {
        Ok(second) => {
            drop(second);
            true
        }
        Err(_) => false,
    };
    files.close(path, disk);
    Ok(is_opened)
}

/// Whether these bytes are read at a path.
fn reads<F: Files>(files: &F, alloc: Global, path: &str, wanted: &str) -> bool {
    match files.read(alloc, path) {
        Ok(bytes) => bytes.as_slice() == wanted.as_bytes(),
        Err(_) => false,
    }
}

/// Whether no more than these first bytes, up to a limit, are read at a path.
fn starts_so<F: Files>(files: &F, alloc: Global, path: &str, limit: usize, wanted: &str) -> bool {
    match files.read_start(alloc, path, limit) {
        Ok(bytes) => bytes.as_slice() == wanted.as_bytes(),
        Err(_) => false,
    }
}

/// Whether a file of the bytes `ab` is read up to each limit.
fn is_cut<F: Files>(files: &F, alloc: Global, path: &str) -> bool {
    starts_so(files, alloc, path, 0, "")
        && starts_so(files, alloc, path, 1, "a")
        && starts_so(files, alloc, path, 2, "ab")
        && starts_so(files, alloc, path, 70_000, "ab")
}

/// Whether nothing is opened and nothing read at a path.
fn is_refused<F: Files>(files: &mut F, alloc: Global, path: &str, mode: Mode) -> bool {
    match files.open(path, mode) {
        Ok(disk) => {
            drop(disk);
            false
        }
        Err(fault) => {
            fault == OpenFault::Disk
                && files.read(alloc, path) == Err(OpenFault::Disk)
                && files.read_start(alloc, path, 1) == Err(OpenFault::Disk)
        }
    }
}

/// Whether a file is made, written, opened once at a time, and read, and nothing is made that is to exist.
fn are_files<F: Files>(files: &mut F, alloc: Global, path: &str) -> Result<bool, OpenFault> {
    let was_absent = is_refused(files, alloc, path, Mode::Existing)
        && is_refused(files, alloc, path, Mode::Existing);
    let is_written = write(files, path)?;
    let is_read = reads(files, alloc, path, "ab") && is_cut(files, alloc, path);
    let is_once = !opens_twice(files, path)? && !opens_twice(files, path)?;
    Ok(was_absent && is_written && is_read && is_once && reads(files, alloc, path, "ab"))
}

const FOLDER: &str = "cut_files_test";

const FILE: &str = "cut_files_test/file";

#[test]
fn files_of_the_system(rt: HostRuntime) -> Result<(), Fail> {
    let _ = fs::remove_dir_all(&rt, FOLDER);
    fs::create_dir(&rt, FOLDER)?;
    let mut files = SystemFiles::of(&rt);
    assert!(rt; are_files(&mut files, rt.alloc(), FILE)?);
    // A folder is no file.
    assert!(rt; is_refused(&mut files, rt.alloc(), FOLDER, Mode::Create));
    fs::remove_dir_all(&rt, FOLDER)?;
    Ok(())
}

#[test]
fn files_in_memory(rt: HostRuntime) -> Result<(), Fail> {
    let mut files: MemoryFiles = MemoryFiles::new(rt.alloc());
    assert!(rt; are_files(&mut files, rt.alloc(), FILE)?);
    files.refuse(FOLDER)?;
    assert!(rt; is_refused(&mut files, rt.alloc(), FOLDER, Mode::Create));
    files.put(FOLDER, MemoryDisk::of(rt.alloc(), Vec::new(rt.alloc()))?)?;
    assert!(rt; write(&mut files, FOLDER)?);
    match files.disk(FILE) {
        Some(disk) => assert!(rt; disk.bytes() == b"ab".as_slice() && disk.calls().len() == 2),
        None => assert!(rt; false),
    }
    assert!(rt; files.disk("no file").is_none());
    Ok(())
}

#[test]
fn a_file_that_fails(rt: HostRuntime) -> Result<(), Fail> {
    let mut files: MemoryFiles<FaultyDisk> = MemoryFiles::new(rt.alloc());
    assert!(rt; are_files(&mut files, rt.alloc(), FILE)?);
    let disk = FaultyDisk::of(rt.alloc(), Vec::new(rt.alloc()), 2, Tear::Everything)?;
    disk.arm();
    files.put(FILE, disk)?;
    assert!(rt; !write(&mut files, FILE)?);
    assert!(rt; reads(&files, rt.alloc(), FILE, "ab"));
    match files.disk(FILE) {
        Some(disk) => assert!(rt; disk.failures() == 1),
        None => assert!(rt; false),
    }
    Ok(())
}
