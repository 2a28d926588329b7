//! What is printed of a file.

use crate::journals::{SMALL, written};
use cut_commands::{CliFault, status};
use cut_disks::MemoryDisk;
use cut_files::{Files, MemoryFiles, OpenFault, SystemFiles};
use cut_journal::JournalFault;
use cut_plan::Plan;
use cut_status::{StatusFault, status_of};
use cut_wires::MemoryWire;
use std::fs;
use std::test::Fail;

/// The lines that count what the file of both trials of the small plan holds.
const LINES: &[u8] = b"trials 2 of 2\ncells 1 of 1\nslips 1\n";

#[test]
fn a_status_is_printed(rt: HostRuntime) -> Result<(), Fail> {
    let plan = Plan::from_json(rt.alloc(), SMALL.as_bytes())?;
    let bytes = Vec::from_slice(rt.alloc(), written(rt.alloc(), &plan)?.bytes())?;
    let text = status_of(rt.alloc(), bytes)?.to_text(rt.alloc())?;
    let canonical = plan.canonical(rt.alloc())?;
    let rest = text.strip_prefix(LINES).unwrap_or(&[]);
    assert!(rt; rest.strip_suffix(b"\n") == Some(canonical.as_slice()));
    Ok(())
}

const FOLDER: &str = "cut_status_test";

const FILE: &str = "cut_status_test/file";

#[test]
fn files_are_read(rt: HostRuntime) -> Result<(), Fail> {
    let files = SystemFiles::of(&rt);
    let _ = fs::remove_dir_all(&rt, FOLDER);
    assert!(rt; files.read(rt.alloc(), FILE) == Err(OpenFault::Disk));
    fs::create_dir(&rt, FOLDER)?;
    fs::write(&rt, FILE, "abc")?;
    assert!(rt; files.read(rt.alloc(), FILE)?.as_slice() == b"abc".as_slice());
    // A folder is no file.
    assert!(rt; files.read(rt.alloc(), FOLDER) == Err(OpenFault::Disk));
    fs::remove_dir_all(&rt, FOLDER)?;
    Ok(())
}

// The status of the file at a path is written, and none if there is no file, or no study.
#[test]
fn a_file_has_its_status(rt: HostRuntime) -> Result<(), Fail> {
    let alloc = rt.alloc();
    let plan = Plan::from_json(alloc, SMALL.as_bytes())?;
    let mut files = MemoryFiles::new(alloc);
    files.put("study", written(alloc, &plan)?)?;
    files.put(
        "notes",
        MemoryDisk::of(alloc, Vec::from_slice(alloc, b"notes")?)?,
    )?;
    let mut wire = MemoryWire::new(alloc, Vec::new(alloc), 4096);
    assert!(rt; status(&files, alloc, &mut wire, "study").is_ok());
    assert!(rt; wire.taken().starts_with(LINES));
    let mut other = MemoryWire::new(alloc, Vec::new(alloc), 4096);
    assert!(rt;
        matches!(
            status(&files, alloc, &mut other, "else"),
            Err(CliFault::Journal(JournalFault::Disk))
        )
    );
    assert!(rt;
        matches!(
            status(&files, alloc, &mut other, "notes"),
            Err(CliFault::Journal(JournalFault::NoStudy))
        )
    );
    assert!(rt; other.taken().is_empty());
    Ok(())
}

#[test]
fn faults_are_printed(rt: HostRuntime) -> Result<(), Fail> {
    assert!(rt; StatusFault::NoStudy.to_string(rt.alloc())?.as_str() == "22 NoStudy");
    assert!(rt; StatusFault::Memory.to_string(rt.alloc())?.as_str() == "0 Memory");
    Ok(())
}
