//! Plans that are read from files: what is answered, and that the wire gives nothing.

use super::checkpoints::file_with;
use super::migrating::FIRST;
use super::{LINE, NO_DISK, PLAN, is_table, work_of};
use cut_commands::{
    CliFault, MigratedFiles, PlanSource, Study, StudyWork, canonical_from, check_from,
    explain_from, migrate, run, run_from,
};
use cut_disks::MemoryDisk;
use cut_files::{Files, MemoryFiles};
use cut_wires::{MemoryWire, Wire};
use std::alloc::{AllocError, Global};
use std::sync::Wait;
use std::test::Fail;
use std::thread::Threads;
use std::time::CpuClock;

/// The path of a plan, and that of a study.
const PLAN_FILE: &str = "plan.json";

const STUDY_FILE: &str = "study.cut";

/// What the wire would give: no plan.
const INPUT: &[u8] = b"no plan";

/// A wire that gives no plan.
fn wire_of(alloc: Global) -> Result<MemoryWire, AllocError> {
    Ok(MemoryWire::new(alloc, Vec::from_slice(alloc, INPUT)?, 4096))
}

/// Whether a wire took these bytes, and gave nothing yet.
fn has_taken(wire: &mut MemoryWire, bytes: &[u8]) -> bool {
    let mut given = [0; 100];
    let read = wire.read(&mut given);
    read == Ok(INPUT.len()) && given.starts_with(INPUT) && wire.taken() == bytes
}

/// A disk that holds these bytes.
fn disk_of(alloc: Global, bytes: &[u8]) -> Result<MemoryDisk, AllocError> {
    MemoryDisk::of(alloc, Vec::from_slice(alloc, bytes)?)
}

/// Files of which one holds this text.
fn files_of(alloc: Global, text: &[u8]) -> Result<MemoryFiles, AllocError> {
    let mut files = MemoryFiles::new(alloc);
    files.put(PLAN_FILE, disk_of(alloc, text)?)?;
    Ok(files)
}

/// Whether `check` of the file at a path is refused by this line and status, and neither reads nor writes on the wire.
fn is_refused(
    alloc: Global,
    files: &MemoryFiles,
    path: &str,
    line: &str,
    status: u8,
) -> Result<bool, AllocError> {
    let mut wire = wire_of(alloc)?;
    let ended = check_from(alloc, PlanSource::of(files, Some(path)), &mut wire);
    match ended {
        Ok(()) => Ok(false),
        Err(fault) => {
            let is_line = fault.to_string(alloc)?.as_str() == line && fault.status() == status;
            Ok(is_line && has_taken(&mut wire, b""))
        }
    }
}

#[test]
fn a_plan_of_a_file_is_checked(rt: HostRuntime) -> Result<(), Fail> {
    let alloc = rt.alloc();
    let files = files_of(alloc, PLAN.as_bytes())?;
    let mut wire = wire_of(alloc)?;
    check_from(alloc, PlanSource::of(&files, Some(PLAN_FILE)), &mut wire)?;
    assert!(rt; has_taken(&mut wire, b"cells 1\ntrials 2\nquorum 4\n"));
    let mut wire = wire_of(alloc)?;
    canonical_from(alloc, PlanSource::of(&files, Some(PLAN_FILE)), &mut wire)?;
    assert!(rt; wire.taken().strip_suffix(b"\n".as_slice()) == Some(PLAN.as_bytes()));
    Ok(())
}

/// Whether the plan of the file is explained.
fn is_explained<C: CpuClock>(alloc: Global, clock: &C, files: &MemoryFiles) -> Result<bool, Fail> {
    let mut wire = wire_of(alloc)?;
    explain_from(
        alloc,
        clock,
        PlanSource::of(files, Some(PLAN_FILE)),
        &mut wire,
    )?;
    Ok(wire.taken().starts_with(b"accepted\ncells 1\ntrials 2\n"))
}

#[test]
fn a_plan_of_a_file_is_explained(rt: HostRuntime) -> Result<(), Fail> {
    let files = files_of(rt.alloc(), PLAN.as_bytes())?;
    assert!(rt; is_explained(rt.alloc(), &rt, &files)?);
    Ok(())
}

#[test]
fn files_that_give_no_plan(rt: HostRuntime) -> Result<(), Fail> {
    let alloc = rt.alloc();
    let mut files = files_of(alloc, b"{}")?;
    assert!(rt;
        is_refused(
            alloc,
            &files,
            PLAN_FILE,
            "cutlab: fault 4 MissingField copies",
            3
        )?
    );
    assert!(rt; is_refused(alloc, &files, "none.json", "cutlab: fault 20 Disk", 4)?);
    files.refuse("folder")?;
    assert!(rt; is_refused(alloc, &files, "folder", "cutlab: fault 20 Disk", 4)?);
    Ok(())
}

/// Whether a file of this many blanks is refused by this line.
fn is_long(alloc: Global, size: usize, line: &str) -> Result<bool, AllocError> {
    let blanks = vec![in alloc; b' '; size]?;
    is_refused(alloc, &files_of(alloc, &blanks)?, PLAN_FILE, line, 3)
}

#[test]
fn a_long_file_is_refused(rt: HostRuntime) -> Result<(), Fail> {
    let alloc = rt.alloc();
    assert!(rt; is_long(alloc, 65_536, "cutlab: fault 1 NotJson")?);
    assert!(rt; is_long(alloc, 65_537, "cutlab: fault 19 PlanTooLong")?);
    assert!(rt; is_long(alloc, 70_000, "cutlab: fault 19 PlanTooLong")?);
    Ok(())
}

/// Whether the study of the file's plan, which is not kept, writes its table.
fn is_run<T: Threads + Wait + Sync>(rt: &T, alloc: Global) -> Result<bool, Fail> {
    let files = files_of(alloc, PLAN.as_bytes())?;
    let mut wire = wire_of(alloc)?;
    let source = PlanSource::of(&files, Some(PLAN_FILE));
    let study = Study::new(work_of(1, 2), NO_DISK, source);
    run_from(rt, alloc, &mut wire, study).ended?;
    Ok(is_table(wire.taken(), LINE))
}

/// Whether the study of the file's plan writes its table, be it kept beside that file or not.
fn is_run_in<T: Threads + Wait + Sync>(
    rt: &T,
    alloc: Global,
    files: &mut MemoryFiles,
    checkpoint: Option<&'static str>,
) -> Result<bool, Fail> {
    let mut wire = wire_of(alloc)?;
    let study = StudyWork {
        work: work_of(1, 2),
        checkpoint,
        plan: Some(PLAN_FILE),
    };
    run(files, rt, alloc, &mut wire, study)?;
    Ok(is_table(wire.taken(), LINE))
}

#[test]
fn a_plan_of_a_file_is_run(rt: HostRuntime) -> Result<(), Fail> {
    let alloc = rt.alloc();
    assert!(rt; is_run(&rt, alloc)?);
    let mut files = files_of(alloc, PLAN.as_bytes())?;
    assert!(rt; is_run_in(&rt, alloc, &mut files, None)?);
    assert!(rt; files.read(alloc, STUDY_FILE).is_err());
    assert!(rt; is_run_in(&rt, alloc, &mut files, Some(STUDY_FILE))?);
    assert!(rt; files.read(alloc, PLAN_FILE)?.as_slice() == PLAN.as_bytes());
    Ok(())
}

// A file that is open is not read, so that a study is not kept in the file of its own plan.
#[test]
fn a_plan_is_no_checkpoint(rt: HostRuntime) -> Result<(), Fail> {
    let alloc = rt.alloc();
    let mut files = files_of(alloc, PLAN.as_bytes())?;
    let mut wire = wire_of(alloc)?;
    let study = StudyWork {
        work: work_of(1, 2),
        checkpoint: Some(PLAN_FILE),
        plan: Some(PLAN_FILE),
    };
    let ended = run(&mut files, &rt, alloc, &mut wire, study);
    assert!(rt; matches!(ended, Err(CliFault::Journal(_))) && has_taken(&mut wire, b""));
    Ok(())
}

#[test]
fn a_study_is_moved_by_the_plan_of_a_file(rt: HostRuntime) -> Result<(), Fail> {
    let alloc = rt.alloc();
    let mut files = files_of(alloc, PLAN.as_bytes())?;
    let bytes = file_with(&rt, alloc, &[FIRST])?;
    files.put(STUDY_FILE, disk_of(alloc, &bytes)?)?;
    let mut wire = wire_of(alloc)?;
    let paths = MigratedFiles {
        from: STUDY_FILE,
        to: "new.cut",
        plan: Some(PLAN_FILE),
    };
    migrate(&mut files, alloc, &mut wire, paths)?;
    assert!(rt; has_taken(&mut wire, b"migrated 1\n"));
    Ok(())
}
