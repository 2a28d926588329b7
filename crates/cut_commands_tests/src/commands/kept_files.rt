//! Commands over files: the one at the path is used, and the others stay as they are.

use super::checkpoints::{file_with, whole_file};
use super::migrating::FIRST;
use super::{LINE, PLAN, is_table, work_of};
use cut_commands::{CliFault, MigratedFiles, StudyWork, migrate, run};
use cut_disks::MemoryDisk;
use cut_files::{Files, MemoryFiles, Mode};
use cut_journal::JournalFault;
use cut_wires::MemoryWire;
use std::alloc::Global;
use std::sync::Wait;
use std::test::Fail;
use std::thread::Threads;

/// The path of a study.
const FILE: &str = "study.cut";

/// A wire that gives the plan.
pub(super) fn wire_of(alloc: Global) -> Result<MemoryWire, Fail> {
    let input = Vec::from_slice(alloc, PLAN.as_bytes())?;
    Ok(MemoryWire::new(alloc, input, 4096))
}

/// Whether the plan's study, which is kept at the path, writes its table.
fn is_run<T: Threads + Wait + Sync>(
    rt: &T,
    alloc: Global,
    files: &mut MemoryFiles<MemoryDisk>,
) -> Result<bool, Fail> {
    let mut wire = wire_of(alloc)?;
    let study = StudyWork {
        work: work_of(2, 2),
        checkpoint: Some(FILE),
        plan: None,
    };
    let ended = run(files, rt, alloc, &mut wire, study);
    Ok(ended.is_ok() && is_table(wire.taken(), LINE))
}

/// Whether the file of the study is that of a whole study of the plan, whose trials are one piece.
fn is_whole<T: Threads + Wait + Sync>(
    rt: &T,
    alloc: Global,
    files: &MemoryFiles<MemoryDisk>,
) -> Result<bool, Fail> {
    let kept = files.read(alloc, FILE)?;
    let whole = whole_file(rt, alloc, PLAN)?;
    Ok(kept.as_slice() == whole.as_slice())
}

#[test]
fn a_study_is_kept_at_its_path(rt: HostRuntime) -> Result<(), Fail> {
    let alloc = rt.alloc();
    let mut files = MemoryFiles::new(alloc);
    assert!(rt; is_run(&rt, alloc, &mut files)?);
    assert!(rt; is_whole(&rt, alloc, &files)?);
    // It was shut, so that it opens once more, and nothing is added to a whole study.
    assert!(rt; is_run(&rt, alloc, &mut files)?);
    assert!(rt; is_whole(&rt, alloc, &files)?);
    files.refuse(FILE)?;
    assert!(rt; !is_run(&rt, alloc, &mut files)?);
    Ok(())
}

/// Whether a migration ends with the fault of a file that is not opened, and writes nothing.
fn is_unopened<'p>(
    alloc: Global,
    files: &mut MemoryFiles<MemoryDisk>,
    from: &'p str,
    to: &'p str,
) -> Result<bool, Fail> {
    let mut wire = wire_of(alloc)?;
    let paths = MigratedFiles {
        from,
        to,
        plan: None,
    };
    let ended = migrate(files, alloc, &mut wire, paths);
    let is_unopened = matches!(ended, Err(CliFault::Journal(JournalFault::Disk)));
    Ok(is_unopened && wire.taken().is_empty())
}

#[test]
fn a_study_is_moved_from_path_to_path(rt: HostRuntime) -> Result<(), Fail> {
    let alloc = rt.alloc();
    let mut files = MemoryFiles::new(alloc);
    let bytes = file_with(&rt, alloc, &[FIRST])?;
    let old = MemoryDisk::of(alloc, Vec::from_slice(alloc, bytes.as_slice())?)?;
    files.put("old.cut", old)?;
    assert!(rt; is_unopened(alloc, &mut files, "other.cut", "new.cut")?);
    assert!(rt; is_unopened(alloc, &mut files, "old.cut", "old.cut")?);
    let mut wire = wire_of(alloc)?;
    let paths = MigratedFiles {
        from: "old.cut",
        to: "new.cut",
        plan: None,
    };
    migrate(&mut files, alloc, &mut wire, paths)?;
    assert!(rt; wire.taken() == b"migrated 1\n".as_slice());
    assert!(rt; files.read(alloc, "old.cut")?.as_slice() == bytes.as_slice());
    assert!(rt; files.read(alloc, "new.cut")?.len() == 372);
    Ok(())
}
