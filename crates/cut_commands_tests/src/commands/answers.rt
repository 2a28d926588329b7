//! What commands over a wire alone answer where nothing fails.

use super::PLAN;
use super::checkpoints::{disk_of, empty_disk, file_with};
use super::kept_files::wire_of;
use super::migrating::FIRST;
use cut_commands::{canonical_io, explain_io, migrate_io};
use std::test::Fail;

#[test]
fn a_canonical_text_is_its_own(rt: HostRuntime) -> Result<(), Fail> {
    let alloc = rt.alloc();
    let mut wire = wire_of(alloc)?;
    canonical_io(alloc, &mut wire)?;
    assert!(rt; wire.taken().strip_suffix(b"\n".as_slice()) == Some(PLAN.as_bytes()));
    Ok(())
}

#[test]
fn a_plan_is_explained(rt: HostRuntime) -> Result<(), Fail> {
    let alloc = rt.alloc();
    let mut wire = wire_of(alloc)?;
    explain_io(alloc, &rt, &mut wire)?;
    assert!(rt; wire.taken().starts_with(b"accepted\ncells 1\ntrials 2\n"));
    Ok(())
}

#[test]
fn a_slip_is_moved_from_disk_to_disk(rt: HostRuntime) -> Result<(), Fail> {
    let alloc = rt.alloc();
    let old = disk_of(alloc, file_with(&rt, alloc, &[FIRST])?)?;
    let mut new = empty_disk(alloc)?;
    let mut wire = wire_of(alloc)?;
    migrate_io(alloc, &mut wire, old, &mut new)?;
    assert!(rt; wire.taken() == b"migrated 1\n".as_slice());
    assert!(rt; new.memory().bytes().len() == 372);
    Ok(())
}
