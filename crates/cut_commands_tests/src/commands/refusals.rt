//! Texts that are refused at sight, by both commands that read a plan.

use super::{check_for, table_for};
use cut_commands::CliFault;
use std::alloc::{AllocError, Global};
use std::sync::Wait;
use std::test::Fail;
use std::thread::Threads;

/// Whether a command was refused its plan by this line, and wrote nothing.
fn is_refused(
    alloc: Global,
    ended: Result<Vec<u8>, CliFault>,
    line: &str,
) -> Result<bool, AllocError> {
    match ended {
        Ok(_) => Ok(false),
        Err(fault) => Ok(fault.status() == 3 && fault.to_string(alloc)?.as_str() == line),
    }
}

/// Whether both commands are refused this many blanks by this line.
fn are_refused<T: Threads + Wait + Sync>(
    rt: &T,
    alloc: Global,
    size: usize,
    line: &str,
) -> Result<bool, AllocError> {
    let blanks = vec![in alloc; b' '; size]?;
    Ok(
        is_refused(alloc, table_for(rt, alloc, &blanks), line)?
            && is_refused(alloc, check_for(alloc, &blanks), line)?,
    )
}

#[test]
fn a_long_text_is_refused(rt: HostRuntime) -> Result<(), Fail> {
    let alloc = rt.alloc();
    assert!(rt; are_refused(&rt, alloc, 65_536, "cutlab: fault 1 NotJson")?);
    assert!(rt; are_refused(&rt, alloc, 65_537, "cutlab: fault 19 PlanTooLong")?);
    assert!(rt; are_refused(&rt, alloc, 70_000, "cutlab: fault 19 PlanTooLong")?);
    Ok(())
}
