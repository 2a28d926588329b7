//! Disks of which one call fails.

use super::{SMALL, both, written};
use cut_disks::{Disk, FaultyDisk, Tear};
use cut_journal::{Journal, JournalFault};
use cut_outcome::PieceResult;
use cut_plan::Plan;
use std::alloc::{AllocError, Global};
use std::test::Fail;

// Whether that is what two appends of one result answer, if this call of the disk fails: each of them makes four.
fn are_answers(
    first: Result<u64, JournalFault>,
    second: Result<u64, JournalFault>,
    fail_at: u64,
) -> bool {
    match fail_at {
        1..=4 => first == Err(JournalFault::Disk) && second == Err(JournalFault::Broken),
        5..=8 => first == Ok(1) && second == Err(JournalFault::Disk),
        _ => first == Ok(1) && second == Ok(2),
    }
}

// How many slips a reopening finds, or else how many calls of the disk have failed.
pub(super) fn slips_found(alloc: Global, disk: FaultyDisk, plan: &Plan) -> Result<usize, u64> {
    match Journal::reopen(alloc, disk, plan) {
        Ok((_journal, slips)) => Ok(slips.len()),
        Err((_fault, disk)) => Err(disk.failures()),
    }
}

// Whether two appends to a journal answer so if this call of its disk fails.
fn are_answered(journal: &mut Journal<FaultyDisk>, offered: &PieceResult, fail_at: u64) -> bool {
    journal.disk().arm();
    let first = journal.append(offered);
    are_answers(first, journal.append(offered), fail_at)
}

// Whether two appends of which a call of the disk fails answer so, and a reopening finds as many slips.
fn appends_hold(
    alloc: Global,
    plan: &Plan,
    offered: &PieceResult,
    (fail_at, tear, slips): (u64, Tear, usize),
) -> Result<bool, AllocError> {
    let disk = FaultyDisk::of(alloc, Vec::new(alloc), fail_at, tear)?;
    let Ok(mut journal) = Journal::create(alloc, disk, plan) else {
        return Ok(false);
    };
    let is_answered = are_answered(&mut journal, offered, fail_at);
    Ok(is_answered && slips_found(alloc, journal.into_disk(), plan) == Ok(slips))
}

// Each device call of two appends fails in turn, and then none: the append answers 20, the next one 21, and after
// a reopening the slip is there or it isn't.
const APPENDS: [(u64, Tear, usize); 14] = [
    (1, Tear::Nothing, 0),
    (2, Tear::Nothing, 0),
    (3, Tear::Nothing, 0),
    (4, Tear::Nothing, 1),
    (1, Tear::Everything, 0),
    (2, Tear::Everything, 0),
    (3, Tear::Everything, 1),
    (4, Tear::Everything, 1),
    (5, Tear::Everything, 1),
    (6, Tear::Everything, 1),
    (7, Tear::Nothing, 1),
    (7, Tear::Everything, 2),
    (8, Tear::Nothing, 2),
    (0, Tear::Nothing, 2),
];

#[test]
fn a_failing_append(rt: HostRuntime) -> Result<(), Fail> {
    let plan = Plan::from_json(rt.alloc(), SMALL.as_bytes())?;
    let result = both(rt.alloc(), &plan)?;
    for row in APPENDS {
        assert!(rt; appends_hold(rt.alloc(), &plan, &result, row)?);
    }
    Ok(())
}

// Whether a disk of which one call has failed is opened again, with as many slips.
fn is_opened_again(alloc: Global, disk: FaultyDisk, plan: &Plan, slips: usize) -> bool {
    let has_failed_once = disk.failures() == 1;
    match Journal::open(alloc, disk, plan) {
        Ok((_journal, found)) => has_failed_once && found.len() == slips,
        Err(_refused) => false,
    }
}

// Whether an opening is as it should be if this call of the disk fails: the disk is handed back and opened again, or,
// where the opening makes fewer calls, the slips are found.
fn opening_holds(
    alloc: Global,
    file: &[u8],
    plan: &Plan,
    (fail_at, calls, slips): (u64, u64, usize),
) -> Result<bool, AllocError> {
    let bytes = Vec::from_slice(alloc, file)?;
    let disk = FaultyDisk::of(alloc, bytes, fail_at, Tear::Everything)?;
    disk.arm();
    Ok(match Journal::open(alloc, disk, plan) {
        Ok((_journal, found)) => fail_at > calls && found.len() == slips,
        Err((JournalFault::Disk, disk)) => {
            fail_at <= calls && is_opened_again(alloc, disk, plan, slips)
        }
        Err(_refused) => false,
    })
}

// Each call of the disk fails in turn, on an empty disk and on one with a slip.
#[test]
fn a_failing_opening(rt: HostRuntime) -> Result<(), Fail> {
    let plan = Plan::from_json(rt.alloc(), SMALL.as_bytes())?;
    for fail_at in 1..13 {
        assert!(rt;
            opening_holds(rt.alloc(), &[], &plan, (fail_at, 11, 0))?,
            "{fail_at}"
        );
    }
    let disk = written(rt.alloc(), &plan)?;
    for fail_at in 1..13 {
        assert!(rt;
            opening_holds(rt.alloc(), disk.bytes(), &plan, (fail_at, 7, 1))?,
            "{fail_at}"
        );
    }
    Ok(())
}
