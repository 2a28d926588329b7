//! Studies of version 1 that are moved to their plans' upgrades.

use super::SMALL;
use super::failing::slips_found;
use cut_disks::{FaultyDisk, Tear};
use cut_journal::{Journal, StoreFault};
use cut_ledger::Slip;
use cut_migration::migrate;
use cut_outcome::{Piece, Totals};
use cut_plan::Plan;
use std::alloc::{AllocError, Global};
use std::test::Fail;

/// The slip of a trial of the small plan.
const fn slip(first: u32) -> Slip {
    Slip {
        piece: Piece { first, count: 1 },
        totals: Totals {
            receivers: 4,
            votes: 4,
            decided: 1,
            right: 1,
            ..Totals::ZERO
        },
    }
}

/// Whether the moving of two slips answers 20 as the disk fails, and then 21, or that both are moved if no call is to
/// fail.
fn is_answered(alloc: Global, plan: &Plan, journal: &mut Journal<FaultyDisk>, fails: bool) -> bool {
    let slips = [slip(0), slip(1)];
    journal.disk().arm();
    let first = migrate(alloc, &slips, plan, journal);
    if !fails {
        return first == Ok(2);
    }
    let second = migrate(alloc, &slips, plan, journal);
    first == Err(StoreFault::Disk) && second == Err(StoreFault::Broken)
}

/// Whether the moving of two slips answers so if this call of the disk fails, and as many are found then.
fn moving_holds(
    alloc: Global,
    (plan, upgrade): (&Plan, &Plan),
    (fail_at, found): (u64, usize),
) -> Result<bool, AllocError> {
    let disk = FaultyDisk::of(alloc, Vec::new(alloc), fail_at, Tear::Nothing)?;
    let Ok(mut journal) = Journal::create(alloc, disk, upgrade) else {
        return Ok(false);
    };
    let is_answered = is_answered(alloc, plan, &mut journal, fail_at > 0);
    Ok(is_answered && slips_found(alloc, journal.into_disk(), upgrade) == Ok(found))
}

// Calls of the new journal's disk fail in turn: 20, then 21 for a slip that is true, and what can be read then are
// the slips before that one, or it too.
#[test]
fn a_failing_move(rt: HostRuntime) -> Result<(), Fail> {
    let plan = Plan::from_json(rt.alloc(), SMALL.as_bytes())?;
    let upgrade = plan.upgrade(rt.alloc())?;
    for row in [(1, 0), (3, 0), (4, 1), (5, 1), (7, 1), (8, 2), (0, 2)] {
        assert!(rt; moving_holds(rt.alloc(), (&plan, &upgrade), row)?);
    }
    Ok(())
}
