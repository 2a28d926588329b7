ghost use Rattle.cut_shares.specs.join.Joining.{EndsJoin};

use crate::join::joined::joined;
use cut_disks::Disk;
use cut_journal::{AcceptedSlips, Journal, StoreFault, laws};
use std::alloc::Global;

/// Appends slips to the journal of their plan, joined: one for each greatest run of adjacent trials of a cell that some
/// slip has, in ascending order, with the sums of the slips in it. Returns the number of slips written, which is that
/// of the joined slips.
///
/// It is refused before any write if the journal is of another plan. Memory runs out only before the first write. After
/// that a broken journal ends it, or a disk that fails: the joined slips before the present one are kept then, and the
/// present one may be kept too.
///
/// Each slip is one append. So a crash at any moment leaves the slips that were acknowledged by then, and at most one
/// more.
pub fn join<D: Disk>(
    alloc: Global,
    accepted: &AcceptedSlips<'_>,
    journal: &mut Journal<D>,
) -> Result<u64, StoreFault>
    ensures { EndsJoin D.log result accepted.now.plan accepted.now.slips journal.old journal.new }
{
    laws::journals_stay_readable(journal);
    let joined = joined(alloc, accepted)?;
    if !journal.plan().same(accepted.plan()) {
        return Err(StoreFault::OtherPlan);
    }
    journal.add_all(&joined)?;
    Ok(joined.len() as u64)
}
