ghost use Rattle.std.specs.Prelude.{◌≡◌, Ok, is_some, option_map, length, IfOk, IfErr, IfSome};
ghost use Rattle.cut_disks.specs.Log.{IsKnown, on};
ghost use Rattle.cut_journal.specs.Reading.{reading};
ghost use Rattle.cut_pool.specs.Running.{slips_of};
ghost use Rattle.cut_commands.specs.Study.{BeginsWith};
ghost use Rattle.cut_commands.specs.inside.Study.{IsNotOpened, IsOpenedOver, IsReady};

use crate::CliFault;
use cut_disks::Disk;
use cut_journal::Journal;
use cut_ledger::Slip;
use cut_plan::Plan;
use std::alloc::Global;

/// The journal of a study on a disk, if there is one, with the slips that are kept in it. If it is not opened the disk
/// comes back.
pub(crate) fn open_checkpoint<D: Disk + Drop>(
    alloc: Global,
    disk: Option<D>,
    plan: &Plan,
) -> Result<Option<(Journal<D>, Vec<Slip>)>, (CliFault, Option<D>)>
    ensures begins { IfOk result (λ kept. BeginsWith (option_map D.log disk) plan.now (slips_of kept)) }
    ensures opened { IfOk result (λ kept. IsOpenedOver D.log plan.now disk kept) }
    ensures some { IfOk result (λ kept. is_some kept ≡ is_some (option_map D.log disk)) }
    ensures ready { IfOk result (λ kept. IfSome kept (λ k. IsReady plan.now k.0)) }
    ensures count { IfOk result (λ kept. IfSome kept (λ k. k.0.count ≡ length k.1.items)) }
    ensures read { IfOk result (λ kept. IfSome kept (λ k. IsKnown (D.log k.0.disk) →
        reading plan.now (on (D.log k.0.disk)).bytes ≡ Ok k.1.items)) }
    ensures err { IfErr result (λ e.
        IsNotOpened (option_map D.log disk) (option_map D.log e.1) plan.now e.0) }
    ensures back { IfErr result (λ e. is_some e.1 ≡ is_some disk) }
{
    let Some(disk) = disk else {
        return Ok(None);
    };
    match Journal::open(alloc, disk, plan) {
        Ok((journal, slips)) => Ok(Some((journal, slips))),
        Err((fault, disk)) => Err((CliFault::from(fault), Some(disk))),
    }
}
