ghost use Rattle.std.specs.Prelude.{◌<◌, ◌^◌, length, IfOk};
ghost use Rattle.cut_faults.specs.Failures.{counted};
ghost use Rattle.cut_disks.specs.Log.{Goes, Knows, Shows};
ghost use Rattle.cut_journal.specs.inside.Steps.{Looks, IsGate};

use crate::format::OPEN_GATE;
use cut_disks::{Disk, DiskFault};

/// What a first look at a disk shows.
#[derive(Clone, Copy)]
pub(crate) struct Shown {
    /// How many bytes there are.
    pub length: u64,
    /// Whether there is a study of some plan.
    pub is_study: bool,
}

/// Syncs the disk, and checks whether it holds a study.
pub(crate) fn look_first<D: Disk>(disk: &mut D) -> Result<Shown, DiskFault>
    ensures looks { Goes (counted result) (Looks result) (D.log disk.old) (D.log disk.new) }
    ensures bound { IfOk result (λ shown. shown.length < 2 ^ 63) }
{
    disk.sync()?;
    let length = disk.length()?;
    if length <= 1 {
        return Ok(Shown {
            length,
            is_study: false,
        });
    }
    let is_study = read_gate(disk, 0)?;
    Ok(Shown { length, is_study })
}

/// Whether the gate at a place is open.
pub(crate) fn read_gate<D: Disk>(disk: &mut D, place: u64) -> Result<bool, DiskFault>
    requires { Knows (D.log disk.old) (λ d. place < length d.bytes) }
    ensures reads { Goes (counted result) (Shows (IsGate result place)) (D.log disk.old) (D.log disk.new) }
{
    let mut gate = [0];
    disk.read(place, &mut gate)?;
    Ok(gate[0] == OPEN_GATE)
}
