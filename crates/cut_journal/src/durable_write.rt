ghost use Rattle.std.specs.Prelude.{◌+◌, ◌<◌, ◌≤◌, ◌^◌, length, OnOk};
ghost use Rattle.cut_faults.specs.Failures.{counted};
ghost use Rattle.cut_disks.specs.Log.{Goes, Knows};
ghost use Rattle.cut_journal.specs.inside.Steps.{WritesThrough};

use cut_disks::{Disk, DiskFault, laws};

/// Writes bytes at a place and makes them durable.
pub(crate) fn write_through<D: Disk>(disk: &mut D, at: u64, put: &[u8]) -> Result<(), DiskFault>
    requires { Knows (D.log disk.old) (λ d. at ≤ length d.bytes) }
    ensures writes { Goes (counted result) (WritesThrough result at put.now) (D.log disk.old) (D.log disk.new) }
    ensures bound { OnOk result (at + length put.now < 2 ^ 63) }
{
    laws::writes_stay_in_their_span();
    disk.write_at(at, put)?;
    disk.sync()
}
