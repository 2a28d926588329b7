ghost use Rattle.std.specs.Prelude.{◌≡◌, ◌+◌, ◌<◌, ◌^◌, None, OnOk};
ghost use Rattle.cut_faults.specs.Failures.{counted};
ghost use Rattle.cut_disks.specs.Log.{Goes, Knows};
ghost use Rattle.cut_journal.specs.File.{HoldsAllTotals, slip_length};
ghost use Rattle.cut_journal.specs.Journal.{IsFileOf};
ghost use Rattle.cut_plan.specs.Failing.{version_of};
ghost use Rattle.cut_journal.specs.inside.Steps.{KeepsSlip};
ghost use Rattle.cut_journal.specs.inside.Places.{gate_place};

use crate::durable_write::write_through;
use crate::format::{FileHeader, Gate, OPEN_GATE};
use cut_disks::{Disk, DiskFault, laws};
use cut_ledger::Slip;

/// A slip that is to be kept, and the gate of the study that it is written after.
#[derive(Clone, Copy)]
pub(crate) struct NextSlip<'a> {
    /// The study.
    pub study: &'a FileHeader,
    /// The gate, which stands after all slips that are kept.
    pub gate: Gate,
    /// The slip.
    pub slip: Slip,
    ghost place: { gate.place ≡ gate_place study.now gate.number },
    ghost bound: { gate.place < 2 ^ 63 },
}

/// Keeps a slip: writes it after its gate, which is closed, and then opens the gate.
pub(crate) fn keep_slip<D: Disk>(disk: &mut D, next: NextSlip<'_>) -> Result<(), DiskFault>
    requires reports { HoldsAllTotals (version_of next.study.now.failing) next.slip.totals }
    requires sound { Knows (D.log disk.old) (IsFileOf next.study.now next.gate.number None) }
    ensures keeps { Goes (counted result) (KeepsSlip result next.entry.study.now next.entry.gate.number next.entry.slip)
        (D.log disk.old) (D.log disk.new) }
    ensures bound { OnOk result
        (next.entry.gate.place + slip_length (version_of next.entry.study.now.failing) < 2 ^ 63) }
{
    laws::writes_stay_in_their_span();
    let NextSlip { study, gate, slip } = next;
    let bytes = study.slip_bytes(slip);
    let put = &bytes[..study.slip_length() as usize];
    write_through(disk, gate.place + 1, put)?;
    write_through(disk, gate.place, &[OPEN_GATE])
}
