ghost use Rattle.std.specs.Prelude.{◌≡◌, ◌+◌, ◌<◌, ◌^◌, length, IfOk, IfErr, IfSome};
ghost use Rattle.cut_plan.specs.Failing.{version_of};
ghost use Rattle.cut_disks.specs.Log.{Goes, Knows, Shows};
ghost use Rattle.cut_journal.specs.File.{slip_length};
ghost use Rattle.cut_journal.specs.Journal.{disk_faults};
ghost use Rattle.cut_journal.specs.inside.Steps.{AreRead, IsOfPlan, IsNext, IsSlipFault};
ghost use Rattle.cut_journal.specs.inside.Places.{gate_place};

use crate::JournalFault;
use crate::first_look::read_gate;
use crate::format::{FileHeader, Gate};
use cut_disks::Disk;
use cut_ledger::Slip;
use std::alloc::Global;

/// The slips of a study, and the gate after them.
#[derive(Drop)]
pub(crate) struct Slips {
    /// The slips.
    pub slips: Vec<Slip>,
    /// The gate after the last of them.
    pub gate: Gate,
}

/// A file that begins as that of a study does, by the study and its length.
#[derive(Clone, Copy)]
pub(crate) struct BegunFile<'a> {
    /// The study.
    pub study: &'a FileHeader,
    /// The length of the file in bytes.
    pub size: u64,
    ghost within: { gate_place study.now 0 < size },
    ghost bound: { size < 2 ^ 63 },
}

/// Reads the slips of a study from its file, up to the first closed gate.
pub(crate) fn read_slips<D: Disk>(
    alloc: Global,
    disk: &mut D,
    file: BegunFile<'_>,
) -> Result<Slips, JournalFault>
    requires { Knows (D.log disk.old) (λ d. (file.size ≡ length d.bytes) × IsOfPlan file.study.now d.bytes) }
    ensures reads { Goes (disk_faults result) (Shows (AreRead result file.entry.study.now)) (D.log disk.old)
        (D.log disk.new) }
    ensures only_faults { IfErr result IsSlipFault }
    ensures number { IfOk result (λ found. found.gate.number ≡ length found.slips.items) }
    ensures place { IfOk result (λ found. found.gate.place ≡ gate_place file.entry.study.now found.gate.number) }
    ensures bound { IfOk result (λ found. found.gate.place < 2 ^ 63) }
{
    let study = file.study;
    let mut slips = Vec::new(alloc);
    let mut gate = study.first_gate();
    while let Some(slip) = next_slip(disk, file, gate)? {
        match slips.push(slip) {
            Ok(()) => {}
            Err(_) => return Err(JournalFault::Memory),
        }
        gate = Gate {
            number: gate.number + 1,
            place: gate.place + study.slip_length(),
        };
    }
    Ok(Slips { slips, gate })
}

/// Reads the slip after a gate, if that is open.
fn next_slip<D: Disk>(
    disk: &mut D,
    file: BegunFile<'_>,
    gate: Gate,
) -> Result<Option<Slip>, JournalFault>
    requires place { gate.place ≡ gate_place file.study.now gate.number }
    requires within { gate.place < file.size }
    requires size { Knows (D.log disk.old) (λ d. file.size ≡ length d.bytes) }
    ensures reads { Goes (disk_faults result) (Shows (IsNext result file.entry.study.now gate.number))
        (D.log disk.old) (D.log disk.new) }
    ensures only_faults { IfErr result IsSlipFault }
    ensures reach { IfOk result (λ slip. IfSome slip
        (λ s. gate.place + slip_length (version_of file.entry.study.now.failing) < file.entry.size)) }
{
    let BegunFile { study, size } = file;
    match read_gate(disk, gate.place) {
        Ok(true) => {}
        Ok(false) => return Ok(None),
        Err(_) => return Err(JournalFault::Disk),
    }
    let length = study.slip_length();
    if size - gate.place <= length {
        return Err(JournalFault::Damaged(gate.number + 1));
    }
    let mut buffer = [0; 112];
    let body = &mut buffer[..length as usize - 1];
    match disk.read(gate.place + 1, body) {
        Ok(()) => {}
        Err(_) => return Err(JournalFault::Disk),
    }
    match study.slip_in(body) {
        Some(slip) => Ok(Some(slip)),
        None => Err(JournalFault::Damaged(gate.number + 1)),
    }
}
