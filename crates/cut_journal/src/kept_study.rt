ghost use Rattle.std.specs.Prelude.{◌≡◌, ◌≤◌, ◌<◌, ◌^◌, length, slice_range, IfOk, IfErr};
ghost use Rattle.cut_disks.specs.Log.{Goes, Knows, Shows};
ghost use Rattle.cut_journal.specs.Journal.{disk_faults};
ghost use Rattle.cut_journal.specs.Opening.{IsOpeningFaultOf};
ghost use Rattle.cut_journal.specs.inside.Opening.{IsReadFault};
ghost use Rattle.cut_journal.specs.inside.Steps.{Finds, head_in};
ghost use Rattle.cut_journal.specs.inside.Places.{gate_place};

use crate::JournalFault;
use crate::first_bytes::check_head;
use crate::first_look::look_first;
use crate::format::FileHeader;
use crate::slips::{BegunFile, Slips, read_slips};
use cut_disks::Disk;
use cut_plan::LONGEST_TEXT;
use std::alloc::Global;

/// The most bytes that the file of a study has up to the gate of its first slip, and this gate.
const LONGEST_HEAD: usize = LONGEST_TEXT + 46;

/// The slips of a study that a disk holds, and why there are none.
pub(crate) fn find_study<D: Disk>(
    alloc: Global,
    disk: &mut D,
    study: &FileHeader,
) -> Result<Slips, JournalFault>
    ensures finds { Goes (disk_faults result) (Finds result study.now) (D.log disk.old) (D.log disk.new) }
    ensures may { IfErr result IsOpeningFaultOf }
    ensures number { IfOk result (λ found. found.gate.number ≡ length found.slips.items) }
    ensures place { IfOk result (λ found. found.gate.place ≡ gate_place study.now found.gate.number) }
    ensures bound { IfOk result (λ found. found.gate.place < 2 ^ 63) }
{
    study.is_short();
    let shown = match look_first(disk) {
        Ok(shown) => shown,
        Err(_) => return Err(JournalFault::Disk),
    };
    if !shown.is_study {
        return Err(JournalFault::NoStudy);
    }
    let head = match read_head(alloc, disk, shown.length) {
        Ok(head) => head,
        Err(fault) => return Err(fault),
    };
    match check_head(study, head.as_slice()) {
        Ok(()) => {
            let file = BegunFile {
                study,
                size: shown.length,
            };
            read_slips(alloc, disk, file)
        }
        Err(fault) => Err(fault),
    }
}

/// Reads the first bytes of a disk of this length at once: as many as the head of a study's file may have.
fn read_head<D: Disk>(alloc: Global, disk: &mut D, size: u64) -> Result<Vec<u8>, JournalFault>
    requires { Knows (D.log disk.old) (λ d. size ≡ length d.bytes) }
    ensures reads { Goes (disk_faults result)
        (Shows (λ bytes. IfOk result (λ head. head.items ≡ head_in bytes)))
        (D.log disk.old) (D.log disk.new) }
    ensures within { IfOk result (λ head. length head.items ≤ size) }
    ensures fault { IfErr result IsReadFault }
{
    let count = size.min(LONGEST_HEAD as u64) as usize;
    read_prefix(alloc, disk, count)
}

/// Reads the first `count` bytes of a disk.
fn read_prefix<D: Disk>(alloc: Global, disk: &mut D, count: usize) -> Result<Vec<u8>, JournalFault>
    requires { Knows (D.log disk.old) (λ d. count ≤ length d.bytes) }
    ensures reads { Goes (disk_faults result)
        (Shows (λ bytes. IfOk result (λ prefix. prefix.items ≡ slice_range bytes 0 count)))
        (D.log disk.old) (D.log disk.new) }
    ensures long { IfOk result (λ prefix. length prefix.items ≡ count) }
    ensures fault { IfErr result IsReadFault }
{
    let mut prefix = match vec![in alloc; 0; count] {
        Ok(prefix) => prefix,
        Err(_) => return Err(JournalFault::Memory),
    };
    match disk.read(0, &mut prefix) {
        Ok(()) => Ok(prefix),
        Err(_) => Err(JournalFault::Disk),
    }
}
