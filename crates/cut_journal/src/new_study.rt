ghost use Rattle.std.specs.Prelude.{◌≡◌, IfErr};
ghost use Rattle.cut_faults.specs.Failures.{counted};
ghost use Rattle.cut_disks.specs.Log.{Goes, Knows};
ghost use Rattle.cut_journal.specs.inside.File.{rest_of};
ghost use Rattle.cut_journal.specs.Journal.{disk_faults};
ghost use Rattle.cut_journal.specs.Opening.{MayNotMake};
ghost use Rattle.cut_journal.specs.inside.Steps.{Makes, IsFree, IsClosed, HasBegun, WritesNew, Closes, WritesRest};

use crate::JournalFault;
use crate::durable_write::write_through;
use crate::first_look::look_first;
use crate::format::{CLOSED_GATE, FileHeader, OPEN_GATE};
use cut_disks::{Disk, DiskFault, laws};
use std::alloc::Global;

/// Makes a disk hold a study without slips, unless it holds a study already.
pub(crate) fn make_study<D: Disk>(
    alloc: Global,
    disk: &mut D,
    study: &FileHeader,
) -> Result<(), JournalFault>
    ensures makes { Goes (disk_faults result) (Makes result study.now) (D.log disk.old) (D.log disk.new) }
    ensures may { IfErr result MayNotMake }
{
    let rest = match study.rest(alloc) {
        Ok(rest) => rest,
        Err(_) => return Err(JournalFault::Memory),
    };
    let shown = match look_first(disk) {
        Ok(shown) => shown,
        Err(_) => return Err(JournalFault::Disk),
    };
    if shown.is_study {
        return Err(JournalFault::Held);
    }
    let file = NewFile {
        study,
        rest: rest.as_slice(),
    };
    match write_new(disk, file, shown.length) {
        Ok(()) => Ok(()),
        Err(_) => Err(JournalFault::Disk),
    }
}

/// The file of a study without slips: what it begins with, and the bytes after its first one.
#[derive(Clone, Copy)]
struct NewFile<'a> {
    study: &'a FileHeader,
    rest: &'a [u8],
    ghost whole: { rest.now ≡ rest_of study.now },
}

/// Writes a study without slips to a disk that holds none, gate by gate.
fn write_new<D: Disk>(disk: &mut D, file: NewFile<'_>, size: u64) -> Result<(), DiskFault>
    requires { Knows (D.log disk.old) (IsFree size) }
    ensures writes { Goes (counted result) (WritesNew result file.entry.study.now) (D.log disk.old) (D.log disk.new) }
{
    close_study_gate(disk, size)?;
    write_rest(disk, file)?;
    open_study_gate(disk, file.study)
}

/// Makes the gate of the study a closed one, if there is no byte for it, or it is all that there is.
///
/// A longer file has a closed one already, and a write there could open it.
fn close_study_gate<D: Disk>(disk: &mut D, size: u64) -> Result<(), DiskFault>
    requires { Knows (D.log disk.old) (IsFree size) }
    ensures closes { Goes (counted result) (Closes result) (D.log disk.old) (D.log disk.new) }
{
    if size > 1 {
        return Ok(());
    }
    laws::writes_stay_in_their_span();
    write_through(disk, 0, &[CLOSED_GATE])
}

/// Writes what follows the gate of the study, up to the gate of its first slip.
fn write_rest<D: Disk>(disk: &mut D, file: NewFile<'_>) -> Result<(), DiskFault>
    requires { Knows (D.log disk.old) IsClosed }
    ensures writes { Goes (counted result) (WritesRest result file.entry.study.now) (D.log disk.old) (D.log disk.new) }
{
    laws::writes_stay_in_their_span();
    write_through(disk, 1, file.rest)
}

/// Opens the gate of a study without slips, by a write of its own.
fn open_study_gate<D: Disk>(disk: &mut D, study: &FileHeader) -> Result<(), DiskFault>
    requires { Knows (D.log disk.old) (HasBegun study.now) }
    ensures opens { Goes (counted result) (WritesNew result study.now) (D.log disk.old) (D.log disk.new) }
{
    study.is_short();
    laws::writes_stay_in_their_span();
    write_through(disk, 0, &[OPEN_GATE])
}
