//! What a run answers, once its table was written, or could not be, and its hall was closed.
ghost use Rattle.std.specs.List.{list_all};
ghost use Rattle.std.specs.Prelude.{◌≡◌, IfErr, IfSome};
ghost use Rattle.cut_pool.specs.inside.Conclusion.{CanLose, Concludes, IsNotEnded, conclusion};
ghost use Rattle.cut_pool.specs.inside.Faults.{closed_as, of_closing, of_line};
ghost use Rattle.cut_pool.specs.inside.Leaving.{IsDiskOf};

use crate::RunFault;
use crate::emit::EmitFault;
use crate::study_run::{Done, EndedRun};
use cut_disks::Disk;
use cut_hall::{ClosedStudy, NextRowFault, NotClosed, Report};
use cut_journal::Journal;
use cut_wires::RowsFault;

/// How a run ended, by how the writing of its table ended and how its hall was closed. A write that failed is reported
/// before anything else. If all was written, the report is looked at once more: every trial has to be held.
pub(crate) fn conclude_run<D: Disk>(
    sent: Result<u64, EmitFault>,
    closed: ClosedStudy<D>,
) -> EndedRun<D>
    ensures concludes { Concludes sent (closed_as closed.report) closed.is_broken result.ended }
    ensures disk { IsDiskOf D.log closed.journal result.disk }
{
    let ClosedStudy {
        report,
        is_broken,
        journal,
    } = closed;
    EndedRun {
        ended: conclusion(sent, closed_as(report), is_broken),
        disk: disk_of(journal),
    }
}

/// The report of a hall that was closed, or why a run ends whose hall was not.
fn closed_as(report: Result<Report, NotClosed<()>>) -> Result<Report, RunFault>
    ensures value { result ≡ closed_as report }
    ensures why { IfErr result IsNotEnded }
{
    match report {
        Ok(report) => Ok(report),
        Err(not_closed) => Err(fault_of_closing(not_closed)),
    }
}

/// What a run answers, by how the writing of its table ended, how its hall was closed, and whether an append failed.
fn conclusion(
    sent: Result<u64, EmitFault>,
    closed: Result<Report, RunFault>,
    is_broken: bool,
) -> Result<Done, RunFault>
    requires { IfErr closed IsNotEnded }
    ensures answer { result ≡ conclusion sent closed is_broken }
    ensures concludes { Concludes sent closed is_broken result }
{
    match sent {
        Ok(sent) => match closed {
            Ok(report) if is_complete(&report) => Ok(Done { sent, report }),
            Ok(_incomplete) => Err(RunFault::AuditMismatch),
            Err(fault) => Err(fault),
        },
        Err(RowsFault::Write(fault)) => Err(RunFault::Write(fault)),
        Err(RowsFault::Row(fault)) => Err(fault_of_line(fault, closed.err(), is_broken)),
    }
}

/// Whether every trial was held at the end of each slot.
fn is_complete(report: &Report) -> bool
    ensures { result ≡ list_all (λ slot. slot.complete) report.now }
{
    report.as_slice().iter().all(|slot| slot.complete())
}

/// What a run answers if a line did not come. Where calls can be counted no further, that is a mismatch of the audit,
/// unless the hall could not be closed either. No checkpoint fails of a study that is not broken: a slot that says so has
/// not the study's book.
fn fault_of_line(fault: NextRowFault, not_closed: Option<RunFault>, is_broken: bool) -> RunFault
    requires { IfSome not_closed IsNotEnded }
    ensures value { result ≡ of_line fault not_closed is_broken }
    ensures can { CanLose result is_broken }
{
    match fault {
        NextRowFault::WorkMemory => RunFault::WorkMemory,
        NextRowFault::Checkpoint if is_broken => RunFault::Checkpoint,
        NextRowFault::Stopped => not_closed.unwrap_or(RunFault::AuditMismatch),
        _ => RunFault::AuditMismatch,
    }
}

/// Why a run ended whose hall was not closed.
fn fault_of_closing<T: Drop>(not_closed: NotClosed<T>) -> RunFault
    ensures value { result ≡ of_closing not_closed }
    ensures why { IsNotEnded result }
{
    match not_closed {
        NotClosed::AuditMismatch(_mismatch) => RunFault::AuditMismatch,
        NotClosed::Memory => RunFault::WorkMemory,
        NotClosed::SeatMissing(_back) => RunFault::WorkMemory,
    }
}

/// The disk of a journal, if there is one.
pub(crate) fn disk_of<D: Disk>(journal: Option<Journal<D>>) -> Option<D>
    ensures { IsDiskOf D.log journal result }
{
    match journal {
        Some(journal) => Some(journal.into_disk()),
        None => None,
    }
}
