ghost use Rattle.std.specs.Prelude.{◌≡◌, ◌<◌, ◌≤◌, length, IfOk};
ghost use Rattle.cut_ledger.specs.declared.lines.line.TheConstants.{LONGEST_LINE};
ghost use Rattle.cut_plan.specs.Cells.{cells_of};
ghost use Rattle.cut_slots.specs.Lines.{full_line};
ghost use Rattle.cut_slots.specs.Trust.{MayBegin};
ghost use Rattle.cut_wires.specs.Sending.{sending};
ghost use Rattle.cut_session.specs.Answering.{IsSubmissionAnswered};
ghost use Rattle.cut_session.specs.inside.Rows.{EndsTable};
ghost use Rattle.cut_session.specs.inside.Serving.{Replies, longest_reply};

use crate::fault_reply::send_fault;
use cut_book::Opened;
use cut_disks::Disk;
use cut_hall::{CallLedger, Hall, NextRowFault, Pass};
use cut_ledger::lines::header;
use cut_messages::{FramedRows, Kind, send_message};
use cut_plan::laws;
use cut_wires::{CountingWriter, RowSource, RowsFault, Sent, Wire, send_rows};
use std::alloc::Global;
use std::sync::Wait;

/// The lines of an opened study, each once it is there.
#[derive(Drop)]
pub(crate) struct OpenedRows<'a, D: Disk, M: CallLedger, K: CallLedger, R> {
    pub(crate) rt: &'a R,
    pub(crate) alloc: Global,
    pub(crate) hall: &'a Hall<D, M, K>,
    pub(crate) pass: &'a mut Pass<M>,
    pub(crate) opened: &'a Opened,
    ghost own: { pass.now.hall ≡ hall.now.id },
    ghost slot: { opened.now.study < hall.now.slots },
}

impl<D, M, K, R> OpenedRows<'_, D, M, K, R>
where
    D: Disk + Drop,
    M: CallLedger,
    K: CallLedger,
    R: Wait,
{
    /// The line of a cell: once more if it was given before, and else as soon as it is there.
    fn line_of(&mut self, cell: u32) -> Result<Vec<u8>, NextRowFault>
        requires { cell < length (cells_of self.old.opened.now.plan) }
        ensures line { IfOk result
            (λ line. line.items ≡ full_line self.old.opened.now.plan self.old.opened.now.base cell) }
        ensures short { IfOk result (λ line. length line.items ≤ LONGEST_LINE) }
        ensures stays { (self.new.pass.ghost_name ≡ self.old.pass.ghost_name)
            × (self.new.pass.now.hall ≡ self.old.pass.now.hall)
            × (self.new.pass.now.view ≡ self.old.pass.now.view) }
        ensures opened { self.new.opened.now ≡ self.old.opened.now }
    {
        let (hall, opened) = (self.hall, self.opened);
        if let Some(line) = hall.given_row(self.rt, self.alloc, opened, cell)? {
            return Ok(line);
        }
        hall.next_row(self.rt, self.alloc, self.pass, opened, cell)
    }
}

impl<D, M, K, R> RowSource for OpenedRows<'_, D, M, K, R>
where
    D: Disk + Drop,
    M: CallLedger,
    K: CallLedger,
    R: Wait,
{
    ghost use Rattle.std.proofs.Common.{arith};
    ghost use Rattle.cut_session.specs.inside.Rows.{IsKept, is_kept, lines_of};

    type Fault = NextRowFault;

    ghost table = { λ rows. lines_of rows.opened.now.plan rows.opened.now.base };

    ghost HasGiven = { λ first n rows.
        IsKept first.pass.ghost_name first.pass.now rows.pass.ghost_name rows.pass.now };

    ghost HasFailed = { λ first n fault rows.
        IsKept first.pass.ghost_name first.pass.now rows.pass.ghost_name rows.pass.now };

    fn header(&self) -> &[u8] {
        header(&self.opened.plan)
    }

    fn count(&self) -> u32 {
        self.opened.plan.cells()
    }

    fn row(&mut self, place: u32) -> Result<Vec<u8>, NextRowFault> {
        self.line_of(place)
    }

    ghost begins = { λ rows. is_kept rows.pass.ghost_name rows.pass.now };

    ghost fits = { λ _. Prim.omega arith };
}

/// Sends the table of an opened study, up to a line that doesn't come.
pub(crate) fn send_table<D, M, K, W, R>(
    rows: &mut OpenedRows<'_, D, M, K, R>,
    writer: &mut CountingWriter<'_, W>,
) -> Result<(), Sent>
where
    D: Disk + Drop,
    M: CallLedger,
    K: CallLedger,
    W: Wire,
    R: Wait,
    requires { MayBegin rows.old.hall.now.is_trusted rows.old.opened.now.plan rows.old.opened.now.base }
    ensures replies { Replies (IsSubmissionAnswered rows.old.hall.now.is_trusted rows.old.opened.now.plan) longest_reply
        result (sending W.log writer.old) (sending W.log writer.new) }
    ensures stays { (rows.new.pass.ghost_name ≡ rows.old.pass.ghost_name)
        × (rows.new.pass.now.hall ≡ rows.old.pass.now.hall)
        × (rows.new.pass.now.view ≡ rows.old.pass.now.view) }
{
    laws::plans_are_accepted(&rows.opened.plan);
    let sent = send_rows::<FramedRows, OpenedRows<'_, D, M, K, R>, W>(rows, writer);
    end_table(writer, sent)
}

/// Sends what comes after the rows of a table that were sent: that it is whole, or why it is not.
fn end_table<W: Wire>(
    writer: &mut CountingWriter<'_, W>,
    sent: Result<(), RowsFault<NextRowFault>>,
) -> Result<(), Sent>
    ensures { EndsTable sent result (sending W.log writer.old) (sending W.log writer.new) }
{
    match sent {
        Ok(()) => send_message(writer, Kind::Done, &[]),
        Err(RowsFault::Write(fault)) => Err(fault),
        Err(RowsFault::Row(fault)) => send_fault(writer, fault.code()),
    }
}
