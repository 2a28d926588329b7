ghost use Rattle.std.specs.Prelude.{◌≡◌, ◌<◌, ◌≤◌, true, length, IfOk, IfErr, OnOk};
ghost use Rattle.cut_ledger.specs.declared.lines.line.TheConstants.{LONGEST_LINE};
ghost use Rattle.cut_plan.specs.Cells.{cells_of};
ghost use Rattle.cut_ledger.specs.Contents.{cell_done};
ghost use Rattle.cut_table.specs.Table.{row_of, Emits, IsRowFault};
ghost use Rattle.cut_table.specs.inside.Table.{table_result_of};

use crate::{RowFault, TableFault};
use cut_ledger::Ledger;
use cut_ledger::lines::{cell_line, header};
use cut_wires::{CountingWriter, PlainRows, RowSource, RowsFault, Wire, send_rows};
use std::alloc::Global;

/// The line of a cell, whose trials are all held, with a line feed. It has at most 294 bytes. That memory ran out is
/// reported only if they are all held.
pub fn row(alloc: Global, ledger: &Ledger, cell: u32) -> Result<Vec<u8>, RowFault>
    requires { cell < length (cells_of ledger.now.contents.plan) }
    ensures ok { IfOk result (λ line. line.items ≡ row_of ledger.now.contents cell) }
    ensures done { OnOk result (cell_done ledger.now.contents cell ≡ true) }
    ensures short { IfOk result (λ line. length line.items ≤ LONGEST_LINE) }
    ensures err { IfErr result (λ e. IsRowFault ledger.now.contents cell e) }
{
    if !ledger.cell_done(cell) {
        return Err(RowFault::NotDone(cell));
    }
    let line = cell_line(alloc, ledger.plan(), cell, ledger.cell_sum(cell))?;
    Ok(line)
}

/// The lines of a ledger's cells.
#[derive(Drop)]
struct LedgerRows<'a> {
    alloc: Global,
    ledger: &'a Ledger,
}

impl RowSource for LedgerRows<'_> {
    ghost use Rattle.std.proofs.Common.{arith};
    ghost use Rattle.cut_table.specs.inside.Table.{AreGiven, IsWithheld, none_given, table_of};

    type Fault = RowFault;

    ghost table = { λ rows. table_of rows.ledger.now.contents };

    ghost HasGiven = { λ first n rows. AreGiven first.ledger.now.contents n rows.ledger.now.contents };

    ghost HasFailed = { λ first n fault rows.
        IsWithheld first.ledger.now.contents n fault rows.ledger.now.contents };

    fn header(&self) -> &[u8] {
        header(self.ledger.plan())
    }

    fn count(&self) -> u32 {
        self.ledger.plan().cells()
    }

    fn row(&mut self, place: u32) -> Result<Vec<u8>, RowFault> {
        row(self.alloc, self.ledger, place)
    }

    ghost begins = { λ rows. none_given rows.ledger.now.contents };

    ghost fits = { λ _. Prim.omega arith };
}

/// Writes the header, and the lines of the cells in order, up to the first cell that is not done. If a write failed, or
/// memory ran out, fewer bytes were sent than there are.
pub fn emit_table<W: Wire>(alloc: Global, ledger: &Ledger, wire: &mut W) -> Result<(), TableFault>
    ensures { Emits ledger.now.contents result (W.log wire.old) (W.log wire.new) }
{
    let mut writer = CountingWriter::new(wire);
    let mut rows = LedgerRows { alloc, ledger };
    let result = send_rows::<PlainRows, LedgerRows<'_>, W>(&mut rows, &mut writer);
    table_result_of(result, writer.sent())
}

/// The result of writing a table, by the result of sending its rows and the number of bytes sent.
fn table_result_of(outcome: Result<(), RowsFault<RowFault>>, sent: u64) -> Result<(), TableFault>
    ensures { result ≡ table_result_of outcome sent }
{
    match outcome {
        Ok(()) => Ok(()),
        Err(RowsFault::Write(fault)) => Err(TableFault::Write(fault)),
        Err(RowsFault::Row(RowFault::NotDone(cell))) => Err(TableFault::NotDone(cell)),
        Err(RowsFault::Row(RowFault::Memory)) => Err(TableFault::Memory(sent)),
    }
}
