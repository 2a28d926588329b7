ghost use Rattle.std.specs.Prelude.{◌≡◌, length, IfOk};
ghost use Rattle.std.specs.List.{prefix_len, range_with_len};
ghost use Rattle.cut_plan.specs.Cells.{cells_of};
ghost use Rattle.cut_ledger.specs.Contents.{cell_done};
ghost use Rattle.cut_ledger.specs.Machine.{available};

use crate::Ledger;
use crate::lines::{cell_line, header};
use std::alloc::{AllocError, Global};

/// The part of a study's table that can be written: the header, and the lines of the first cells that are
/// done.
pub(crate) fn available(alloc: Global, ledger: &Ledger) -> Result<Vec<u8>, AllocError>
    ensures { IfOk result (λ text. text.items ≡ available ledger.now.contents) }
{
    let mut text = Vec::from_slice(alloc, header(ledger.plan()))?;
    for cell in 0..cells_done(ledger) {
        let line = cell_line(alloc, ledger.plan(), cell, ledger.cell_sum(cell))?;
        text.extend_from_slice(line.as_slice())?;
    }
    Ok(text)
}

/// How many of the first cells are done, up to one that is not.
fn cells_done(ledger: &Ledger) -> u32
    ensures { result ≡ prefix_len (cell_done ledger.now.contents)
        (range_with_len 0 (length (cells_of ledger.now.contents.plan))) }
{
    let cells = ledger.plan().cells();
    for cell in 0..cells {
        if !ledger.cell_done(cell) {
            return cell;
        }
    }
    cells
}
