//! Tables that were worked by hand, and their writing over wires that fail.

mod many;

use crate::studies::{PLAN, SETTLED, SMALLER, begun, fresh, piece_of, result_of, slip};
use cut_ledger::Ledger;
use cut_table::{RowFault, TableFault, emit_table, row};
use cut_wires::{FaultyWire, MemoryWire, Sent, Wire};
use std::alloc::Global;
use std::test::Fail;

/// The table of the plan.
const TABLE: &[u8] =
    b"k,h,l,f,trials,receivers,conflicts,silent,extra,votes,decided,right,ppm\n1,1,1,1,2,8,0,0,0,8,2,2,0\n";

/// That of version 2: each of the eight receivers proposes after one delivery.
const SETTLED_TABLE: &[u8] =
    b"k,h,l,f,trials,receivers,conflicts,silent,extra,votes,decided,right,settled,ppm\n1,1,1,1,2,8,0,0,0,8,2,2,8,0\n";

/// How many bytes a header has.
const HEADER_LENGTH: usize = 72;

/// A ledger of a plan that holds both its trials.
fn complete(alloc: Global, json: &str) -> Result<Ledger, Fail> {
    let mut ledger = fresh(alloc, json)?;
    let result = result_of(alloc, ledger.plan(), piece_of("0 2"))?;
    ledger.offer(&result)?;
    Ok(ledger)
}

/// Whether a ledger has no line of its first cell, and its table only a header.
fn has_no_line(alloc: Global, ledger: &Ledger) -> bool {
    let mut wire = MemoryWire::new(alloc, Vec::new(alloc), 1000);
    let end = emit_table(alloc, ledger, &mut wire);
    let is_stopped = matches!(end, Err(TableFault::NotDone(0)));
    let has_no_row = ledger.plan().cells() > 0
        && matches!(row(alloc, ledger, 0), Err(RowFault::NotDone(0)));
    is_stopped && has_no_row && wire.taken() == &TABLE[..HEADER_LENGTH]
}

/// Whether the line of a ledger's first cell is the end of a table.
fn is_line(alloc: Global, ledger: &Ledger, table: &[u8]) -> Result<bool, RowFault> {
    if ledger.plan().cells() == 0 {
        return Ok(false);
    }
    let line = row(alloc, ledger, 0)?;
    Ok(table.ends_with(line.as_slice()))
}

/// Whether this is a ledger's table, and its last line that of the one cell.
fn is_table(alloc: Global, ledger: &Ledger, table: &[u8]) -> Result<bool, Fail> {
    let mut wire = MemoryWire::new(alloc, Vec::new(alloc), 7);
    emit_table(alloc, ledger, &mut wire)?;
    Ok(wire.taken() == table && is_line(alloc, ledger, table)?)
}

#[test]
fn a_table_is_its_header_and_its_rows(rt: HostRuntime) -> Result<(), Fail> {
    assert!(rt; has_no_line(rt.alloc(), &fresh(rt.alloc(), PLAN)?));
    assert!(rt; is_table(rt.alloc(), &complete(rt.alloc(), PLAN)?, TABLE)?);
    assert!(rt; is_table(rt.alloc(), &complete(rt.alloc(), SETTLED)?, SETTLED_TABLE)?);
    Ok(())
}

// A slip that is possible and false.
#[test]
fn a_row_says_what_slips_say(rt: HostRuntime) -> Result<(), Fail> {
    let ledger = begun(rt.alloc(), SMALLER, slip("0 2: 6 1 0 0 5 1 1 0"))?;
    assert!(rt; is_line(rt.alloc(), &ledger, b"1,1,1,1,2,6,1,0,0,5,1,1,166666\n")?);
    Ok(())
}

/// Whether the writes of a ledger's table take these first bytes, and the next one fails, if it is to.
fn ends_with(alloc: Global, ledger: &Ledger, taken: &[u8], fails: bool) -> bool {
    let mut wire = FaultyWire::new(alloc, Vec::new(alloc), 7, taken.len(), 0);
    let is_end = match emit_table(alloc, ledger, &mut wire) {
        Err(TableFault::Write(fault)) => fails && fault.sent == taken.len() as u64,
        Err(_) => false,
        Ok(()) => !fails,
    };
    is_end && wire.taken() == taken && wire.failures() == u64::from(fails)
}

#[test]
fn a_failed_write_leaves_the_first_bytes(rt: HostRuntime) -> Result<(), Fail> {
    let ledger = complete(rt.alloc(), PLAN)?;
    for room in 0..TABLE.len() {
        assert!(rt; ends_with(rt.alloc(), &ledger, &TABLE[..room], true));
    }
    assert!(rt; ends_with(rt.alloc(), &ledger, TABLE, false));
    Ok(())
}

#[test]
fn faults_are_printed(rt: HostRuntime) -> Result<(), Fail> {
    assert!(rt; RowFault::NotDone(7).to_string(rt.alloc())?.as_str() == "18 NotDone 7");
    let failed = TableFault::Write(Sent { sent: 80 });
    assert!(rt; failed.to_string(rt.alloc())?.as_str() == "31 Write 80");
    Ok(())
}
