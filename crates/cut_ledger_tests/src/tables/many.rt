//! A table of 65 cells: one more than a word has bits.

use crate::studies::{fresh, result_of, slip};
use cut_ledger::Ledger;
use cut_outcome::Piece;
use cut_plan::Plan;
use cut_table::emit_table;
use cut_wires::{MemoryWire, Wire};
use std::alloc::{AllocError, Global};
use std::test::Fail;

/// A study of five h and thirteen l, of one trial each, in which none of five processes fails. So nothing is
/// alerted, and all five are silent.
const PLAN: &str =
    r#"{"copies":1,"dead":"silent","f":[0],"faults":"crash","h":[20,21,22,23,24],"implicit":true,"k":[32],"l":[1,2,3,4,5,6,7,8,9,10,11,12,13],"liars":0,"links":0,"nodes":5,"repeats":1,"seed":"0000000000000000000000000000000000000000000000000000000000000000","version":1}"#;

/// The first line of its table.
const HEADER: &str = "k,h,l,f,trials,receivers,conflicts,silent,extra,votes,decided,right,ppm\n";

/// Its table.
fn table(alloc: Global) -> Result<String, AllocError> {
    let mut table = String::from_str(alloc, HEADER)?;
    for cell in 0..65u8 {
        let (h, l) = (20 + cell / 13, 1 + cell % 13);
        let line = format!(in alloc; "32,{h},{l},0,1,5,0,5,0,0,0,0,0\n")?;
        table.push_str(line.as_str())?;
    }
    Ok(table)
}

/// The ledger of its results, of which the last comes first.
fn ledger_of_results(alloc: Global) -> Result<Ledger, Fail> {
    let mut ledger = fresh(alloc, PLAN)?;
    for first in (0..65u32).rev() {
        let result = result_of(alloc, ledger.plan(), Piece { first, count: 1 })?;
        ledger.offer(&result)?;
    }
    Ok(ledger)
}

/// The ledger that begins with a slip of each trial.
fn ledger_of_slips(alloc: Global) -> Result<Ledger, Fail> {
    let mut slips = Vec::new(alloc);
    let mut one = slip("0 1: 5 0 5 0 0 0 0 0");
    for trial in 0..65u32 {
        one.piece.first = trial;
        slips.push(one)?;
    }
    let plan = Plan::from_json(alloc, PLAN.as_bytes())?;
    Ok(Ledger::from_slips(alloc, plan, slips.as_slice())?)
}

/// Whether a ledger holds all trials of 65 cells, and gives this table.
fn has_table(alloc: Global, ledger: &Ledger, table: &[u8]) -> Result<bool, Fail> {
    let mut wire = MemoryWire::new(alloc, Vec::new(alloc), 1000);
    emit_table(alloc, ledger, &mut wire)?;
    Ok(ledger.plan().cells() == 65 && ledger.complete() && wire.taken() == table)
}

#[test]
fn a_table_of_many_cells(rt: HostRuntime) -> Result<(), Fail> {
    let table = table(rt.alloc())?;
    assert!(rt;
        has_table(
            rt.alloc(),
            &ledger_of_results(rt.alloc())?,
            table.as_bytes()
        )?
    );
    assert!(rt; has_table(rt.alloc(), &ledger_of_slips(rt.alloc())?, table.as_bytes())?);
    Ok(())
}
