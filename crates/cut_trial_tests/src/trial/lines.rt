//! Lines that were worked out by hand.

use crate::trial::mixed::{MIXED, NONE_FAIL, THREE_RINGS};
use cut_ledger::lines::{cell_line, header};
use cut_outcome::Totals;
use cut_plan::{Plan, PlanFault};
use std::alloc::{AllocError, Global};
use std::test::Fail;

/// A study of two cells: two trials of five processes with one crash, and two without.
const CRASHES: &str =
    r#"{"copies":1,"dead":"silent","f":[0,1],"faults":"crash","h":[1],"implicit":true,"k":[1],"l":[1],"liars":0,"links":0,"nodes":5,"repeats":2,"seed":"0000000000000000000000000000000000000000000000000000000000000000","version":1}"#;

// Totals that are written in the order of their columns.
fn totals_of(text: &str) -> Totals {
    let mut numbers = [0; 8];
    for (number, word) in numbers.iter_mut().zip(text.split(' ')) {
        *number = word.parse::<u64>().unwrap_or(0);
    }
    let [
        receivers,
        conflicts,
        silent,
        extra,
        votes,
        decided,
        right,
        settled,
    ] = numbers;
    Totals {
        receivers,
        conflicts,
        silent,
        extra,
        votes,
        decided,
        right,
        settled,
    }
}

// Texts of plans, and of each the number of a cell, totals of it, and their line.
const LINES: [(&str, &str); 5] = [
    (
        CRASHES,
        "1: 6 1 0 0 5 1 1 0: 1,1,1,1,2,6,1,0,0,5,1,1,166666",
    ),
    (CRASHES, "0: 10 0 10 0 0 0 0 0: 1,1,1,0,2,10,0,10,0,0,0,0,0"),
    (MIXED, "0: 8 0 0 0 8 2 2 8: 1,1,1,1,2,8,0,0,0,8,2,2,8,0"),
    (
        THREE_RINGS,
        "0: 8 0 0 0 8 2 2 24: 3,3,1,1,2,8,0,0,0,8,2,2,24,0",
    ),
    (
        NONE_FAIL,
        "0: 10 0 10 0 0 0 0 0: 1,1,1,0,2,10,0,10,0,0,0,0,0,0",
    ),
];

// Whether this is the line of a cell of a plan.
fn is_line(
    alloc: Global,
    plan: &Plan,
    cell: u32,
    totals: Totals,
    line: &str,
) -> Result<bool, AllocError> {
    if cell >= plan.cells() || totals.conflicts > 9 {
        return Ok(false);
    }
    let found = cell_line(alloc, plan, cell, totals)?;
    Ok(found.strip_suffix(b"\n") == Some(line.as_bytes()))
}

// Whether the line of a row is that of its cell of a text's plan.
fn is_row(alloc: Global, json: &str, row: &str) -> Result<bool, PlanFault> {
    let (cell, rest) = row.split_once(": ").unwrap_or((row, ""));
    let (numbers, line) = rest.split_once(": ").unwrap_or((rest, ""));
    let plan = Plan::from_json(alloc, json.as_bytes())?;
    let cell = cell.parse::<u32>().unwrap_or(u32::MAX);
    Ok(is_line(alloc, &plan, cell, totals_of(numbers), line)?)
}

#[test]
fn lines_are_numbers_with_commas(rt: HostRuntime) -> Result<(), Fail> {
    for (json, row) in LINES {
        assert!(rt; is_row(rt.alloc(), json, row)?, "{row}");
    }
    Ok(())
}

// Whether this is the header of a text's plan.
fn is_header(alloc: Global, json: &str, line: &[u8]) -> Result<bool, PlanFault> {
    Ok(header(&Plan::from_json(alloc, json.as_bytes())?) == line)
}

#[test]
fn the_header_names_the_columns(rt: HostRuntime) -> Result<(), Fail> {
    let first = b"k,h,l,f,trials,receivers,conflicts,silent,extra,votes,decided,right,ppm\n";
    assert!(rt; is_header(rt.alloc(), CRASHES, first)?);
    let second =
        b"k,h,l,f,trials,receivers,conflicts,silent,extra,votes,decided,right,settled,ppm\n";
    assert!(rt; is_header(rt.alloc(), MIXED, second)?);
    Ok(())
}
