//! What no contract says: the texts of faults, and devices that fail.

mod answers;
mod asking;
mod checkpoints;
mod crews;
mod devices;
mod kept_files;
mod migrating;
mod plan_files;
mod refusals;

use crate::workers::workers_from;
use cut_commands::{CliFault, Work, check_io, run_io};
use cut_disks::MemoryDisk;
use cut_outcome::OpenGate;
use cut_wires::StreamWire;
use std::alloc::{AllocError, Global};
use std::io::{Read, Write};
use std::sync::Wait;
use std::thread::Threads;

/// A study of one cell: two trials of five processes, of which one crashes.
const PLAN: &str =
    r#"{"copies":1,"dead":"silent","f":[1],"faults":"crash","h":[1],"implicit":true,"k":[1],"l":[1],"liars":0,"links":0,"nodes":5,"repeats":2,"seed":"0000000000000000000000000000000000000000000000000000000000000000","version":1}"#;

/// A study that is not kept.
const NO_DISK: Option<MemoryDisk> = None;

/// The first line of every table.
const NAMES: &str = "k,h,l,f,trials,receivers,conflicts,silent,extra,votes,decided,right,ppm\n";

/// The plan with other fields in place of some of its own.
fn plan_with(alloc: Global, edits: &[(&str, &str)]) -> Result<String, AllocError> {
    let mut text = String::from_str(alloc, PLAN)?;
    for (field, other) in edits {
        text = text.replace(alloc, *field, *other)?;
    }
    Ok(text)
}

/// Whether these bytes are a table with these lines below its names.
fn is_table(bytes: &[u8], lines: &str) -> bool {
    bytes.strip_prefix(NAMES.as_bytes()) == Some(lines.as_bytes())
}

/// The line of the plan's cell.
const LINE: &str = "1,1,1,1,2,8,0,0,0,8,2,2,0\n";

/// The whole table of the plan.
const TABLE: &str =
    "k,h,l,f,trials,receivers,conflicts,silent,extra,votes,decided,right,ppm\n1,1,1,1,2,8,0,0,0,8,2,2,0\n";

/// Work in pieces of about this size by about this many workers, none of whom waits.
fn work_of(size: u32, workers: u32) -> Work<'static, OpenGate> {
    Work {
        piece_size: size.max(1),
        workers: workers_from(workers),
        gate: &OpenGate,
    }
}

/// Runs the plan of a reader by one worker and writes its table to a writer.
fn run<T, R, W>(rt: &T, alloc: Global, input: R, output: W) -> Result<(), CliFault>
where
    T: Threads + Wait + Sync,
    R: Read + Drop,
    W: Write + Drop,
{
    let mut wire = StreamWire::new(input, output);
    run_io(rt, alloc, &mut wire, work_of(16, 1), NO_DISK)
}

/// What `run_io` writes for this text by this many workers and pieces of this size.
fn table_by<T: Threads + Wait + Sync>(
    rt: &T,
    alloc: Global,
    text: &[u8],
    size: u32,
    workers: u32,
) -> Result<Vec<u8>, CliFault> {
    let mut output = Vec::new(alloc);
    let mut wire = StreamWire::new(text, &mut output);
    run_io(rt, alloc, &mut wire, work_of(size, workers), NO_DISK)?;
    drop(wire);
    Ok(output)
}

/// Checks the plan of a reader and writes what it has to a writer.
fn check<R: Read + Drop, W: Write + Drop>(
    alloc: Global,
    input: R,
    output: W,
) -> Result<(), CliFault> {
    check_io(alloc, &mut StreamWire::new(input, output))
}

/// What `run_io` writes for this text, which it must take.
fn table_for<T: Threads + Wait + Sync>(
    rt: &T,
    alloc: Global,
    text: &[u8],
) -> Result<Vec<u8>, CliFault> {
    table_by(rt, alloc, text, 16, 1)
}

/// What `check_io` writes for this text, which it must take.
fn check_for(alloc: Global, text: &[u8]) -> Result<Vec<u8>, CliFault> {
    let mut output = Vec::new(alloc);
    check(alloc, text, &mut output)?;
    Ok(output)
}
