//! Studies for which an allocation may be refused. If none is, each of them is whole; the test also holds if any one
//! allocation of its runs is refused, and is meant to be run so by hand.

use crate::pool::runs::{BY_TWO, Counts, Ended, Order, run_alone};
use cut_hall::OpenGate;
use cut_pool::RunFault;
use std::alloc::Global;
use std::sync::Wait;
use std::test::Fail;
use std::thread::Threads;

/// How a run ended.
#[derive(Clone, Copy, PartialEq, Eq)]
enum End {
    /// With the whole table, of the study's two trials.
    Whole,
    /// As memory ran out: its own, or that of the wire, which then took as many bytes as reported. These are the first
    /// ones of the table.
    Refused,
    /// Otherwise.
    Wrong,
}

/// How a run ended, of which this is reported, and whose wire took this many bytes of the table, which has 98.
fn end_of(ended: Ended) -> End {
    let Some(taken) = ended.taken else {
        return End::Wrong;
    };
    match ended.report {
        Ok(counts) if is_whole(counts) && taken == 98 => End::Whole,
        Err(RunFault::WorkMemory) => End::Refused,
        Err(RunFault::Write(fault)) if fault.sent == taken as u64 => End::Refused,
        _ => End::Wrong,
    }
}

/// Whether a run reports a table of 98 bytes, and two accepted trials, which are all.
fn is_whole(counts: Counts) -> bool {
    counts.sent == 98 && counts.accepted == 2 && counts.complete
}

/// How a run by this many workers ends, in pieces of one trial. Its plan may be refused memory too.
fn run_by<R: Threads + Wait + Sync>(rt: &R, alloc: Global, workers: u32) -> End {
    match run_alone(rt, alloc, Order { workers, ..BY_TWO }, &OpenGate) {
        Ok(ended) => end_of(ended),
        Err(_) => End::Refused,
    }
}

#[test]
fn one_refused_allocation_is_reported_by_one_study(rt: HostRuntime) -> Result<(), Fail> {
    let mut refused = 0u32;
    for workers in 1..4u32 {
        let end = run_by(&rt, rt.alloc(), workers);
        assert!(rt; end != End::Wrong, "{workers}");
        if end == End::Refused {
            refused = refused.saturating_add(1);
        }
    }
    assert!(rt; refused <= 1);
    Ok(())
}
