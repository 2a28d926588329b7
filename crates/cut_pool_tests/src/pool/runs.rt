//! Studies that are run whole and kept nowhere, by any number of workers.
ghost use Rattle.std.specs.Prelude.{◌≤◌};

use crate::pool::tables::prefix_len;
use cut_disks::MemoryDisk;
use cut_hall::{Gate, OpenGate};
use cut_journal::Journal;
use cut_ledger::Slip;
use cut_plan::{Plan, PlanFault};
use cut_pool::{Done, RunFault, StudyRun, run_study};
use cut_pool_cases::{
    Calls, MeetingGate, NotingGate, SlowGate, Study, THOUSAND_TRIALS, THREE_TRIALS, TWO_TRIALS,
};
use cut_wires::{FaultyWire, Sent};
use std::alloc::{AllocError, Global};
use std::sync::Wait;
use std::test::Fail;
use std::thread::Threads;
use std::time::Clock;

/// A journal with the slips that are kept in it.
pub(crate) type Kept<D> = (Journal<D>, Vec<Slip>);

/// A study that is kept nowhere.
const NOT_KEPT: Option<Kept<MemoryDisk>> = None;

/// What is run: a study in pieces of how many trials, by how many workers, over a wire with room for how many bytes.
#[derive(Clone, Copy)]
pub(crate) struct Order {
    pub study: Study,
    pub piece_size: u32,
    pub workers: u32,
    pub room: usize,
}

/// The study of two trials in pieces of one, over a wire with room for its table.
pub(crate) const BY_TWO: Order = Order {
    study: TWO_TRIALS,
    piece_size: 1,
    workers: 2,
    room: 1000,
};

/// The number of workers from 1 to 64 that is nearest to `number`.
pub(crate) fn workers_from(number: u32) -> u32
    ensures least { 1 ≤ result }
    ensures most { result ≤ 64 }
{
    number.clamp(1, 64)
}

/// What is reported of a run: the bytes that were sent, the accepted trials and the calls of its only slot, and whether
/// the study is complete.
#[derive(Clone, Copy, PartialEq, Eq)]
pub(crate) struct Counts {
    pub sent: u64,
    pub accepted: u64,
    pub calls: u64,
    pub complete: bool,
}

/// How a run ended: with these counts, or a fault; and how many bytes its wire took, if they are the first ones of the
/// table.
#[derive(Clone, Copy, PartialEq, Eq)]
pub(crate) struct Ended {
    pub report: Result<Counts, RunFault>,
    pub taken: Option<usize>,
}

/// What is reported of a run. No calls are, if it had no slot.
pub(crate) fn counts_of(answer: Result<Done, RunFault>) -> Result<Counts, RunFault> {
    let done = answer?;
    let (accepted, calls, complete) = match done.report.as_slice().first() {
        Some(slot) => (slot.accepted(), slot.calls(), slot.complete()),
        None => (0, 0, false),
    };
    Ok(Counts {
        sent: done.sent,
        accepted,
        calls,
        complete,
    })
}

/// How a run of a study ends that is kept nowhere, over a wire that takes seven bytes at once.
pub(crate) fn run_alone<G, R>(
    rt: &R,
    alloc: Global,
    order: Order,
    gate: &G,
) -> Result<Ended, PlanFault>
where
    G: Gate + Sync,
    R: Threads + Wait + Sync,
{
    let plan = Plan::from_json(alloc, order.study.plan.as_bytes())?;
    let mut wire = FaultyWire::new(alloc, Vec::new(alloc), 7, order.room, 0);
    let run = StudyRun {
        plan: &plan,
        kept: NOT_KEPT,
        piece_size: order.piece_size.max(1),
        workers: workers_from(order.workers),
    };
    let report = counts_of(run.run(rt, alloc, &mut wire, gate).ended);
    Ok(Ended {
        report,
        taken: prefix_len(order.study, wire.taken()),
    })
}

/// How a run ends whose study is complete, and whose table has as many bytes as were sent.
fn whole(sent: u64, accepted: u64, calls: u64) -> Ended {
    Ended {
        report: Ok(Counts {
            sent,
            accepted,
            calls,
            complete: true,
        }),
        taken: Some(sent as usize),
    }
}

/// A study, how many trials a piece has, by how many workers it is run at least and at most, and how many bytes, trials
/// and calls are reported.
type Crew = (Study, u32, u32, u32, [u64; 3]);

const CREWS: &[Crew] = &[
    (TWO_TRIALS, 1, 1, 4, [98, 2, 3]),
    (TWO_TRIALS, 2, 1, 4, [98, 2, 2]),
    (THOUSAND_TRIALS, 10, 2, 2, [113, 1000, 101]),
    (THOUSAND_TRIALS, 1, 2, 2, [113, 1000, 1001]),
];

/// Whether a study is run so by each number of workers.
fn all_write_the_table<R>(rt: &R, alloc: Global, crew: &Crew) -> Result<bool, PlanFault>
where
    R: Threads + Wait + Sync,
{
    let (study, piece_size, least, most, [sent, accepted, calls]) = *crew;
    for workers in least..=most {
        let order = Order {
            study,
            piece_size,
            workers,
            room: 1000,
        };
        if run_alone(rt, alloc, order, &OpenGate)? != whole(sent, accepted, calls) {
            return Ok(false);
        }
    }
    Ok(true)
}

#[test]
fn any_number_of_workers_writes_the_table(rt: HostRuntime) -> Result<(), Fail> {
    for crew in CREWS {
        assert!(rt; all_write_the_table(&rt, rt.alloc(), crew)?, "{}", crew.1);
    }
    Ok(())
}

#[test]
fn a_wire_takes_the_bytes_that_are_reported(rt: HostRuntime) -> Result<(), Fail> {
    for room in 0..98usize {
        let ended = run_alone(&rt, rt.alloc(), Order { room, ..BY_TWO }, &OpenGate)?;
        let fault = Sent { sent: room as u64 };
        assert!(rt; ended.report == Err(RunFault::Write(fault)) && ended.taken == Some(room));
    }
    let ended = run_alone(&rt, rt.alloc(), Order { room: 98, ..BY_TWO }, &OpenGate)?;
    assert!(rt; ended == whole(98, 2, 3));
    Ok(())
}

/// Faults, each with its text.
const TEXTS: &[(RunFault, &str)] = &[
    (RunFault::BadSlip(2), "17 BadSlip 2"),
    (RunFault::Checkpoint, "30 Checkpoint"),
    (RunFault::Write(Sent { sent: 80 }), "31 Write 80"),
];

/// Whether each fault is printed as its text.
fn are_printed(alloc: Global) -> Result<bool, AllocError> {
    for (fault, text) in TEXTS {
        if fault.to_string(alloc)?.as_str() != *text {
            return Ok(false);
        }
    }
    Ok(true)
}

#[test]
fn faults_of_runs_are_printed(rt: HostRuntime) -> Result<(), Fail> {
    assert!(rt; are_printed(rt.alloc())?);
    Ok(())
}

/// How a run ends whose workers meet at the gate before any of them runs its trial, of a study with one for each; how many
/// came to it, and how many were left alone there.
fn all_meet<R: Threads + Wait + Clock + Sync>(
    rt: &R,
    alloc: Global,
    order: Order,
) -> Result<(Ended, u64, u64), PlanFault> {
    let gate = MeetingGate::new(rt, u64::from(order.workers));
    let ended = run_alone(rt, alloc, order, &gate)?;
    let (begun, left_alone) = gate.counts();
    Ok((ended, begun, left_alone))
}

#[test]
fn all_workers_are_in_work_at_once(rt: HostRuntime) -> Result<(), Fail> {
    let by_three = Order {
        study: THREE_TRIALS,
        workers: 3,
        ..BY_TWO
    };
    assert!(rt; all_meet(&rt, rt.alloc(), BY_TWO)? == (whole(98, 2, 3), 2, 0));
    assert!(rt; all_meet(&rt, rt.alloc(), by_three)? == (whole(100, 3, 4), 3, 0));
    Ok(())
}

// A thousand trials in pieces of 300, the last of which has fewer, by two workers.
#[test]
fn a_gate_is_called_around_each_piece(rt: HostRuntime) -> Result<(), Fail> {
    let order = Order {
        study: THOUSAND_TRIALS,
        piece_size: 300,
        ..BY_TWO
    };
    let gate = NotingGate::new();
    assert!(rt; run_alone(&rt, rt.alloc(), order, &gate)? == whole(113, 1000, 5));
    let calls = Calls {
        opened: 1,
        held: 0,
        all: 1000,
        passed: (4, 1000),
        accepted: (4, 1000),
        misplaced: 0,
    };
    assert!(rt; gate.calls() == calls);
    Ok(())
}

// Each piece takes a hundredth of a second, and so all of them several seconds.
#[test]
fn workers_stop_soon_where_nobody_reads(rt: HostRuntime) -> Result<(), Fail> {
    let order = Order {
        study: THOUSAND_TRIALS,
        workers: 3,
        room: 0,
        ..BY_TWO
    };
    let gate = SlowGate::new(&rt);
    let ended = run_alone(&rt, rt.alloc(), order, &gate)?;
    assert!(rt; ended.report == Err(RunFault::Write(Sent { sent: 0 })) && ended.taken == Some(0));
    assert!(rt; gate.accepted() < 500);
    Ok(())
}

#[test]
fn studies_are_run_by_their_values(rt: HostRuntime) -> Result<(), Fail> {
    let plan = Plan::from_json(rt.alloc(), TWO_TRIALS.plan.as_bytes())?;
    let mut wire = FaultyWire::new(rt.alloc(), Vec::new(rt.alloc()), 7, 1000, 0);
    let done = run_study(&rt, rt.alloc(), &plan, 1, 2, NOT_KEPT, &mut wire, &OpenGate);
    let ended = Ended {
        report: counts_of(done),
        taken: prefix_len(TWO_TRIALS, wire.taken()),
    };
    assert!(rt; ended == whole(98, 2, 3));
    Ok(())
}
