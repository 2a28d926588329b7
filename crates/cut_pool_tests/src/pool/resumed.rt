//! Studies that are kept on a disk: each is cut off, by the wire or by the disk, and resumed to the whole table.
ghost use Rattle.std.specs.Prelude.{◌≡◌, Ok, None, length, IfOk};
ghost use Rattle.cut_disks.specs.Log.{IsKnown, on};
ghost use Rattle.cut_journal.specs.Reading.{reading};

use crate::pool::piece::result_of;
use crate::pool::runs::{Counts, Ended, Kept, counts_of, workers_from};
use crate::pool::tables::{prefix_len, table_len};
use cut_disks::{Disk, FaultyDisk, Tear};
use cut_journal::Journal;
use cut_outcome::{Piece, PieceResult};
use cut_plan::Plan;
use cut_pool::{RunFault, StudyRun};
use cut_pool_cases::{MANY_TRIALS, NotingGate, Study, TWO_TRIALS, studies};
use cut_wires::{FaultyWire, Sent};
use std::alloc::Global;
use std::sync::Wait;
use std::test::Fail;
use std::thread::Threads;

/// A run of a study over a disk, by two workers in pieces of one trial if nothing else is said, and how it ends.
#[derive(Clone, Copy)]
struct Row {
    study: Study,
    piece_size: u32,
    workers: u32,
    /// Whether the disk is armed, once its journal is open.
    is_armed: bool,
    /// For how many bytes the wire has room.
    room: usize,
    wanted: Wanted,
}

/// How a run ends.
#[derive(Clone, Copy)]
enum Wanted {
    /// With the whole table, which has this many bytes.
    Table(usize),
    /// With the whole table and these counts.
    Counted(Counts),
    /// With this fault, where the wire takes this many bytes of the table.
    Fault(RunFault, usize),
    /// As an append to the disk failed.
    Broken,
}

/// One with nothing that fails, of the study of two trials.
const WHOLE: Row = Row {
    study: TWO_TRIALS,
    piece_size: 1,
    workers: 2,
    is_armed: false,
    room: 1000,
    wanted: Wanted::Table(98),
};

/// The journal on a disk, with the slips that are kept in it.
fn journal_on<D: Disk + Drop>(alloc: Global, disk: D, plan: &Plan) -> Result<Kept<D>, Fail>
    ensures kept { IfOk result (λ k.
        (k.0.plan ≡ plan.now) × (k.0.count ≡ length k.1.items) × (k.0.doubtful ≡ None)) }
    ensures read { IfOk result (λ k. IsKnown (D.log k.0.disk)
        → reading plan.now (on (D.log k.0.disk)).bytes ≡ Ok k.1.items) }
{
    match Journal::open(alloc, disk, plan) {
        Ok(kept) => Ok(kept),
        Err(_) => Err("no journal")?,
    }
}

/// How a run ends over the journal on a disk, which is armed once the journal is open, if it is; and whether its gate
/// counted each trial.
fn run_over<R: Threads + Wait + Sync>(
    rt: &R,
    alloc: Global,
    row: &Row,
    disk: &mut FaultyDisk,
) -> Result<(Ended, bool), Fail> {
    let plan = Plan::from_json(alloc, row.study.plan.as_bytes())?;
    let kept = journal_on(alloc, disk, &plan)?;
    if row.is_armed {
        kept.0.disk().arm();
    }
    let mut wire = FaultyWire::new(alloc, Vec::new(alloc), 1000, row.room, 0);
    let run = StudyRun {
        plan: &plan,
        kept: Some(kept),
        piece_size: row.piece_size.max(1),
        workers: workers_from(row.workers),
    };
    let gate = NotingGate::new();
    let report = counts_of(run.run(rt, alloc, &mut wire, &gate).ended);
    let taken = prefix_len(row.study, wire.taken());
    Ok((Ended { report, taken }, gate.calls().has_all()))
}

/// Whether a run ended with the whole table, which has this many bytes.
fn is_table(ended: &Ended, length: usize) -> bool {
    match ended.report {
        Ok(counts) => {
            counts.complete && counts.sent == length as u64 && ended.taken == Some(length)
        }
        Err(_) => false,
    }
}

/// Whether a run ended so, where its gate counted each trial of a complete study.
fn is_right(ended: &Ended, has_all: bool, wanted: &Wanted) -> bool {
    match *wanted {
        Wanted::Table(length) => has_all && is_table(ended, length),
        Wanted::Counted(counts) => {
            has_all && ended.report == Ok(counts) && is_table(ended, counts.sent as usize)
        }
        Wanted::Fault(fault, taken) => ended.report == Err(fault) && ended.taken == Some(taken),
        Wanted::Broken => ended.report == Err(RunFault::Checkpoint) && ended.taken.is_some(),
    }
}

/// Whether a run over a disk goes so.
fn goes_so<R: Threads + Wait + Sync>(
    rt: &R,
    alloc: Global,
    row: &Row,
    disk: &mut FaultyDisk,
) -> Result<bool, Fail> {
    let (ended, has_all) = run_over(rt, alloc, row, disk)?;
    Ok(is_right(&ended, has_all, &row.wanted))
}

/// Whether the runs over a new disk go so, one after another. A call of the disk fails, which leaves this of a write.
fn all_go_so<R: Threads + Wait + Sync>(
    rt: &R,
    alloc: Global,
    (fail_at, tear): (u64, Tear),
    rows: &[Row],
) -> Result<bool, Fail> {
    let mut disk = FaultyDisk::of(alloc, Vec::new(alloc), fail_at, tear)?;
    go_so(rt, alloc, rows, &mut disk)
}

/// Whether the runs over a disk go so.
fn go_so<R: Threads + Wait + Sync>(
    rt: &R,
    alloc: Global,
    rows: &[Row],
    disk: &mut FaultyDisk,
) -> Result<bool, Fail> {
    for row in rows {
        if !goes_so(rt, alloc, row, &mut *disk)? {
            return Ok(false);
        }
    }
    Ok(true)
}

/// A wire has room for 80 bytes, and both trials are kept.
const CUT_OFF: &[Row] = &[
    Row {
        room: 80,
        wanted: Wanted::Fault(RunFault::Write(Sent { sent: 80 }), 80),
        ..WHOLE
    },
    Row {
        wanted: Wanted::Counted(Counts {
            sent: 98,
            accepted: 0,
            calls: 1,
            complete: true,
        }),
        ..WHOLE
    },
];

/// The same in one piece of two trials, which are all held when the study is opened again.
const CUT_OFF_IN_ONE_PIECE: &[Row] = &[
    Row {
        piece_size: 2,
        room: 80,
        wanted: Wanted::Fault(RunFault::Write(Sent { sent: 80 }), 80),
        ..WHOLE
    },
    Row {
        piece_size: 2,
        ..WHOLE
    },
];

/// An append fails, and the study goes on in pieces of two.
const BROKEN: &[Row] = &[
    Row {
        is_armed: true,
        wanted: Wanted::Broken,
        ..WHOLE
    },
    Row {
        piece_size: 2,
        ..WHOLE
    },
];

/// The disk would fail after the last append.
const UNHARMED: &[Row] = &[Row {
    is_armed: true,
    wanted: Wanted::Counted(Counts {
        sent: 98,
        accepted: 2,
        calls: 3,
        complete: true,
    }),
    ..WHOLE
}];

#[test]
fn a_study_whose_wire_or_disk_failed_is_resumed(rt: HostRuntime) -> Result<(), Fail> {
    // Each of the two appends makes four calls.
    for fail_at in 0..10u64 {
        let rows = match fail_at {
            0 => CUT_OFF,
            9 => UNHARMED,
            _ => BROKEN,
        };
        assert!(rt;
            all_go_so(&rt, rt.alloc(), (fail_at, Tear::Nothing), rows)?,
            "{fail_at}"
        );
    }
    assert!(rt; all_go_so(&rt, rt.alloc(), (0, Tear::Nothing), CUT_OFF_IN_ONE_PIECE)?);
    Ok(())
}

/// Keeps a result in the journal on a disk.
fn keep(alloc: Global, plan: &Plan, slip: &PieceResult, disk: &mut FaultyDisk) -> Result<(), Fail> {
    let (mut journal, _) = journal_on(alloc, disk, plan)?;
    journal.append(slip)?;
    Ok(())
}

/// Keeps the slip of the first trial in the journal on a disk, twice.
fn keep_twice(alloc: Global, disk: &mut FaultyDisk) -> Result<(), Fail> {
    let plan = Plan::from_json(alloc, TWO_TRIALS.plan.as_bytes())?;
    let result = result_of(alloc, &plan, Piece { first: 0, count: 1 })?;
    keep(alloc, &plan, &result, &mut *disk)?;
    keep(alloc, &plan, &result, disk)
}

/// One whose second slip is refused.
const BAD_SLIP: Row = Row {
    wanted: Wanted::Fault(RunFault::BadSlip(2), 0),
    ..WHOLE
};

/// Whether a run ends so over a disk.
fn is_bad<R: Threads + Wait + Sync>(
    rt: &R,
    alloc: Global,
    disk: &mut FaultyDisk,
) -> Result<bool, Fail> {
    keep_twice(alloc, &mut *disk)?;
    goes_so(rt, alloc, &BAD_SLIP, disk)
}

#[test]
fn a_slip_that_is_kept_twice_is_bad(rt: HostRuntime) -> Result<(), Fail> {
    let mut disk = FaultyDisk::of(rt.alloc(), Vec::new(rt.alloc()), 0, Tear::Nothing)?;
    assert!(rt; is_bad(&rt, rt.alloc(), &mut disk)?);
    Ok(())
}

/// How long the file of the study of 130 trials with this many slips is: the plan has 223 bytes, 46 more stand beside
/// it, and each slip has 105.
fn file_of(slips: u32) -> usize {
    223 + 46 + 105 * slips.min(130) as usize
}

/// Whether its run over a disk goes so, and leaves a file with this many slips.
fn leaves<R: Threads + Wait + Sync>(
    rt: &R,
    alloc: Global,
    (wanted, slips): (Wanted, u32),
    disk: &mut FaultyDisk,
) -> Result<bool, Fail> {
    let row = Row {
        study: MANY_TRIALS,
        is_armed: slips < 130,
        wanted,
        ..WHOLE
    };
    let is_right = goes_so(rt, alloc, &row, &mut *disk)?;
    Ok(is_right && disk.memory().bytes().len() == file_of(slips))
}

/// What is reported of its run if this many trials are lacking.
fn counts_for(lacking: u32) -> Counts {
    let accepted = u64::from(lacking);
    Counts {
        sent: 108,
        accepted,
        calls: accepted.saturating_add(1),
        complete: true,
    }
}

/// Whether it goes on over a disk that fails after this many of its slips, and is then whole.
fn goes_on<R: Threads + Wait + Sync>(
    rt: &R,
    alloc: Global,
    slips: u32,
    disk: &mut FaultyDisk,
) -> Result<bool, Fail> {
    let failed = (Wanted::Fault(RunFault::Checkpoint, 72), slips);
    let others = Wanted::Counted(counts_for(130u32.saturating_sub(slips)));
    let none = Wanted::Counted(counts_for(0));
    Ok(
        leaves(rt, alloc, failed, &mut *disk)?
            && leaves(rt, alloc, (others, 130), &mut *disk)?
            && leaves(rt, alloc, (none, 130), disk)?,
    )
}

/// Whether it does so over a new disk.
fn goes_on_after<R: Threads + Wait + Sync>(
    rt: &R,
    alloc: Global,
    slips: u32,
) -> Result<bool, Fail> {
    // Each append makes four calls: the first one of the next fails.
    let fail_at = u64::from(slips).saturating_mul(4).saturating_add(1);
    let mut disk = FaultyDisk::of(alloc, Vec::new(alloc), fail_at, Tear::Nothing)?;
    goes_on(rt, alloc, slips, &mut disk)
}

#[test]
fn a_study_goes_on_from_more_than_64_slips(rt: HostRuntime) -> Result<(), Fail> {
    for slips in [63, 64, 65, 128, 129] {
        assert!(rt; goes_on_after(&rt, rt.alloc(), slips)?, "{slips}");
    }
    Ok(())
}

/// Whether a study is resumed by three workers that was cut off half-way, by its wire or by a disk that leaves this of
/// a write.
fn is_resumed<R: Threads + Wait + Sync>(
    rt: &R,
    alloc: Global,
    study: Study,
    tear: Option<Tear>,
) -> Result<bool, Fail> {
    // The disk fails half-way through the appends of the trials, of four calls each.
    let fail_at = 2 * u64::from(Plan::from_json(alloc, study.plan.as_bytes())?.trials()) + 1;
    let rows = [cut_half_way(study, tear.is_some()), whole_by_three(study)];
    all_go_so(rt, alloc, (fail_at, tear.unwrap_or(Tear::Nothing)), &rows)
}

/// A run of a study by three workers, with nothing that fails.
fn whole_by_three(study: Study) -> Row {
    Row {
        study,
        workers: 3,
        wanted: Wanted::Table(table_len(study)),
        ..WHOLE
    }
}

/// One that is cut off half-way, by its disk or by its wire.
fn cut_half_way(study: Study, is_armed: bool) -> Row {
    let half = table_len(study) / 2;
    if is_armed {
        return Row {
            is_armed,
            wanted: Wanted::Broken,
            ..whole_by_three(study)
        };
    }
    let sent = half as u64;
    Row {
        room: half,
        wanted: Wanted::Fault(RunFault::Write(Sent { sent }), half),
        ..whole_by_three(study)
    }
}

#[test]
fn tables_that_were_cut_off_half_way_are_resumed(rt: HostRuntime) -> Result<(), Fail> {
    for (number, study) in studies().iter().enumerate() {
        for tear in [None, Some(Tear::Nothing), Some(Tear::Everything)] {
            assert!(rt; is_resumed(&rt, rt.alloc(), *study, tear)?, "{number}");
        }
    }
    Ok(())
}
