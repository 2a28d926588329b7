ghost use Rattle.std.specs.Prelude.{◌≡◌, ◌<◌};
ghost use Rattle.cut_plan.specs.Cells.{IsCellOf, trial_count};
ghost use Rattle.cut_outcome.specs.Outcome.{rings_of};

use crate::trial::mixed::{MIXED, NONE_FAIL, THREE_RINGS};
use cut_alerts::{Roles, alerts};
use cut_draws::Draws;
use cut_outcome::{Piece, PieceResult, Totals};
use cut_plan::{Cell, Plan, PlanFault};
use cut_rings::{Edge, Rings};
use cut_trial::{PieceRunner, TrialFault, run_piece, run_trial};
use std::alloc::{AllocError, Global};
use std::test::Fail;

// Two trials of five processes with one crashed one that speaks.
const SPEAKS: &str =
    r#"{"version":1,"nodes":5,"copies":1,"repeats":2,"f":[1],"k":[3],"h":[3],"l":[1],"faults":"crash","dead":"speak","liars":0,"links":0,"implicit":true,"seed":"0000000000000000000000000000000000000000000000000000000000000000"}"#;

// The same, with two trials without a crashed one before them.
const TWO_CELLS: &str =
    r#"{"version":1,"nodes":5,"copies":1,"repeats":2,"f":[0,1],"k":[3],"h":[3],"l":[1],"faults":"crash","dead":"speak","liars":0,"links":0,"implicit":true,"seed":"0000000000000000000000000000000000000000000000000000000000000000"}"#;

// The same with many processes and many trials, and each alert in three copies.
const MANY_TRIALS: &str =
    r#"{"version":1,"nodes":1999,"copies":3,"repeats":777777,"f":[0,1],"k":[3],"h":[3],"l":[1],"faults":"crash","dead":"speak","liars":0,"links":0,"implicit":true,"seed":"0000000000000000000000000000000000000000000000000000000000000000"}"#;

// One trial of 1,999 processes on 31 rings, of which one crashes, each alert in four copies.
const MANY_RINGS: &str =
    r#"{"copies":4,"dead":"speak","f":[1],"faults":"crash","h":[31],"implicit":true,"k":[31],"l":[1],"liars":0,"links":0,"nodes":1999,"repeats":1,"seed":"0000000000000000000000000000000000000000000000000000000000000000","version":1}"#;

// The eight sums in the order of the table.
fn numbers(totals: Totals) -> [u64; 8] {
    [
        totals.receivers,
        totals.conflicts,
        totals.silent,
        totals.extra,
        totals.votes,
        totals.decided,
        totals.right,
        totals.settled,
    ]
}

// Whether these are the eight sums that are written, in the order of the table, with blanks between them.
fn has_numbers(totals: Totals, text: &str) -> bool {
    for (number, word) in numbers(totals).iter().zip(text.split(' ')) {
        if word.parse::<u64>() != Ok(*number) {
            return false;
        }
    }
    text.split(' ').count() == 8
}

// The result of a piece of a plan's trials.
fn result_of(alloc: Global, plan: &Plan, piece: Piece) -> Result<PieceResult, TrialFault> {
    let rings = Rings::hashed(alloc, plan)?;
    run_piece(alloc, plan, &rings, piece)
}

// The numbers of one trial of a plan.
fn alone(alloc: Global, plan: &Plan, trial: u32) -> Result<Totals, AllocError>
    requires { trial < trial_count plan.now }
{
    let rings = Rings::hashed(alloc, plan)?;
    run_trial(alloc, plan, &rings, trial)
}

// Whether these are the numbers of one trial as a piece, and of the trial alone.
fn has_totals(alloc: Global, plan: &Plan, first: u32, wanted: &str) -> Result<bool, TrialFault> {
    if first >= plan.trials() {
        return Ok(false);
    }
    let rings = Rings::hashed(alloc, plan)?;
    let alone = run_trial(alloc, plan, &rings, first)?;
    let found = run_piece(alloc, plan, &rings, Piece { first, count: 1 })?;
    Ok(has_numbers(alone, wanted) && has_numbers(found.totals(), wanted))
}

// Plans, a trial of each, and its numbers: only the target is alerted, on all rings, so each receiver proposes
// exactly it; and with no target nothing is alerted. A quorum of 1999 is 1500.
const TOTALS: [(&str, &str); 4] = [
    (SPEAKS, "0: 4 0 0 0 4 1 1 0"),
    (TWO_CELLS, "1: 5 0 5 0 0 0 0 0"),
    (MANY_TRIALS, "1555553: 1998 0 0 0 1998 1 1 0"),
    (MANY_RINGS, "0: 1998 0 0 0 1998 1 1 0"),
];

// Whether the trial of a row of a text's plan has the numbers of the row.
fn is_total(alloc: Global, text: &str, row: &str) -> Result<bool, Fail> {
    let (first, wanted) = row.split_once(": ").unwrap_or((row, ""));
    let plan = Plan::from_json(alloc, text.as_bytes())?;
    let first = first.parse::<u32>().unwrap_or(u32::MAX);
    Ok(has_totals(alloc, &plan, first, wanted)?)
}

#[test]
fn trials_and_pieces(rt: HostRuntime) -> Result<(), Fail> {
    for (text, row) in TOTALS {
        assert!(rt; is_total(rt.alloc(), text, row)?, "{row}");
    }
    Ok(())
}

// Two trials of five processes, one of which crashes or is deaf, as each version says it.
const CRASHED: &str =
    r#"{"copies":1,"dead":"silent","f":[1],"faults":"crash","h":[1],"implicit":true,"k":[1],"l":[1],"liars":0,"links":0,"nodes":5,"repeats":2,"seed":"0000000000000000000000000000000000000000000000000000000000000000","version":1}"#;

const DEAF: &str =
    r#"{"copies":1,"dead":"silent","f":[1],"faults":"deaf","h":[1],"implicit":true,"k":[1],"l":[1],"liars":0,"links":0,"nodes":5,"repeats":2,"seed":"0000000000000000000000000000000000000000000000000000000000000000","version":1}"#;

#[test]
fn a_runner_runs_pieces_of_its_plan(rt: HostRuntime) -> Result<(), Fail> {
    let plan = Plan::from_json(rt.alloc(), CRASHED.as_bytes())?;
    let rings = Rings::hashed(rt.alloc(), &plan)?;
    let runner = PieceRunner {
        alloc: rt.alloc(),
        plan: &plan,
        rings: &rings,
    };
    let Some(both) = runner.run(Piece { first: 0, count: 2 }) else {
        panic!(rt; "no result");
    };
    assert!(rt; has_numbers(both.totals(), "8 0 0 0 8 2 2 0"));
    assert!(rt; runner.run(Piece { first: 1, count: 2 }).is_none());
    Ok(())
}

const MIXED_DEAF: &str =
    r#"{"copies":1,"dead":"silent","deaf":1,"f":[1],"h":[1],"implicit":true,"k":[1],"l":[1],"liars":0,"links":0,"nodes":5,"repeats":2,"seed":"0000000000000000000000000000000000000000000000000000000000000000","version":2}"#;

// The edges that a trial of a cell alerts.
fn alerted(
    alloc: Global,
    plan: &Plan,
    cell: Cell,
    rings: &Rings,
    draws: &mut Draws,
) -> Result<Vec<Edge>, AllocError>
    requires cell { IsCellOf plan.now cell }
    requires rings { rings.now ≡ rings_of plan.now }
{
    let roles = Roles::of_trial(alloc, plan, cell, draws, rings)?;
    if cell.k > rings.len() || roles.nodes() != rings.nodes() {
        return Ok(Vec::new(alloc));
    }
    alerts(alloc, rings, cell.k, &roles)
}

// Whether a trial of a plan alerts these edges, and has these numbers.
fn is_trial(
    alloc: Global,
    plan: &Plan,
    trial: u32,
    edges: &[Edge],
    wanted: &str,
) -> Result<bool, AllocError> {
    if trial >= plan.trials() {
        return Ok(false);
    }
    let cell = plan.cell(plan.cell_of(trial));
    let mut draws = Draws::new(plan.seed(), trial);
    let rings = Rings::hashed(alloc, plan)?;
    let found = alerted(alloc, plan, cell, &rings, &mut draws)?;
    Ok(found.as_slice() == edges && has_numbers(alone(alloc, plan, trial)?, wanted))
}

// Whether each of the two trials of a version's plan alerts its edges, and has the numbers.
fn are_trials(alloc: Global, version: &Version) -> Result<bool, PlanFault> {
    let plan = Plan::from_json(alloc, version.plan.as_bytes())?;
    let is_first = is_trial(alloc, &plan, 0, version.first, version.wanted)?;
    Ok(is_first && is_trial(alloc, &plan, 1, version.second, version.wanted)?)
}

// A plan, the edges that its two trials alert, and the numbers of each.
struct Version {
    plan: &'static str,
    first: &'static [Edge],
    second: &'static [Edge],
    wanted: &'static str,
}

// The edges of three subjects on the only ring.
const TO_0: Edge = Edge {
    ring: 0,
    subject: 0,
};

const TO_2: Edge = Edge {
    ring: 0,
    subject: 2,
};

const TO_4: Edge = Edge {
    ring: 0,
    subject: 4,
};

// Plans, the edges that their two trials alert, and the numbers of each. The deaf process of trial 0 is 0, and that of
// trial 1 is 4. It is alerted, as it is silent, and so is the process that it observes. A receiver proposes the first
// that it hears of: three propose the deaf process and one the other, by a script apart from this crate. A process that
// has crashed is all that is alerted: each receiver proposes exactly it. Only the second version has the four places.
const VERSIONS: [Version; 4] = [
    Version {
        plan: DEAF,
        first: &[TO_0, TO_4],
        second: &[TO_2, TO_4],
        wanted: "4 1 0 1 3 0 0 0",
    },
    Version {
        plan: MIXED_DEAF,
        first: &[TO_0, TO_4],
        second: &[TO_2, TO_4],
        wanted: "4 1 0 1 3 0 0 4",
    },
    Version {
        plan: CRASHED,
        first: &[TO_0],
        second: &[TO_4],
        wanted: "4 0 0 0 4 1 1 0",
    },
    Version {
        plan: MIXED,
        first: &[TO_0],
        second: &[TO_4],
        wanted: "4 0 0 0 4 1 1 4",
    },
];

#[test]
fn both_versions_have_the_same_targets(rt: HostRuntime) -> Result<(), Fail> {
    for version in &VERSIONS {
        assert!(rt; are_trials(rt.alloc(), version)?, "{}", version.plan);
    }
    Ok(())
}

// Plans of version 2, and the sums of the two trials of each one's cell: each receiver that proposes does so after
// the only alert, or after all three, one for each ring.
const PLACES: [(&str, &str); 3] = [
    (MIXED, "8 0 0 0 8 2 2 8"),
    (NONE_FAIL, "10 0 10 0 0 0 0 0"),
    (THREE_RINGS, "8 0 0 0 8 2 2 24"),
];

// Whether both trials of a text's plan have the sums of a row.
fn are_sums(alloc: Global, text: &str, row: &str) -> Result<bool, Fail> {
    let plan = Plan::from_json(alloc, text.as_bytes())?;
    let found = result_of(alloc, &plan, Piece { first: 0, count: 2 })?;
    Ok(has_numbers(found.totals(), row))
}

#[test]
fn places_add_up_in_version_2(rt: HostRuntime) -> Result<(), Fail> {
    for (text, row) in PLACES {
        assert!(rt; are_sums(rt.alloc(), text, row)?, "{row}");
    }
    Ok(())
}
