ghost use Rattle.std.specs.Prelude.{◌≡◌};
ghost use Rattle.cut_plan.specs.Cells.{IsCellOf};

use crate::texts::{are_written, four, numbers, rings_of_text};
use cut_alerts::{Roles, RolesFault, alerts};
use cut_draws::{Draws, ProcessOrder};
use cut_plan::{Cell, Dead, Faults, Plan};
use cut_rings::{Edge, Rings};
use std::alloc::{AllocError, Global};
use std::test::Fail;

mod vectors;

// The link that is written as its two ends with a point between them.
fn link_of(word: &str) -> (u16, u16) {
    let (from, to) = word.split_once('.').unwrap_or(("", ""));
    let from = from.parse::<u16>().unwrap_or(u16::MAX);
    (from, to.parse::<u16>().unwrap_or(u16::MAX))
}

// The links that blanks separate.
fn links_of(alloc: Global, text: &str) -> Result<Vec<(u16, u16)>, AllocError> {
    text.split_whitespace()
        .map(|word| link_of(word))
        .collect(alloc)
}

// How targets fail and whether the dead speak, as it is written.
fn ways_of(text: &str) -> (Faults, Dead) {
    let (faults, dead) = text.split_once(' ').unwrap_or((text, ""));
    let faults = if faults == "deaf" {
        Faults::Deaf
    } else {
        Faults::Crash
    };
    let dead = if dead == "speak" {
        Dead::Speak
    } else {
        Dead::Silent
    };
    (faults, dead)
}

// The roles of some processes, of which a line says the targets, liars and cut links.
fn roles_of(
    alloc: Global,
    nodes: u16,
    line: &str,
    (faults, dead): (Faults, Dead),
) -> Result<Roles, RolesFault> {
    let (targets, rest) = line.split_once(';').unwrap_or((line, ""));
    let (liars, links) = rest.split_once(';').unwrap_or((rest, ""));
    let targets = numbers(alloc, targets)?;
    let liars = numbers(alloc, liars)?;
    let links = links_of(alloc, links)?;
    Roles::given(alloc, nodes, &targets, &liars, &links, faults, dead)
}

// Whether the edges that roles alert on all rings are those of a text.
fn are_alerts(
    alloc: Global,
    rings: &Rings,
    roles: &Roles,
    wanted: &str,
) -> Result<bool, AllocError> {
    if roles.nodes() != rings.nodes() {
        return Ok(false);
    }
    let found = alerts(alloc, rings, rings.len(), roles)?;
    Ok(are_written(&found, wanted))
}

// Whether the alerted edges of a line's roles are those that a row has.
fn is_row(alloc: Global, rings: &Rings, line: &str, row: &str) -> Result<bool, RolesFault> {
    let (ways, wanted) = row.split_once(':').unwrap_or((row, ""));
    let roles = roles_of(alloc, rings.nodes(), line, ways_of(ways))?;
    Ok(are_alerts(alloc, rings, &roles, wanted)?)
}

// How many rows stand below a line of roles, 0 if the alerted edges of one are others.
fn count_rows(alloc: Global, rings: &Rings, text: &str) -> Result<u32, RolesFault> {
    let (line, rows) = text.split_once('\n').unwrap_or((text, ""));
    let mut count = 0u32;
    for row in rows.split('\n') {
        if !is_row(alloc, rings, line, row)? {
            return Ok(0);
        }
        count = count.saturating_add(1);
    }
    Ok(count)
}

// How many rows stand below the roles on some rings.
fn count_rings(alloc: Global, text: &str) -> Result<u32, Fail> {
    let (rings, all) = text.split_once("\nroles ").unwrap_or((text, ""));
    let rings = rings_of_text(alloc, rings.strip_prefix("rings ").unwrap_or(""))?;
    let mut count = 0u32;
    for roles in all.split("\nroles ") {
        count = count.saturating_add(count_rows(alloc, &rings, roles)?);
    }
    Ok(count)
}

#[test]
fn alerts_as_worked_by_hand(rt: HostRuntime) -> Result<(), Fail> {
    assert!(rt; count_rings(rt.alloc(), vectors::by_hand())? == 8);
    Ok(())
}

#[test]
fn alerts_as_computed_elsewhere(rt: HostRuntime) -> Result<(), Fail> {
    let mut count = 0u32;
    for text in vectors::computed().split("\n\n") {
        count = count.saturating_add(count_rings(rt.alloc(), text)?);
    }
    assert!(rt; count == 12);
    Ok(())
}

#[test]
fn alerts_of_crashed_and_deaf_targets(rt: HostRuntime) -> Result<(), Fail> {
    let rings = four(rt.alloc())?;
    let roles = Roles::given_mixed(rt.alloc(), 4, &[2], &[1], &[], &[], Dead::Silent)?;
    let wanted = "2.0 0.1 0.2 1.2 2.2 1.3";
    assert!(rt; are_alerts(rt.alloc(), &rings, &roles, wanted)?);
    Ok(())
}

#[test]
fn a_target_crashed_and_deaf_is_refused(rt: HostRuntime) -> Result<(), Fail> {
    let given = Roles::given_mixed(rt.alloc(), 4, &[1], &[1], &[], &[], Dead::Silent);
    assert!(rt; matches!(given, Err(RolesFault::BadRole)));
    assert!(rt; RolesFault::BadRole.to_string(rt.alloc())?.as_str() == "13 BadRole");
    Ok(())
}

// Targets, liars and links that are no roles of four processes.
const REFUSED: &str = "2; ; 2.1
; ; 1.1
4; ;
1; 1;
; ; 0.4
; ; 4.0
; 3 3;";

// Whether no roles of four processes are given by the lists of a line.
fn is_refused(alloc: Global, line: &str) -> bool {
    let given = roles_of(alloc, 4, line, (Faults::Crash, Dead::Silent));
    matches!(given, Err(RolesFault::BadRole))
}

#[test]
fn roles_that_are_refused(rt: HostRuntime) {
    for line in REFUSED.lines() {
        assert!(rt; is_refused(rt.alloc(), line), "{line}");
    }
}

// The roles of a cell, drawn and drawn once more.
fn drawn_twice(
    alloc: Global,
    plan: &Plan,
    cell: Cell,
    draws: &mut Draws,
    rings: &Rings,
) -> Result<Roles, AllocError>
    requires cell { IsCellOf plan.now cell }
    requires nodes { rings.now.nodes ≡ plan.now.nodes }
{
    let mut order = ProcessOrder::new(alloc);
    let mut roles = Roles::of_trial(alloc, plan, cell, draws, rings)?;
    roles.draw(plan, cell, draws, &mut order, rings)?;
    Ok(roles)
}

// Whether each process has the same role in both, and the dead do the same.
fn are_same(found: &Roles, wanted: &Roles) -> bool {
    let nodes = wanted.nodes();
    if found.nodes() != nodes {
        return false;
    }
    for process in 0..nodes {
        if found.role(process) != wanted.role(process) {
            return false;
        }
    }
    found.dead() == wanted.dead()
}

// Whether the roles that a trial of a plan's first cell draws are these.
fn are_drawn(alloc: Global, plan: &Plan, trial: u32, wanted: &Roles) -> Result<bool, AllocError> {
    if plan.cells() == 0 {
        return Ok(false);
    }
    let mut draws = Draws::new(plan.seed(), trial);
    let rings = Rings::hashed(alloc, plan)?;
    let found = drawn_twice(alloc, plan, plan.cell(0), &mut draws, &rings)?;
    Ok(are_same(&found, wanted))
}

// The roles that the lists of a line give the processes of a plan.
fn given(alloc: Global, plan: &Plan, line: &str) -> Result<Roles, RolesFault> {
    let faults = plan.faults().unwrap_or(Faults::Crash);
    roles_of(alloc, plan.nodes(), line, (faults, plan.dead()))
}

// Whether the roles that a trial of a text's plan draws are those of the lists after the trial's number.
fn is_drawn(alloc: Global, text: &str, row: &str) -> Result<bool, Fail> {
    let (trial, line) = row.split_once(": ").unwrap_or((row, ""));
    let plan = Plan::from_json(alloc, text.as_bytes())?;
    let wanted = given(alloc, &plan, line)?;
    let trial = trial.parse::<u32>().unwrap_or(0);
    Ok(are_drawn(alloc, &plan, trial, &wanted)?)
}
