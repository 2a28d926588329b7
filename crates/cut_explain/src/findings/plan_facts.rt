//! What there is to say of an accepted plan.

use cut_outcome::quorum;
use cut_plan::{Plan, Version};
use std::alloc::{AllocError, Global};

/// How many trials a piece has if nothing else is asked for.
const PIECE: u32 = 16;

/// Adds the numbers of a plan's cells and trials, its quorum, the values that stand in no cell, in how many cells no
/// trial can be right, and the greatest numbers of keys and of bytes in the checkpoint.
pub fn describe_plan(alloc: Global, out: &mut String, plan: &Plan) -> Result<(), AllocError> {
    writeln!(out, "cells {}", plan.cells())?;
    writeln!(out, "trials {}", plan.trials())?;
    writeln!(out, "quorum {}", quorum(plan.nodes()))?;
    list_unused(out, plan)?;
    count_never_right(out, plan)?;
    writeln!(out, "keys drawn: at most {}", most_keys(plan))?;
    let bytes = most_bytes(alloc, plan)?;
    writeln!(
        out,
        "checkpoint: at most {bytes} bytes, in pieces of {PIECE} trials"
    )
}

/// Lists the values of k, h and l that stand in no cell.
fn list_unused(out: &mut String, plan: &Plan) -> Result<(), AllocError> {
    let least_l = plan.l().first().copied().unwrap_or(0);
    let most_k = plan.k().last().copied().unwrap_or(0);
    for rings in plan.k() {
        if !has_between(plan.h(), least_l, *rings) {
            writeln!(
                out,
                "k {rings}: in no cell, since no l and h have l <= h <= {rings}"
            )?;
        }
    }
    for high in plan.h() {
        if *high < least_l || most_k < *high {
            writeln!(
                out,
                "h {high}: in no cell, since no l and k have l <= {high} <= k"
            )?;
        }
    }
    for low in plan.l() {
        if !has_between(plan.h(), *low, most_k) {
            writeln!(
                out,
                "l {low}: in no cell, since no h and k have {low} <= h <= k"
            )?;
        }
    }
    Ok(())
}

/// Whether some number is at least `least` and at most `most`.
fn has_between(numbers: &[u8], least: u8, most: u8) -> bool {
    numbers
        .iter()
        .any(|number| least <= *number && *number <= most)
}

/// Says in how many cells no trial can be right. If none fails, each proposal has a member. With l = h each proposal
/// has one member, so none has all failed processes if two or more fail. If more fail than a quorum can lack, nothing
/// is decided.
fn count_never_right(out: &mut String, plan: &Plan) -> Result<(), AllocError> {
    let cells = plan.cells();
    let most = plan.nodes().saturating_sub(quorum(plan.nodes()));
    let [none, narrow, few] = never_right(plan, most);
    if none > 0 {
        writeln!(
            out,
            "right: 0 in {none} of {cells} cells, where none fails, and each proposal has a member"
        )?;
    }
    if narrow > 0 {
        writeln!(
            out,
            "right: 0 in {narrow} of {cells} cells, where l = h, so that each proposal has one member, and two fail or more"
        )?;
    }
    if few > 0 {
        writeln!(
            out,
            "decided and right: 0 in {few} of {cells} cells, where more than {most} fail, so that no quorum is left"
        )?;
    }
    Ok(())
}

/// In how many cells none fails, in how many l = h and two fail or more, and in how many more than `most` fail.
fn never_right(plan: &Plan, most: u16) -> [u32; 3] {
    let (mut none, mut narrow, mut few) = (0u32, 0u32, 0u32);
    for number in 0..plan.cells() {
        let cell = plan.cell(number);
        if cell.f == 0 {
            none = none.saturating_add(1);
        }
        if cell.l == cell.h && cell.f >= 2 {
            narrow = narrow.saturating_add(1);
        }
        if cell.f > most {
            few = few.saturating_add(1);
        }
    }
    [none, narrow, few]
}

/// How many keys order the processes and the deliveries of all trials, at most.
///
/// A trial has a key for each process, and each of its receivers, which are the processes that have not failed, has one
/// for each copy of each alert. On each of the k rings there is at most one alert about each target, one by each deaf
/// target, one by each liar and one for each cut link, and no more alerts than processes.
fn most_keys(plan: &Plan) -> u64 {
    let nodes = u64::from(plan.nodes());
    let copies = u64::from(plan.copies());
    let mut keys = 0u64;
    for number in 0..plan.cells() {
        let cell = plan.cell(number);
        let receivers = nodes.saturating_sub(u64::from(cell.f));
        let alerts = most_alerts(plan, cell.f).saturating_mul(u64::from(cell.k));
        let deliveries = receivers.saturating_mul(alerts).saturating_mul(copies);
        keys = keys.saturating_add(nodes.saturating_add(deliveries));
    }
    keys.saturating_mul(u64::from(plan.repeats()))
}

/// How many alerts there are on one ring, at most, if this number of processes fails. Of two processes each observes
/// the other, so that there are two alerts for a link that is cut between them.
fn most_alerts(plan: &Plan, failed: u16) -> u64 {
    let nodes = u64::from(plan.nodes());
    if nodes == 2 {
        return nodes;
    }
    let alerted = [failed, plan.deaf_of(failed), plan.liars(), plan.links()];
    let alerts = alerted
        .iter()
        .fold(0u64, |sum, count| sum.saturating_add(u64::from(*count)));
    alerts.min(nodes)
}

/// How many bytes a plan's checkpoint has in the end, at most: the gate, the header and its digest, a slip for each
/// piece, and the gate after the last.
fn most_bytes(alloc: Global, plan: &Plan) -> Result<u64, AllocError> {
    let header = 46u64.saturating_add(plan.canonical(alloc)?.len() as u64);
    let slip = match plan.version() {
        Version::One => 105u64,
        Version::Two => 113u64,
    };
    let pieces = u64::from(plan.repeats().div_ceil(PIECE)).saturating_mul(u64::from(plan.cells()));
    Ok(header.saturating_add(pieces.saturating_mul(slip)))
}
