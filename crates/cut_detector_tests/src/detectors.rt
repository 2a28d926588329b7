ghost use Rattle.std.specs.Prelude.{◌≡◌, IsTrue};
ghost use Rattle.cut_rings.specs.Edges.{are_edges_of};

use crate::edges::all_within;
use crate::texts::{edges_of, four, rings_of_text};
use cut_detector::{Detector, Proposal, Step, replay};
use cut_rings::{Edge, Rings, RingsFault};
use std::alloc::{AllocError, Global};
use std::test::Fail;

mod vectors;

// H, L and whether implicit alerts are on, as they are written.
fn rule_of(text: &str) -> (u8, u8, bool) {
    let (h, rest) = text.split_once(' ').unwrap_or((text, ""));
    let (l, word) = rest.split_once(' ').unwrap_or((rest, ""));
    let h = h.parse::<u8>().unwrap_or(0);
    let l = l.parse::<u8>().unwrap_or(0);
    (h, l, word == "on")
}

// Whether numbers are those of a text.
fn are_numbers(numbers: &[u16], text: &str) -> bool {
    for (number, word) in numbers.iter().zip(text.split_whitespace()) {
        if word.parse::<u16>().unwrap_or(u16::MAX) != *number {
            return false;
        }
    }
    numbers.len() == text.split_whitespace().count()
}

// Whether a text says what is proposed.
fn is_reported(found: &Option<Proposal>, wanted: &str) -> bool {
    match found {
        Some(proposal) => {
            let (members, at) = wanted.split_once(" at ").unwrap_or((wanted, ""));
            are_numbers(proposal.members.as_slice(), members)
                && at.parse::<u64>().unwrap_or(0) == proposal.at
        }
        None => wanted == "none",
    }
}

// Whether a detector waits at each delivery before this place, and is settled from there on.
fn is_settled_from(at: u64, detector: &mut Detector<'_>, edges: &[Edge]) -> bool
    requires within { IsTrue (are_edges_of detector.old.rule.k detector.old.layout.nodes edges.now) }
    requires fresh { detector.old.deliveries ≡ 0 }
    ensures rule { detector.new.rule ≡ detector.old.rule }
    ensures layout { detector.new.layout ≡ detector.old.layout }
{
    let mut place = 0u64;
    let mut is_right = true;
    for edge in edges {
        let step = detector.deliver(*edge);
        place = place.saturating_add(1);
        is_right &= (step == Step::Settled) == (at <= place);
    }
    is_right
}

// Whether a text says what is proposed after these deliveries by a rule, at once and step by step.
pub(crate) fn is_replayed(
    alloc: Global,
    rings: &Rings,
    edges: &[Edge],
    (h, l, implicit): (u8, u8, bool),
    wanted: &str,
) -> Result<bool, AllocError> {
    let k = rings.len();
    if l < 1 || h < l || k < h || !all_within(k, rings.nodes(), edges) {
        return Ok(false);
    }
    let mut detector = Detector::new(alloc, rings, k, h, l, implicit)?;
    let found = replay(alloc, rings, k, h, l, implicit, edges)?;
    let at = found.as_ref().map_or(u64::MAX, |proposal| proposal.at);
    Ok(is_settled_from(at, &mut detector, edges) && is_reported(&found, wanted))
}

// Whether a detector with h 3 and l 1 proposes at the third of some deliveries and waits at all of others, to which it is
// reset.
fn is_reset(
    alloc: Global,
    rings: &Rings,
    settling: &[Edge],
    waiting: &[Edge],
) -> Result<bool, AllocError> {
    let (k, nodes) = (rings.len(), rings.nodes());
    if k < 3 || !all_within(k, nodes, settling) || !all_within(k, nodes, waiting) {
        return Ok(false);
    }
    let mut detector = Detector::new(alloc, rings, k, 3, 1, false)?;
    let is_settled = is_settled_from(3, &mut detector, settling);
    detector.reset();
    let waits = is_settled_from(u64::MAX, &mut detector, waiting);
    Ok(is_settled && waits && detector.proposal(alloc)?.is_none())
}

#[test]
fn a_reset_forgets_what_was_delivered(rt: HostRuntime) -> Result<(), Fail> {
    let rings = four(rt.alloc())?;
    let settling = edges_of(rt.alloc(), "0.1 1.1 2.1 0.2")?;
    let waiting = edges_of(rt.alloc(), "0.1 0.1 0.1")?;
    assert!(rt; is_reset(rt.alloc(), &rings, &settling, &waiting)?);
    Ok(())
}

// How many rows stand below a list of deliveries, 0 where one is false.
fn count_rows(alloc: Global, rings: &Rings, text: &str) -> Result<u32, AllocError> {
    let (list, rows) = text.split_once('\n').unwrap_or((text, ""));
    let edges = edges_of(alloc, list)?;
    let mut count = 0u32;
    for row in rows.split('\n') {
        let (rule, wanted) = row.split_once(": ").unwrap_or((row, ""));
        if !is_replayed(alloc, rings, &edges, rule_of(rule), wanted)? {
            return Ok(0);
        }
        count = count.saturating_add(1);
    }
    Ok(count)
}

// How many rows stand below the lists of deliveries on some rings.
fn count_rings(alloc: Global, text: &str) -> Result<u32, RingsFault> {
    let (rings, lists) = text.split_once("\ndeliveries ").unwrap_or((text, ""));
    let rings = rings_of_text(alloc, rings.strip_prefix("rings ").unwrap_or(""))?;
    let mut count = 0u32;
    for list in lists.split("\ndeliveries ") {
        count = count.saturating_add(count_rows(alloc, &rings, list)?);
    }
    Ok(count)
}

#[test]
fn proposes_as_worked_by_hand(rt: HostRuntime) -> Result<(), Fail> {
    assert!(rt; count_rings(rt.alloc(), vectors::by_hand())? == 84);
    Ok(())
}

#[test]
fn proposes_as_computed_elsewhere(rt: HostRuntime) -> Result<(), Fail> {
    let mut count = 0u32;
    for text in vectors::computed().split("\n\n") {
        count = count.saturating_add(count_rings(rt.alloc(), text)?);
    }
    assert!(rt; count == 228);
    Ok(())
}

// Puts six alerts into the order that has this number, of 720: for each place, which of those left stands there.
fn reorder(edges: &mut [Edge], number: usize) {
    let mut rest = number;
    for place in 0..6 {
        let other = place + rest % (6 - place);
        if other < edges.len() {
            edges.swap(place, other);
        }
        rest /= 6 - place;
    }
}

// Whether process 1 is proposed at a delivery, with implicit alerts and without.
fn are_both(alloc: Global, rings: &Rings, edges: &[Edge], at: usize) -> Result<bool, AllocError> {
    let wanted = format!(in alloc; "1 at {at}")?;
    let without = is_replayed(alloc, rings, edges, (3, 2, false), &wanted)?;
    Ok(without && is_replayed(alloc, rings, edges, (3, 2, true), &wanted)?)
}

// Whether the last alert about process 1 in an order of these is the one that settles it.
fn is_last(alloc: Global, rings: &Rings, text: &str, number: usize) -> Result<bool, AllocError> {
    let mut edges = edges_of(alloc, text)?;
    reorder(&mut edges, number);
    let last = edges.iter().rposition(|edge| edge.subject == 1);
    are_both(alloc, rings, &edges, last.unwrap_or(0).saturating_add(1))
}

// Of these alerts only those about process 1 come on two rings or more, so in each order it is proposed with the
// last of its three.
#[test]
fn no_order_matters_above_the_low_watermark(rt: HostRuntime) -> Result<(), Fail> {
    let rings = four(rt.alloc())?;
    for number in 0..720 {
        assert!(rt; is_last(rt.alloc(), &rings, "0.1 1.1 2.1 0.2 1.3 2.0", number)?);
    }
    Ok(())
}

// Whether a receiver of these alerts proposes without process 1 or without process 2.
fn is_conflict(
    alloc: Global,
    rings: &Rings,
    edges: &[Edge],
    (h, l, implicit): (u8, u8, bool),
) -> Result<bool, AllocError> {
    let k = rings.len();
    if l < 1 || h < l || k < h || !all_within(k, rings.nodes(), edges) {
        return Ok(false);
    }
    let found = replay(alloc, rings, k, h, l, implicit, edges)?;
    Ok(found.is_some_and(|proposal| proposal.members.as_slice() != [1, 2].as_slice()))
}

// In how many of the 720 orders of three alerts about each of two processes a receiver is in conflict.
fn conflicts(alloc: Global, rings: &Rings, rule: (u8, u8, bool)) -> Result<usize, AllocError> {
    let mut count = 0usize;
    for number in 0..720 {
        let mut edges = edges_of(alloc, "0.1 1.1 2.1 0.2 1.2 2.2")?;
        reorder(&mut edges, number);
        if is_conflict(alloc, rings, &edges, rule)? {
            count = count.saturating_add(1);
        }
    }
    Ok(count)
}

// As the exact shares of all orders say, which are 2/5, 1/10 and 2/5.
#[test]
fn conflicts_of_all_orders_are_counted(rt: HostRuntime) -> Result<(), Fail> {
    let rings = four(rt.alloc())?;
    for implicit in [false, true] {
        assert!(rt; conflicts(rt.alloc(), &rings, (2, 1, implicit))? == 288);
        assert!(rt; conflicts(rt.alloc(), &rings, (3, 1, implicit))? == 72);
        assert!(rt; conflicts(rt.alloc(), &rings, (3, 2, implicit))? == 288);
    }
    Ok(())
}
