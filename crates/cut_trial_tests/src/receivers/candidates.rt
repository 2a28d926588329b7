//! Candidates beside a recount of the same alerts, and key places beside ones that were written by hand.

use cut_arrivals::candidates::{Candidate, Candidates, Cause, KeyPlace, KeyPlaces};
use cut_detector::Rule;
use cut_rings::{Edge, Rings, RingsFault};
use std::alloc::{AllocError, Global};
use std::test::Fail;

const PROCESSES: u16 = 6;

const RINGS: u8 = 4;

/// The processes in their order on each ring.
const ORDERS: [[u16; 6]; 4] = [
    [0, 1, 2, 3, 4, 5],
    [3, 0, 5, 1, 4, 2],
    [2, 4, 0, 1, 5, 3],
    [5, 3, 1, 4, 2, 0],
];

macro_rules! alert {
    ($subject:expr, $ring:expr) => {
        Edge {
            ring: $ring,
            subject: $subject,
        }
    };
}

/// One process with all alerts, one with none, and others in between.
const ALERTS: [Edge; 12] = [
    alert!(0, 0),
    alert!(0, 1),
    alert!(0, 2),
    alert!(0, 3),
    alert!(1, 1),
    alert!(1, 3),
    alert!(2, 2),
    alert!(4, 0),
    alert!(4, 1),
    alert!(4, 3),
    alert!(5, 0),
    alert!(5, 3),
];

/// The lists of the orders.
fn lists(alloc: Global) -> Result<Vec<Vec<u16>>, AllocError> {
    let mut lists: Vec<Vec<u16>> = Vec::new(alloc);
    for order in &ORDERS {
        lists.push(Vec::from_slice(alloc, order)?)?;
    }
    Ok(lists)
}

fn rings(alloc: Global) -> Result<Rings, RingsFault> {
    let lists = lists(alloc)?;
    if lists.len() > 32 {
        return Err(RingsFault::TooFew);
    }
    Rings::from_lists(alloc, PROCESSES, &lists)
}

fn is_alerted(subject: u16, ring: u8) -> bool {
    ALERTS
        .iter()
        .any(|edge| edge.subject == subject && edge.ring == ring)
}

fn is_reported(rule: Rule, subject: u16) -> bool {
    (0..RINGS).filter(|ring| is_alerted(subject, *ring)).count() >= usize::from(rule.l)
}

/// The process before a subject in the order of a ring.
fn observer(ring: u8, subject: u16) -> u16 {
    let order = &ORDERS[usize::from(ring % RINGS)];
    let mut before = order[5];
    for process in order {
        if *process == subject {
            return before;
        }
        before = *process;
    }
    before
}

/// The observer that a reported process gains a ring by.
fn gained(rule: Rule, ring: u8, subject: u16) -> Option<u16> {
    let observer = observer(ring, subject);
    if rule.implicit && is_reported(rule, observer) {
        return Some(observer);
    }
    None
}

/// The rings that count for a process.
fn full_rings(rule: Rule, subject: u16) -> usize {
    let is_full = |ring: u8| {
        is_alerted(subject, ring)
            || (is_reported(rule, subject) && gained(rule, ring, subject).is_some())
    };
    (0..RINGS).filter(|ring| is_full(*ring)).count()
}

/// The number of the key that a key place names.
fn number(blocks: &[u32], key_place: KeyPlace) -> Option<u32> {
    let block = blocks.get(usize::from(key_place.block))?;
    Some(
        block
            .saturating_mul(8)
            .saturating_add(u32::from(key_place.key)),
    )
}

/// Whether a key place is there if its ring is alerted, and is that of the ring's edge.
fn is_key_place(blocks: &[u32], key_place: Option<KeyPlace>, subject: u16, ring: u8) -> bool {
    match key_place {
        Some(key_place) => {
            let wanted = u32::from(subject) * u32::from(RINGS) + u32::from(ring);
            is_alerted(subject, ring) && number(blocks, key_place) == Some(wanted)
        }
        None => !is_alerted(subject, ring),
    }
}

/// Whether a cause is that of a ring.
fn is_cause(candidates: &Candidates, cause: &Cause, rule: Rule, subject: u16, ring: u8) -> bool {
    let observer = match cause.gained {
        Some(place) => candidates
            .candidates
            .get(usize::from(place))
            .map(|candidate| candidate.subject),
        None => None,
    };
    is_key_place(candidates.blocks.as_slice(), cause.heard, subject, ring)
        && observer == gained(rule, ring, subject)
}

/// Whether the key places and the causes of a candidate are those of its rings, in their order.
fn is_candidate(candidates: &Candidates, candidate: &Candidate, rule: Rule) -> bool {
    let subject = candidate.subject;
    let mut heard = candidate.heard.iter();
    let mut causes = candidate.causes.iter();
    let mut gains = false;
    for ring in 0..RINGS {
        let is_gained = gained(rule, ring, subject).is_some();
        gains = gains || is_gained;
        if is_alerted(subject, ring) {
            let key_place = heard.next().copied();
            if key_place.is_none()
                || !is_key_place(candidates.blocks.as_slice(), key_place, subject, ring)
            {
                return false;
            }
        }
        if is_alerted(subject, ring) || is_gained {
            match causes.next() {
                Some(cause) if is_cause(candidates, cause, rule, subject, ring) => {}
                _ => return false,
            }
        }
    }
    heard.next().is_none() && causes.next().is_none() && candidate.gains == gains
}

/// Whether candidates are those of a recount by a rule.
fn are_recounted(candidates: &Candidates, rule: Rule) -> bool {
    let mut left = candidates.candidates.iter();
    for subject in 0..PROCESSES {
        if !is_reported(rule, subject) {
            continue;
        }
        match left.next() {
            Some(candidate)
                if candidate.subject == subject && is_candidate(candidates, candidate, rule) => {}
            _ => return false,
        }
    }
    let ends_stable = (0..PROCESSES).any(|subject| full_rings(rule, subject)
        >= usize::from(rule.h));
    left.next().is_none() && candidates.ends_stable == ends_stable
}

#[test]
fn nodes_are_recounted_by_each_rule(rt: HostRuntime) -> Result<(), Fail> {
    let alloc = rt.alloc();
    let rings = rings(alloc)?;
    assert!(rt; rings.len() == RINGS && rings.nodes() == PROCESSES);
    for h in 1..RINGS + 1 {
        for l in 1..h + 1 {
            for implicit in [false, true] {
                let rule = Rule {
                    k: RINGS,
                    h,
                    l,
                    implicit,
                };
                let candidates = Candidates::of(alloc, &rings, rule, &ALERTS)?;
                assert!(rt; are_recounted(&candidates, rule), "{h} {l} {implicit}");
            }
        }
    }
    Ok(())
}

/// Whether key places are of these blocks and keys.
fn are_key_places(key_places: &[KeyPlace], wanted: &[(u16, u8)]) -> bool {
    for (key_place, (block, key)) in key_places.iter().zip(wanted) {
        if key_place.block != *block || key_place.key != *key {
            return false;
        }
    }
    key_places.len() == wanted.len()
}

#[test]
fn slots_of_edges_in_any_order(rt: HostRuntime) -> Result<(), Fail> {
    let edges = [
        alert!(0, 0),
        alert!(2, 1),
        alert!(2, 2),
        alert!(7, 2),
        alert!(0, 0),
    ];
    let KeyPlaces { blocks, key_places } = KeyPlaces::of(rt.alloc(), 3, &edges)?;
    assert!(rt; blocks.as_slice() == [0, 1, 2, 0].as_slice());
    assert!(rt; are_key_places(&key_places, &[(0, 0), (0, 7), (1, 0), (2, 7), (3, 0)]));
    Ok(())
}

#[test]
fn slots_after_given_blocks(rt: HostRuntime) -> Result<(), Fail> {
    let edges = [
        alert!(0, 0),
        alert!(2, 1),
        alert!(2, 2),
        alert!(7, 2),
        alert!(0, 0),
    ];
    let KeyPlaces { blocks, key_places } = KeyPlaces::after(rt.alloc(), &[1, 4], 3, &edges)?;
    assert!(rt; blocks.as_slice() == [1, 4, 0, 2, 0].as_slice());
    assert!(rt; are_key_places(&key_places, &[(2, 0), (2, 7), (0, 0), (3, 7), (4, 0)]));
    Ok(())
}
