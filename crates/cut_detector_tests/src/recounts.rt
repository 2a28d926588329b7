//! A second detector, which keeps the set of what was delivered and counts for each process anew after each delivery.

use crate::detectors::is_replayed;
use crate::texts::{edges_of, four};
use cut_rings::{Edge, Rings};
use rand_chacha::ChaCha8Rng;
use rand_core::SeedableRng;
use rand_core::utils::NextWord;
use std::alloc::{AllocError, Global};
use std::test::Fail;

// The observers of the processes 0 to 3 on the rings 0 1 2 3, 0 2 1 3 and 0 3 2 1: on each the one before.
const OBSERVERS: [u16; 12] = [3, 0, 1, 2, 3, 2, 0, 1, 1, 2, 3, 0];

// Where an edge stands in a table of all.
fn place(ring: u8, subject: u16) -> usize {
    usize::from(ring) * 4 + usize::from(subject)
}

// What a receiver knows, and by which rule it proposes.
#[derive(Clone, Copy)]
struct Recount {
    h: u8,
    l: u8,
    implicit: bool,
    delivered: [bool; 12],
}

impl Recount {
    // Whether an edge was delivered.
    fn has(&self, ring: u8, subject: u16) -> bool {
        self.delivered.get(place(ring, subject)) == Some(&true)
    }

    // Whether a process is reported on at least L rings.
    fn is_reported(&self, subject: u16) -> bool {
        let rings = (0..3u8).filter(|ring| self.has(*ring, subject));
        rings.count() >= usize::from(self.l)
    }

    // Whether a ring counts for a process: it is reported there, or its observer is reported as it is itself.
    fn is_full(&self, ring: u8, subject: u16) -> bool {
        let observer = OBSERVERS.get(place(ring, subject)).copied().unwrap_or(0);
        let is_implicit = self.implicit && self.is_reported(subject) && self.is_reported(observer);
        self.has(ring, subject) || is_implicit
    }

    // How many rings count for a process.
    fn count(&self, subject: u16) -> usize {
        (0..3u8).filter(|ring| self.is_full(*ring, subject)).count()
    }

    // Whether some process is stable, and none unstable.
    fn is_settled(&self) -> bool {
        let (h, l) = (usize::from(self.h), usize::from(self.l));
        (0..4u16).any(|subject| self.count(subject) >= h)
            && (0..4u16).all(|subject| self.count(subject) >= h || self.count(subject) < l)
    }

    // The stable processes and a place, as they are written.
    fn proposal(&self, alloc: Global, at: usize) -> Result<String, AllocError> {
        let mut text = String::new(alloc);
        for subject in 0..4u16 {
            if self.count(subject) >= usize::from(self.h) {
                write!(text, "{subject} ")?;
            }
        }
        write!(text, "at {at}")?;
        Ok(text)
    }
}

// What a recount proposes of these deliveries, as it is written.
fn recounted(
    alloc: Global,
    edges: &[Edge],
    (h, l, implicit): (u8, u8, bool),
) -> Result<String, AllocError> {
    let mut recount = Recount {
        h,
        l,
        implicit,
        delivered: [false; 12],
    };
    for (index, edge) in edges.iter().enumerate() {
        if let Some(has) = recount.delivered.get_mut(place(edge.ring, edge.subject)) {
            *has = true;
        }
        if recount.is_settled() {
            return recount.proposal(alloc, index.saturating_add(1));
        }
    }
    String::from_str(alloc, "none")
}

// Whether a detector takes the steps that a recount does, and proposes the same, by each rule.
fn is_recounted(alloc: Global, rings: &Rings, edges: &[Edge]) -> Result<bool, AllocError> {
    for (h, l) in [(1, 1), (2, 1), (2, 2), (3, 1), (3, 2), (3, 3)] {
        for implicit in [false, true] {
            let rule = (h, l, implicit);
            let wanted = recounted(alloc, edges, rule)?;
            if !is_replayed(alloc, rings, edges, rule, &wanted)? {
                return Ok(false);
            }
        }
    }
    Ok(true)
}

// The 24 edges of a list that is drawn.
fn drawn(alloc: Global, list: u64) -> Result<Vec<Edge>, AllocError> {
    let mut words = ChaCha8Rng::from_seed([0; 32]);
    words.set_stream(list);
    let mut edges = Vec::with_capacity(alloc, 24)?;
    for _ in 0..24 {
        let number = words.next_word() % 12;
        edges.push(Edge {
            ring: (number % 3) as u8,
            subject: (number / 3) as u16,
        })?;
    }
    Ok(edges)
}

#[test]
fn drawn_deliveries_are_recounted(rt: HostRuntime) -> Result<(), Fail> {
    let rings = four(rt.alloc())?;
    for list in 0..1000 {
        assert!(rt;
            is_recounted(rt.alloc(), &rings, &drawn(rt.alloc(), list)?)?,
            "{list}"
        );
    }
    Ok(())
}

// Deliveries that were worked by hand.
const WORKED: &str = "0.1 1.1 2.1 0.2
1.2 2.2 0.1
0.2 1.2 2.2
0.1 0.1 0.1
0.1 1.1 2.1 0.2 1.3 2.0
0.2 0.1 1.1 2.1 1.3 2.0";

#[test]
fn worked_deliveries_are_recounted(rt: HostRuntime) -> Result<(), Fail> {
    let rings = four(rt.alloc())?;
    for row in WORKED.lines() {
        assert!(rt;
            is_recounted(rt.alloc(), &rings, &edges_of(rt.alloc(), row)?)?,
            "{row}"
        );
    }
    Ok(())
}
