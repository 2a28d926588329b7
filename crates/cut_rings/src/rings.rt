ghost use Rattle.std.specs.Prelude.{◌≡◌, ◌<◌, ◌≤◌, ◌⊎◌, ◌↔◌, [], map, length, IfOk, OnOk, IsErrOf, All, Any};
ghost use Rattle.cut_plan.specs.declared.limits.TheConstants.{MOST_NODES};
ghost use Rattle.cut_plan.specs.Cells.{largest};
ghost use Rattle.cut_rings.specs.Layout.{IsLayout, Observes, observer_of, subject_of};
ghost use Rattle.cut_rings.specs.Listed.{listed_layout};
ghost use Rattle.cut_lists.specs.Ranked.{IsOrder};
ghost use Rattle.cut_rings.specs.Hashed.{hashed_layout};

use crate::RingsFault;
use crate::hashed::{hashed_ring, ring_count};
use crate::listed::{are_orders, listed_rings};
use crate::ring::Ring;
use cut_plan::Plan;
use std::alloc::{AllocError, Global};
use std::marker::Model;

/// The observer rings of a study. Contracts see them as the table of each process's position on each
/// ring.
#[derive(Debug, Drop)]
pub struct Rings {
    nodes: u16,
    rings: Vec<Ring>,
}

impl Model for Rings {
    ghost use Rattle.cut_rings.specs.Layout.{Layout};

    ghost Value = { Layout };

    ghost use Rattle.cut_rings.specs.inside.Inside.{layout_of, AreRings};

    ghost view = { layout_of };

    ghost invariant = { AreRings };
}

impl Rings {
    /// The rings of a plan: as many as its largest k, each in ascending order of the SHA-256 digest of seed, ring
    /// number and process number (this project's profile, over FIPS 180-4).
    pub fn hashed(alloc: Global, plan: &Plan) -> Result<Rings, AllocError>
        ensures { IfOk result
            (λ r. r ≡ hashed_layout plan.now.seed plan.now.nodes (largest plan.now.k)) }
    {
        let nodes = plan.nodes();
        let seed = plan.seed();
        let count = ring_count(plan);
        let mut rings = Vec::with_capacity(alloc, usize::from(count))?;
        for ring in 0..count {
            rings.push(hashed_ring(alloc, &seed, ring, nodes)?)?;
        }
        Ok(Rings { nodes, rings })
    }

    /// The rings that lists of the processes 0 to n - 1 give: the position of a process on a ring is its index in that
    /// ring's list. Too few processes or lists are reported first, then a list that does not hold each process once.
    /// Both take no memory.
    pub fn from_lists(alloc: Global, n: u16, lists: &[Vec<u16>]) -> Result<Rings, RingsFault>
        requires few_nodes { n ≤ MOST_NODES }
        requires few_lists { length lists.now ≤ 32 }
        ensures layout { IfOk result (λ r. r ≡ listed_layout n (map (λ list. list.items) lists.now)) }
        ensures each_once { OnOk result (All (λ list. IsOrder n list.items) lists.now) }
        ensures too_few { IsErrOf result RingsFault.TooFew ↔ ((n < 2) ⊎ (lists.now ≡ [])) }
        ensures not_permutation { IsErrOf result RingsFault.NotPermutation ↔
            ((2 ≤ n) × (0 < length lists.now) × Any (λ list. ¬ IsOrder n list.items) lists.now) }
    {
        if n < 2 || lists.is_empty() {
            return Err(RingsFault::TooFew);
        }
        if !are_orders(n, lists) {
            return Err(RingsFault::NotPermutation);
        }
        let rings = listed_rings(alloc, n, lists)?;
        Ok(Rings { nodes: n, rings })
    }

    /// The process that observes `subject` on a ring: the one before it, cyclically (the Rapid paper).
    pub fn observer(&self, ring: u8, subject: u16) -> u16
        requires ring { ring < length self.now.positions }
        requires subject { subject < self.now.nodes }
        ensures value { result ≡ observer_of self.now ring subject }
        ensures observes { Observes self.now ring result subject }
        ensures in_range { result < self.now.nodes }
    {
        let ring = &self.rings[ring as usize];
        let place = ring.positions[subject as usize];
        let before = if place == 0 {
            self.nodes - 1
        } else {
            place - 1
        };
        ring.order[before as usize]
    }

    /// The process that `observer` observes on a ring: the one after it, cyclically (the Rapid paper).
    pub fn subject(&self, ring: u8, observer: u16) -> u16
        requires ring { ring < length self.now.positions }
        requires observer { observer < self.now.nodes }
        ensures value { result ≡ subject_of self.now ring observer }
        ensures observes { Observes self.now ring observer result }
        ensures in_range { result < self.now.nodes }
    {
        let ring = &self.rings[ring as usize];
        let place = ring.positions[observer as usize];
        let after = if place + 1 == self.nodes {
            0
        } else {
            place + 1
        };
        ring.order[after as usize]
    }

    /// How many rings there are, 1 to 32.
    pub fn len(&self) -> u8
        ensures value { result ≡ length self.now.positions }
        ensures layout { IsLayout self.now }
    {
        self.rings.len() as u8
    }

    /// How many processes each ring has, 2 to 2048.
    pub fn nodes(&self) -> u16
        ensures value { result ≡ self.now.nodes }
        ensures layout { IsLayout self.now }
    {
        self.nodes
    }
}
