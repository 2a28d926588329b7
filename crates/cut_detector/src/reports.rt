ghost use Rattle.std.specs.Prelude.{◌≡◌, ◌<◌, ◌≤◌, IfOk, length, replicate, vec_len, vec_capacity};
ghost use Rattle.cut_rings.specs.Layout.{IsLayout};
ghost use Rattle.cut_detector.specs.Rule.{rule_in};
ghost use Rattle.cut_detector.specs.Counts.{is_settled, stable_members};
ghost use Rattle.cut_detector.specs.inside.Gains.{HoldsFull};
ghost use Rattle.cut_detector.specs.Masks.{edges_in};
ghost use Rattle.cut_detector.specs.inside.Masks.{with_edge};

use crate::gains::Gains;
use crate::masks::Masks;
use crate::rule::Rule;
use crate::tally::Tally;
use cut_rings::{Edge, Rings};
use std::alloc::{AllocError, Global};

/// The reported edges, and the rings that count by them, with implicit alerts.
#[derive(Debug, Drop)]
pub struct Reports<'a> {
    pub rings: &'a Rings,
    pub reported: Masks,
    pub tally: Tally,
    ghost layout: { IsLayout rings.now },
    ghost rings_enough: { tally.rule.k ≤ length rings.now.positions },
    ghost same_rings: { reported.k ≡ tally.rule.k },
    ghost reported_long: { vec_len reported.masks ≡ rings.now.nodes },
    ghost full_long: { vec_len tally.full.masks ≡ rings.now.nodes },
    ghost full: { HoldsFull rings.now (rule_in tally.rule) reported.masks.items tally.full.masks.items },
}

impl<'a> Reports<'a> {
    /// No reported edge.
    pub fn new(alloc: Global, rings: &'a Rings, rule: Rule) -> Result<Reports<'a>, AllocError>
        requires { rule.k ≤ length rings.now.positions }
        ensures rings { IfOk result (λ r. r.rings.now ≡ rings.now) }
        ensures rule { IfOk result (λ r. r.tally.rule ≡ rule) }
        ensures reported { IfOk result (λ r. r.reported.masks.items ≡ replicate rings.now.nodes 0) }
    {
        let nodes = rings.nodes();
        let reported = Masks::new(alloc, nodes, rule.k)?;
        let tally = Tally::new(alloc, nodes, rule)?;
        Ok(Reports {
            rings,
            reported,
            tally,
        })
    }

    /// Reports an edge.
    pub fn add(&mut self, edge: Edge)
        requires ring { edge.ring < self.old.tally.rule.k }
        requires subject { edge.subject < self.old.rings.now.nodes }
        ensures rings { self.new.rings.now ≡ self.old.rings.now }
        ensures rule { self.new.tally.rule ≡ self.old.tally.rule }
        ensures reported { self.new.reported.masks.items ≡ with_edge self.old.reported.masks.items edge }
    {
        let rule = self.tally.rule;
        self.reported.add(edge);
        if self.tally.add(edge) {
            let gains = Gains {
                rings: self.rings,
                rule,
                reported: &self.reported,
            };
            gains.enter(&mut self.tally, edge.subject);
        }
    }

    /// Whether some process is stable and none is unstable.
    #[tactic(auto, using(crate::proofs::Settling::settled_is))]
    pub fn is_settled(&self) -> bool
        ensures { result ≡
            is_settled self.now.rings.now (rule_in self.now.tally.rule) (edges_in self.now.reported.masks.items) }
    {
        self.tally.is_settled()
    }

    /// Replaces the content of `members`, which has room, by the stable processes, ascending.
    #[tactic(auto, using(crate::proofs::Settling::members_are))]
    pub fn gather(&self, members: &mut Vec<u16>)
        requires { self.now.rings.now.nodes ≤ vec_capacity members.old }
        ensures members { members.new.items ≡
            stable_members self.now.rings.now (rule_in self.now.tally.rule) (edges_in self.now.reported.masks.items) }
        ensures room { vec_capacity members.old ≤ vec_capacity members.new }
    {
        self.tally.gather(members);
    }

    /// Forgets all reported edges.
    pub fn clear(&mut self)
        ensures rings { self.new.rings.now ≡ self.old.rings.now }
        ensures rule { self.new.tally.rule ≡ self.old.tally.rule }
        ensures reported { self.new.reported.masks.items ≡ replicate self.old.rings.now.nodes 0 }
    {
        self.reported.clear(&self.tally.touched);
        self.tally.clear();
    }
}
