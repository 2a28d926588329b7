ghost use Rattle.std.specs.Prelude.{◌≡◌, ◌<◌, ◌≤◌, length, vec_len, cond, IsTrue};
ghost use Rattle.cut_rings.specs.declared.edge.Edge.{Edge};
ghost use Rattle.cut_rings.specs.Layout.{IsLayout};

use crate::masks::Masks;
use crate::rule::Rule;
use crate::tally::Tally;
use cut_rings::{Edge, Rings};

/// What implicit alerts depend on: the rings, the rule and the reported edges.
#[derive(Drop)]
pub struct Gains<'a> {
    pub rings: &'a Rings,
    pub rule: Rule,
    pub reported: &'a Masks,
    ghost layout: { IsLayout rings.now },
    ghost rings_enough: { rule.k ≤ length rings.now.positions },
    ghost long: { vec_len reported.now.masks ≡ rings.now.nodes },
    ghost same_rings: { reported.now.k ≡ rule.k },
}

impl<'a> Gains<'a> {
    ghost use Rattle.cut_detector.specs.Counts.{is_reported};
    ghost use Rattle.cut_detector.specs.inside.Masks.{with_edge};
    ghost use Rattle.cut_detector.specs.inside.Gains.{rule_of_gains, reported_in, IsTallyFor, AddsGains};

    /// Whether a process is reported on at least L rings.
    #[tactic(auto, unfolding(crate::specs::Counts::is_reported))]
    fn is_reported(&self, process: u16) -> bool
        requires { process < self.now.rings.now.nodes }
        ensures { result ≡ is_reported (rule_of_gains self.now) (reported_in self.now) process }
    {
        self.rule.is_reported(self.reported.count(process))
    }

    /// Adds the edge's ring to those of its subject, if the process is reported.
    fn gain(&self, tally: &mut Tally, edge: Edge, process: u16)
        requires edge { (edge.ring < self.now.rule.k) × (edge.subject < self.now.rings.now.nodes) }
        requires process { process < self.now.rings.now.nodes }
        requires tally { IsTallyFor self.now tally.old }
        ensures rule { tally.new.rule ≡ tally.old.rule }
        ensures full { tally.new.full.masks.items ≡
            cond (is_reported (rule_of_gains self.now) (reported_in self.now) process)
            (with_edge tally.old.full.masks.items edge) tally.old.full.masks.items }
    {
        if self.is_reported(process) {
            tally.add(edge);
        }
    }

    /// Adds the rings that a reported process gains, and those that its subjects gain from it.
    pub fn enter(&self, tally: &mut Tally, process: u16)
        requires process { process < self.now.rings.now.nodes }
        requires reported { IsTrue (is_reported (rule_of_gains self.now) (reported_in self.now) process) }
        requires tally { IsTallyFor self.now tally.old }
        ensures rule { tally.new.rule ≡ tally.old.rule }
        ensures long { vec_len tally.new.full.masks ≡ vec_len tally.old.full.masks }
        ensures full { AddsGains self.now process tally.old.full.masks.items tally.new.full.masks.items }
    {
        if !self.rule.implicit {
            return;
        }
        for ring in 0..self.rule.k {
            let observer = self.rings.observer(ring, process);
            let subject = self.rings.subject(ring, process);
            let own = Edge {
                ring,
                subject: process,
            };
            self.gain(tally, own, observer);
            self.gain(tally, Edge { ring, subject }, subject);
        }
    }
}
