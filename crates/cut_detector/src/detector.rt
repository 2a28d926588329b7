ghost use Rattle.std.specs.Prelude.{◌≡◌, ◌+◌, ◌≤◌, ◌<◌, ◌^◌, ◌↔◌, ◌∷◌, ◌++◌, [], List, length, option_map, IfOk};
ghost use Rattle.std.specs.Prelude.{IfSome, IsSome, IsNone, IsTrue};
ghost use Rattle.cut_rings.specs.declared.edge.Edge.{Edge};
ghost use Rattle.cut_rings.specs.Edges.{first_of, is_edge_of, are_edges_of};
ghost use Rattle.cut_detector.specs.Rule.{rule_of};
ghost use Rattle.cut_detector.specs.Proposal.{proposal_of};
ghost use Rattle.cut_detector.specs.State.{fresh, HasDelivered, TakesEdge};

use crate::reports::Reports;
use crate::rule::Rule;
use crate::{Members, Proposal, Step};
use cut_rings::{Edge, Rings};
use std::alloc::{AllocError, Global};
use std::marker::Model;

/// A process's cut detection: the alerts delivered to it, and what it proposes. Contracts see its
/// rings and rule, its set of edges, its number of deliveries and its proposal.
#[derive(Debug, Drop)]
pub struct Detector<'a> {
    reports: Reports<'a>,
    deliveries: u64,
    members: Vec<u16>,
}

impl<'a> Model for Detector<'a> {
    ghost use Rattle.cut_detector.specs.State.{DetectorState};

    ghost Value = { DetectorState };

    ghost use Rattle.cut_detector.specs.inside.Inside.{state_of, IsDetector};

    ghost view = { state_of };

    ghost invariant = { IsDetector };
}

impl<'a> Detector<'a> {
    /// A detector over the first `k` rings, to which nothing has been delivered. `k`, the high
    /// watermark `h` and the low watermark `l` are K, H and L of the Rapid paper's section on
    /// multi-process cut detection, with 1 ≤ L ≤ H ≤ K. `implicit` adds implicit alerts, by this
    /// project's profile. All memory that deliveries need is reserved here.
    pub fn new(
        alloc: Global,
        rings: &'a Rings,
        k: u8,
        h: u8,
        l: u8,
        implicit: bool,
    ) -> Result<Detector<'a>, AllocError>
        requires low { 1 ≤ l }
        requires thresholds { l ≤ h }
        requires high { h ≤ k }
        requires rings { k ≤ length rings.now.positions }
        ensures made { IfOk result (λ d. d ≡ fresh rings.now (rule_of k h l implicit)) }
        ensures empty { IfOk result (λ d. HasDelivered d []) }
    {
        let members = Vec::with_capacity(alloc, usize::from(rings.nodes()))?;
        let rule = Rule { k, h, l, implicit };
        let reports = Reports::new(alloc, rings, rule)?;
        Ok(Detector {
            reports,
            deliveries: 0,
            members,
        })
    }

    /// Delivers an alert's edge, one of the rule's rings and of the processes. It proposes at the first
    /// delivery after which some process is stable and none is unstable (the Rapid paper's section on
    /// multi-process cut detection). From then on deliveries change nothing. It counts below 2^63
    /// deliveries, this project's profile.
    pub fn deliver(&mut self, edge: Edge) -> Step
        requires within { IsTrue (is_edge_of self.old.rule.k self.old.layout.nodes edge) }
        requires few { self.old.deliveries < 2 ^ 63 }
        ensures step { (result ≡ Step.Settled) ↔ IsSome self.new.proposal }

        // With a proposal nothing changes; without one the delivery counts.
        ensures settled { IsSome self.old.proposal → self.new ≡ self.old }
        ensures taken { IsNone self.old.proposal → TakesEdge self.old self.new edge }
        ensures layout { self.new.layout ≡ self.old.layout }
        ensures rule { self.new.rule ≡ self.old.rule }
        ensures counted { self.new.deliveries ≤ self.old.deliveries + 1 }
        ensures history { (delivered : List Edge) → HasDelivered self.old delivered →
            HasDelivered self.new (delivered ++ edge ∷ []) }
    {
        if self.reports.is_settled() {
            return Step::Settled;
        }
        self.deliveries += 1;
        self.reports.add(edge);
        if !self.reports.is_settled() {
            return Step::Waiting;
        }
        self.reports.gather(&mut self.members);
        Step::Settled
    }

    /// A copy of the proposal, `None` if there is none yet.
    pub fn proposal(&self, alloc: Global) -> Result<Option<Proposal>, AllocError>
        ensures { IfOk result (λ p. p ≡ self.now.proposal) }
    {
        if !self.reports.is_settled() {
            return Ok(None);
        }
        let members = Members::from_vec(Vec::from_slice(alloc, self.members.as_slice())?);
        Ok(Some(Proposal {
            members,
            at: self.deliveries,
        }))
    }

    /// The members of the proposal, ascending, `None` if there is none yet.
    pub fn members(&self) -> Option<&[u16]>
        ensures { option_map (λ s. s.now) result ≡ option_map (λ p. p.members) self.now.proposal }
    {
        if self.reports.is_settled() {
            Some(self.members.as_slice())
        } else {
            None
        }
    }

    /// How many edges were delivered since it was made or reset, up to the place of the proposal if there is one.
    pub fn deliveries(&self) -> u64
        ensures value { result ≡ self.now.deliveries }
        ensures place { IfSome self.now.proposal (λ p. p.at ≡ result) }
    {
        self.deliveries
    }

    /// Forgets all deliveries and the proposal.
    pub fn reset(&mut self)
        ensures fresh { self.new ≡ fresh self.old.layout self.old.rule }
        ensures empty { HasDelivered self.new [] }
    {
        self.reports.clear();
        self.deliveries = 0;
    }
}

/// The proposal of a process to which these edges are delivered in order, if it makes one. `k`, `h`,
/// `l` and `implicit` are those of `Detector::new`.
pub fn replay(
    alloc: Global,
    rings: &Rings,
    k: u8,
    h: u8,
    l: u8,
    implicit: bool,
    edges: &[Edge],
) -> Result<Option<Proposal>, AllocError>
    requires low { 1 ≤ l }
    requires thresholds { l ≤ h }
    requires high { h ≤ k }
    requires rings { k ≤ length rings.now.positions }
    requires within { IsTrue (are_edges_of k rings.now.nodes edges.now) }
    ensures { IfOk result
        (λ p. p ≡ proposal_of rings.now (rule_of k h l implicit) (first_of edges.now) (length edges.now)) }
{
    let mut detector = Detector::new(alloc, rings, k, h, l, implicit)?;
    for edge in edges {
        let _ = detector.deliver(*edge);
    }
    detector.proposal(alloc)
}
