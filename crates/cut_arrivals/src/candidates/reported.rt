ghost use Rattle.std.specs.Prelude.{◌≡◌, ◌||◌, ◌+◌, ◌^◌, ◌<◌, ◌≤◌, ℕ, List, length, filter, nat_le, is_some, IfOk};
ghost use Rattle.std.specs.Prelude.{OnOk, IsTrue};
ghost use Rattle.std.specs.List.{range_with_len, list_any};
ghost use Rattle.cut_rings.specs.Edges.{set_of, rings_to, edges_in};
ghost use Rattle.cut_rings.specs.Layout.{IsLayout};
ghost use Rattle.cut_detector.specs.Rule.{rule_in};
ghost use Rattle.cut_detector.specs.Counts.{is_reported, is_full};
ghost use Rattle.cut_arrivals.specs.candidates.KeyPlaces.{AreKeyPlaces};
ghost use Rattle.cut_arrivals.specs.candidates.inside.KeyPlaces.{Extends};
ghost use Rattle.cut_arrivals.specs.candidates.inside.Runs.{first_on};

use crate::candidates::key_places::{consecutive_from, key_places_among};
use crate::candidates::runs::run_len;
use crate::candidates::{Candidate, Candidates, Cause, KeyPlace};
use cut_detector::Rule;
use cut_rings::{Edge, Rings};
use std::alloc::{AllocError, Global};

/// The processes that the alerts of a trial report together, and what they gain by: the rings, the rule and the alerts.
#[derive(Drop)]
pub(crate) struct Reported<'a> {
    pub rings: &'a Rings,
    pub rule: Rule,
    pub edges: &'a [Edge],
    pub subjects: &'a [u16],
    ghost layout: { IsLayout rings.now },
    ghost rings_enough: { rule.k ≤ length rings.now.positions },
    ghost ascending: { edges.now ≡ edges_in rule.k rings.now.nodes (set_of edges.now) },
    ghost all: { subjects.now
        ≡ filter (λ s. is_reported (rule_in rule) (set_of edges.now) s) (range_with_len 0 rings.now.nodes) },
}

impl<'a> Reported<'a> {
    ghost use Rattle.cut_arrivals.specs.candidates.Candidates.{IsCandidate, AreCandidatesOf};
    ghost use Rattle.cut_arrivals.specs.candidates.inside.Reported.{alerts_of, rule_of_reported, IsRunOfCandidates, IsGain};
    ghost use Rattle.cut_arrivals.specs.candidates.inside.Reported.{AreCauses};
    ghost use Rattle.cut_arrivals.specs.candidates.inside.Reported.{HasListed};

    /// The candidates.
    pub fn candidates(&self, alloc: Global) -> Result<Candidates, AllocError>
        ensures { IfOk result (λ x. AreCandidatesOf self.now.rings.now (rule_of_reported self.now) self.now.edges.now
            x) }
    {
        let mut candidates = Candidates {
            candidates: Vec::with_capacity(alloc, self.subjects.len())?,
            blocks: Vec::new(alloc),
            ends_stable: false,
        };
        let mut rest = self.edges;
        for subject in 0..self.rings.nodes() {
            let (first, others) = rest.split_at(run_len(rest, subject));
            self.add(alloc, &mut candidates, subject, first)?;
            rest = others;
        }
        candidates.ends_stable = some_ends_stable(candidates.candidates.as_slice(), self.rule);
        Ok(candidates)
    }

    /// Adds a process with these alerts to the candidates, where they report it.
    fn add(
        &self,
        alloc: Global,
        candidates: &mut Candidates,
        subject: u16,
        edges: &[Edge],
    ) -> Result<(), AllocError>
        requires run { IsRunOfCandidates self.now subject edges.now }
        requires room { length candidates.old.blocks.items + length edges.now ≤ 2 ^ 16 }
        requires listed { HasListed self.now subject candidates.old.blocks.items candidates.old.candidates.items }
        ensures listed { OnOk result
            (HasListed self.now (subject + 1) candidates.new.blocks.items candidates.new.candidates.items) }
        ensures room { OnOk result
            (length candidates.new.blocks.items ≤ length candidates.old.blocks.items + length edges.now) }
    {
        if !self.rule.is_reported(edges.len() as u32) {
            return Ok(());
        }
        let candidate = self.candidate(alloc, &mut candidates.blocks, subject, edges)?;
        candidates.candidates.push(candidate)?;
        Ok(())
    }

    /// The candidate of a process with these alerts.
    fn candidate(
        &self,
        alloc: Global,
        blocks: &mut Vec<u32>,
        subject: u16,
        edges: &[Edge],
    ) -> Result<Candidate, AllocError>
        requires run { IsRunOfCandidates self.now subject edges.now }
        requires reported { IsTrue (is_reported (rule_of_reported self.now) (alerts_of self.now) subject) }
        requires room { length blocks.old.items + length edges.now ≤ 2 ^ 16 }
        ensures subject { IfOk result (λ d. d.subject ≡ subject) }
        ensures candidate { IfOk result (λ d. IsCandidate self.now.rings.now (rule_of_reported self.now)
            (alerts_of self.now)
            blocks.new.items self.now.subjects.now d) }
        ensures blocks { OnOk result (Extends blocks.old.items (length edges.now) blocks.new.items) }
    {
        let heard = key_places_among(alloc, blocks, &[], self.rule.k, edges)?;
        let causes = self.causes(alloc, subject, edges, heard.as_slice())?;
        let gains = is_some_gained(causes.as_slice());
        let consecutive_from = consecutive_from(heard.as_slice());
        Ok(Candidate {
            subject,
            heard,
            consecutive_from,
            causes,
            gains,
        })
    }

    /// The causes of a reported process with these alerts, whose keys stand in these key places.
    fn causes(
        &self,
        alloc: Global,
        subject: u16,
        edges: &[Edge],
        key_places: &[KeyPlace],
    ) -> Result<Vec<Cause>, AllocError>
        requires run { IsRunOfCandidates self.now subject edges.now }
        requires reported { IsTrue (is_reported (rule_of_reported self.now) (alerts_of self.now) subject) }
        requires key_places { length key_places.now ≡ length edges.now }
        ensures { IfOk result (λ causes. (blocks : List ℕ) → AreKeyPlaces self.now.rule.k blocks edges.now
            key_places.now →
            AreCauses self.now blocks
            (rings_to self.now.rule.k
            (is_full self.now.rings.now (rule_of_reported self.now) (alerts_of self.now)) subject)
            subject causes.items) }
    {
        let mut causes = Vec::new(alloc);
        let mut edges_left = edges;
        let mut key_places_left = key_places;
        for ring in 0..self.rule.k {
            let heard = first_on(ring, edges_left, key_places_left);
            let gained = self.gained(ring, subject);
            let count = usize::from(heard.is_some());
            let (_, other_edges) = edges_left.split_at(count);
            let (_, other_key_places) = key_places_left.split_at(count);
            edges_left = other_edges;
            key_places_left = other_key_places;
            if !is_cause(heard, gained) {
                continue;
            }
            causes.push(Cause { heard, gained })?;
        }
        Ok(causes)
    }

    /// The place among the reported of the observer that a reported process gains a ring by, if it gains the ring.
    fn gained(&self, ring: u8, subject: u16) -> Option<u16>
        requires ring { ring < self.now.rule.k }
        requires subject { subject < self.now.rings.now.nodes }
        requires reported { IsTrue (is_reported (rule_of_reported self.now) (alerts_of self.now) subject) }
        ensures { IsGain self.now.rings.now (rule_of_reported self.now) (alerts_of self.now)
            self.now.subjects.now ring subject result }
    {
        if !self.rule.implicit {
            return None;
        }
        let observer = self.rings.observer(ring, subject);
        match self.subjects.binary_search(&observer) {
            Ok(place) => Some(place as u16),
            Err(_) => None,
        }
    }
}

/// The key place of the first of some edges, if that is on this ring.
fn first_on(ring: u8, edges: &[Edge], key_places: &[KeyPlace]) -> Option<KeyPlace>
    ensures { result ≡ first_on ring edges.now key_places.now }
{
    match (edges, key_places) {
        ([edge, ..], [key_place, ..]) if edge.ring == ring => Some(*key_place),
        _ => None,
    }
}

/// Whether an alert or a gain is there.
fn is_cause(heard: Option<KeyPlace>, gained: Option<u16>) -> bool
    ensures { result ≡ (is_some heard || is_some gained) }
{
    heard.is_some() || gained.is_some()
}

/// Whether some cause is a gain.
fn is_some_gained(causes: &[Cause]) -> bool
    ensures { result ≡ list_any (λ c. is_some c.gained) causes.now }
{
    causes.iter().any(|cause| cause.gained.is_some())
}

/// Whether at least H rings count for some candidate.
fn some_ends_stable(candidates: &[Candidate], rule: Rule) -> bool
    ensures { result ≡ list_any (λ d. nat_le rule.h (length d.causes.items)) candidates.now }
{
    candidates
        .iter()
        .any(|candidate| usize::from(rule.h) <= candidate.causes.len())
}
