//! From when on candidates are reported and stable at four receivers, by images.
ghost use Rattle.std.specs.Prelude.{◌≡◌, ℕ, ◌<◌, ◌≤◌, false, All, map, length, slice_index, vec_capacity};
ghost use Rattle.cut_arrivals.specs.blocks.Images.{never};
ghost use Rattle.cut_arrivals.specs.ranks.Ranks.{IsRank};
ghost use Rattle.cut_arrivals.specs.lanes.Lanes.{lane};
ghost use Rattle.cut_arrivals.specs.proposals.Reception.{lows_at};
ghost use Rattle.cut_arrivals.specs.candidates.Candidates.{AreCandidatesWithin, cause_in};
ghost use Rattle.cut_arrivals.specs.receivers.inside.Times.{reception_in, subjects_in, IsCandidateOf, AreReportedAt};
ghost use Rattle.cut_arrivals.specs.receivers.inside.Times.{AreReportedAtAnd, IsHigh};
ghost use Rattle.cut_arrivals.specs.receivers.inside.Times.{time_of_cause, AreKeyImages};

use crate::blocks::NEVER;
use crate::candidates::{Candidate, Cause};
use crate::lanes::select;
use crate::proposals::laws;
use crate::receivers::images::Images;
use crate::receivers::lanes::earlier;
use cut_detector::Rule;
use std::simd::u32x4;

impl Images<'_> {
    /// From when on a candidate is reported, and from when on it is stable if it gains no ring.
    #[inline(always)]
    pub fn times(&self, values: &mut Vec<u32x4>, candidate: &Candidate) -> (u32x4, u32x4)
        requires candidate { IsCandidateOf self.now.trial candidate.now }
        requires room { 32 ≤ vec_capacity values.old }
        ensures low { (i : ℕ) → i < 4
            → slice_index result.0 i ≡ lows_at (reception_in self.now i) never candidate.now.subject }
        ensures high { candidate.now.gains ≡ false → IsHigh self.now candidate.now.subject result.1 }
        ensures capacity { vec_capacity values.new ≡ vec_capacity values.old }
    {
        let key_places = candidate.heard.as_slice();
        match candidate.consecutive_from {
            Some(first) => self.times_by(candidate, self.consecutive(first, key_places)),
            None => {
                self.gather(values, key_places);
                self.times_by(candidate, values.as_slice())
            }
        }
    }

    /// The same, by the images of the candidate's alerts.
    #[inline(always)]
    fn times_by(&self, candidate: &Candidate, heard: &[u32x4]) -> (u32x4, u32x4)
        requires candidate { IsCandidateOf self.now.trial candidate.now }
        requires heard { AreKeyImages self.now candidate.now.heard.items heard.now }
        ensures low { (i : ℕ) → i < 4
            → slice_index result.0 i ≡ lows_at (reception_in self.now i) never candidate.now.subject }
        ensures high { candidate.now.gains ≡ false → IsHigh self.now candidate.now.subject result.1 }
    {
        laws::images_stand_in_blocks();
        laws::few_values_give_lows_and_highs();
        ranks(self.trial.rule, heard)
    }

    /// From when on a candidate is stable with the rings that it gains, by the lows of all candidates and its own.
    #[inline(always)]
    pub fn stable_from(
        &self,
        values: &mut Vec<u32x4>,
        reported_at: &[u32x4],
        low: u32x4,
        candidate: &Candidate,
    ) -> u32x4
        requires candidate { IsCandidateOf self.now.trial candidate.now }
        requires reported_at { AreReportedAtAnd self.now candidate.now.subject low reported_at.now }
        requires room { 32 ≤ vec_capacity values.old }
        ensures high { IsHigh self.now candidate.now.subject result }
        ensures capacity { vec_capacity values.new ≡ vec_capacity values.old }
    {
        laws::images_stand_in_blocks();
        laws::few_values_give_lows_and_highs();
        self.gather_counted(values, reported_at, low, candidate);
        let (_, high) = ranks(self.trial.rule, values.as_slice());
        high
    }

    /// From when on each ring that counts for a candidate in the end does so, in place of what the list held.
    #[inline(always)]
    fn gather_counted(
        &self,
        values: &mut Vec<u32x4>,
        reported_at: &[u32x4],
        low: u32x4,
        candidate: &Candidate,
    )
        requires candidate { IsCandidateOf self.now.trial candidate.now }
        requires reported_at { AreReportedAtAnd self.now candidate.now.subject low reported_at.now }
        requires room { 32 ≤ vec_capacity values.old }
        ensures times { (i : ℕ) → i < 4 → lane i values.new.items
            ≡ map (λ c. time_of_cause (reception_in self.now i) candidate.now.subject
            (cause_in self.now.trial.candidates.now.blocks.items (subjects_in self.now) c)) candidate.now.causes.items }
        ensures many { length values.new.items ≡ length candidate.now.causes.items }
        ensures capacity { vec_capacity values.new ≡ vec_capacity values.old }
    {
        values.clear();
        for cause in &candidate.causes {
            values.push_reserved(self.counted_from(reported_at, low, *cause));
        }
    }

    /// From when on a ring counts for a candidate that is reported from `low` on.
    #[inline(always)]
    fn counted_from(&self, reported_at: &[u32x4], low: u32x4, cause: Cause) -> u32x4
        requires cause { AreCandidatesWithin self.now.trial.candidates.now.blocks.items (subjects_in self.now) cause }
        requires reported_at { AreReportedAt self.now reported_at.now }
        ensures { (i s : ℕ) → i < 4 → slice_index low i ≡ lows_at (reception_in self.now i) never s
            → slice_index result i ≡ time_of_cause (reception_in self.now i) s
            (cause_in self.now.trial.candidates.now.blocks.items (subjects_in self.now) cause) }
    {
        let image = match cause.heard {
            Some(key_place) => self.image(key_place),
            None => u32x4::splat(NEVER),
        };
        match cause.gained {
            Some(place) => earlier(image, low, reported_at[usize::from(place)]),
            None => image,
        }
    }
}

/// The ranks of times that make a candidate reported and stable.
fn ranks(rule: Rule, times: &[u32x4]) -> (u32x4, u32x4)
    requires few { length times.now ≤ 32 }
    requires times { (i : ℕ) → i < 4 → All (λ x. x ≤ never) (lane i times.now) }
    ensures low { (i : ℕ) → i < 4 → IsRank never rule.l (lane i times.now) (slice_index result.0 i) }
    ensures high { (i : ℕ) → i < 4 → IsRank never rule.h (lane i times.now) (slice_index result.1 i) }
{
    select(times, u32::from(rule.l), u32::from(rule.h))
}
