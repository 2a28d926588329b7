ghost use Rattle.std.specs.Prelude.{◌≡◌, ℕ, ◌<◌, ◌≤◌, [], length, slice_index, All, OnOk, vec_capacity};
ghost use Rattle.cut_plan.specs.declared.limits.TheConstants.{MOST_NODES};
ghost use Rattle.cut_arrivals.specs.candidates.Candidates.{subjects_of};
ghost use Rattle.cut_arrivals.specs.receivers.Received.{reception_of, HasReceived, HasKept};
ghost use Rattle.cut_arrivals.specs.receivers.inside.Times.{AreReportedAt, AreStableAt, AreStableAtTo, AreLeast, AreCopies};

use crate::blocks::least_of;
use crate::lanes::{ProposalTime, compute_proposal_time};
use crate::receivers::Trial;
use crate::receivers::images::Images;
use crate::receivers::lanes::rows_of;
use std::alloc::{AllocError, Global};
use std::simd::u32x4;

/// How many values of a candidate there is room for: one for each ring.
const RINGS: usize = 32;

/// The times of four receivers, in memory that all receivers of a study share.
#[derive(Debug, Drop)]
pub struct Receivers {
    /// From when on each candidate is reported.
    pub reported_at: Vec<u32x4>,
    /// From when on each candidate is stable.
    pub stable_at: Vec<u32x4>,
    /// When each receiver proposes, and if that is in doubt.
    pub proposal_time: ProposalTime,
    /// The blocks of which images are kept.
    pub kept_blocks: Vec<u32>,
    /// Their images, one copy after another.
    pub kept: Vec<[u32x4; 8]>,
    pub(crate) images: Vec<[u32x4; 8]>,
    values: Vec<u32x4>,
}

impl Receivers {
    /// No times yet.
    pub fn new(alloc: Global) -> Receivers
        ensures reported_at { result.reported_at.items ≡ [] }
        ensures stable_at { result.stable_at.items ≡ [] }
    {
        let zero = u32x4::splat(0);
        Receivers {
            reported_at: Vec::new(alloc),
            stable_at: Vec::new(alloc),
            proposal_time: ProposalTime {
                first: zero,
                time: zero,
                doubt: 0,
            },
            kept_blocks: Vec::new(alloc),
            kept: Vec::new(alloc),
            images: Vec::new(alloc),
            values: Vec::new(alloc),
        }
    }

    /// Computes the times of four receivers, which may be the same.
    pub fn receive(&mut self, trial: Trial<'_>, receivers: [u16; 4]) -> Result<(), AllocError>
        requires receivers { All (λ j. j < MOST_NODES) receivers }
        requires some { 0 < length trial.candidates.now.candidates.items }
        ensures { OnOk result ((i : ℕ) → i < 4 → HasReceived (reception_of trial.entry (slice_index receivers i))
            (subjects_of trial.entry.candidates.now.candidates.items) i self.new) }
    {
        self.kept_blocks.clear();
        let rows = rows_of(receivers, 0);
        let blocks = trial.candidates.blocks.as_slice();
        trial
            .blocks
            .draw(&mut self.images, u32::from(trial.copies), rows, blocks)?;
        self.time_candidates(trial, receivers)
    }

    /// Does what [`receive`](Receivers::receive) does, and keeps the images of each copy, which
    /// [`places`](Receivers::places) then need not draw again.
    pub fn receive_copies(
        &mut self,
        trial: Trial<'_>,
        receivers: [u16; 4],
    ) -> Result<(), AllocError>
        requires receivers { All (λ j. j < MOST_NODES) receivers }
        requires some { 0 < length trial.candidates.now.candidates.items }
        ensures { OnOk result ((i : ℕ) → i < 4 → HasReceived (reception_of trial.entry (slice_index receivers i))
            (subjects_of trial.entry.candidates.now.candidates.items) i self.new) }
    {
        crate::blocks::laws::deliveries_stand_in_blocks();
        crate::blocks::laws::images_are_below_never();
        self.keep(trial, receivers)?;
        let kept = self.kept.as_slice();
        let blocks = self.kept_blocks.len();
        least_of(&mut self.images, kept, usize::from(trial.copies), blocks)?;
        self.time_candidates(trial, receivers)
    }

    /// Draws the images of each copy, and keeps them.
    fn keep(&mut self, trial: Trial<'_>, receivers: [u16; 4]) -> Result<(), AllocError>
        requires receivers { All (λ j. j < MOST_NODES) receivers }
        ensures blocks { OnOk result (self.new.kept_blocks.items ≡ trial.entry.candidates.now.blocks.items) }
        ensures kept { OnOk result (AreCopies trial.entry receivers trial.entry.copies self.new.kept.items) }
    {
        let blocks = trial.candidates.blocks.as_slice();
        self.kept_blocks.clear();
        self.kept_blocks.extend_from_slice(blocks)?;
        self.kept.clear();
        for copy in 0..trial.copies {
            let rows = rows_of(receivers, copy);
            trial.blocks.draw_more(&mut self.kept, 1, rows, blocks)?;
        }
        Ok(())
    }

    /// Computes the times of four receivers by the least images of their keys, which are drawn.
    fn time_candidates(&mut self, trial: Trial<'_>, receivers: [u16; 4]) -> Result<(), AllocError>
        requires some { 0 < length trial.candidates.now.candidates.items }
        requires drawn { AreLeast trial receivers self.old.images.items }
        requires kept { (i : ℕ) → i < 4 → HasKept (reception_of trial (slice_index receivers i)) i self.old }
        ensures { OnOk result ((i : ℕ) → i < 4 → HasReceived (reception_of trial.entry (slice_index receivers i))
            (subjects_of trial.entry.candidates.now.candidates.items) i self.new) }
    {
        self.reserve(trial.candidates.candidates.len())?;
        let images = Images {
            trial,
            receivers,
            drawn: self.images.as_slice(),
        };
        crate::proposals::laws::receivers_end_alike();
        rank(
            &images,
            &mut self.values,
            &mut self.reported_at,
            &mut self.stable_at,
        );
        gain(
            &images,
            &mut self.values,
            self.reported_at.as_slice(),
            &mut self.stable_at,
        );
        self.proposal_time = compute_proposal_time(
            self.reported_at.as_slice(),
            self.stable_at.as_slice(),
        );
        Ok(())
    }

    /// Makes room for the times of this many candidates.
    fn reserve(&mut self, candidates: usize) -> Result<(), AllocError>
        ensures reported_at { OnOk result (candidates ≤ vec_capacity self.new.reported_at) }
        ensures stable_at { OnOk result (candidates ≤ vec_capacity self.new.stable_at) }
        ensures values { OnOk result (32 ≤ vec_capacity self.new.values) }
        ensures images { self.new.images ≡ self.old.images }
        ensures kept { self.new.kept ≡ self.old.kept }
        ensures kept_blocks { self.new.kept_blocks ≡ self.old.kept_blocks }
    {
        self.reported_at.clear();
        self.reported_at.reserve(candidates)?;
        self.stable_at.clear();
        self.stable_at.reserve(candidates)?;
        self.values.clear();
        self.values.reserve(RINGS)
    }
}

/// From when on each candidate is reported, and from when on it is stable if it gains no ring.
fn rank(
    images: &Images<'_>,
    values: &mut Vec<u32x4>,
    reported_at: &mut Vec<u32x4>,
    stable_at: &mut Vec<u32x4>,
)
    requires values { 32 ≤ vec_capacity values.old }
    requires reported_at { length images.now.trial.candidates.now.candidates.items ≤ vec_capacity reported_at.old }
    requires stable_at { length images.now.trial.candidates.now.candidates.items ≤ vec_capacity stable_at.old }
    ensures values { vec_capacity values.new ≡ vec_capacity values.old }
    ensures reported_at { AreReportedAt images.now reported_at.new.items }
    ensures stable_at { AreStableAtTo images.now 0 stable_at.new.items }
{
    reported_at.clear();
    stable_at.clear();
    for candidate in &images.trial.candidates.candidates {
        let (low, high) = images.times(values, candidate);
        reported_at.push_reserved(low);
        stable_at.push_reserved(high);
    }
}

/// From when on each candidate is stable with the rings that it gains.
fn gain(
    images: &Images<'_>,
    values: &mut Vec<u32x4>,
    reported_at: &[u32x4],
    stable_at: &mut [u32x4],
)
    requires values { 32 ≤ vec_capacity values.old }
    requires reported_at { AreReportedAt images.now reported_at.now }
    requires stable_at { AreStableAtTo images.now 0 stable_at.old }
    ensures { AreStableAt images.now stable_at.new }
{
    for (place, candidate) in images.trial.candidates.candidates.iter().enumerate() {
        if candidate.gains {
            stable_at[place] = images.stable_from(
                values,
                reported_at,
                reported_at[place],
                candidate,
            );
        }
    }
}
