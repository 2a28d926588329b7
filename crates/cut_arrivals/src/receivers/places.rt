ghost use Rattle.std.specs.Prelude.{◌≡◌, ℕ, ◌+◌, ◌*◌, ◌^◌, ◌<◌, ◌≤◌, false, nat_lt, List, length, slice_index, count_by};
ghost use Rattle.std.specs.Prelude.{All, IfOk, IfSome, OnOk};
ghost use Rattle.cut_plan.specs.declared.limits.TheConstants.{MOST_NODES};
ghost use Rattle.cut_arrivals.specs.blocks.Images.{never};
ghost use Rattle.cut_arrivals.specs.proposals.Reception.{Reception, proposal_at};
ghost use Rattle.cut_arrivals.specs.candidates.KeyPlaces.{AreKeyPlaces};
ghost use Rattle.cut_arrivals.specs.receivers.Received.{reception_of, HasReceived};
ghost use Rattle.cut_arrivals.specs.receivers.LaneVerdicts.{has_bit};
ghost use Rattle.cut_arrivals.specs.receivers.Places.{HasCountedPlaces};
ghost use Rattle.cut_arrivals.specs.receivers.inside.Places.{image_in, reception_to, KnowsImages, AreImagesOf};

use crate::candidates::{KeyPlace, KeyPlaces};
use crate::receivers::deliveries::{Deliveries, Kept};
use crate::receivers::lane_verdict::has_bit;
use crate::receivers::lanes::{bits_of, counted, next_of, not_next, rows_of};
use crate::receivers::{Receivers, Trial};
use std::alloc::AllocError;
use std::simd::u32x4;

/// At which places among their deliveries four receivers propose.
#[derive(Clone, Copy, Debug)]
pub struct Places {
    /// How many deliveries have come when each receiver proposes.
    pub until: u32x4,
    /// A bit for each receiver: whether equal images leave its place open.
    pub doubt: u64,
}

impl Places {
    /// The place of the receiver in a lane.
    #[inline]
    pub fn at(self, lane: usize) -> u32
        requires { lane < 4 }
        ensures { result ≡ slice_index self.until lane }
    {
        self.until.to_array()[lane]
    }

    /// Whether equal images leave the place of the receiver in a lane open.
    #[inline]
    pub fn is_doubtful(self, lane: usize) -> bool
        requires { lane < 4 }
        ensures { result ≡ has_bit self.doubt lane }
    {
        has_bit(self.doubt, lane)
    }
}

impl Receivers {
    /// Counts the deliveries that have come when four receivers propose, by the key places of all alerted edges, for
    /// the receivers whose times were computed. Of images that are kept none is drawn again. A place is in doubt
    /// exactly if the receiver's proposal time is not the image of exactly one delivery, so also where it never
    /// proposes. Fails only if memory runs out.
    pub fn places(
        &mut self,
        trial: Trial<'_>,
        receivers: [u16; 4],
        key_places: &KeyPlaces,
    ) -> Result<Places, AllocError>
        requires receivers { All (λ j. j < MOST_NODES) receivers }
        requires key_places { AreKeyPlaces trial.rule.k key_places.now.blocks.items trial.edges.now
            key_places.now.key_places.items }
        requires few { length trial.edges.now ≤ 2 ^ 16 }
        ensures places { IfOk result (λ p. (i : ℕ) (subjects : List ℕ) → i < 4
            → HasReceived (reception_of trial.entry (slice_index receivers i)) subjects i self.old
            → has_bit self.old.proposal_time.doubt i ≡ false → has_bit p.doubt i ≡ false
            → IfSome (proposal_at (reception_of trial.entry (slice_index receivers i)))
            (λ q. q.at ≡ slice_index p.until i)) }
        ensures counted { IfOk result (λ p. (i : ℕ) (subjects : List ℕ) → i < 4
            → HasReceived (reception_of trial.entry (slice_index receivers i)) subjects i self.old
            → HasCountedPlaces (reception_of trial.entry (slice_index receivers i))
            (slice_index self.old.proposal_time.time i) i p) }
        ensures four { IfOk result (λ p. p.doubt < 2 ^ 4) }
        ensures same { (x : Reception) (subjects : List ℕ) (i : ℕ) → HasReceived x subjects i self.old
            → HasReceived x subjects i self.new }
        ensures proposal_time { self.new.proposal_time ≡ self.old.proposal_time }
    {
        crate::proposals::laws::images_give_the_place();
        let kept = self.kept.as_slice();
        let blocks = self.kept_blocks.as_slice();
        let deliveries = Deliveries {
            trial,
            receivers,
            key_places,
            kept: kept_for(kept, blocks, trial.copies, key_places),
        };
        deliveries.count(self.proposal_time.time, &mut self.images)
    }
}

impl Deliveries<'_, '_, '_> {
    /// Counts the deliveries whose images are at most a time, drawing images in place of what the list held.
    fn count(&self, time: u32x4, images: &mut Vec<[u32x4; 8]>) -> Result<Places, AllocError>
        ensures counted { IfOk result (λ p. (i : ℕ) → i < 4 → KnowsImages self.now i → slice_index time i ≤ never
            → HasCountedPlaces (reception_to self.now i) (slice_index time i) i p) }
        ensures four { IfOk result (λ p. p.doubt < 2 ^ 4) }
    {
        crate::blocks::laws::deliveries_stand_in_blocks();
        let next = next_of(time);
        let mut until = u32x4::splat(0);
        let mut before = u32x4::splat(0);
        for copy in 0..self.trial.copies {
            self.draw(images, copy)?;
            let key_places = self.key_places.key_places.as_slice();
            let more = count(until, images.as_slice(), key_places, next);
            until = more;
            let more = count(before, images.as_slice(), key_places, time);
            before = more;
        }
        let doubt = bits_of(not_next(before, until));
        Ok(Places { until, doubt })
    }

    /// The images of a copy, in place of what the list held: those that are known, and those of the other blocks, which
    /// are drawn.
    fn draw(&self, images: &mut Vec<[u32x4; 8]>, copy: u8) -> Result<(), AllocError>
        requires { copy < self.now.trial.copies }
        ensures many { OnOk result (length images.new.items ≡ length self.now.key_places.now.blocks.items) }
        ensures each { OnOk result ((i : ℕ) → i < 4 → KnowsImages self.now i
            → AreImagesOf (reception_to self.now i) copy i self.now.key_places.now.blocks.items images.new.items) }
    {
        crate::blocks::laws::images_are_below_never();
        let Kept {
            images: kept,
            blocks,
            known,
        } = self.kept;
        let (_, copies) = kept.split_at(usize::from(copy) * blocks);
        let (first, _) = copies.split_at(known);
        let (_, others) = self.key_places.blocks.split_at(known);
        images.clear();
        images.extend_from_slice(first)?;
        let rows = rows_of(self.receivers, copy);
        self.trial.blocks.draw_more(images, 1, rows, others)?;
        Ok(())
    }
}

/// The images that are kept of some blocks, if there are as many as these copies have.
fn kept_for<'a>(
    kept: &'a [[u32x4; 8]],
    blocks: &[u32],
    copies: u8,
    key_places: &KeyPlaces,
) -> Kept<'a>
    ensures whole { copies * result.blocks ≤ length result.images.now }
    ensures known { result.known ≤ result.blocks }
    ensures first { result.known ≤ length key_places.now.blocks.items }
    ensures same { (b : ℕ) → b < result.known
        → slice_index key_places.now.blocks.items b ≡ slice_index blocks.now b }
    ensures kept { 0 < result.known → (result.images.now ≡ kept.now) × (result.blocks ≡ length blocks.now) }
{
    if blocks.len().checked_mul(usize::from(copies)) != Some(kept.len()) {
        return Kept {
            images: &[],
            blocks: 0,
            known: 0,
        };
    }
    Kept {
        images: kept,
        blocks: blocks.len(),
        known: common_len(blocks, key_places.blocks.as_slice()),
    }
}

/// How many numbers two lists have in common before they first differ.
fn common_len(left: &[u32], right: &[u32]) -> usize
    ensures left { result ≤ length left.now }
    ensures right { result ≤ length right.now }
    ensures same { (i : ℕ) → i < result → slice_index right.now i ≡ slice_index left.now i }
{
    let mut len = 0;
    while len < left.len() && len < right.len() && left[len] == right[len] {
        len += 1;
    }
    len
}

/// A count, and one more for each key place whose image is below a bound.
fn count(old: u32x4, images: &[[u32x4; 8]], key_places: &[KeyPlace], bound: u32x4) -> u32x4
    requires within { All (λ key_place. key_place.block < length images.now) key_places.now }
    requires keys { All (λ key_place. key_place.key < 8) key_places.now }
    requires few { (i : ℕ) → i < 4 → slice_index old i + length key_places.now < 2 ^ 32 }
    ensures { (i : ℕ) → i < 4 → slice_index result i ≡ slice_index old i
        + count_by (λ key_place. nat_lt (image_in images.now i key_place) (slice_index bound i)) key_places.now }
{
    let mut sum = old;
    for key_place in key_places {
        let image = images[usize::from(key_place.block)][usize::from(key_place.key)];
        let more = counted(sum, image, bound);
        sum = more;
    }
    sum
}
