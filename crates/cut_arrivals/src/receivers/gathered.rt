//! Images of the keys of alerts, as they are drawn.
ghost use Rattle.std.specs.Prelude.{◌≡◌, ℕ, ◌<◌, ◌≤◌, All, length, slice_index, vec_capacity};
ghost use Rattle.cut_arrivals.specs.candidates.KeyPlaces.{key_in, AreConsecutive};
ghost use Rattle.cut_arrivals.specs.receivers.inside.Times.{reception_in, image_of_key, AreKeyImages};

use crate::candidates::KeyPlace;
use crate::receivers::images::Images;
use std::simd::u32x4;

impl Images<'_> {
    /// The images that stand in a key place.
    #[inline(always)]
    pub fn image(&self, key_place: KeyPlace) -> u32x4
        requires block { key_place.block < length self.now.trial.candidates.now.blocks.items }
        requires key { key_place.key < 8 }
        ensures { (i : ℕ) → i < 4 → slice_index result i
            ≡ image_of_key (reception_in self.now i) (key_in self.now.trial.candidates.now.blocks.items key_place) }
    {
        self.drawn[usize::from(key_place.block)][usize::from(key_place.key)]
    }

    /// The images that stand in some key places, one after another from this index on among those of all blocks.
    #[inline(always)]
    pub fn consecutive(&self, first: usize, key_places: &[KeyPlace]) -> &[u32x4]
        requires within { All (λ key_place. key_place.block < length self.now.trial.candidates.now.blocks.items)
            key_places.now }
        requires keys { All (λ key_place. key_place.key < 8) key_places.now }
        requires consecutive { AreConsecutive first key_places.now }
        ensures { AreKeyImages self.now key_places.now result.now }
    {
        let images = self.drawn.as_flattened();
        &images[first..first + key_places.len()]
    }

    /// The images that stand in some key places, in place of what the list held.
    #[inline(always)]
    pub fn gather(&self, values: &mut Vec<u32x4>, key_places: &[KeyPlace])
        requires within { All (λ key_place. key_place.block < length self.now.trial.candidates.now.blocks.items)
            key_places.now }
        requires keys { All (λ key_place. key_place.key < 8) key_places.now }
        requires room { length key_places.now ≤ vec_capacity values.old }
        ensures images { AreKeyImages self.now key_places.now values.new.items }
        ensures capacity { vec_capacity values.new ≡ vec_capacity values.old }
    {
        values.clear();
        for key_place in key_places {
            values.push_reserved(self.image(*key_place));
        }
    }
}
