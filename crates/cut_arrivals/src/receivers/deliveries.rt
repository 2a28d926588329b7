ghost use Rattle.std.specs.Prelude.{◌≡◌, ◌*◌, ◌^◌, ◌<◌, ◌≤◌, length, All};
ghost use Rattle.std.proofs.Props.{props};
ghost use Rattle.cut_plan.specs.declared.limits.TheConstants.{MOST_NODES};
ghost use Rattle.cut_arrivals.specs.candidates.KeyPlaces.{AreKeyPlaces};

use crate::candidates::KeyPlaces;
use crate::receivers::Trial;
use std::simd::u32x4;

/// Images of each copy, one copy after another.
#[derive(Clone, Copy)]
pub(crate) struct Kept<'a> {
    pub images: &'a [[u32x4; 8]],
    /// How many blocks they are of.
    pub blocks: usize,
    /// How many of these blocks stand first among those of the key places, too.
    pub known: usize,
}

/// What four receivers of a trial get, by the key places of all alerted edges, and the images of it that are kept.
#[derive(Clone, Copy)]
pub(crate) struct Deliveries<'t, 's, 'k> {
    pub trial: Trial<'t>,
    pub receivers: [u16; 4],
    pub key_places: &'s KeyPlaces,
    pub kept: Kept<'k>,
    ghost four: { length receivers ≡ 4 },
    ghost within: { All (λ j. j < MOST_NODES) receivers },
    ghost key_places_are: { AreKeyPlaces trial.rule.k key_places.now.blocks.items trial.edges.now
        key_places.now.key_places.items } by { Prim.hlevel props },
    ghost few: { length trial.edges.now ≤ 2 ^ 16 },
    ghost whole: { trial.copies * kept.blocks ≤ length kept.images.now },
    ghost known: { kept.known ≤ kept.blocks },
    ghost first: { kept.known ≤ length key_places.now.blocks.items },
}
