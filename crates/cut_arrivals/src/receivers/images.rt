ghost use Rattle.std.specs.Prelude.{◌≡◌, map, length};
ghost use Rattle.cut_arrivals.specs.blocks.Images.{eight, least_image, row_of};

use crate::receivers::Trial;
use std::simd::u32x4;

/// The images of the keys of a trial's candidates, drawn for four receivers.
#[derive(Clone, Copy, Debug)]
pub(crate) struct Images<'a> {
    pub trial: Trial<'a>,
    pub receivers: [u16; 4],
    pub drawn: &'a [[u32x4; 8]],
    ghost four: { length receivers ≡ 4 },
    ghost are_drawn: { drawn.now ≡ map
        (λ block. eight (least_image trial.blocks.now trial.copies block) (map (λ j. row_of 0 j) receivers))
        trial.candidates.now.blocks.items },
}
