//! Receivers whose images are kept for their places, beside receivers whose images are drawn again.
ghost use Rattle.std.specs.Prelude.{◌<◌, length, All};

use crate::receivers::lanes::places_of;
use crate::receivers::setting::{SEED, Scene, Setting};
use cut_arrivals::blocks::Blocks;
use cut_arrivals::receivers::{Places, Receivers};
use cut_detector::Rule;
use std::alloc::{AllocError, Global};
use std::process::Abort;
use std::test::Fail;

/// Rings, high and low watermark: all alerts are of candidates, some, and few.
const RULES: [(u8, u8, u8); 4] = [(4, 3, 1), (10, 9, 4), (10, 10, 8), (32, 12, 6)];

/// Whether the same is said of the places of four receivers.
fn are_same(left: &Places, right: &Places) -> bool {
    left.until.to_array() == right.until.to_array() && left.doubt == right.doubt
}

/// Whether four receivers are found the same by images that are kept, and by ones that are drawn again for places.
fn are_kept(
    drawn: &mut Receivers,
    kept: &mut Receivers,
    scene: Scene<'_>,
    receivers: [u16; 4],
) -> Result<bool, AllocError>
    requires receivers { All (λ j. j < 2048) receivers }
    requires some { 0 < length scene.trial.candidates.now.candidates.items }
{
    let wanted = places_of(drawn, scene, receivers)?;
    kept.receive_copies(scene.trial, receivers)?;
    let places = kept.places(scene.trial, receivers, scene.key_places)?;
    let again = kept.places(scene.trial, receivers, scene.key_places)?;
    Ok(
        are_same(&places, &wanted)
            && are_same(&again, &wanted)
            && kept.proposal_time.time.to_array() == drawn.proposal_time.time.to_array()
            && kept.proposal_time.doubt == drawn.proposal_time.doubt,
    )
}

/// How many of a drawn trial's receivers were heard both ways, with the same result.
fn check_trial(
    rt: &impl Abort,
    alloc: Global,
    (drawn, kept): (&mut Receivers, &mut Receivers),
    rule: Rule,
    number: u32,
) -> Result<u32, Fail> {
    let setting = Setting::drawn(rt, alloc, rule, number)?;
    let blocks = Blocks::new(SEED, number);
    let scene = setting.scene(&blocks, number, 1 + (number % 4) as u8);
    if scene.trial.candidates.candidates.is_empty() {
        return Ok(0);
    }
    assert!(rt; are_kept(drawn, kept, scene, [0, 3, 700, 2047])?);
    assert!(rt; are_kept(drawn, kept, scene, [5, 5, 1, 2])?);
    Ok(8)
}

#[test]
fn kept_images_give_the_same_places(rt: HostRuntime) -> Result<(), Fail> {
    let mut drawn = Receivers::new(rt.alloc());
    let mut kept = Receivers::new(rt.alloc());
    let mut heard = 0u32;
    for (k, h, l) in RULES {
        assert!(rt; 1 <= l && l <= h && h <= k && k <= 32);
        for number in 0..12u32 {
            let implicit = number % 2 == 1;
            let rule = Rule { k, h, l, implicit };
            let both = (&mut drawn, &mut kept);
            heard = heard.saturating_add(check_trial(&rt, rt.alloc(), both, rule, number)?);
        }
    }
    assert!(rt; heard > 0);
    Ok(())
}
