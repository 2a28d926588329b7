//! What the detector proposes when the deliveries of a receiver are replayed.
ghost use Rattle.std.specs.Prelude.{◌<◌};

use crate::receivers::edges::edges_of;
use crate::receivers::setting::Scene;
use cut_detector::{Proposal, replay};
use cut_draws::Draws;
use std::alloc::{AllocError, Global};

/// What a receiver proposes.
pub(crate) fn replayed(
    alloc: Global,
    scene: Scene<'_>,
    draws: &mut Draws,
    receiver: u16,
) -> Result<Option<Proposal>, AllocError>
    requires { receiver < 2048 }
{
    let trial = scene.trial;
    let rule = trial.rule;
    let order = draws.deliveries(alloc, receiver, rule.k, trial.edges, trial.copies)?;
    let edges = edges_of(alloc, &order)?;
    replay(
        alloc,
        trial.rings,
        rule.k,
        rule.h,
        rule.l,
        rule.implicit,
        &edges,
    )
}
