ghost use Rattle.std.specs.Prelude.{◌≡◌, ◌≤◌, length};
ghost use Rattle.cut_plan.specs.Cells.{largest};
ghost use Rattle.cut_plan.specs.Plan.{IsPlan};
ghost use Rattle.cut_rings.specs.Layout.{IsLayout};
ghost use Rattle.cut_outcome.specs.Outcome.{rings_of};

use cut_plan::Plan;
use cut_rings::Rings;

/// A plan and its rings.
#[derive(Clone, Copy)]
pub(crate) struct TrialInput<'a> {
    pub plan: &'a Plan,
    pub rings: &'a Rings,
    ghost accepted: { IsPlan plan.now },
    ghost belong: { rings.now ≡ rings_of plan.now },
    ghost nodes: { rings.now.nodes ≡ plan.now.nodes },
    ghost enough: { largest plan.now.k ≤ length rings.now.positions },
}

impl<'a> TrialInput<'a> {
    /// The study of a plan, whose rings these are.
    pub fn new(plan: &'a Plan, rings: &'a Rings) -> TrialInput<'a>
        requires accepted { IsPlan plan.now }
        requires belong { rings.now ≡ rings_of plan.now }
        ensures plan { result.plan.now ≡ plan.now }
        ensures rings { result.rings.now ≡ rings.now }
    {
        TrialInput { plan, rings }
    }
}

/// For the proof: the rings of every study are a layout.
pub(crate) fn rings_are_a_layout(rings: &Rings)
    ensures { IsLayout rings.now }
{
    let _ = rings.len();
}
