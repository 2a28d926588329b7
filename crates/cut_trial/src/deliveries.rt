ghost use Rattle.std.specs.Prelude.{◌≡◌, ◌^◌, ◌<◌, ◌≤◌, length, map, IsTrue};
ghost use Rattle.cut_rings.specs.Edges.{first_of, are_edges_of};
ghost use Rattle.cut_detector.specs.Proposal.{proposal_of};

use cut_detector::{Detector, Step};
use cut_draws::DeliveryOrder;

/// Delivers the edges to a process in this order, until it proposes.
pub(crate) fn deliver_all(detector: &mut Detector<'_>, order: &DeliveryOrder)
    requires within { IsTrue (are_edges_of detector.old.rule.k detector.old.layout.nodes (map
        (λ x. x.edge) order.now)) }
    requires few { length order.now < 2 ^ 63 }
    ensures proposal { detector.new.proposal ≡ proposal_of detector.old.layout detector.old.rule
        (first_of (map (λ x. x.edge) order.now)) (length order.now) }
    ensures few { detector.new.deliveries ≤ length order.now }
    ensures layout { detector.new.layout ≡ detector.old.layout }
    ensures rule { detector.new.rule ≡ detector.old.rule }
{
    detector.reset();
    for i in 0..order.len() {
        match detector.deliver(order.get(i).edge) {
            Step::Waiting => {}
            Step::Settled => return,
        }
    }
}
