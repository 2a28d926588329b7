//! The edges of deliveries, and which edges a detector takes.
ghost use Rattle.std.specs.Prelude.{◌≡◌, map, IfOk};
ghost use Rattle.cut_rings.specs.Edges.{are_edges_of};

use cut_draws::Delivery;
use cut_rings::Edge;
use std::alloc::{AllocError, Global};

/// The edges of deliveries, in their order.
pub fn edges_of(alloc: Global, deliveries: &[Delivery]) -> Result<Vec<Edge>, AllocError>
    ensures { IfOk result (λ edges. edges.items ≡ map (λ x. x.edge) deliveries.now) }
{
    deliveries
        .iter()
        .map(|delivery| delivery.edge)
        .collect(alloc)
}

/// Whether all edges are of the first `k` rings and have subjects below `nodes`.
pub fn all_within(k: u8, nodes: u16, edges: &[Edge]) -> bool
    ensures { result ≡ are_edges_of k nodes edges.now }
{
    edges
        .iter()
        .all(|edge| edge.ring < k && edge.subject < nodes)
}
