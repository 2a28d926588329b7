ghost use Rattle.std.specs.Prelude.{◌≡◌};
ghost use Rattle.cut_rings.specs.Edges.{are_edges_of};

use cut_rings::Edge;

/// Whether all edges are of the first `k` rings and have subjects below `nodes`.
pub fn all_within(k: u8, nodes: u16, edges: &[Edge]) -> bool
    ensures { result ≡ are_edges_of k nodes edges.now }
{
    edges
        .iter()
        .all(|edge| edge.ring < k && edge.subject < nodes)
}
