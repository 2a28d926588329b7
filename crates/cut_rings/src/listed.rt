ghost use Rattle.std.specs.Prelude.{◌≡◌, ◌≤◌, map, All, IfOk};
ghost use Rattle.std.specs.List.{list_all, range_with_len};
ghost use Rattle.cut_plan.specs.declared.limits.TheConstants.{MOST_NODES};
ghost use Rattle.cut_lists.specs.Ranked.{IsOrder};
ghost use Rattle.cut_rings.specs.inside.Inverse.{IsInverse};
ghost use Rattle.cut_rings.specs.Listed.{listed_position};
ghost use Rattle.cut_rings.specs.inside.Listed.{is_order, has_all};

use crate::ring::Ring;
use std::alloc::{AllocError, Global};

/// The rings that lists of the first processes give.
pub(crate) fn listed_rings(
    alloc: Global,
    nodes: u16,
    lists: &[Vec<u16>],
) -> Result<Vec<Ring>, AllocError>
    requires few_nodes { nodes ≤ MOST_NODES }
    requires each_once { All (λ list. IsOrder nodes list.items) lists.now }
    ensures inverse { IfOk result
        (λ rings. All (λ r. IsInverse nodes r.order.items r.positions.items) rings.items) }
    ensures positions { IfOk result (λ rings. map (λ r. r.positions.items) rings.items
        ≡ map (λ list. map (λ p. listed_position list.items p) (range_with_len 0 nodes)) lists.now) }
{
    let mut rings = Vec::with_capacity(alloc, lists.len())?;
    for list in lists {
        rings.push(listed_ring(alloc, nodes, list.as_slice())?)?;
    }
    Ok(rings)
}

/// The ring that a list of the first processes gives.
fn listed_ring(alloc: Global, nodes: u16, list: &[u16]) -> Result<Ring, AllocError>
    requires few { nodes ≤ MOST_NODES }
    requires each_once { IsOrder nodes list.now }
    ensures inverse { IfOk result (λ r. IsInverse nodes r.order.items r.positions.items) }
    ensures positions { IfOk result
        (λ r. r.positions.items ≡ map (λ p. listed_position list.now p) (range_with_len 0 nodes)) }
{
    let order = Vec::from_slice(alloc, list)?;
    Ring::of_order(alloc, nodes, order)
}

/// Whether each of these lists holds each of the first processes once.
pub(crate) fn are_orders(nodes: u16, lists: &[Vec<u16>]) -> bool
    ensures { result ≡ list_all (λ list. is_order nodes list.items) lists.now }
{
    lists.iter().all(|list| is_order(nodes, list.as_slice()))
}

/// Whether a list holds each of the first processes once: it is no longer, and none is missing.
fn is_order(nodes: u16, list: &[u16]) -> bool
    ensures { result ≡ is_order nodes list.now }
{
    list.len() == usize::from(nodes) && has_all(nodes, list)
}

/// Whether a list holds each of the first processes.
fn has_all(nodes: u16, list: &[u16]) -> bool
    ensures { result ≡ has_all nodes list.now }
{
    (0..nodes).all(|process| list.contains(&process))
}
