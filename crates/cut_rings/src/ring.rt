ghost use Rattle.std.specs.Prelude.{◌≡◌, ◌≤◌, IfOk};
ghost use Rattle.cut_plan.specs.declared.limits.TheConstants.{MOST_NODES};
ghost use Rattle.cut_lists.specs.Ranked.{IsOrder};
ghost use Rattle.cut_rings.specs.inside.Inverse.{IsInverse};

use std::alloc::{AllocError, Global};

/// A ring as it is kept: its processes in order, and the place of each.
#[derive(Debug, Drop)]
pub(crate) struct Ring {
    pub(crate) order: Vec<u16>,
    pub(crate) positions: Vec<u16>,
}

impl Ring {
    /// The ring of an order of the first processes.
    pub(crate) fn of_order(alloc: Global, nodes: u16, order: Vec<u16>) -> Result<Ring, AllocError>
        requires few { nodes ≤ MOST_NODES }
        requires each_once { IsOrder nodes order.items }
        ensures order { IfOk result (λ r. r.order.items ≡ order.items) }
        ensures inverse { IfOk result (λ r. IsInverse nodes r.order.items r.positions.items) }
    {
        let positions = places(alloc, nodes, order.as_slice())?;
        Ok(Ring { order, positions })
    }
}

/// The place of each process in an order.
fn places(alloc: Global, nodes: u16, order: &[u16]) -> Result<Vec<u16>, AllocError>
    requires few { nodes ≤ MOST_NODES }
    requires each_once { IsOrder nodes order.now }
    ensures { IfOk result (λ v. IsInverse nodes order.now v.items) }
{
    let mut positions = vec![in alloc; 0; usize::from(nodes)]?;
    for (place, process) in order.iter().enumerate() {
        positions[usize::from(*process)] = place as u16;
    }
    Ok(positions)
}
