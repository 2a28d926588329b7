ghost use Rattle.std.specs.Prelude.{◌≡◌, ◌≤◌, map, IfOk};
ghost use Rattle.std.specs.List.{range_with_len};
ghost use Rattle.cut_plan.specs.declared.limits.TheConstants.{MOST_NODES};
ghost use Rattle.cut_plan.specs.Cells.{largest};
ghost use Rattle.cut_plan.specs.Plan.{IsPlan};
ghost use Rattle.cut_rings.specs.Hashed.{compare_hashed, digest_of, hashed_position};
ghost use Rattle.cut_lists.specs.Ranked.{IsRanked};
ghost use Rattle.cut_rings.specs.inside.Inverse.{IsInverse};

use crate::ring::Ring;
use cut_plan::Plan;
use sha2::{Digest, Sha256};
use std::alloc::{AllocError, Global};

/// How many rings a plan needs: its largest k.
pub(crate) fn ring_count(plan: &Plan) -> u8
    ensures value { result ≡ largest plan.now.k }
    ensures plan { IsPlan plan.now }
{
    plan.k().iter().fold(0, |most, k| most.max(*k))
}

/// A ring of the first processes, in ascending order of their digests.
pub(crate) fn hashed_ring(
    alloc: Global,
    seed: &[u8; 32],
    ring: u8,
    nodes: u16,
) -> Result<Ring, AllocError>
    requires { nodes ≤ MOST_NODES }
    ensures inverse { IfOk result (λ r. IsInverse nodes r.order.items r.positions.items) }
    ensures positions { IfOk result
        (λ r. r.positions.items ≡ map (λ p. hashed_position seed.now nodes ring p) (range_with_len 0 nodes)) }
{
    let order = hashed_order(alloc, seed, ring, nodes)?;
    Ring::of_order(alloc, nodes, order)
}

/// The processes of a ring in ascending order of their digests.
fn hashed_order(
    alloc: Global,
    seed: &[u8; 32],
    ring: u8,
    nodes: u16,
) -> Result<Vec<u16>, AllocError>
    ensures { IfOk result (λ order. IsRanked (compare_hashed seed.now ring) nodes order.items) }
{
    let mut digests = digests(alloc, seed, ring, nodes)?;
    digests.sort_unstable();
    processes(alloc, digests.as_slice())
}

/// The processes without their digests.
fn processes(alloc: Global, digests: &[([u8; 32], u16)]) -> Result<Vec<u16>, AllocError>
    ensures { IfOk result (λ v. v.items ≡ map (λ x. x.1) digests.now) }
{
    digests.iter().map(|(_, process)| *process).collect(alloc)
}

/// Each process of a ring with its digest before it.
fn digests(
    alloc: Global,
    seed: &[u8; 32],
    ring: u8,
    nodes: u16,
) -> Result<Vec<([u8; 32], u16)>, AllocError>
    ensures { IfOk result
        (λ v. v.items ≡ map (λ p. (digest_of seed.now ring p, p)) (range_with_len 0 nodes)) }
{
    (0..nodes)
        .map(|process| (digest(seed, ring, process), process))
        .collect(alloc)
}

/// The digest by which a process is placed on a ring.
fn digest(seed: &[u8; 32], ring: u8, process: u16) -> [u8; 32]
    ensures { result ≡ digest_of seed.now ring process }
{
    let mut hasher = Sha256::new();
    hasher.update(seed.as_slice());
    hasher.update(u32::from(ring).to_be_bytes());
    hasher.update(u32::from(process).to_be_bytes());
    hasher.finalize()
}
