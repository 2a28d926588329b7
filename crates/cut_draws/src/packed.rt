ghost use Rattle.std.specs.Prelude.{◌≡◌, ◌<◌, map, IfOk, OnOk, IsTrue};
ghost use Rattle.std.specs.List.Sorted.{IsPermutation, IsSorted};
ghost use Rattle.cut_plan.specs.declared.limits.TheConstants.{MOST_NODES};
ghost use Rattle.cut_draws.specs.inside.Packed.{packed_of, delivery_in, compare_keyed, ArePackedRising};

use crate::Delivery;
use cut_plan::{MOST_COPIES, MOST_NODES, MOST_RINGS};
use cut_rings::Edge;
use std::alloc::{AllocError, Global};

/// How many numbers the bits below those of a key distinguish.
const DELIVERIES: u64 = 262_144;
/// How many numbers the bits below those of a copy distinguish.
const EDGES: u64 = 65_536;
/// How many processes an edge may have as its subject.
const SUBJECTS: u64 = MOST_NODES;
/// How many rings an edge may be on.
const RINGS: u64 = MOST_RINGS;
/// How many copies there may be.
const COPIES: u64 = MOST_COPIES;

/// A delivery in the low 18 bits of a number, below the high 46 bits of its key. Numbers of 8 bytes are sorted fastest,
/// and no table is needed to find their deliveries.
#[inline(always)]
pub(crate) fn packed(key: u64, delivery: Delivery) -> u64
    requires ring { delivery.edge.ring < 32 }
    requires subject { delivery.edge.subject < MOST_NODES }
    requires copy { delivery.copy < 4 }
    ensures { result ≡ packed_of key delivery }
{
    let subject = u64::from(delivery.edge.subject);
    let edge = subject * RINGS + u64::from(delivery.edge.ring);
    key / DELIVERIES * DELIVERIES + u64::from(delivery.copy) * EDGES + edge
}

/// The delivery that a number holds.
#[inline(always)]
pub(crate) fn delivery_in(packed: u64) -> Delivery
    ensures { result ≡ delivery_in packed }
{
    let edge = Edge {
        ring: (packed % RINGS) as u8,
        subject: (packed / RINGS % SUBJECTS) as u16,
    };
    Delivery {
        edge,
        copy: (packed / EDGES % COPIES) as u8,
    }
}

/// The deliveries that numbers hold.
pub(crate) fn deliveries_in(alloc: Global, packed: &[u64]) -> Result<Vec<Delivery>, AllocError>
    ensures { IfOk result (λ v. v.items ≡ map (λ x. delivery_in x) packed.now) }
{
    packed.iter().map(|x| delivery_in(*x)).collect(alloc)
}

/// Whether the packed part of each key is less than the next. If it isn't, the whole keys decide the order.
pub(crate) fn keys_rise(packed: &[u64]) -> bool
    ensures { IsTrue result → ArePackedRising packed.now }
{
    packed.is_sorted_by(|x, y| x / DELIVERIES < y / DELIVERIES)
}

/// A packed delivery with what deliveries are ordered by.
#[derive(Clone, Copy, Debug)]
pub(crate) struct Keyed {
    /// Its key at the receiver.
    pub(crate) key: u64,
    /// Its edge's number.
    pub(crate) number: u16,
    /// Its copy.
    pub(crate) copy: u8,
    /// The packed delivery.
    pub(crate) packed: u64,
}

/// Puts deliveries in order of their keys, their edges' numbers and their copies.
pub(crate) fn sort_keyed(keyed: &mut Vec<Keyed>)
    ensures permutation { IsPermutation keyed.old.items keyed.new.items }
    ensures sorted { IsSorted compare_keyed keyed.new.items }
{
    keyed.sort_unstable_by_key(|x| (x.key, (x.number, x.copy)));
}

/// The packed deliveries alone, in place of what the list held.
pub(crate) fn repack(packed: &mut Vec<u64>, keyed: &[Keyed]) -> Result<(), AllocError>
    ensures { OnOk result (packed.new.items ≡ map (λ x. x.packed) keyed.now) }
{
    packed.clear();
    for x in keyed {
        packed.push(x.packed)?;
    }
    Ok(())
}
