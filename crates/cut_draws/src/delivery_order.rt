ghost use Rattle.std.specs.Prelude.{◌≡◌, [], ◌++◌, ◌<◌, ◌≤◌, ◌^◌, length, map, slice_get, IfOk, OnOk, OnErr, IsTrue};
ghost use Rattle.std.specs.Prelude.{Some, All};
ghost use Rattle.cut_plan.specs.declared.limits.TheConstants.{MOST_NODES};
ghost use Rattle.cut_rings.specs.Edges.{is_edge_of, are_edges_of};
ghost use Rattle.cut_draws.specs.DeliveryOrder.{all_deliveries, copies_of, are_distinct, delivery_place};
ghost use Rattle.cut_draws.specs.DeliveryOrder.{IsDeliveryOrder};
ghost use Rattle.cut_draws.specs.inside.Packed.{delivery_in, packed_at, keyed_at};

use crate::packed::{Keyed, deliveries_in, delivery_in, keys_rise, packed, repack, sort_keyed};
use crate::{Delivery, Draws};
use cut_plan::MOST_NODES;
use cut_rings::Edge;
use std::alloc::{AllocError, Global};
use std::marker::Model;

/// The place of the first delivery's key.
const FIRST_DELIVERY: u64 = 1_048_576;
/// How many receivers have places for each copy.
const RECEIVERS: u64 = MOST_NODES;
/// How many edge numbers have places for each receiver.
const EDGES: u64 = 65_536;

/// The deliveries of one receiver in the order in which they arrive. Its memory is used again for the next receiver.
/// Contracts see a list of deliveries.
#[derive(Debug, Drop)]
pub struct DeliveryOrder {
    packed: Vec<u64>,
    /// Working memory to sort deliveries whose packed keys tie.
    keyed: Vec<Keyed>,
}

impl Model for DeliveryOrder {
    ghost use Rattle.std.specs.Prelude.{List, map};
    ghost use Rattle.cut_draws.specs.declared.delivery.Delivery.{Delivery};
    ghost use Rattle.cut_draws.specs.inside.Packed.{delivery_in};

    ghost Value = { List Delivery };

    ghost view = { λ o. map (λ x. delivery_in x) o.packed.items };
}

impl DeliveryOrder {
    /// An order of no delivery.
    pub fn new(alloc: Global) -> DeliveryOrder
        ensures { result ≡ [] }
    {
        DeliveryOrder {
            packed: Vec::new(alloc),
            keyed: Vec::new(alloc),
        }
    }

    /// How many deliveries there are.
    pub fn len(&self) -> usize
        ensures { result ≡ length self.now }
    {
        self.packed.len()
    }

    /// The delivery at a place, from 0.
    #[inline]
    pub fn get(&self, i: usize) -> Delivery
        requires { i < length self.now }
        ensures { slice_get self.now i ≡ Some result }
    {
        delivery_in(self.packed[i])
    }

    /// The deliveries as a `Vec`.
    fn to_vec(&self, alloc: Global) -> Result<Vec<Delivery>, AllocError>
        ensures { IfOk result (λ v. v.items ≡ self.now) }
    {
        deliveries_in(alloc, self.packed.as_slice())
    }
}

/// What is delivered to a receiver: each copy of each of these edges of the first `k` rings.
#[derive(Clone, Copy)]
struct Arrivals<'a> {
    receiver: u16,
    k: u8,
    edges: &'a [Edge],
    copies: u8,
    ghost has_places: { receiver < MOST_NODES },
    ghost few_rings: { k ≤ 32 },
    ghost few_copies: { copies ≤ 4 },
    ghost in_range: { IsTrue (are_edges_of k MOST_NODES edges.now) },
    ghost distinct: { IsTrue (are_distinct k edges.now) },
}

impl Arrivals<'_> {
    /// The place of a delivery's key.
    #[inline]
    fn place(self, delivery: Delivery) -> u64
        requires edge { IsTrue (is_edge_of self.k MOST_NODES delivery.edge) }
        requires copy { delivery.copy < 4 }
        ensures value { result ≡ delivery_place self.entry.receiver self.entry.k delivery }
        ensures in_range { result < 2 ^ 32 }
    {
        let number = u64::from(delivery.edge.number(self.k));
        let row = u64::from(delivery.copy) * RECEIVERS + u64::from(self.receiver);
        FIRST_DELIVERY + 2 * (row * EDGES + number)
    }
}

impl Draws {
    /// All deliveries of the given edges to a receiver, in the order in which they arrive: ascending by key, edge
    /// number and copy. A random order for each receiver is the Rapid paper's; the keys are defined by this project.
    pub fn deliveries(
        &mut self,
        alloc: Global,
        receiver: u16,
        k: u8,
        edges: &[Edge],
        copies: u8,
    ) -> Result<Vec<Delivery>, AllocError>
        requires receiver { receiver < MOST_NODES }
        requires rings { k ≤ 32 }
        requires copies { copies ≤ 4 }
        requires within { IsTrue (are_edges_of k MOST_NODES edges.now) }
        requires distinct { IsTrue (are_distinct k edges.now) }
        ensures order { IfOk result
            (λ order. IsDeliveryOrder self.old receiver k edges.now copies order.items) }
        ensures same { self.new ≡ self.old }
    {
        let mut order = DeliveryOrder::new(alloc);
        self.order_deliveries(&mut order, receiver, k, edges, copies)?;
        order.to_vec(alloc)
    }

    /// Puts all deliveries of the given edges at a receiver into an order that may have been used before, as
    /// `deliveries` gives them, in the memory that the order has. Fails only if memory runs out, and the order is empty
    /// then.
    pub fn order_deliveries(
        &mut self,
        order: &mut DeliveryOrder,
        receiver: u16,
        k: u8,
        edges: &[Edge],
        copies: u8,
    ) -> Result<(), AllocError>
        requires receiver { receiver < MOST_NODES }
        requires rings { k ≤ 32 }
        requires copies { copies ≤ 4 }
        requires within { IsTrue (are_edges_of k MOST_NODES edges.now) }
        requires distinct { IsTrue (are_distinct k edges.now) }
        ensures order { OnOk result (IsDeliveryOrder self.old receiver k edges.now copies order.new) }
        ensures err { OnErr result (order.new ≡ []) }
        ensures same { self.new ≡ self.old }
    {
        let arrivals = Arrivals {
            receiver,
            k,
            edges,
            copies,
        };
        let filled = self.fill(order, arrivals);
        if filled.is_err() {
            order.packed.clear();
        }
        filled
    }

    /// Sorts the deliveries into `order`. After an error its content is unspecified.
    fn fill(&mut self, order: &mut DeliveryOrder, arrivals: Arrivals) -> Result<(), AllocError>
        ensures order { OnOk result (IsDeliveryOrder self.old arrivals.entry.receiver arrivals.entry.k
            arrivals.entry.edges.now arrivals.entry.copies order.new) }
        ensures same { self.new ≡ self.old }
    {
        self.pack(&mut order.packed, arrivals)?;
        order.packed.sort_unstable();
        if keys_rise(order.packed.as_slice()) {
            return Ok(());
        }
        self.draw_again(&mut order.keyed, order.packed.as_slice(), arrivals)?;
        sort_keyed(&mut order.keyed);
        repack(&mut order.packed, order.keyed.as_slice())?;
        Ok(())
    }

    /// Every copy of every edge under its key, the copies in turn, in place of what the list held.
    fn pack(&mut self, packed: &mut Vec<u64>, arrivals: Arrivals) -> Result<(), AllocError>
        ensures keys { OnOk result (packed.new.items
            ≡ map (λ x. packed_at self.old arrivals.entry.receiver arrivals.entry.k x)
            (all_deliveries arrivals.entry.edges.now arrivals.entry.copies)) }
        ensures same { self.new ≡ self.old }
    {
        packed.clear();
        let copies = usize::from(arrivals.copies);
        packed.reserve(arrivals.edges.len().saturating_mul(copies))?;
        for copy in 0..arrivals.copies {
            self.pack_copy(packed, arrivals, copy)?;
        }
        Ok(())
    }

    /// Adds one copy of every edge under its key. Where the edges ascend by number, so do the places.
    fn pack_copy(
        &mut self,
        words: &mut Vec<u64>,
        arrivals: Arrivals,
        copy: u8,
    ) -> Result<(), AllocError>
        requires { copy < 4 }
        ensures keys { OnOk result (words.new.items ≡ words.old.items
            ++ map (λ x. packed_at self.old arrivals.entry.receiver arrivals.entry.k x)
            (copies_of arrivals.entry.edges.now copy)) }
        ensures same { self.new ≡ self.old }
    {
        for edge in arrivals.edges {
            let delivery = Delivery { edge: *edge, copy };
            let key = self.key(arrivals.place(delivery));
            words.push(packed(key, delivery))?;
        }
        Ok(())
    }

    /// Packed deliveries with all that they are ordered by, in place of what the list held.
    fn draw_again(
        &mut self,
        keyed: &mut Vec<Keyed>,
        words: &[u64],
        arrivals: Arrivals,
    ) -> Result<(), AllocError>
        requires { All (λ w. IsTrue (is_edge_of arrivals.k MOST_NODES (delivery_in w).edge)) words.now }
        ensures keys { OnOk result
            (keyed.new.items ≡ map (λ w. keyed_at self.old arrivals.entry.receiver arrivals.entry.k w) words.now) }
        ensures same { self.new ≡ self.old }
    {
        keyed.clear();
        for word in words {
            let delivery = delivery_in(*word);
            keyed.push(Keyed {
                key: self.key(arrivals.place(delivery)),
                number: delivery.edge.number(arrivals.k),
                copy: delivery.copy,
                packed: *word,
            })?;
        }
        Ok(())
    }
}
