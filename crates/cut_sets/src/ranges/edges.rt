ghost use Rattle.std.specs.Prelude.{◌≡◌, ℕ, ◌+◌, ◌-◌, ◌<◌, ◌≤◌, ◌^◌, [], true, nat_le, count_by, length};
ghost use Rattle.std.specs.Prelude.{slice_index_or};
ghost use Rattle.std.specs.Prelude.{vec_len, vec_capacity, OnOk, OnErr, IsOk, IsTrue};
ghost use Rattle.std.specs.List.Sorted.{IsNonDecreasing, IsPartitionPoint};
ghost use Rattle.cut_sets.specs.ranges.inside.Edges.{is_within, is_between, flipped, IsRun};

use crate::ranges::run::Run;
use std::alloc::{AllocError, Global};
use std::marker::Model;

/// The numbers at which runs of a set begin and end, ascending. A number is in the set if an odd number of edges is at
/// most that number.
#[derive(Debug, Drop)]
pub(crate) struct Edges {
    edges: Vec<u32>,
}

impl Model for Edges {
    ghost use Rattle.cut_sets.specs.ranges.inside.Edges.{Row};

    ghost Value = { Row };

    ghost use Rattle.cut_sets.specs.ranges.inside.EdgesInside.{row_of, IsRow};

    ghost view = { row_of };

    ghost invariant = { IsRow };
}

impl Edges {
    /// The edges of the empty set.
    pub fn none(alloc: Global) -> Edges
        ensures { result.edges ≡ [] }
    {
        Edges {
            edges: Vec::new(alloc),
        }
    }

    /// Whether `number` is in the set, and where that changes next.
    pub fn run_at(&self, number: u32) -> Run
        requires { number < 2 ^ 32 - 1 }
        ensures { IsRun (is_within self.now.edges) number result }
    {
        let at = edges_up_to(&self.edges, number);
        Run {
            held: at % 2 == 1,
            end: edge_at(&self.edges, at),
        }
    }

    /// Whether a run can be inserted without memory.
    pub fn has_room(&self) -> bool
        ensures { result ≡ self.now.room }
    {
        self.edges.len() + 2 <= self.edges.capacity()
    }

    /// Reserves room for two more edges.
    pub fn reserve(&mut self) -> Result<(), AllocError>
        ensures ok { OnOk result (self.new ≡ record self.old { room = true }) }
        ensures room { IsTrue self.old.room → IsOk result }
        ensures err { OnErr result (self.new ≡ self.old) }
    {
        self.edges.reserve(2)
    }

    /// Flips membership of the numbers `from..end`.
    pub fn flip(&mut self, from: u32, end: u32)
        requires order { from ≤ end }
        requires room { IsTrue self.old.room }
        ensures { (t : ℕ) → is_within self.new.edges t
            ≡ flipped (is_between from end t) (is_within self.old.edges t) }
    {
        flip_from(&mut self.edges, from);
        flip_from(&mut self.edges, end);
    }
}

/// The edge at an index, or the greatest number of 32 bits past the last one.
fn edge_at(edges: &[u32], at: usize) -> u32
    ensures within { at < length edges.now → result ≡ slice_index_or edges.now at 0 }
    ensures past { length edges.now ≤ at → result ≡ 2 ^ 32 - 1 }
{
    if at < edges.len() {
        return edges[at];
    }
    u32::MAX
}

/// The number of edges that are at most `number`.
fn edges_up_to(edges: &[u32], number: u32) -> usize
    requires { IsNonDecreasing edges.now }
    ensures within { result ≤ length edges.now }
    ensures count { result ≡ count_by (λ e. nat_le e number) edges.now }
    ensures parts { IsPartitionPoint (λ e. e ≤ number) (λ e. number < e) edges.now result }
{
    edges.partition_point(|edge| *edge <= number)
}

/// Flips membership of all numbers from `number` on.
fn flip_from(edges: &mut Vec<u32>, number: u32)
    requires sorted { IsNonDecreasing edges.old.items }
    requires room { vec_len edges.old < vec_capacity edges.old }
    ensures sorted { IsNonDecreasing edges.new.items }
    ensures flipped { (t : ℕ) → is_within edges.new.items t
        ≡ flipped (nat_le number t) (is_within edges.old.items t) }
    ensures len { vec_len edges.new ≤ vec_len edges.old + 1 }
    ensures capacity { vec_capacity edges.new ≡ vec_capacity edges.old }
{
    let at = edges_up_to(edges, number);
    if at > 0 && edges[at - 1] == number {
        edges.remove(at - 1);
        return;
    }
    if edges.insert(at, number).is_err() {
        unreachable!();
    }
}
