ghost use Rattle.std.specs.Prelude.{◌≡◌, ◌+◌, ◌^◌, ◌<◌, ◌≤◌, length, IfOk, IfSome, OnOk, All, IsTrue};
ghost use Rattle.cut_plan.specs.declared.limits.TheConstants.{MOST_NODES};
ghost use Rattle.cut_rings.specs.Edges.{are_edges_of};
ghost use Rattle.cut_arrivals.specs.candidates.KeyPlaces.{AreKeyPlaces, BeginsWith, index_of, AreConsecutive};
ghost use Rattle.cut_arrivals.specs.candidates.inside.KeyPlaces.{IsKeyPlace, Extends, IsLast};

use cut_rings::Edge;
use std::alloc::{AllocError, Global};

/// Where the image of a key stands among those that are drawn.
#[derive(Clone, Copy, Debug)]
pub struct KeyPlace {
    /// The place of the key's block among the blocks that are drawn.
    pub block: u16,
    /// The number of the key among the eight of its block.
    pub key: u8,
}

impl KeyPlace {
    /// Where the image stands among those of all blocks, eight for each.
    #[inline]
    pub(crate) fn index(self) -> usize
        ensures { result ≡ index_of self }
    {
        8 * usize::from(self.block) + usize::from(self.key)
    }
}

/// The key places of some edges, and the blocks that these stand in.
#[derive(Debug, Drop)]
pub struct KeyPlaces {
    /// The numbers of the blocks, which are below 8,192.
    pub blocks: Vec<u32>,
    /// The key places, in order of the edges.
    pub key_places: Vec<KeyPlace>,
    ghost within: { All (λ block. block < 2 ^ 13) blocks.items },
}

impl KeyPlaces {
    /// The key places of edges of the first `k` rings, in order of the edges.
    pub fn of(alloc: Global, k: u8, edges: &[Edge]) -> Result<KeyPlaces, AllocError>
        requires rings { k ≤ 32 }
        requires edges { IsTrue (are_edges_of k MOST_NODES edges.now) }
        requires few { length edges.now ≤ 2 ^ 16 }
        ensures key_places { IfOk result (λ x. AreKeyPlaces k x.blocks.items edges.now x.key_places.items) }
    {
        KeyPlaces::after(alloc, &[], k, edges)
    }

    /// The key places of edges of the first `k` rings, in order of the edges. The blocks begin with those of `first`,
    /// if these and one for each edge have places of 16 bits.
    pub fn after(
        alloc: Global,
        first: &[u32],
        k: u8,
        edges: &[Edge],
    ) -> Result<KeyPlaces, AllocError>
        requires rings { k ≤ 32 }
        requires edges { IsTrue (are_edges_of k MOST_NODES edges.now) }
        requires few { length edges.now ≤ 2 ^ 16 }
        requires first { All (λ block. block < 2 ^ 13) first.now }
        ensures key_places { IfOk result (λ x. AreKeyPlaces k x.blocks.items edges.now x.key_places.items) }
        ensures first { IfOk result (λ x. length first.now + length edges.now ≤ 2 ^ 16
            → BeginsWith first.now x.blocks.items) }
    {
        let first = if first.len() + edges.len() <= 1 << 16 {
            first
        } else {
            &[]
        };
        let mut blocks = Vec::from_slice(alloc, first)?;
        let key_places = key_places_among(alloc, &mut blocks, first, k, edges)?;
        Ok(KeyPlaces { blocks, key_places })
    }
}

/// The key places of edges of the first `k` rings among blocks that begin with `first`. A block that is none of these
/// is appended to the blocks unless it is the last one already.
pub(crate) fn key_places_among(
    alloc: Global,
    blocks: &mut Vec<u32>,
    first: &[u32],
    k: u8,
    edges: &[Edge],
) -> Result<Vec<KeyPlace>, AllocError>
    requires rings { k ≤ 32 }
    requires edges { IsTrue (are_edges_of k MOST_NODES edges.now) }
    requires room { length blocks.old.items + length edges.now ≤ 2 ^ 16 }
    requires first { BeginsWith first.now blocks.old.items }
    ensures key_places { IfOk result (λ key_places. AreKeyPlaces k blocks.new.items edges.now key_places.items) }
    ensures blocks { OnOk result (Extends blocks.old.items (length edges.now) blocks.new.items) }
{
    let mut key_places = Vec::with_capacity(alloc, edges.len())?;
    for edge in edges {
        let key_place = key_place_of(blocks, first, edge.number(k))?;
        key_places.push(key_place)?;
    }
    Ok(key_places)
}

/// Where the key of an edge of this number stands among blocks that begin with `first`. Its block is appended to the
/// blocks if it is none of these, unless it is the last one already.
fn key_place_of(blocks: &mut Vec<u32>, first: &[u32], number: u16) -> Result<KeyPlace, AllocError>
    requires room { length blocks.old.items < 2 ^ 16 }
    requires first { BeginsWith first.now blocks.old.items }
    ensures key_place { IfOk result (λ key_place. IsKeyPlace blocks.new.items number key_place) }
    ensures blocks { OnOk result (Extends blocks.old.items 1 blocks.new.items) }
{
    let block = u32::from(number / 8);
    let key = (number % 8) as u8;
    if let Ok(place) = first.binary_search(&block) {
        return Ok(KeyPlace {
            block: place as u16,
            key,
        });
    }
    reach(blocks, block)?;
    Ok(KeyPlace {
        block: (blocks.len() - 1) as u16,
        key,
    })
}

/// Appends a block unless it is the last one already.
fn reach(blocks: &mut Vec<u32>, block: u32) -> Result<(), AllocError>
    requires { block < 2 ^ 13 }
    ensures last { OnOk result (IsLast blocks.new.items block) }
    ensures blocks { OnOk result (Extends blocks.old.items 1 blocks.new.items) }
{
    if is_last(blocks, block) {
        return Ok(());
    }
    blocks.push(block)?;
    Ok(())
}

/// Whether a block is the last.
fn is_last(blocks: &[u32], block: u32) -> bool
    ensures { IsTrue result → IsLast blocks.now block }
{
    !blocks.is_empty() && blocks[blocks.len() - 1] == block
}

/// Where the first of some images stands among those of all blocks, if they stand there one after another.
pub(crate) fn consecutive_from(key_places: &[KeyPlace]) -> Option<usize>
    ensures { IfSome result (λ first. AreConsecutive first key_places.now) }
{
    let first = key_places.first()?.index();
    for (place, key_place) in key_places.iter().enumerate() {
        if key_place.index().checked_sub(first) != Some(place) {
            return None;
        }
    }
    Some(first)
}
