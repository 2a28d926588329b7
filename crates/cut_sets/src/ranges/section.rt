ghost use Rattle.std.specs.Prelude.{◌≡◌, ℕ, ◌-◌, ◌/◌, ◌<◌, ◌^◌, [], true, length, replicate};
ghost use Rattle.std.specs.Prelude.{IfOk, OnOk, OnErr, IsOk, IsTrue};
ghost use Rattle.std.specs.Int.{div_ceil};
ghost use Rattle.std.specs.List.{list_all};
ghost use Rattle.cut_sets.specs.ranges.inside.Blocks.{is_at};
ghost use Rattle.cut_sets.specs.ranges.inside.Edges.{is_between, flipped, IsRun};

use crate::ranges::edges::Edges;
use crate::ranges::run::Run;
use std::alloc::{AllocError, Global};
use std::marker::Model;

/// How many numbers a block has. An insertion moves at most as many edges.
const BLOCK: u32 = 65536;

/// The numbers of a section, in blocks with edges of their own, so that an insertion moves few edges.
#[derive(Debug, Drop)]
pub(crate) struct Section {
    blocks: Vec<Edges>,
}

impl Model for Section {
    ghost use Rattle.cut_sets.specs.ranges.inside.Blocks.{Blocks};
    ghost use Rattle.cut_sets.specs.ranges.inside.SectionInside.{blocks_of};

    ghost Value = { Blocks };

    ghost view = { blocks_of };
}

impl Section {
    /// An empty section of `len` numbers.
    pub fn new(alloc: Global, len: u32) -> Result<Section, AllocError>
        ensures { IfOk result (λ s. s.blocks ≡ replicate (div_ceil len BLOCK) []) }
    {
        let count = len.div_ceil(BLOCK);
        let mut blocks = Vec::with_capacity(alloc, count as usize)?;
        for _block in 0..count {
            blocks.push(Edges::none(alloc))?;
        }
        Ok(Section { blocks })
    }

    /// Whether the number at `place` is in the set, and where that changes next.
    pub fn run_at(&self, place: u32) -> Run
        requires below { place < 2 ^ 32 - 1 }
        requires within { place / BLOCK < length self.now.blocks }
        ensures { IsRun (is_at self.now.blocks) place result }
    {
        let run = self.blocks[(place / BLOCK) as usize].run_at(place);
        Run {
            held: run.held,
            end: run.end.min(place.saturating_add(BLOCK - place % BLOCK)),
        }
    }

    /// Whether a span can be inserted without memory.
    pub fn has_room(&self) -> bool
        ensures { result ≡ self.now.room }
    {
        have_room(&self.blocks)
    }

    /// Reserves room in every block.
    pub fn reserve(&mut self) -> Result<(), AllocError>
        ensures ok { OnOk result (self.new ≡ record self.old { room = true }) }
        ensures room { IsTrue self.old.room → IsOk result }
        ensures err { OnErr result (self.new ≡ self.old) }
    {
        for at in 0..self.blocks.len() {
            self.blocks[at].reserve()?;
        }
        Ok(())
    }

    /// Inserts the numbers `from..end`, none of which is in the set.
    pub fn insert(&mut self, from: u32, end: u32) -> Result<(), AllocError>
        requires some { from < end }
        requires within { (end - 1) / BLOCK < length self.old.blocks }
        ensures flipped { OnOk result ((t : ℕ) → is_at self.new.blocks t
            ≡ flipped (is_between from end t) (is_at self.old.blocks t)) }
        ensures len { length self.new.blocks ≡ length self.old.blocks }
        ensures room { IsTrue self.old.room → IsOk result }
        ensures err { OnErr result (self.new ≡ self.old) }
    {
        self.reserve()?;
        self.flip(from, end);
        Ok(())
    }

    /// Flips membership of the numbers `from..end`.
    fn flip(&mut self, from: u32, end: u32)
        requires some { from < end }
        requires within { (end - 1) / BLOCK < length self.old.blocks }
        requires room { IsTrue self.old.room }
        ensures flipped { (t : ℕ) → is_at self.new.blocks t
            ≡ flipped (is_between from end t) (is_at self.old.blocks t) }
        ensures len { length self.new.blocks ≡ length self.old.blocks }
    {
        for at in from / BLOCK..(end - 1) / BLOCK + 1 {
            let start = at * BLOCK;
            let stop = start.saturating_add(BLOCK);
            self.blocks[at as usize].flip(from.max(start), end.min(stop));
        }
    }
}

/// Whether each block has room for a run.
fn have_room(blocks: &[Edges]) -> bool
    ensures { result ≡ list_all (λ e. e.room) blocks.now }
{
    blocks.iter().all(|edges| edges.has_room())
}
