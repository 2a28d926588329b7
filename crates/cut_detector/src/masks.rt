ghost use Rattle.std.specs.Prelude.{◌≡◌, ℕ, ◌==◌, ◌<◌, ◌≤◌, ◌^◌, All, IfOk, IsTrue, replicate, vec_len};
ghost use Rattle.std.specs.List.{list_any};

use cut_rings::Edge;
use std::alloc::{AllocError, Global};

/// A set of edges of the first `k` rings: for each process a mask with a bit for each ring.
#[derive(Debug, Drop)]
pub struct Masks {
    pub k: u8,
    pub masks: Vec<u32>,
    ghost few: { k ≤ 32 },
    ghost below: { All (λ mask. mask < 2 ^ k) masks.items },
}

/// On how many rings a set has the edge to a process, before and after.
#[derive(Clone, Copy, Debug)]
pub struct Change {
    pub before: u32,
    pub after: u32,
}

impl Masks {
    ghost use Rattle.cut_detector.specs.Counts.{ring_count};
    ghost use Rattle.cut_detector.specs.Masks.{edges_in};
    ghost use Rattle.cut_detector.specs.inside.Masks.{AddsEdge};

    /// The set of no edge, with room for edges to `nodes` processes.
    #[tactic(auto, using(crate::proofs::Bits::below_replicate))]
    pub fn new(alloc: Global, nodes: u16, k: u8) -> Result<Masks, AllocError>
        requires { k ≤ 32 }
        ensures k { IfOk result (λ m. m.k ≡ k) }
        ensures masks { IfOk result (λ m. m.masks.items ≡ replicate nodes 0) }
    {
        let masks = vec![in alloc; 0; usize::from(nodes)]?;
        Ok(Masks { k, masks })
    }

    /// On how many rings the set has the edge to a process.
    pub fn count(&self, subject: u16) -> u32
        requires { subject < vec_len self.now.masks }
        ensures { result ≡ ring_count self.now.k (edges_in self.now.masks.items) subject }
    {
        self.masks[usize::from(subject)].count_ones()
    }

    /// Adds an edge, and returns how many edges to its subject there were and are.
    pub fn add(&mut self, edge: Edge) -> Change
        requires ring { edge.ring < self.old.k }
        requires subject { edge.subject < vec_len self.old.masks }
        ensures added { AddsEdge self.old self.new edge }
        ensures before { result.before ≡ ring_count self.old.k (edges_in self.old.masks.items) edge.subject }
        ensures after { result.after ≡ ring_count self.new.k (edges_in self.new.masks.items) edge.subject }
    {
        let subject = usize::from(edge.subject);
        let before = self.masks[subject];
        let after = before | (1 << edge.ring);
        self.masks[subject] = after;
        Change {
            before: before.count_ones(),
            after: after.count_ones(),
        }
    }

    /// Empties the set, which has edges to these processes alone.
    pub fn clear(&mut self, subjects: &[u16])
        requires within { All (λ s. s < vec_len self.old.masks) subjects.now }
        requires alone { (s : ℕ) → 0 < ring_count self.old.k (edges_in self.old.masks.items) s →
            IsTrue (list_any (λ p. s == p) subjects.now) }
        ensures masks { self.new.masks.items ≡ replicate (vec_len self.old.masks) 0 }
        ensures k { self.new.k ≡ self.old.k }
    {
        for subject in subjects {
            self.masks[usize::from(*subject)] = 0;
        }
    }
}
