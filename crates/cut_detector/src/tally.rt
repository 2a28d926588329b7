ghost use Rattle.std.specs.Prelude.{◌≡◌, ◌==◌, ◌<◌, ◌≤◌, ◌&&◌, ◌+◌, ◌∷◌, ◌++◌, [], cond, if◌then◌else◌, not, IfOk};
ghost use Rattle.std.specs.Prelude.{IsTrue, filter, replicate, vec_len, vec_capacity};
ghost use Rattle.std.specs.List.{range_with_len, list_any, IsDistinct};
ghost use Rattle.std.proofs.Props.{props};
ghost use Rattle.cut_plan.specs.declared.limits.TheConstants.{MOST_NODES};
ghost use Rattle.cut_detector.specs.inside.Masks.{with_edge};
ghost use Rattle.cut_detector.specs.inside.Tally.{IsTouched, stable_in, unstable_in, marked_in, stable_count};
ghost use Rattle.cut_detector.specs.inside.Tally.{marked_count};

use crate::masks::{Change, Masks};
use crate::rule::Rule;
use cut_rings::Edge;
use std::alloc::{AllocError, Global};

/// Which rings count for each process, and how many processes are stable, and how many stable or unstable.
#[derive(Debug, Drop)]
pub struct Tally {
    pub rule: Rule,
    pub full: Masks,
    stable: u32,
    pub touched: Vec<u16>,
    marked: u32,
    ghost rings: { full.k ≡ rule.k },
    ghost few: { vec_len full.masks ≤ MOST_NODES },
    ghost stable_counted: { stable ≡ stable_count rule full },
    ghost marked_counted: { marked ≡ marked_count rule full },
    ghost room: { vec_len full.masks ≤ vec_capacity touched },
    ghost distinct: { IsDistinct ◌==◌ touched.items } by { Prim.hlevel props },
    ghost touches: { IsTouched full touched.items },
}

impl Tally {
    /// A tally in which no ring counts.
    pub fn new(alloc: Global, nodes: u16, rule: Rule) -> Result<Tally, AllocError>
        requires { nodes ≤ MOST_NODES }
        ensures rule { IfOk result (λ t. t.rule ≡ rule) }
        ensures full { IfOk result (λ t. t.full.masks.items ≡ replicate nodes 0) }
    {
        let full = Masks::new(alloc, nodes, rule.k)?;
        let touched = Vec::with_capacity(alloc, usize::from(nodes))?;
        Ok(Tally {
            rule,
            full,
            stable: 0,
            touched,
            marked: 0,
        })
    }

    /// Marks the edge's ring as counting for its subject. Returns true if it is the L-th.
    pub fn add(&mut self, edge: Edge) -> bool
        requires ring { edge.ring < self.old.rule.k }
        requires subject { edge.subject < vec_len self.old.full.masks }
        ensures rule { self.new.rule ≡ self.old.rule }
        ensures full { self.new.full.masks.items ≡ with_edge self.old.full.masks.items edge }
        ensures marks { result ≡ (marked_in self.old.rule self.new.full edge.subject
            && not (marked_in self.old.rule self.old.full edge.subject)) }
    {
        let rule = self.rule;
        let Change { before, after } = self.full.add(edge);
        self.stable = moved(self.stable, rule.is_stable(before), rule.is_stable(after));
        let marked = self.marked;
        self.marked = moved(marked, rule.is_reported(before), rule.is_reported(after));
        touch(&mut self.touched, edge.subject, before == 0);
        marked < self.marked
    }

    /// Whether some process is stable and none is unstable.
    #[tactic(auto, using(crate::proofs::Counting::settled_by))]
    pub fn is_settled(&self) -> bool
        ensures { result ≡
            (list_any (stable_in self.now.rule self.now.full) (range_with_len 0 (vec_len self.now.full.masks))
            && not (list_any (unstable_in self.now.rule self.now.full) (range_with_len 0 (vec_len self.now.full.masks)))) }
    {
        self.stable > 0 && self.stable == self.marked
    }

    /// Replaces the content of `members`, which has room, by the stable processes, ascending.
    pub fn gather(&self, members: &mut Vec<u16>)
        requires { vec_len self.now.full.masks ≤ vec_capacity members.old }
        ensures members { members.new.items ≡
            filter (stable_in self.now.rule self.now.full) (range_with_len 0 (vec_len self.now.full.masks)) }
        ensures room { vec_capacity members.old ≤ vec_capacity members.new }
    {
        members.clear();
        for subject in &self.touched {
            if self.rule.is_stable(self.full.count(*subject)) {
                members.push(*subject).unwrap();
            }
        }
        members.sort_unstable();
    }

    /// Removes all rings.
    pub fn clear(&mut self)
        ensures rule { self.new.rule ≡ self.old.rule }
        ensures full { self.new.full.masks.items ≡ replicate (vec_len self.old.full.masks) 0 }
    {
        self.full.clear(&self.touched);
        self.touched.clear();
        self.stable = 0;
        self.marked = 0;
    }
}

// The count after one process changed from `before` to `after`.
fn moved(count: u32, before: bool, after: bool) -> u32
    requires few { count ≤ MOST_NODES }
    requires counted { cond before 1 0 ≤ count + cond after 1 0 }
    ensures { result + cond before 1 0 ≡ count + cond after 1 0 }
{
    count + u32::from(after) - u32::from(before)
}

// Adds a process to a list with room, unless it is there.
fn touch(touched: &mut Vec<u16>, process: u16, is_new: bool)
    requires { IsTrue is_new → vec_len touched.old < vec_capacity touched.old }
    ensures items { touched.new.items ≡ (if is_new then touched.old.items ++ process ∷ [] else touched.old.items) }
    ensures room { vec_capacity touched.old ≤ vec_capacity touched.new }
{
    if is_new {
        touched.push(process).unwrap();
    }
}
