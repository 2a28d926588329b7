ghost use Rattle.std.specs.Prelude.{◌≡◌, ◌≤◌, length, IfOk};
ghost use Rattle.cut_rings.specs.Edges.{set_of, edges_in};
ghost use Rattle.cut_detector.specs.Rule.{rule_in};
ghost use Rattle.cut_arrivals.specs.candidates.Candidates.{AreCandidatesOf};

use crate::candidates::Candidate;
use crate::candidates::reported::Reported;
use crate::candidates::runs::reported_subjects;
use cut_detector::Rule;
use cut_rings::{Edge, Rings};
use std::alloc::{AllocError, Global};

/// The candidates of a trial, ascending, and the blocks that their keys stand in.
#[derive(Debug, Drop)]
pub struct Candidates {
    pub candidates: Vec<Candidate>,
    /// How far each block is from the beginning of a receiver's row.
    pub blocks: Vec<u32>,
    /// Whether some process is stable when all alerts have come. If none is, no receiver proposes.
    pub ends_stable: bool,
}

impl Candidates {
    /// The candidates of a trial with these alerted edges, which stand in ascending order.
    pub fn of(
        alloc: Global,
        rings: &Rings,
        rule: Rule,
        edges: &[Edge],
    ) -> Result<Candidates, AllocError>
        requires rings { rule.k ≤ length rings.now.positions }
        requires edges { edges.now ≡ edges_in rule.k rings.now.nodes (set_of edges.now) }
        ensures { IfOk result (λ x. AreCandidatesOf rings.now (rule_in rule) edges.now x) }
    {
        let subjects = reported_subjects(alloc, rings.nodes(), rule, edges)?;
        let reported = Reported {
            rings,
            rule,
            edges,
            subjects: subjects.as_slice(),
        };
        reported.candidates(alloc)
    }
}
