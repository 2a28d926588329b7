ghost use Rattle.std.specs.Prelude.{◌≤◌, length};
ghost use Rattle.std.proofs.Props.{props};
ghost use Rattle.cut_rings.specs.Layout.{IsLayout};
ghost use Rattle.cut_detector.specs.Rule.{rule_in};
ghost use Rattle.cut_arrivals.specs.candidates.Candidates.{AreCandidatesOf};

use crate::blocks::Blocks;
use crate::candidates::Candidates;
use cut_detector::Rule;
use cut_rings::{Edge, Rings};

/// What all receivers of a trial have in common.
#[derive(Clone, Copy, Debug)]
pub struct Trial<'a> {
    /// The observer rings of the study.
    pub rings: &'a Rings,
    /// By which processes are reported and stable.
    pub rule: Rule,
    /// The alerted edges.
    pub edges: &'a [Edge],
    /// How many copies of each alert are delivered, 1 to 4.
    pub copies: u8,
    /// The blocks of the trial's keys.
    pub blocks: &'a Blocks,
    /// The candidates of the edges.
    pub candidates: &'a Candidates,
    ghost some: { 1 ≤ copies },
    ghost few: { copies ≤ 4 },
    ghost layout: { IsLayout rings.now },
    ghost within: { rule.k ≤ length rings.now.positions },
    ghost candidates_are: { AreCandidatesOf rings.now (rule_in rule) edges.now candidates.now } by { Prim.hlevel props },
}
