ghost use Rattle.std.specs.Prelude.{◌≡◌, ◌==◌, filter, IfOk};
ghost use Rattle.std.specs.List.{range_with_len, prefix_len};
ghost use Rattle.cut_rings.specs.Edges.{set_of, edges_in};
ghost use Rattle.cut_detector.specs.Rule.{rule_in};
ghost use Rattle.cut_detector.specs.Counts.{is_reported};

use cut_detector::Rule;
use cut_rings::Edge;
use std::alloc::{AllocError, Global};

/// How many edges at the beginning are to this process.
pub(crate) fn run_len(edges: &[Edge], subject: u16) -> usize
    ensures { result ≡ prefix_len (λ e. e.subject == subject) edges.now }
{
    edges
        .iter()
        .take_while(|edge| edge.subject == subject)
        .count()
}

/// The processes that ascending edges report on at least L rings, ascending.
pub(crate) fn reported_subjects(
    alloc: Global,
    nodes: u16,
    rule: Rule,
    edges: &[Edge],
) -> Result<Vec<u16>, AllocError>
    requires { edges.now ≡ edges_in rule.k nodes (set_of edges.now) }
    ensures { IfOk result (λ subjects. subjects.items
        ≡ filter (λ s. is_reported (rule_in rule) (set_of edges.now) s) (range_with_len 0 nodes)) }
{
    let mut subjects = Vec::new(alloc);
    let mut rest = edges;
    for subject in 0..nodes {
        let (first, others) = rest.split_at(run_len(rest, subject));
        rest = others;
        if !rule.is_reported(first.len() as u32) {
            continue;
        }
        subjects.push(subject)?;
    }
    Ok(subjects)
}
