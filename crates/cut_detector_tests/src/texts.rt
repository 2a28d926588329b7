//! Rings and edges of the tests, of which many are written in texts of vectors.

use cut_rings::{Edge, Rings, RingsFault};
use std::alloc::{AllocError, Global};

/// The numbers of a text with blanks between them.
pub(crate) fn numbers(alloc: Global, text: &str) -> Result<Vec<u16>, AllocError> {
    text.split_whitespace()
        .map(|word| word.parse::<u16>().unwrap_or(u16::MAX))
        .collect(alloc)
}

/// The lists of numbers that commas separate.
fn lists_of(alloc: Global, text: &str) -> Result<Vec<Vec<u16>>, AllocError> {
    let mut lists: Vec<Vec<u16>> = Vec::new(alloc);
    for list in text.split(", ") {
        lists.push(numbers(alloc, list)?)?;
    }
    Ok(lists)
}

/// The rings of `nodes` processes that these lists give, with commas between them.
pub(crate) fn rings_of_lists(alloc: Global, nodes: u16, text: &str) -> Result<Rings, RingsFault> {
    let lists = lists_of(alloc, text)?;
    if nodes > 2048 || lists.len() > 32 {
        return Err(RingsFault::Memory);
    }
    Rings::from_lists(alloc, nodes, &lists)
}

/// The rings of lists with commas between them, of as many processes as the first has.
pub(crate) fn rings_of_text(alloc: Global, text: &str) -> Result<Rings, RingsFault> {
    let (first, _) = text.split_once(", ").unwrap_or((text, ""));
    let nodes = first.split_whitespace().count().min(2048) as u16;
    rings_of_lists(alloc, nodes, text)
}

/// The edge that is written as its ring and its subject with a point between them.
pub(crate) fn edge_of(word: &str) -> Edge {
    let (ring, subject) = word.split_once('.').unwrap_or(("", ""));
    Edge {
        ring: ring.parse::<u8>().unwrap_or(u8::MAX),
        subject: subject.parse::<u16>().unwrap_or(u16::MAX),
    }
}

/// Four processes on three rings.
pub(crate) fn four(alloc: Global) -> Result<Rings, RingsFault> {
    rings_of_text(alloc, "0 1 2 3, 0 2 1 3, 0 3 2 1")
}

/// The edges that are written with blanks between them.
pub(crate) fn edges_of(alloc: Global, text: &str) -> Result<Vec<Edge>, AllocError> {
    text.split_whitespace()
        .map(|word| edge_of(word))
        .collect(alloc)
}

/// Whether edges are those that are written with blanks between them.
pub(crate) fn are_written(edges: &[Edge], text: &str) -> bool {
    for (edge, word) in edges.iter().zip(text.split_whitespace()) {
        if *edge != edge_of(word) {
            return false;
        }
    }
    edges.len() == text.split_whitespace().count()
}
