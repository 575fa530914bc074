//! Ranks of nodes that rise along no edge: an edge along which the rank falls lies on no cycle.

ghost use Rattle.std.specs.Prelude.{◌≡◌, true, IfOk};
ghost use Rattle.elan_cycles.specs.Marks as spec;

use crate::components::component_ranks;
use crate::edge::Edge;
use crate::links::Links;
use std::alloc::{AllocError, Global};

/// The rank of a node, or 0.
fn rank_of(ranks: &[usize], node: u32) -> usize
    ensures { result ≡ spec.rank_of ranks.now node }
{
    if (node as usize) < ranks.len() {
        ranks[node as usize]
    } else {
        0
    }
}

/// Whether the rank falls along an edge.
pub(crate) fn falls(ranks: &[usize], edge: Edge) -> bool
    ensures { result ≡ spec.falls ranks.now edge }
{
    rank_of(ranks, edge.to) < rank_of(ranks, edge.from)
}

/// Whether the rank rises along no edge.
fn never_rises(ranks: &[usize], edges: &[Edge]) -> bool
    ensures { result ≡ spec.never_rises ranks.now edges.now }
{
    let mut left = edges;
    'edges: while let [edge, rest @ ..] = left {
        if rank_of(ranks, edge.to) > rank_of(ranks, edge.from) {
            return false;
        }
        left = rest;
    }
    true
}

/// Ranks of so many nodes that rise along no edge.
#[tactic(auto, using(crate::proofs::RankLemmas::no_ranks))]
pub(crate) fn falling_ranks(
    alloc: Global,
    edges: &[Edge],
    links: &Links,
    count: usize,
) -> Result<Vec<usize>, AllocError>
    ensures { IfOk result (λ ranks. spec.never_rises ranks.items edges.now ≡ true) }
{
    let ranks = component_ranks(alloc, edges, links, count)?;
    if never_rises(ranks.as_slice(), edges) {
        return Ok(ranks);
    }
    Ok(Vec::new(alloc))
}
