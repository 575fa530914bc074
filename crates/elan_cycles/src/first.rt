//! The first edge that lies on a cycle.

ghost use Rattle.std.specs.Prelude.{◌≡◌, ◌+◌, ◌≤◌, length, IfOk, MatchOption};
ghost use Rattle.elan_cycles.specs.Edges.{HasNoCycle, IsFirstOnCycle};
ghost use Rattle.elan_cycles.specs.Search as spec;

use crate::edge::Edge;
use crate::graph::Graph;
use std::alloc::{AllocError, Global};

/// The number of the first edge of a graph that lies on a cycle.
fn search(alloc: Global, graph: &Graph<'_>, edges: &[Edge]) -> Result<Option<usize>, AllocError>
    requires { graph.now ≡ edges.now }
    ensures { IfOk result (λ found. found ≡ spec.first_on_cycle edges.now) }
{
    'edges: for (at, edge) in edges.iter().enumerate() {
        if graph.comes_back(alloc, *edge)? {
            return Ok(Some(at));
        }
    }
    Ok(None)
}

/// The number of the first of these edges that lies on a cycle, counted from 0. An edge lies on a
/// cycle where edges lead from its end back to its beginning; one from a node to itself does.
///
/// It takes time and memory in proportion to the number of edges and to the greatest number of a
/// node.
#[tactic(auto, using(crate::proofs::FirstLemmas::first_rules))]
pub fn first_on_cycle(alloc: Global, edges: &[Edge]) -> Result<Option<usize>, AllocError>
    ensures value { IfOk result (λ found. found ≡ spec.first_on_cycle edges.now) }
    ensures first { IfOk result (λ found.
        MatchOption found (HasNoCycle edges.now) (IsFirstOnCycle edges.now)) }
{
    let graph = Graph::new(alloc, edges)?;
    search(alloc, &graph, edges)
}
