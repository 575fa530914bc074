//! A directed graph with what a search through it goes by.

ghost use Rattle.std.specs.Prelude.{◌≡◌, ◌<◌, ◌≤◌, true, IfOk};
ghost use Rattle.std.specs.List.{Contains};
ghost use Rattle.elan_cycles.specs.Marks.{AreBelow, never_rises};
ghost use Rattle.elan_cycles.specs.Search as spec;

use crate::edge::Edge;
use crate::links::Links;
use crate::ranks::{falling_ranks, falls};
use crate::reach::reaches;
use std::alloc::{AllocError, Global};
use std::marker::Model;

/// A graph as the list of its edges, with its links and with ranks of its nodes.
#[derive(Drop)]
pub(crate) struct Graph<'a> {
    edges: &'a [Edge],
    /// All nodes are below this number.
    count: usize,
    links: Links,
    ranks: Vec<usize>,
}

impl<'a> Model for Graph<'a> {
    ghost use Rattle.std.specs.Prelude.{◌≡◌, true, List};
    ghost use Rattle.elan_cycles.specs.declared.edge.Edge.{Edge as EdgeValue};
    ghost use Rattle.elan_cycles.specs.Marks.{AreBelow as Below, never_rises as rises_never};

    ghost Value = { List EdgeValue };

    ghost view = { λ g. g.edges.now };

    ghost invariant = { λ g. Below g.count g.edges.now
        × (rises_never g.ranks.items g.edges.now ≡ true) };
}

/// A number above that of each node.
fn count_of(edges: &[Edge]) -> usize
    ensures { AreBelow result edges.now }
{
    let mut count = 0usize;
    'edges: for edge in edges {
        count = count.max(edge.from as usize + 1).max(edge.to as usize + 1);
    }
    count
}

/// Whether an edge lies on a cycle.
fn comes_back(
    alloc: Global,
    edges: &[Edge],
    links: &Links,
    ranks: &[usize],
    count: usize,
    edge: Edge,
) -> Result<bool, AllocError>
    requires below { AreBelow count edges.now }
    requires ranked { never_rises ranks.now edges.now ≡ true }
    requires there { Contains edges.now edge }
    ensures { IfOk result (λ back. back ≡ spec.comes_back edges.now edge) }
{
    if falls(ranks, edge) {
        return Ok(false);
    }
    reaches(alloc, edges, links, count, edge.to, edge.from)
}

impl<'a> Graph<'a> {
    /// The graph of these edges.
    pub(crate) fn new(alloc: Global, edges: &'a [Edge]) -> Result<Graph<'a>, AllocError>
        ensures { IfOk result (λ graph. graph ≡ edges.now) }
    {
        let count = count_of(edges);
        let links = Links::new(alloc, edges, count)?;
        let ranks = falling_ranks(alloc, edges, &links, count)?;
        Ok(Graph {
            edges,
            count,
            links,
            ranks,
        })
    }

    /// Whether an edge of the graph lies on a cycle.
    pub(crate) fn comes_back(&self, alloc: Global, edge: Edge) -> Result<bool, AllocError>
        requires { Contains self.now edge }
        ensures { IfOk result (λ back. back ≡ spec.comes_back self.now edge) }
    {
        let ranks = self.ranks.as_slice();
        comes_back(alloc, self.edges, &self.links, ranks, self.count, edge)
    }
}
