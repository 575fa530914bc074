//! The edges that begin at a node, one after the other.

use crate::edge::Edge;
use std::alloc::{AllocError, Global};

/// For each node the number of one of its edges, and for each edge the number of another one that
/// begins at the same node. What is no number of an edge ends the row. A search through them is
/// quick; what it finds is right whatever they hold.
#[derive(Drop)]
pub(crate) struct Links {
    firsts: Vec<usize>,
    others: Vec<usize>,
}

impl Links {
    /// The links of edges between so many nodes.
    pub(crate) fn new(alloc: Global, edges: &[Edge], count: usize) -> Result<Links, AllocError> {
        let mut links = Links {
            firsts: Vec::from_elem(alloc, usize::MAX, count)?,
            others: Vec::with_capacity(alloc, edges.len())?,
        };
        for (at, edge) in edges.iter().enumerate() {
            links.add(at, *edge)?;
        }
        Ok(links)
    }

    /// Puts an edge before those that begin at the same node.
    fn add(&mut self, at: usize, edge: Edge) -> Result<(), AllocError> {
        let other = self.first(edge.from as usize);
        self.others.push(other)?;
        if let Some(first) = self.firsts.get_mut(edge.from as usize) {
            *first = at;
        }
        Ok(())
    }

    /// The number of the first edge that begins at a node.
    pub(crate) fn first(&self, node: usize) -> usize {
        self.firsts.get(node).copied().unwrap_or(usize::MAX)
    }

    /// The number of the edge after this one.
    pub(crate) fn after(&self, at: usize) -> usize {
        self.others.get(at).copied().unwrap_or(usize::MAX)
    }
}
