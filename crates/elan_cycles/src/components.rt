//! Ranks of nodes by strongly connected components, found by the algorithm of Tarjan.

use crate::edge::Edge;
use crate::links::Links;
use std::alloc::{AllocError, Global};

/// What a search knows of a node.
#[derive(Clone, Copy)]
struct Met {
    /// When it was met, counted from 1, and 0 before that.
    order: usize,
    /// The least order of an open node to which the search came from here.
    low: usize,
    /// The number of the next edge to go along.
    next: usize,
    /// The number of its component, counted from 1, and 0 while that is open.
    rank: usize,
}

/// A search in depth, which closes a component after all to which it leads.
#[derive(Drop)]
struct Components<'a> {
    edges: &'a [Edge],
    links: &'a Links,
    nodes: Vec<Met>,
    /// The nodes from the one where the search began to the one where it is.
    way: Vec<usize>,
    /// The nodes that were met and whose component is open.
    open: Vec<usize>,
    met: usize,
    closed: usize,
}

impl<'a> Components<'a> {
    /// Comes to a node for the first time.
    fn enter(&mut self, at: usize) -> Result<(), AllocError> {
        self.met = self.met.saturating_add(1);
        let (order, next) = (self.met, self.links.first(at));
        if let Some(node) = self.nodes.get_mut(at) {
            *node = Met {
                order,
                low: order,
                next,
                rank: 0,
            };
        }
        self.way.push(at)?;
        self.open.push(at)?;
        Ok(())
    }

    /// Notes that the search came from a node to an open one of this order.
    fn lower(&mut self, at: usize, order: usize) {
        if let Some(node) = self.nodes.get_mut(at) {
            node.low = node.low.min(order);
        }
    }

    /// Looks at the end of an edge that begins at a node.
    fn look(&mut self, at: usize, end: usize) -> Result<(), AllocError> {
        let Some(node) = self.nodes.get(end).copied() else {
            return Ok(());
        };
        if node.order == 0 {
            return self.enter(end);
        }
        if node.rank == 0 {
            self.lower(at, node.order);
        }
        Ok(())
    }

    /// Closes the component of which this node was met first.
    fn close(&mut self, first: usize) {
        self.closed = self.closed.saturating_add(1);
        let rank = self.closed;
        for _ in 0..self.open.len() {
            let Some(at) = self.open.pop() else {
                return;
            };
            if let Some(node) = self.nodes.get_mut(at) {
                node.rank = rank;
            }
            if at == first {
                return;
            }
        }
    }

    /// Goes back from a node.
    fn leave(&mut self, at: usize) {
        self.way.pop();
        let Some(node) = self.nodes.get(at).copied() else {
            return;
        };
        if node.low == node.order {
            self.close(at);
        }
        if let Some(before) = self.way.last().copied() {
            self.lower(before, node.low);
        }
    }

    /// The next edge to go along from a node.
    fn next_edge(&mut self, at: usize) -> Option<Edge> {
        let next = self.nodes.get(at)?.next;
        let edge = self.edges.get(next).copied()?;
        let after = self.links.after(next);
        if let Some(node) = self.nodes.get_mut(at) {
            node.next = after;
        }
        Some(edge)
    }

    /// Goes along an edge or back. It answers whether the search is still at a node.
    fn step(&mut self) -> Result<bool, AllocError> {
        let Some(at) = self.way.last().copied() else {
            return Ok(false);
        };
        match self.next_edge(at) {
            Some(edge) => self.look(at, edge.to as usize)?,
            None => self.leave(at),
        }
        Ok(true)
    }

    /// Searches from a node on, unless it was met.
    fn search(&mut self, at: usize) -> Result<(), AllocError> {
        if self.nodes.get(at).is_none_or(|node| node.order > 0) {
            return Ok(());
        }
        self.enter(at)?;
        let steps = self.edges.len().saturating_add(self.nodes.len());
        for _ in 0..steps {
            if !self.step()? {
                return Ok(());
            }
        }
        Ok(())
    }
}

/// The ranks of so many nodes by the components in which they lie. Along an edge between two
/// components the rank falls, and along one inside a component it stays. Nothing rests on that but
/// the time of a search.
pub(crate) fn component_ranks(
    alloc: Global,
    edges: &[Edge],
    links: &Links,
    count: usize,
) -> Result<Vec<usize>, AllocError> {
    let unmet = Met {
        order: 0,
        low: 0,
        next: usize::MAX,
        rank: 0,
    };
    let mut components = Components {
        edges,
        links,
        nodes: Vec::from_elem(alloc, unmet, count)?,
        way: Vec::new(alloc),
        open: Vec::new(alloc),
        met: 0,
        closed: 0,
    };
    for at in 0..count {
        components.search(at)?;
    }
    let mut ranks = Vec::with_capacity(alloc, count)?;
    for node in components.nodes.as_slice() {
        ranks.push(node.rank)?;
    }
    Ok(ranks)
}
