//! Edges between nodes, which are numbers.

/// A directed edge, by the numbers of its nodes.
#[derive(Clone, Copy, Debug, PartialEq, Eq)]
pub struct Edge {
    /// The node where it begins.
    pub from: u32,
    /// The node to which it leads.
    pub to: u32,
}
