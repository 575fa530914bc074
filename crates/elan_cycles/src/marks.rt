//! Marks of nodes, which go along edges.

ghost use Rattle.std.specs.Prelude.{◌≡◌, ◌≤◌, ◌<◌, ◌||◌, true, false, length, cond, slice_set};
ghost use Rattle.elan_cycles.specs.Marks as spec;

use crate::edge::Edge;

/// Whether a node is marked.
pub(crate) fn is_marked(marks: &[bool], node: u32) -> bool
    ensures { result ≡ spec.is_marked marks.now node }
{
    (node as usize) < marks.len() && marks[node as usize]
}

/// Whether an edge leads from a marked node to one that is not marked.
fn is_open(marks: &[bool], edge: Edge) -> bool
    ensures { result ≡ spec.is_open marks.now edge }
{
    is_marked(marks, edge.from) && !is_marked(marks, edge.to)
}

/// Marks the end of an edge, if it leads from a marked node to one that is not marked. It answers
/// whether it does.
pub(crate) fn pass(marks: &mut [bool], edge: Edge) -> bool
    requires { edge.to < length marks.old }
    ensures open { result ≡ spec.is_open marks.old edge }
    ensures marks { marks.new ≡ cond result (slice_set marks.old edge.to true) marks.old }
{
    if !is_open(marks, edge) {
        return false;
    }
    marks[edge.to as usize] = true;
    true
}

/// Passes a mark along an edge. It answers whether a node was marked, by this edge or before.
fn spread(marks: &mut [bool], edge: Edge, marked: bool) -> bool
    requires { edge.to < length marks.old }
    ensures marked { result ≡ (spec.is_open marks.old edge || marked) }
    ensures marks { marks.new
        ≡ cond (spec.is_open marks.old edge) (slice_set marks.old edge.to true) marks.old }
{
    pass(marks, edge) || marked
}

/// Lets the marks go along each edge once. It answers whether a node was marked.
fn sweep(marks: &mut [bool], edges: &[Edge]) -> bool
    requires { spec.AreBelow (length marks.old) edges.now }
    ensures widens { spec.Widens edges.now marks.old marks.new }
    ensures closed { result ≡ false → spec.AreClosed edges.now marks.new }
    ensures fewer { result ≡ true → spec.unmarked marks.new < spec.unmarked marks.old }
{
    let mut marked = false;
    'edges: for edge in edges {
        marked = spread(marks, *edge, marked);
    }
    marked
}

/// Lets the marks go along edges until each edge from a marked node leads to a marked one.
pub(crate) fn settle(marks: &mut [bool], edges: &[Edge])
    requires { spec.AreBelow (length marks.old) edges.now }
    ensures widens { spec.Widens edges.now marks.old marks.new }
    ensures closed { spec.AreClosed edges.now marks.new }
{
    'sweeps: while sweep(marks, edges) {}
}
