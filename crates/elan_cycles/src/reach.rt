//! Whether a way leads from one node to another.

ghost use Rattle.std.specs.Prelude.{◌≡◌, ◌<◌, length, IfOk, OnOk};
ghost use Rattle.elan_cycles.specs.Marks as spec_marks;
ghost use Rattle.elan_cycles.specs.Marks.{AreBelow, Widens};
ghost use Rattle.elan_cycles.specs.Search as spec;

use crate::edge::Edge;
use crate::links::Links;
use crate::marks::{is_marked, pass, settle};
use sqlite_items::at;
use std::alloc::{AllocError, Global};

/// Passes marks along the edges that begin at a node, and notes the nodes that it marked.
fn visit(
    marks: &mut [bool],
    edges: &[Edge],
    links: &Links,
    work: &mut Vec<u32>,
    node: u32,
) -> Result<(), AllocError>
    requires { AreBelow (length marks.old) edges.now }
    ensures { OnOk result (Widens edges.now marks.old marks.new) }
{
    let mut number = links.first(node as usize);
    'edges: for _ in 0..edges.len() {
        let Some(edge) = at(edges, number) else {
            return Ok(());
        };
        if pass(marks, *edge) {
            work.push(edge.to)?;
        }
        number = links.after(number);
    }
    Ok(())
}

/// Passes marks along the edges from a node on, each edge once.
fn walk(
    alloc: Global,
    marks: &mut [bool],
    edges: &[Edge],
    links: &Links,
    start: u32,
) -> Result<(), AllocError>
    requires { AreBelow (length marks.old) edges.now }
    ensures { OnOk result (Widens edges.now marks.old marks.new) }
{
    let mut work = Vec::new(alloc);
    work.push(start)?;
    'nodes: for _ in 0..marks.len() {
        let Some(node) = work.pop() else {
            return Ok(());
        };
        visit(marks, edges, links, &mut work, node)?;
    }
    Ok(())
}

/// Marks of so many nodes, of which one alone is marked.
fn marked_alone(alloc: Global, count: usize, node: u32) -> Result<Vec<bool>, AllocError>
    requires { node < count }
    ensures { IfOk result (λ marks. marks.items ≡ spec_marks.marked_alone count node) }
{
    let mut marks = Vec::from_elem(alloc, false, count)?;
    marks[node as usize] = true;
    Ok(marks)
}

/// Whether a way leads from the one node that is marked to another.
fn leads(
    alloc: Global,
    marks: &mut [bool],
    edges: &[Edge],
    links: &Links,
    from: u32,
    to: u32,
) -> Result<bool, AllocError>
    requires below { AreBelow (length marks.old) edges.now }
    requires within { from < length marks.old }
    requires alone { marks.old ≡ spec_marks.marked_alone (length marks.old) from }
    ensures { IfOk result (λ leads. leads ≡ spec.leads edges.now from to) }
{
    walk(alloc, marks, edges, links, from)?;
    settle(marks, edges);
    Ok(is_marked(marks, to))
}

/// Whether a way leads from one node to another.
pub(crate) fn reaches(
    alloc: Global,
    edges: &[Edge],
    links: &Links,
    count: usize,
    from: u32,
    to: u32,
) -> Result<bool, AllocError>
    requires below { AreBelow count edges.now }
    requires within { from < count }
    ensures { IfOk result (λ leads. leads ≡ spec.leads edges.now from to) }
{
    let mut marks = marked_alone(alloc, count, from)?;
    leads(alloc, &mut marks, edges, links, from, to)
}
