//! Small graphs, whose first edge on a cycle was found by hand.

use elan_cycles::{Edge, first_on_cycle};
use std::alloc::Global;
use std::test::Fail;

/// The graph of these pairs of nodes.
fn graph(alloc: Global, pairs: &[(u32, u32)]) -> Result<Vec<Edge>, Fail> {
    let mut edges = Vec::new(alloc);
    for (from, to) in pairs {
        edges.push(Edge {
            from: *from,
            to: *to,
        })?;
    }
    Ok(edges)
}

#[test]
fn the_first_edge_on_a_cycle_is_found(rt: HostRuntime) -> Result<(), Fail> {
    let alloc = rt.alloc();
    let rows: [(&[(u32, u32)], Option<usize>); 8] = [
        (&[], None),
        (&[(0, 1), (1, 2), (0, 2)], None),
        (&[(3, 3)], Some(0)),
        (&[(0, 1), (1, 1)], Some(1)),
        // The first edge leads to a cycle and the second from one to another, and neither lies on
        // one.
        (&[(0, 1), (2, 4), (1, 2), (2, 1), (4, 4)], Some(2)),
        // The same edge twice, and a cycle of three.
        (&[(5, 0), (0, 1), (0, 1), (1, 2), (2, 0)], Some(1)),
        (&[(9, 8), (8, 7), (7, 6), (6, 5), (5, 6)], Some(3)),
        (&[(0, 1), (1, 2), (2, 3), (3, 1)], Some(1)),
    ];
    for (pairs, expected) in rows {
        let edges = graph(alloc, pairs)?;
        assert_eq!(rt; first_on_cycle(alloc, edges.as_slice())?, expected);
    }
    Ok(())
}

#[test]
fn a_long_row_and_a_large_cycle_are_searched(rt: HostRuntime) -> Result<(), Fail> {
    let alloc = rt.alloc();
    let mut edges = Vec::new(alloc);
    for node in 0..4_000u32 {
        edges.push(Edge {
            from: node,
            to: node + 1,
        })?;
    }
    assert_eq!(rt; first_on_cycle(alloc, edges.as_slice())?, None);
    edges.push(Edge {
        from: 4_000,
        to: 17,
    })?;
    assert_eq!(rt; first_on_cycle(alloc, edges.as_slice())?, Some(17));
    Ok(())
}
