//! What no clause says: calls with ample memory.

ghost use Rattle.std.specs.Prelude.{◌≡◌};

use elan_ac::{Built, build};
use elan_table::{Blank, Name, NoMemory, Table, TermRef};
use elan_terms::{OpId, Shape, Shapes, SortId, Term, TermNode};
use sqlite_items::Items;
use std::alloc::{AllocError, Global};
use std::marker::Brand;
use std::sync::Wait;
use std::test::Fail;

// The operators of the tests: three constants, an associative and commutative one, and one of one argument.
const A: OpId = OpId(0);

const B: OpId = OpId(1);

const C: OpId = OpId(2);

const UNION: OpId = OpId(3);

const NEXT: OpId = OpId(4);

fn shape(alloc: Global, many: usize, ac: bool) -> Result<Shape, NoMemory> {
    let mut args = Items::new(alloc);
    for _ in 0..many {
        args.push(SortId(0))?;
    }
    Ok(Shape {
        args,
        sort: SortId(0),
        ac,
    })
}

fn blank(alloc: Global) -> Result<Blank, NoMemory> {
    let mut shapes = Items::new(alloc);
    for _ in 0..3 {
        shapes.push(shape(alloc, 0, false)?)?;
    }
    shapes.push(shape(alloc, 2, true)?)?;
    shapes.push(shape(alloc, 1, false)?)?;
    Ok(Blank::new(Shapes { shapes, int: None }))
}

/// The node; one of arguments that do not fit is an error as well.
fn built<N: Name, R: Wait>(
    rt: &R,
    alloc: Global,
    table: &Table<N>,
    op: OpId,
    args: &[TermRef<N>],
) -> Result<Built<N>, NoMemory> {
    if table.fits(op, args) {
        build(rt, alloc, table, op, args)
    } else {
        Err(AllocError)
    }
}

/// Its row; a node that is too deep is an error as well.
fn row<N: Name, R: Wait>(
    rt: &R,
    alloc: Global,
    table: &Table<N>,
    op: OpId,
    args: &[TermRef<N>],
) -> Result<TermRef<N>, NoMemory> {
    match built(rt, alloc, table, op, args)? {
        Built::Node(row) => Ok(row),
        Built::TooDeep => Err(AllocError),
    }
}

fn constant(alloc: Global, op: OpId) -> Term {
    Term {
        node: TermNode::App(op, Items::new(alloc)),
    }
}

fn flat(alloc: Global) -> Result<Term, NoMemory> {
    let mut args = Items::new(alloc);
    args.push(constant(alloc, A))?;
    args.push(constant(alloc, B))?;
    args.push(constant(alloc, C))?;
    Ok(Term {
        node: TermNode::App(UNION, args),
    })
}

// Whether (c U a) U b is a U b U c.
fn nested<N: Name, R: Wait>(rt: &R, alloc: Global, blank: Blank) -> Result<bool, NoMemory>
    requires { blank ≡ (N.root, N.shapes) }
{
    let table = Table::<N>::new(alloc, blank.named::<N>(alloc)?)?;
    let none = Vec::new(alloc);
    let inner = [
        row(rt, alloc, &table, C, none.as_slice())?,
        row(rt, alloc, &table, A, none.as_slice())?,
    ];
    let outer = [
        row(rt, alloc, &table, UNION, inner.as_slice())?,
        row(rt, alloc, &table, B, none.as_slice())?,
    ];
    let whole = row(rt, alloc, &table, UNION, outer.as_slice())?;
    Ok(elan_terms::compare(&table.to_owned(&whole)?, &flat(alloc)?).is_eq())
}

#[test]
fn nested_unions_are_flat_and_ascend(rt: HostRuntime) -> Result<(), Fail> {
    assert!(rt; nested::<Brand, _>(&rt, rt.alloc(), blank(rt.alloc())?)?);
    Ok(())
}

// How deep the deepest node is, and whether one more is too deep.
fn deepest<N: Name, R: Wait>(rt: &R, alloc: Global, blank: Blank) -> Result<(u32, bool), NoMemory>
    requires { blank ≡ (N.root, N.shapes) }
{
    let table = Table::<N>::new(alloc, blank.named::<N>(alloc)?)?;
    let none = Vec::new(alloc);
    let mut top = row(rt, alloc, &table, A, none.as_slice())?;
    for _ in 1..2000 {
        let args = [top];
        top = row(rt, alloc, &table, NEXT, args.as_slice())?;
    }
    let depth = table.depth(&top);
    let args = [top];
    match built(rt, alloc, &table, NEXT, args.as_slice())? {
        Built::Node(_) => Ok((depth, false)),
        Built::TooDeep => Ok((depth, true)),
    }
}

#[test]
fn a_node_of_depth_2001_is_too_deep(rt: HostRuntime) -> Result<(), Fail> {
    let answer = deepest::<Brand, _>(&rt, rt.alloc(), blank(rt.alloc())?)?;
    assert_eq!(rt; answer, (2000, true));
    Ok(())
}
