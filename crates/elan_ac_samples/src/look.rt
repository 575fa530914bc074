//! What no clause says: calls with ample memory.

ghost use Rattle.std.specs.Prelude.{◌≡◌};

use elan_look::{Low, NoMemory, Sight, look};
use elan_table::{Blank, Name, Table, TermRef};
use elan_terms::{OpId, Pattern, PatternNode, Shape, Shapes, SortId};
use sqlite_items::Items;
use std::alloc::{AllocError, Global};
use std::marker::Brand;
use std::sync::Wait;
use std::test::Fail;

// Two constants, an associative and commutative operator, and one of two arguments in their order.
const A: OpId = OpId(0);

const B: OpId = OpId(1);

const UNION: OpId = OpId(2);

const PAIR: OpId = OpId(3);

fn shape(alloc: Global, many: usize, ac: bool) -> Result<Shape, NoMemory> {
    let mut args = Items::new(alloc);
    for _ in 0..many {
        args.push(SortId(0))?;
    }
    Ok(Shape {
        args,
        sort: SortId(0),
        ac,
    })
}

fn blank(alloc: Global) -> Result<Blank, NoMemory> {
    let mut shapes = Items::new(alloc);
    shapes.push(shape(alloc, 0, false)?)?;
    shapes.push(shape(alloc, 0, false)?)?;
    shapes.push(shape(alloc, 2, true)?)?;
    shapes.push(shape(alloc, 2, false)?)?;
    Ok(Blank::new(Shapes { shapes, int: None }))
}

/// A row of the application; one that the table does not take is an error as well.
fn node<N: Name, R: Wait>(
    rt: &R,
    table: &Table<N>,
    op: OpId,
    args: &[TermRef<N>],
) -> Result<TermRef<N>, NoMemory> {
    if table.takes(op, args) {
        table.intern(rt, op, args)
    } else {
        Err(AllocError)
    }
}

fn variable() -> Pattern {
    Pattern {
        node: PatternNode::Var(0, SortId(0)),
    }
}

fn applied(alloc: Global, op: OpId, left: Pattern, right: Pattern) -> Result<Pattern, NoMemory> {
    let mut args = Items::new(alloc);
    args.push(left)?;
    args.push(right)?;
    Ok(Pattern {
        node: PatternNode::App(op, args),
    })
}

fn constant(alloc: Global, op: OpId) -> Pattern {
    Pattern {
        node: PatternNode::App(op, Items::new(alloc)),
    }
}

/// A sight with the sought variable 0 and, if there is one, its value.
fn sight<N: Name>(alloc: Global, value: Option<TermRef<N>>) -> Result<Sight<N>, NoMemory> {
    let mut known = Items::new(alloc);
    known.push(value)?;
    Ok(Sight {
        first: 0,
        known,
        sought: Some((0, SortId(0))),
        floor: None,
    })
}

/// Whether the answer is a row of this term.
fn is_at<N: Name>(table: &Table<N>, low: Low<N>, term: &TermRef<N>) -> bool {
    match low {
        Low::At(row) => table.equal(&row, term),
        _ => false,
    }
}

/// pair(X, a) U b in pair(b, a) U b: X has b alone; with a for X there is no match, with b there is.
fn answers<N: Name, R: Wait>(
    rt: &R,
    alloc: Global,
    blank: Blank,
) -> Result<(bool, bool, bool), NoMemory>
    requires { blank ≡ (N.root, N.shapes) }
{
    let table = Table::<N>::new(alloc, blank.named::<N>(alloc)?)?;
    let none = Items::new(alloc);
    let a = node(rt, &table, A, none.as_slice())?;
    let b = node(rt, &table, B, none.as_slice())?;
    let both = [b.again(), a.again()];
    let pair = node(rt, &table, PAIR, both.as_slice())?;
    let two = [b.again(), pair];
    let term = node(rt, &table, UNION, two.as_slice())?;
    let inner = applied(alloc, PAIR, variable(), constant(alloc, A))?;
    let pattern = applied(alloc, UNION, inner, constant(alloc, B))?;
    let open = look(rt, alloc, &table, &sight(alloc, None)?, &pattern, &term)?;
    let wrong = look(rt, alloc, &table, &sight(alloc, Some(a))?, &pattern, &term)?;
    let right = look(
        rt,
        alloc,
        &table,
        &sight(alloc, Some(b.again()))?,
        &pattern,
        &term,
    )?;
    Ok((is_at(&table, open, &b), wrong.is_empty(), right.is_empty()))
}

#[test]
fn a_variable_is_bounded_inside_an_argument(rt: HostRuntime) -> Result<(), Fail> {
    let answer = answers::<Brand, _>(&rt, rt.alloc(), blank(rt.alloc())?)?;
    assert_eq!(rt; answer, (true, true, false));
    Ok(())
}
