//! What no clause says: calls with ample memory, what is found again, and two threads.

ghost use Rattle.std.specs.Prelude.{◌≡◌};

use elan_table::{Blank, Name, NoMemory, Node, Shard, Table, TermRef};
use elan_terms::{OpId, Shape, Shapes, SortId, Term, TermNode};
use sqlite_items::Items;
use std::alloc::{AllocError, Global};
use std::marker::Brand;
use std::sync::Wait;
use std::test::Fail;
use std::thread::{Threads, join};

// The operators of the tests: two constants, an associative and commutative one, and one of two
// arguments in their order.
const A: OpId = OpId(0);

const B: OpId = OpId(1);

const UNION: OpId = OpId(2);

const PAIR: OpId = OpId(3);

fn shape(alloc: Global, many: usize, ac: bool) -> Result<Shape, NoMemory> {
    let mut args = Items::new(alloc);
    for _ in 0..many {
        args.push(SortId(0))?;
    }
    Ok(Shape {
        args,
        sort: SortId(0),
        ac,
    })
}

/// All of one sort, which is that of integers too.
fn shapes(alloc: Global) -> Result<Shapes, NoMemory> {
    let mut shapes = Items::new(alloc);
    shapes.push(shape(alloc, 0, false)?)?;
    shapes.push(shape(alloc, 0, false)?)?;
    shapes.push(shape(alloc, 2, true)?)?;
    shapes.push(shape(alloc, 2, false)?)?;
    Ok(Shapes {
        shapes,
        int: Some(SortId(0)),
    })
}

fn blank(alloc: Global) -> Result<Blank, NoMemory> {
    Ok(Blank::new(shapes(alloc)?))
}

/// A row of the application; one that the table does not take is an error as well.
fn node<N: Name, R: Wait>(
    rt: &R,
    table: &Table<N>,
    op: OpId,
    args: &[TermRef<N>],
) -> Result<TermRef<N>, NoMemory> {
    if table.takes(op, args) {
        table.intern(rt, op, args)
    } else {
        Err(AllocError)
    }
}

fn integer<N: Name, R: Wait>(rt: &R, table: &Table<N>, value: i64) -> Result<TermRef<N>, NoMemory> {
    if table.takes_int(value) {
        table.int(rt, value)
    } else {
        Err(AllocError)
    }
}

fn constant(alloc: Global, op: OpId) -> Term {
    Term {
        node: TermNode::App(op, Items::new(alloc)),
    }
}

fn union(alloc: Global) -> Result<Term, NoMemory> {
    let mut args = Items::new(alloc);
    args.push(constant(alloc, A))?;
    args.push(constant(alloc, B))?;
    Ok(Term {
        node: TermNode::App(UNION, args),
    })
}

/// The argument at a place, or an error where there is none.
fn argument<N: Name, R: Wait>(
    rt: &R,
    table: &Table<N>,
    term: &TermRef<N>,
    place: u64,
) -> Result<TermRef<N>, NoMemory> {
    match table.node(term) {
        Node::App(_, many) => {
            if place < many {
                table.arg(rt, term, place)
            } else {
                Err(AllocError)
            }
        }
        Node::Int(_) => Err(AllocError),
    }
}

// What a U b is copied as, what its second argument is, and whether it is found again.
fn told<N: Name, R: Wait>(
    rt: &R,
    alloc: Global,
    blank: Blank,
) -> Result<(bool, bool, bool, u32), NoMemory>
    requires { blank ≡ (N.root, N.shapes) }
{
    let table = Table::<N>::new(alloc, blank.named::<N>(alloc)?)?;
    let none = Vec::new(alloc);
    let a = node(rt, &table, A, none.as_slice())?;
    let b = node(rt, &table, B, none.as_slice())?;
    let args = [a, b];
    let both = node(rt, &table, UNION, args.as_slice())?;
    let again = node(rt, &table, UNION, args.as_slice())?;
    let copy = elan_terms::compare(&table.to_owned(&both)?, &union(alloc)?).is_eq();
    let second = table.equal(&argument(rt, &table, &both, 1)?, &args[1]);
    Ok((
        copy,
        second,
        both.number() == again.number(),
        table.depth(&both),
    ))
}

#[test]
fn a_row_tells_its_term(rt: HostRuntime) -> Result<(), Fail> {
    let answer = told::<Brand, _>(&rt, rt.alloc(), blank(rt.alloc())?)?;
    assert_eq!(rt; answer, (true, true, true, 2));
    Ok(())
}

fn one_shard<N: Name, R: Wait>(rt: &R, alloc: Global, blank: Blank) -> Result<bool, NoMemory>
    requires { blank ≡ (N.root, N.shapes) }
{
    let rows = blank.named::<N>(alloc)?;
    let mut shard = Shard::new(alloc);
    let none = Vec::new(alloc);
    if rows.takes(A, none.as_slice()) {
        let first = shard.intern(rt, alloc, &rows, A, none.as_slice())?;
        let second = shard.intern(rt, alloc, &rows, A, none.as_slice())?;
        Ok(first.number() == second.number())
    } else {
        Ok(false)
    }
}

#[test]
fn a_shard_finds_a_node_again(rt: HostRuntime) -> Result<(), Fail> {
    assert!(rt; one_shard::<Brand, _>(&rt, rt.alloc(), blank(rt.alloc())?)?);
    Ok(())
}

/// A row of the pair of the integer and its negative.
fn around<N: Name, R: Wait>(rt: &R, table: &Table<N>, value: i64) -> Result<TermRef<N>, NoMemory> {
    let args = [
        integer(rt, table, value)?,
        integer(rt, table, value.wrapping_neg())?,
    ];
    node(rt, table, PAIR, args.as_slice())
}

/// Rows of the pairs of the first hundred numbers.
fn hundred<N: Name, R: Wait>(
    rt: &R,
    alloc: Global,
    table: &Table<N>,
) -> Result<Vec<TermRef<N>>, NoMemory> {
    let mut made = Vec::new(alloc);
    for value in 0..100i64 {
        made.push(around(rt, table, value)?)?;
    }
    Ok(made)
}

fn all_equal<N: Name>(table: &Table<N>, some: &[TermRef<N>], others: &[TermRef<N>]) -> bool {
    let mut equal = some.len() == others.len();
    for (a, b) in some.iter().zip(others) {
        equal = equal && table.equal(a, b) && table.compare(a, b).is_eq();
    }
    equal
}

fn side_by_side<N: Name + Send + Sync, R: Threads + Wait + Sync>(
    rt: &R,
    alloc: Global,
    blank: Blank,
) -> Result<bool, NoMemory>
    requires { blank ≡ (N.root, N.shapes) }
{
    let table = Table::<N>::new(alloc, blank.named::<N>(alloc)?)?;
    let (one, other) = join(
        rt,
        || hundred(rt, alloc, &table),
        || hundred(rt, alloc, &table),
    );
    Ok(all_equal(&table, one?.as_slice(), other?.as_slice()))
}

#[test]
fn threads_make_equal_terms_of_equal_nodes(rt: HostRuntime) -> Result<(), Fail> {
    assert!(rt; side_by_side::<Brand, _>(&rt, rt.alloc(), blank(rt.alloc())?)?);
    Ok(())
}
