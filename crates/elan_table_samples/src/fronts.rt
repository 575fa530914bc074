//! What no clause says: that a node is found after it is made, and which node leaves its place.

ghost use Rattle.std.specs.Prelude.{◌≡◌};

use elan_front::{Front, PLACES};
use elan_table::{Blank, Name, NoMemory, Table, TermRef};
use elan_terms::{OpId, Shape, Shapes, SortId};
use sqlite_items::Items;
use std::alloc::{AllocError, Global};
use std::marker::Brand;
use std::sync::Wait;
use std::test::Fail;

// The operators of the tests, each of one argument.
const NEXT: OpId = OpId(0);

const OTHER: OpId = OpId(1);

fn shape(alloc: Global) -> Result<Shape, NoMemory> {
    let mut args = Items::new(alloc);
    args.push(SortId(0))?;
    Ok(Shape {
        args,
        sort: SortId(0),
        ac: false,
    })
}

/// All of one sort, which is that of integers too.
fn blank(alloc: Global) -> Result<Blank, NoMemory> {
    let mut shapes = Items::new(alloc);
    shapes.push(shape(alloc)?)?;
    shapes.push(shape(alloc)?)?;
    Ok(Blank::new(Shapes {
        shapes,
        int: Some(SortId(0)),
    }))
}

fn integer<N: Name, R: Wait>(
    rt: &R,
    table: &Table<N>,
    front: &mut Front<N>,
    value: i64,
) -> Result<TermRef<N>, NoMemory> {
    if table.takes_int(value) {
        front.int(rt, table, value)
    } else {
        Err(AllocError)
    }
}

/// A row of the application; one that the table does not take is an error as well.
fn node<N: Name, R: Wait>(
    rt: &R,
    table: &Table<N>,
    front: &mut Front<N>,
    op: OpId,
    args: &[TermRef<N>],
) -> Result<TermRef<N>, NoMemory> {
    if table.takes(op, args) {
        front.intern(rt, table, op, args)
    } else {
        Err(AllocError)
    }
}

/// Whether this is the row.
fn is_it<N: Name>(found: &Option<TermRef<N>>, row: &TermRef<N>) -> bool {
    match found {
        None => false,
        Some(found) => found.number() == row.number(),
    }
}

// Whether the nodes over the integer are absent first and then found, each as itself.
fn found<N: Name, R: Wait>(rt: &R, alloc: Global, blank: Blank) -> Result<Vec<bool>, NoMemory>
    requires { blank ≡ (N.root, N.shapes) }
{
    let table = Table::<N>::new(alloc, blank.named::<N>(alloc)?)?;
    let mut front = Front::new(alloc, PLACES)?;
    let mut told = Vec::new(alloc);
    told.push(front.find_int(&table, 7).is_none())?;
    let args = [integer(rt, &table, &mut front, 7)?];
    told.push(is_it(&front.find_int(&table, 7), &args[0]))?;
    told.push(front.find(&table, NEXT, args.as_slice()).is_none())?;
    let next = node(rt, &table, &mut front, NEXT, args.as_slice())?;
    let other = node(rt, &table, &mut front, OTHER, args.as_slice())?;
    told.push(is_it(&front.find(&table, NEXT, args.as_slice()), &next))?;
    told.push(is_it(&front.find(&table, OTHER, args.as_slice()), &other))?;
    told.push(next.number() != other.number())?;
    Ok(told)
}

#[test]
fn a_node_is_found_after_it_is_made(rt: HostRuntime) -> Result<(), Fail> {
    let told = found::<Brand, _>(&rt, rt.alloc(), blank(rt.alloc())?)?;
    assert_eq!(rt;
        told.as_slice(),
        [true, true, true, true, true, true].as_slice()
    );
    Ok(())
}

// What a front of one place tells of two nodes, the second of which takes the place of the first.
fn shared<N: Name, R: Wait>(rt: &R, alloc: Global, blank: Blank) -> Result<Vec<bool>, NoMemory>
    requires { blank ≡ (N.root, N.shapes) }
{
    let table = Table::<N>::new(alloc, blank.named::<N>(alloc)?)?;
    let mut front = Front::new(alloc, 0)?;
    let mut told = Vec::new(alloc);
    let args = [integer(rt, &table, &mut front, 7)?];
    let next = node(rt, &table, &mut front, NEXT, args.as_slice())?;
    told.push(front.find_int(&table, 7).is_none())?;
    let other = node(rt, &table, &mut front, OTHER, args.as_slice())?;
    told.push(front.find(&table, NEXT, args.as_slice()).is_none())?;
    told.push(is_it(&front.find(&table, OTHER, args.as_slice()), &other))?;
    let again = node(rt, &table, &mut front, NEXT, args.as_slice())?;
    told.push(again.number() == next.number())?;
    Ok(told)
}

#[test]
fn two_nodes_of_one_place_take_it_in_turn(rt: HostRuntime) -> Result<(), Fail> {
    let told = shared::<Brand, _>(&rt, rt.alloc(), blank(rt.alloc())?)?;
    assert_eq!(rt; told.as_slice(), [true, true, true, true].as_slice());
    Ok(())
}
