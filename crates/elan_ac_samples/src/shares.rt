//! What no clause says: a call with ample memory.

ghost use Rattle.std.specs.Prelude.{◌≡◌};

use elan_shares::{NoMemory, Places, least_share};
use elan_table::{Blank, Name, Table, TermRef};
use elan_terms::{OpId, Shape, Shapes, SortId, is_ac};
use sqlite_items::Items;
use std::alloc::{AllocError, Global};
use std::marker::Brand;
use std::sync::Wait;
use std::test::Fail;

// Two constants, and an associative and commutative operator.
const A: OpId = OpId(0);

const B: OpId = OpId(1);

const UNION: OpId = OpId(2);

fn shape(alloc: Global, many: usize, ac: bool) -> Result<Shape, NoMemory> {
    let mut args = Items::new(alloc);
    for _ in 0..many {
        args.push(SortId(0))?;
    }
    Ok(Shape {
        args,
        sort: SortId(0),
        ac,
    })
}

fn blank(alloc: Global) -> Result<Blank, NoMemory> {
    let mut shapes = Items::new(alloc);
    shapes.push(shape(alloc, 0, false)?)?;
    shapes.push(shape(alloc, 0, false)?)?;
    shapes.push(shape(alloc, 2, true)?)?;
    Ok(Blank::new(Shapes { shapes, int: None }))
}

fn constant<N: Name, R: Wait>(rt: &R, table: &Table<N>, op: OpId) -> Result<TermRef<N>, NoMemory> {
    let none: [TermRef<N>; 0] = [];
    if table.takes(op, none.as_slice()) {
        table.intern(rt, op, none.as_slice())
    } else {
        Err(AllocError)
    }
}

/// The least value of a variable with one place beside that of another variable, where it comes
/// after the floor.
fn next<N: Name, R: Wait>(
    rt: &R,
    alloc: Global,
    table: &Table<N>,
    rows: &[TermRef<N>],
    floor: &TermRef<N>,
) -> Result<Option<TermRef<N>>, NoMemory> {
    if !is_ac(table.shapes(), UNION) || !table.takes(UNION, rows) {
        return Err(AllocError);
    }
    let places = Places {
        sought: 1,
        free: 1,
        others: 0,
    };
    least_share(
        rt,
        alloc,
        table,
        UNION,
        rows,
        &places,
        SortId(0),
        Some(floor),
    )
}

/// X U Y in a U a U b, with X after b: a U a is the least.
fn is_found<N: Name, R: Wait>(rt: &R, alloc: Global, blank: Blank) -> Result<bool, NoMemory>
    requires { blank ≡ (N.root, N.shapes) }
{
    let table = Table::<N>::new(alloc, blank.named::<N>(alloc)?)?;
    let a = constant(rt, &table, A)?;
    let b = constant(rt, &table, B)?;
    let rows = [a.again(), a.again(), b.again()];
    match next(rt, alloc, &table, rows.as_slice(), &b)? {
        None => Ok(false),
        Some(value) => match table.args(&value) {
            [x, y] => Ok(table.equal(x, &a) && table.equal(y, &a)),
            _ => Ok(false),
        },
    }
}

#[test]
fn the_least_value_after_a_constant_is_a_node(rt: HostRuntime) -> Result<(), Fail> {
    let alloc = rt.alloc();
    assert!(rt; is_found::<Brand, _>(&rt, alloc, blank(alloc)?)?);
    Ok(())
}
