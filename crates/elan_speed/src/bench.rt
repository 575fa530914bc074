//! Pairs of integers in a table, made and found.
ghost use Rattle.std.specs.Prelude.{◌≡◌, ◌<◌, Some, IfOk};
ghost use Rattle.elan_terms.specs.Term.{sort_of, depth};
ghost use Rattle.elan_table.specs.Rows.{terms};
ghost use Rattle.elan_table.specs.Nodes.{MayMake};
ghost use Rattle.elan_speed.specs.Plain.{plain};

use elan_front::Front;
use elan_table::{Name, NoMemory, Rows, Table, TermRef};
use elan_terms::{OpId, Shape, Shapes, SortId};
use sqlite_items::Items;
use std::alloc::{AllocError, Global};
use std::sync::Wait;

// The only operator: it takes two arguments of the sort of integers.
const PAIR: OpId = OpId(0);

// How many integers there are, so how many pairs the square of it.
const LEAVES: usize = 4096;

// The finds are among so many pairs, of 50 integers on the left and 40 on the right.
const FEW: u32 = 2000;

const RIGHT: u32 = 40;

/// The operator, and the sort of integers.
pub fn shapes(alloc: Global) -> Result<Shapes, NoMemory>
    ensures { IfOk result (λ s. s ≡ plain) }
{
    let mut args = Items::new(alloc);
    args.push(SortId(0))?;
    args.push(SortId(0))?;
    let mut shapes = Items::new(alloc);
    shapes.push(Shape {
        args,
        sort: SortId(0),
        ac: false,
    })?;
    Ok(Shapes {
        shapes,
        int: Some(SortId(0)),
    })
}

/// A row of an integer, of which pairs may be made.
#[derive(Drop)]
struct Leaf<N: Name> {
    row: TermRef<N>,
    ghost served: { N.shapes ≡ plain },
    ghost sorted: { sort_of N.shapes row.value ≡ Some (record { 0 = 0 }) },
    ghost low: { depth row.value < 2000 },
}

/// A table, and rows of integers in it.
#[derive(Drop)]
pub struct Bench<N: Name> {
    table: Table<N>,
    leaves: Vec<Leaf<N>>,
}

/// A row of the integer, made where it is not there.
fn row_of_integer<N: Name, R: Wait>(
    rt: &R,
    table: &Table<N>,
    value: u32,
) -> Result<Leaf<N>, NoMemory>
    requires { N.shapes ≡ plain }
{
    let value = i64::from(value);
    if table.takes_int(value) {
        Ok(Leaf {
            row: table.int(rt, value)?,
        })
    } else {
        Err(AllocError)
    }
}

/// The rows of both, of which a pair may be made.
#[tactic(auto, using(crate::proofs::Pairs::may_pair))]
fn both<N: Name>(left: &Leaf<N>, right: &Leaf<N>) -> [TermRef<N>; 2]
    ensures { MayMake N.shapes (record { 0 = 0 }) (terms result) }
{
    [left.row.again(), right.row.again()]
}

impl<N: Name> Bench<N> {
    /// A table with the integers from 0 to 4,095.
    pub fn new<R: Wait>(rt: &R, alloc: Global, rows: Rows<N>) -> Result<Bench<N>, NoMemory>
        requires { N.shapes ≡ plain }
    {
        let table = Table::new(alloc, rows)?;
        let mut leaves = Vec::with_capacity(alloc, LEAVES)?;
        for value in 0..LEAVES as u32 {
            leaves.push(row_of_integer(rt, &table, value)?)?;
        }
        Ok(Bench { table, leaves })
    }

    /// The rows of the integers at these places.
    fn args(&self, left: usize, right: usize) -> Result<[TermRef<N>; 2], NoMemory>
        ensures { IfOk result (λ a. MayMake N.shapes (record { 0 = 0 }) (terms a)) }
    {
        match (self.leaves.get(left), self.leaves.get(right)) {
            (Some(left), Some(right)) => Ok(both(left, right)),
            _ => Err(AllocError),
        }
    }

    /// Makes the pairs of these numbers. What it answers is the sum of the rows' numbers.
    pub fn make<R: Wait>(&self, rt: &R, from: u64, calls: u32) -> Result<u64, NoMemory> {
        let mut sum = 0u64;
        for call in 0..calls {
            let number = from.wrapping_add(u64::from(call));
            let args = self.args(
                (number / LEAVES as u64 % LEAVES as u64) as usize,
                (number % LEAVES as u64) as usize,
            )?;
            sum = sum.wrapping_add(self.table.intern(rt, PAIR, args.as_slice())?.number());
        }
        Ok(sum)
    }

    /// Asks the table for pairs of the first 2,000, over and over. What it answers is the sum of
    /// the rows' numbers.
    pub fn ask_table<R: Wait>(&self, rt: &R, calls: u32) -> Result<u64, NoMemory> {
        let mut sum = 0u64;
        for call in 0..calls {
            let number = call % FEW;
            let args = self.args((number / RIGHT) as usize, (number % RIGHT) as usize)?;
            sum = sum.wrapping_add(self.table.intern(rt, PAIR, args.as_slice())?.number());
        }
        Ok(sum)
    }

    /// The same through a front.
    pub fn ask_front<R: Wait>(
        &self,
        rt: &R,
        front: &mut Front<N>,
        calls: u32,
    ) -> Result<u64, NoMemory> {
        let mut sum = 0u64;
        for call in 0..calls {
            let number = call % FEW;
            let args = self.args((number / RIGHT) as usize, (number % RIGHT) as usize)?;
            let row = front.intern(rt, &self.table, PAIR, args.as_slice())?;
            sum = sum.wrapping_add(row.number());
        }
        Ok(sum)
    }
}
