//! The table: rows, and shards behind locks.
ghost use Rattle.std.specs.Prelude.{◌≡◌, ◌<◌, ◌↔◌, length, IsTrue, IfOk, slice_get, Some};
ghost use Rattle.elan_terms.specs.Trees.{app_term, int_term};
ghost use Rattle.elan_terms.specs.Term as spec;
ghost use Rattle.elan_terms.specs.Valid.{IsNumber, IsAllowed};
ghost use Rattle.elan_shared.specs.Nodes.{arguments};
ghost use Rattle.elan_table.specs.Rows.{terms};
ghost use Rattle.elan_table.specs.Nodes.{MayMake, node_of};
ghost use Rattle.elan_table.specs.Shown.{told};

use crate::NoMemory;
use crate::name::Name;
use crate::node::Node;
use crate::row::{TermRef, Top, nth};
use crate::rows::Rows;
use crate::shard::Shard;
use elan_terms::{OpId, Shapes, Term};
use std::alloc::Global;
use std::cmp::Ordering;
use std::sync::{Mutex, Wait};

/// Terms in rows that threads share.
#[derive(Drop)]
pub struct Table<N: Name> {
    rows: Rows<N>,
    shards: Vec<Mutex<Shard<N>>>,
    alloc: Global,
    ghost many: { length shards.items ≡ 64 },
}

impl<N: Name> Table<N> {
    /// A table over these rows, with 64 shards behind locks. It serves the operators that the rows
    /// were made with.
    pub fn new(alloc: Global, rows: Rows<N>) -> Result<Table<N>, NoMemory> {
        let mut shards = Vec::new(alloc);
        while shards.len() < 64 {
            shards.push(Mutex::new(Shard::new(alloc)))?;
        }
        Ok(Table {
            rows,
            shards,
            alloc,
        })
    }

    /// A row of the integer; an equal one that was made before is found again. There is a sort of
    /// integers, and the value is not `i64::MIN`. It may wait for a lock.
    pub fn int<R: Wait>(&self, rt: &R, value: i64) -> Result<TermRef<N>, NoMemory>
        requires { IsNumber N.shapes value }
        ensures { IfOk result (λ t. t.value ≡ int_term value) }
    {
        let mut shard = self.shards[place_of(value.unsigned_abs())].lock(rt);
        shard.int(rt, &self.rows, value)
    }

    /// A row of the application; an equal one that was made before of the same rows is found again.
    /// The arguments fit the operator, the application is canonical, and each argument is less than
    /// 2,000 deep. It may wait for a lock.
    pub fn intern<R: Wait>(
        &self,
        rt: &R,
        op: OpId,
        args: &[TermRef<N>],
    ) -> Result<TermRef<N>, NoMemory>
        requires { MayMake N.shapes op (terms args.now) }
        ensures { IfOk result (λ t. t.value ≡ app_term op (terms args.now)) }
    {
        let mut shard = self.shards[shard_of(op, args)].lock(rt);
        shard.intern(rt, self.alloc, &self.rows, op, args)
    }

    /// Whether the table takes the integer.
    pub fn takes_int(&self, value: i64) -> bool
        ensures { IsTrue result ↔ IsNumber N.shapes value }
    {
        value != i64::MIN && self.shapes().int.is_some()
    }

    /// Whether the terms of these rows fit the operator: it has so many arguments of these sorts,
    /// or it is associative and commutative and there are at least two, all of its sort.
    pub fn fits(&self, op: OpId, args: &[TermRef<N>]) -> bool
        ensures { IsTrue result ↔ IsAllowed N.shapes op (terms args.now) }
    {
        self.rows.is_allowed(op, args)
    }

    /// Whether the table takes the application of the operator to the terms of these rows: they fit
    /// the operator, the application is canonical, and each of them is less than 2,000 deep.
    pub fn takes(&self, op: OpId, args: &[TermRef<N>]) -> bool
        ensures { IsTrue result ↔ MayMake N.shapes op (terms args.now) }
    {
        self.rows.takes(op, args)
    }

    /// The integer, or the operator and the number of arguments.
    pub fn node(&self, term: &TermRef<N>) -> Node
        ensures { result ≡ node_of term.now.value }
    {
        match self.rows.row(term).node() {
            Top::Int(value) => Node::Int(value),
            Top::App(op, args) => Node::App(op, args.len() as u64),
        }
    }

    /// A row of the argument at that place, counted from 0: the one that the application was made
    /// of. It never fails and waits for nothing.
    pub fn arg<R: Wait>(
        &self,
        rt: &R,
        term: &TermRef<N>,
        place: u64,
    ) -> Result<TermRef<N>, NoMemory>
        requires { place < length (arguments term.now.value) }
        ensures { IfOk result (λ t. slice_get (arguments term.now.value) place ≡ Some t.value) }
    {
        let _rt = rt;
        Ok(self.part(term, place))
    }

    /// The integer, or the operator with the rows of the arguments. They are lent: the call takes
    /// no memory and waits for nothing.
    pub fn top(&self, term: &TermRef<N>) -> Top<'_, N>
        ensures { term.now.value ≡ told result }
    {
        self.rows.row(term).node()
    }

    /// The rows of the arguments from left to right, none for an integer: those that the
    /// application was made of. They are lent: the call takes no memory and waits for nothing.
    pub fn args(&self, term: &TermRef<N>) -> &[TermRef<N>]
        ensures { terms result.now ≡ arguments term.now.value }
    {
        match self.rows.row(term).node() {
            Top::Int(_) => &[],
            Top::App(_, args) => args,
        }
    }

    /// A row of the argument at that place, counted from 0: the one that the application was made
    /// of. It takes no memory and waits for nothing.
    pub fn part(&self, term: &TermRef<N>, place: u64) -> TermRef<N>
        requires { place < length (arguments term.now.value) }
        ensures { slice_get (arguments term.now.value) place ≡ Some result.value }
    {
        match self.rows.row(term).node() {
            Top::Int(_) => unreachable!(),
            Top::App(_, args) => nth(args, place),
        }
    }

    /// Rows of one number mean one term, whichever threads made them. The call does nothing.
    pub fn agrees(&self, a: &TermRef<N>, b: &TermRef<N>)
        requires { a.now.index ≡ b.now.index }
        ensures { a.now.value ≡ b.now.value }
    {
        a.agrees(b);
    }

    /// Whether two rows mean one term. It takes no memory.
    #[tactic(auto, using(elan_shared::proofs::OrderLemmas::decides))]
    pub fn equal(&self, a: &TermRef<N>, b: &TermRef<N>) -> bool
        ensures { IsTrue result ↔ (a.now.value ≡ b.now.value) }
    {
        self.rows.compare(a, b).is_eq()
    }

    /// The term order. It takes no memory.
    pub fn compare(&self, a: &TermRef<N>, b: &TermRef<N>) -> Ordering
        ensures { result ≡ spec.order a.now.value b.now.value }
    {
        self.rows.compare(a, b)
    }

    /// The depth, from 1 to 2,000. It takes no memory.
    pub fn depth(&self, term: &TermRef<N>) -> u32
        ensures { result ≡ spec.depth term.now.value }
    {
        self.rows.row(term).depth()
    }

    /// The operators that the table was made for, and the sort of integers.
    pub fn shapes(&self) -> &Shapes
        ensures { result.now ≡ N.shapes }
    {
        self.rows.shapes()
    }

    /// A copy with one owner.
    pub fn to_owned(&self, term: &TermRef<N>) -> Result<Term, NoMemory>
        ensures { IfOk result (λ t. t ≡ term.now.value) }
    {
        self.rows.to_owned(self.alloc, term)
    }
}

// An odd number near 2^64 divided by the golden ratio: products with it differ in their high bits.
const SPREAD: u64 = 0x9e37_79b9_7f4a_7c15;

fn place_of(number: u64) -> usize
    ensures { result < 64 }
{
    ((number.wrapping_mul(SPREAD) >> 32) % 64) as usize
}

fn shard_of<N: Name>(op: OpId, args: &[TermRef<N>]) -> usize
    ensures { result < 64 }
{
    let mut mixed = u64::from(op.0);
    for arg in args {
        mixed = mixed.wrapping_mul(SPREAD) ^ arg.number();
    }
    place_of(mixed)
}
