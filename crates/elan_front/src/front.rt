//! The front: rows that were asked for, each at the place of its node.
ghost use Rattle.std.specs.Prelude.{◌≡◌, ◌+◌, length, replicate, max, Contains};
ghost use Rattle.std.specs.Prelude.{Some, None, IfOk, IfSome, OnErr};
ghost use Rattle.elan_terms.specs.Trees.{app_term, int_term};
ghost use Rattle.elan_terms.specs.Valid.{IsNumber};
ghost use Rattle.elan_table.specs.Rows.{terms};
ghost use Rattle.elan_table.specs.Nodes.{MayMake};

use crate::node::{is_integer, is_node};
use crate::place::{of_integer, of_node, within};
use elan_table::{Name, NoMemory, Table, TermRef};
use elan_terms::OpId;
use std::alloc::Global;
use std::sync::Wait;

/// How many places a worker's front has where nothing else is wanted.
pub const PLACES: usize = 8192;

/// Rows of a table that one worker asked for, each at the place of its node; a later node of that
/// place takes it over.
#[derive(Drop)]
pub struct Front<N: Name> {
    places: Vec<Option<TermRef<N>>>,
    last: usize,
    ghost many: { length places.items ≡ last + 1 },
}

impl<N: Name> Front<N> {
    ghost use Rattle.elan_front.specs.Held.{held, IsKept};

    /// A front with so many places, and with one where that is 0, which holds nothing. Only a power
    /// of two has all of its places used.
    pub fn new(alloc: Global, places: usize) -> Result<Front<N>, NoMemory>
        ensures { IfOk result (λ f. held f ≡ replicate (max places 1) None) }
    {
        let last = places.saturating_sub(1);
        let mut all = Vec::with_capacity(alloc, last.saturating_add(1))?;
        while all.len() <= last {
            all.push(None)?;
        }
        Ok(Front { places: all, last })
    }

    /// What stands at the place of a node of this number.
    fn at(&self, mixed: u64) -> &Option<TermRef<N>>
        ensures { IfSome result.now (λ t. Contains (held self.now) (Some t)) }
    {
        &self.places[within(mixed, self.last)]
    }

    /// Puts the row at the place of a node of this number.
    fn keep(&mut self, mixed: u64, row: &TermRef<N>)
        ensures { IsKept (held self.old) (held self.new) row.now }
    {
        self.places[within(mixed, self.last)] = Some(row.again());
    }

    /// The row of this operator over these rows, if the front holds it at the place of the node. A
    /// front that does not hold it says nothing of the table. It takes no memory and waits for
    /// nothing.
    pub fn find(&self, table: &Table<N>, op: OpId, args: &[TermRef<N>]) -> Option<TermRef<N>>
        ensures term { IfSome result (λ t. t.value ≡ app_term op (terms args.now)) }
        ensures held { IfSome result (λ t. Contains (held self.now) (Some t)) }
    {
        match self.at(of_node(op, args)) {
            None => None,
            Some(row) => {
                if is_node(table, row, op, args) {
                    Some(row.again())
                } else {
                    None
                }
            }
        }
    }

    /// The row of the integer, if the front holds it at the place of the node. A front that does
    /// not hold it says nothing of the table. It takes no memory and waits for nothing.
    pub fn find_int(&self, table: &Table<N>, value: i64) -> Option<TermRef<N>>
        ensures term { IfSome result (λ t. t.value ≡ int_term value) }
        ensures held { IfSome result (λ t. Contains (held self.now) (Some t)) }
    {
        match self.at(of_integer(value)) {
            None => None,
            Some(row) => {
                if is_integer(table, row, value) {
                    Some(row.again())
                } else {
                    None
                }
            }
        }
    }

    /// A row of the application: the one that the front holds, else the table's, which then stands
    /// at the place of the node. The arguments fit the operator, the application is canonical, and
    /// each argument is less than 2,000 deep. It may wait for a lock.
    ///
    /// # Errors
    ///
    /// `NoMemory`; the front then holds what it held.
    pub fn intern<R: Wait>(
        &mut self,
        rt: &R,
        table: &Table<N>,
        op: OpId,
        args: &[TermRef<N>],
    ) -> Result<TermRef<N>, NoMemory>
        requires { MayMake N.shapes op (terms args.now) }
        ensures term { IfOk result (λ t. t.value ≡ app_term op (terms args.now)) }
        ensures held { IfOk result (λ t. IsKept (held self.old) (held self.new) t) }
        ensures err { OnErr result (held self.new ≡ held self.old) }
    {
        match self.find(table, op, args) {
            Some(row) => Ok(row),
            None => {
                let row = table.intern(rt, op, args)?;
                self.keep(of_node(op, args), &row);
                Ok(row)
            }
        }
    }

    /// A row of the integer: the one that the front holds, else the table's, which then stands at
    /// the place of the node. There is a sort of integers, and the value is not `i64::MIN`. It may
    /// wait for a lock.
    ///
    /// # Errors
    ///
    /// `NoMemory`; the front then holds what it held.
    pub fn int<R: Wait>(
        &mut self,
        rt: &R,
        table: &Table<N>,
        value: i64,
    ) -> Result<TermRef<N>, NoMemory>
        requires { IsNumber N.shapes value }
        ensures term { IfOk result (λ t. t.value ≡ int_term value) }
        ensures held { IfOk result (λ t. IsKept (held self.old) (held self.new) t) }
        ensures err { OnErr result (held self.new ≡ held self.old) }
    {
        match self.find_int(table, value) {
            Some(row) => Ok(row),
            None => {
                let row = table.int(rt, value)?;
                self.keep(of_integer(value), &row);
                Ok(row)
            }
        }
    }
}
