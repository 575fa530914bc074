//! The test of what a table takes.
ghost use Rattle.std.specs.Prelude.{◌≡◌, ◌≤◌, ◌<◌, ◌↔◌, length, slice_get, IsTrue, IsFalse};
ghost use Rattle.std.specs.List.{All, AllZip};
ghost use Rattle.elan_terms.specs.Term.{sort_of as spec_sort, shape_sort, depth};
ghost use Rattle.elan_terms.specs.Canonical.{is_headed as spec_headed, IsSettled};
ghost use Rattle.elan_terms.specs.Valid.{HasSort, Takes, IsAllowed};
ghost use Rattle.elan_table.specs.Rows.{terms};
ghost use Rattle.elan_table.specs.Nodes.{MayMake, RowsAscend};

use crate::name::Name;
use crate::row::{Row, TermRef, Top};
use crate::rows::Rows;
use elan_terms::{OpId, Shape, Shapes, SortId};

fn op_sort(shapes: &Shapes, op: OpId) -> Option<SortId>
    ensures { result ≡ shape_sort (slice_get shapes.now.shapes op.0) }
{
    match shapes.shapes.get(op.0 as usize) {
        None => None,
        Some(shape) => Some(shape.sort),
    }
}

/// The sort of a term, or none where the shapes do not have it.
fn sort_of<N: Name>(shapes: &Shapes, term: &Row<N>) -> Option<SortId>
    ensures { result ≡ spec_sort shapes.now term.now }
{
    match term.node() {
        Top::Int(_) => shapes.int,
        Top::App(op, _) => op_sort(shapes, op),
    }
}

fn has_sort<N: Name>(shapes: &Shapes, term: &Row<N>, sort: SortId) -> bool
    ensures { IsTrue result ↔ HasSort shapes.now term.now sort }
{
    match sort_of(shapes, term) {
        None => false,
        Some(own) => own.0 == sort.0,
    }
}

impl<N: Name> Rows<N> {
    fn have_sort(&self, rows: &[TermRef<N>], sort: SortId) -> bool
        ensures { IsTrue result ↔ All (λ t. HasSort N.shapes t.value sort) rows.now }
    {
        match rows {
            [] => true,
            [first, rest @ ..] => {
                has_sort(self.shapes(), self.row(first), sort) && self.have_sort(rest, sort)
            }
        }
    }

    fn have_sorts(&self, rows: &[TermRef<N>], sorts: &[SortId]) -> bool
        ensures { IsTrue result ↔ AllZip (λ t s. HasSort N.shapes t.value s) rows.now sorts.now }
    {
        match rows {
            [] => sorts.is_empty(),
            [first, rest @ ..] => match sorts {
                [] => false,
                [sort, more @ ..] => {
                    has_sort(self.shapes(), self.row(first), *sort) && self.have_sorts(rest, more)
                }
            },
        }
    }

    fn fit(&self, shape: &Shape, rows: &[TermRef<N>]) -> bool
        ensures { IsTrue result ↔ Takes N.shapes shape.now (terms rows.now) }
    {
        if shape.ac {
            2 <= rows.len() && self.have_sort(rows, shape.sort)
        } else {
            self.have_sorts(rows, shape.args.as_slice())
        }
    }

    /// Whether the terms of these rows fit the operator.
    pub(crate) fn is_allowed(&self, op: OpId, rows: &[TermRef<N>]) -> bool
        ensures { IsTrue result ↔ IsAllowed N.shapes op (terms rows.now) }
    {
        match self.shapes().shapes.get(op.0 as usize) {
            None => false,
            Some(shape) => self.fit(shape, rows),
        }
    }

    fn is_headed(&self, op: OpId, row: &TermRef<N>) -> bool
        ensures { result ≡ spec_headed op row.now.value }
    {
        match self.row(row).node() {
            Top::Int(_) => false,
            Top::App(f, _) => op.0 == f.0,
        }
    }

    fn has_none_headed(&self, op: OpId, rows: &[TermRef<N>]) -> bool
        ensures { IsTrue result ↔ All (λ t. IsFalse (spec_headed op t.value)) rows.now }
    {
        match rows {
            [] => true,
            [first, rest @ ..] => !self.is_headed(op, first) && self.has_none_headed(op, rest),
        }
    }

    fn is_ascending(&self, rows: &[TermRef<N>]) -> bool
        ensures { IsTrue result ↔ RowsAscend rows.now }
    {
        match rows {
            [] => true,
            [first, rest @ ..] => match rest {
                [] => true,
                [second, ..] => !self.compare(first, second).is_gt() && self.is_ascending(rest),
            },
        }
    }

    fn is_settled(&self, op: OpId, rows: &[TermRef<N>]) -> bool
        ensures { IsTrue result ↔ IsSettled N.shapes op (terms rows.now) }
    {
        !elan_terms::is_ac(self.shapes(), op)
            || (self.has_none_headed(op, rows) && self.is_ascending(rows))
    }

    fn are_shallow(&self, rows: &[TermRef<N>]) -> bool
        ensures { IsTrue result ↔ All (λ t. depth t.value < 2000) rows.now }
    {
        match rows {
            [] => true,
            [first, rest @ ..] => self.row(first).depth() < 2000 && self.are_shallow(rest),
        }
    }

    /// Whether the table or a shard takes the application of the operator to the terms of these
    /// rows: they fit the operator, the application is canonical, and each of them is less than
    /// 2,000 deep.
    pub fn takes(&self, op: OpId, rows: &[TermRef<N>]) -> bool
        ensures { IsTrue result ↔ MayMake N.shapes op (terms rows.now) }
    {
        if self.is_allowed(op, rows) {
            self.is_settled(op, rows) && self.are_shallow(rows)
        } else {
            false
        }
    }
}
