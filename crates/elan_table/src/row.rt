//! A row, and how it is named.
ghost use Rattle.std.specs.Prelude.{◌≡◌, ◌<◌, length, map, slice_get, Some};
ghost use Rattle.std.specs.List.{All};
ghost use Rattle.elan_terms.specs.Term as spec;
ghost use Rattle.elan_terms.specs.Trees.{int_term, app_term};
ghost use Rattle.elan_table.specs.Rows.{MayStand, terms};
ghost use Rattle.elan_table.specs.Shown.{told, op_of, listed};
ghost use Rattle.elan_table.specs.Places.{Lies};

use crate::application::Application;
use crate::name::Name;
use crate::spot::Spot;
use boxcar::slot::Written;
use boxcar::tag::Tag;
use elan_terms::{OpId, Term};
use sqlite_items::at;
use std::marker::{Model, PhantomData};

/// A row of the table of this name. Contracts see its number (`index`) and its term (`value`).
#[derive(Drop)]
pub struct TermRef<N: Name> {
    number: u32,
    root: Written<Tag>,
    spot: Spot<Term>,
    of: PhantomData<N>,
}

impl<N: Name> Model for TermRef<N> {
    ghost use Rattle.elan_terms.specs.declared.tree.Term.{Term};
    ghost use Rattle.elan_terms.specs.contracts.tree.Term as term;
    ghost use Rattle.std.specs.Prelude.{◌/◌};
    ghost use Rattle.std.specs.Coded.{codes};
    ghost use Rattle.boxcar.specs.Table.{Where, where_coded};
    ghost use Rattle.elan_table.specs.Places.{Lies};
    ghost use Rattle.elan_table.specs.Rows.{MayStand};

    ghost Value = { Where Term };

    ghost coded = { where_coded (Prim.hlevel (codes, term.the_row.coded)) };

    ghost view = { λ t. record {
      index = t.number;
      value = t.spot.item.value;
      bucket = t.number / 32768;
      row = t.spot.chunk.of;
      item = t.spot.item.of;
    } };

    ghost invariant = { λ t.
        Lies N.root t.root.of t.root.value.numbers t.number
        t.spot.chunk.of t.spot.chunk.value.items t.spot.item.of
        × MayStand N.shapes t.spot.item.value };
}

/// An integer, or an operator over the rows of its arguments. Contracts see the term.
#[derive(Drop)]
pub struct Row<N: Name> {
    node: RowNode<N>,
}

/// An application has its depth beside it.
#[derive(Drop)]
enum RowNode<N: Name> {
    Int(i64),
    App(u32, Application<N>),
}

/// The top of a term: an integer, or an operator that lends the rows of its arguments from left to
/// right.
pub enum Top<'a, N: Name> {
    Int(i64),
    App(OpId, &'a [TermRef<N>]),
}

impl<N: Name> Model for Row<N> {
    ghost use Rattle.elan_terms.specs.declared.tree.Term.{Term};
    ghost use Rattle.elan_terms.specs.contracts.tree.Term as term;
    ghost use Rattle.std.specs.Coded.{codes};

    ghost Value = { Term };

    ghost coded = { Prim.hlevel (codes, term.the_row.coded) };

    ghost use Rattle.elan_table.specs.Shown.{shown, IsDeep};

    ghost view = { λ r. shown r.node };

    ghost invariant = { λ r. IsDeep r.node };
}

impl<N: Name> TermRef<N> {
    /// The row that was put there.
    pub(crate) fn new(number: u32, root: Written<Tag>, spot: Spot<Term>) -> TermRef<N>
        requires lies { Lies N.root root.of root.value.numbers number
            spot.chunk.of spot.chunk.value.items spot.item.of }
        requires term { MayStand N.shapes spot.item.value }
        ensures { result.value ≡ spot.item.value }
    {
        TermRef {
            number,
            root,
            spot,
            of: PhantomData,
        }
    }

    /// What tells where it is.
    pub(crate) fn place(&self) -> (&Written<Tag>, &Spot<Term>)
        ensures lies { Lies N.root result.0.now.of result.0.now.value.numbers self.now.index
            result.1.now.chunk.of result.1.now.chunk.value.items result.1.now.item.of }
        ensures term { result.1.now.item.value ≡ self.now.value }
    {
        (&self.root, &self.spot)
    }

    /// The number of the row. Rows of one table with equal numbers mean equal terms.
    pub fn number(&self) -> u64
        ensures { result ≡ self.now.index }
    {
        u64::from(self.number)
    }

    /// The same row.
    pub fn again(&self) -> TermRef<N>
        ensures { result ≡ self.now }
    {
        TermRef {
            number: self.number,
            root: self.root.again(),
            spot: self.spot.again(),
            of: PhantomData,
        }
    }

    /// What holds of the term of every row. The call does nothing.
    pub fn known(&self)
        ensures { MayStand N.shapes self.now.value }
    {
        let _number = self.number;
    }

    /// Rows of one number mean one term, whichever threads made them. The call does nothing.
    pub fn agrees(&self, other: &TermRef<N>)
        requires { self.now.index ≡ other.now.index }
        ensures { self.now.value ≡ other.now.value }
    {
        self.root.agrees(&other.root);
        self.spot.chunk.agrees(&other.spot.chunk);
        self.spot.item.agrees(&other.spot.item);
    }
}

/// What holds of the term of each of these rows.
pub(crate) fn all_known<N: Name>(rows: &[TermRef<N>])
    ensures { All (λ t. MayStand N.shapes t.value) rows.now }
{
    match rows {
        [] => {}
        [first, rest @ ..] => {
            first.known();
            all_known(rest);
        }
    }
}

/// The row at that place.
pub(crate) fn nth<N: Name>(rows: &[TermRef<N>], place: u64) -> TermRef<N>
    requires { place < length rows.now }
    ensures { slice_get (terms rows.now) place ≡ Some result.value }
{
    match at(rows, place as usize) {
        None => unreachable!(),
        Some(row) => row.again(),
    }
}

/// Rows of equal numbers mean equal terms.
pub(crate) fn agree_all<N: Name>(some: &[TermRef<N>], others: &[TermRef<N>])
    requires { map (λ t. t.index) some.now ≡ map (λ t. t.index) others.now }
    ensures { terms some.now ≡ terms others.now }
{
    match some {
        [] => {}
        [a, some @ ..] => match others {
            [] => {}
            [b, others @ ..] => {
                a.agrees(b);
                agree_all(some, others);
            }
        },
    }
}

impl<N: Name> Row<N> {
    /// A row of an integer.
    pub(crate) fn int(value: i64) -> Row<N>
        ensures { result ≡ int_term value }
    {
        Row {
            node: RowNode::Int(value),
        }
    }

    /// A row of an application, which is so deep.
    pub(crate) fn app(depth: u32, made: Application<N>) -> Row<N>
        requires { depth ≡ spec.depth (app_term (op_of made) (terms (listed made))) }
        ensures { result ≡ app_term (op_of made) (terms (listed made)) }
    {
        Row {
            node: RowNode::App(depth, made),
        }
    }

    /// The integer, or the operator and the rows of the arguments.
    pub(crate) fn node(&self) -> Top<'_, N>
        ensures { self.now ≡ told result }
    {
        match &self.node {
            RowNode::Int(z) => Top::Int(*z),
            RowNode::App(_, made) => Top::App(made.op(), made.args()),
        }
    }

    /// The depth.
    #[tactic(auto, using(elan_terms::proofs::TermLemmas::depths))]
    pub(crate) fn depth(&self) -> u32
        ensures { result ≡ spec.depth self.now }
    {
        match &self.node {
            RowNode::Int(_) => 1,
            RowNode::App(depth, _) => *depth,
        }
    }
}
