//! The sort of a row's term.
ghost use Rattle.std.specs.Prelude.{◌≡◌, ◌↔◌, slice_get, IsTrue};
ghost use Rattle.elan_terms.specs.Term as spec;
ghost use Rattle.elan_terms.specs.Valid.{HasSort};

use elan_table::{Name, Table, TermRef, Top};
use elan_terms::{OpId, Shapes, SortId};

fn op_sort(shapes: &Shapes, op: OpId) -> Option<SortId>
    ensures { result ≡ spec.shape_sort (slice_get shapes.now.shapes op.0) }
{
    match shapes.shapes.get(op.0 as usize) {
        None => None,
        Some(shape) => Some(shape.sort),
    }
}

#[tactic(auto, using(crate::proofs::SightLemmas::sorts))]
fn sort_of<N: Name>(table: &Table<N>, term: &TermRef<N>) -> Option<SortId>
    ensures { result ≡ spec.sort_of N.shapes term.now.value }
{
    match table.top(term) {
        Top::Int(_) => table.shapes().int,
        Top::App(op, _) => op_sort(table.shapes(), op),
    }
}

/// Whether the term is of this sort.
#[tactic(auto, using(crate::proofs::SightLemmas::of_sort))]
pub(crate) fn is_of_sort<N: Name>(table: &Table<N>, term: &TermRef<N>, sort: SortId) -> bool
    ensures { IsTrue result ↔ HasSort N.shapes term.now.value sort }
{
    match sort_of(table, term) {
        None => false,
        Some(own) => own.0 == sort.0,
    }
}
