//! The sort of a term, as the definition of matches asks for it.

ghost use Rattle.std.specs.Prelude.{◌≡◌};
ghost use Rattle.elan_terms.specs.Match as spec;

use elan_terms::{Shapes, SortId, Term, is_of_sort};

/// Whether the term has this sort.
#[tactic(auto, unfolding(elan_terms::specs::Match::has_sort))]
pub(crate) fn has_sort(shapes: &Shapes, term: &Term, sort: SortId) -> bool
    ensures { result ≡ spec.has_sort shapes.now sort term.now }
{
    is_of_sort(shapes, term, sort)
}
