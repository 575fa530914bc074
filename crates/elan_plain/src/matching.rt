//! The matches of a pattern in a term.

ghost use Rattle.std.specs.Prelude.{◌≡◌, ◌∷◌, [], None, IfOk, IfSome, IsTrue};
ghost use Rattle.elan_terms.specs.Match.{matches as spec_matches, variables as spec_variables};
ghost use Rattle.elan_terms.specs.Valid.{IsValid};
ghost use Rattle.elan_terms.specs.Canonical.{IsCanonical};
ghost use Rattle.elan_fits.specs.Plain.{AreNumbered, is_plain as spec_is_plain};

use elan_fits::{is_plain, match_plain, matches};
use elan_terms::{Pattern, Shapes, SortId, Term, is_canonical, is_valid, variables};
use elan_text::NoMemory;
use sqlite_items::Items;
use std::alloc::Global;

/// Whether a term is valid and in canonical form. In such a term matches are found without trying
/// each assignment.
pub(crate) fn is_fit(shapes: &Shapes, term: &Term) -> bool
    ensures { IsTrue result → IsValid shapes.now term.now × IsCanonical shapes.now term.now }
{
    is_valid(shapes, term) && is_canonical(shapes, term)
}

fn are_numbered(variables: &[(u32, SortId)], first: u32) -> bool
    ensures { IsTrue result → AreNumbered first variables.now }
{
    match variables {
        [] => true,
        [variable, rest @ ..] => match first.checked_add(1) {
            None => false,
            Some(next) => variable.0 == first && are_numbered(rest, next),
        },
    }
}

/// Whether a pattern has no associative and commutative operator, and its variables are numbered from
/// this number on.
pub(crate) fn is_direct(
    alloc: Global,
    shapes: &Shapes,
    pattern: &Pattern,
    first: u32,
) -> Result<bool, NoMemory>
    ensures { IfOk result (λ direct. IsTrue direct → IsTrue (spec_is_plain shapes.now pattern.now)
        × AreNumbered first (spec_variables pattern.now)) }
{
    if !is_plain(shapes, pattern) {
        return Ok(false);
    }
    let variables = variables(alloc, pattern)?;
    Ok(are_numbered(variables.as_slice(), first))
}

/// The matches of such a pattern, of which there is at most one.
fn direct_matches(
    alloc: Global,
    shapes: &Shapes,
    pattern: &Pattern,
    first: u32,
    term: &Term,
) -> Result<Items<Items<Term>>, NoMemory>
    requires plain { IsTrue (spec_is_plain shapes.now pattern.now) }
    requires numbered { AreNumbered first (spec_variables pattern.now) }
    requires valid { IsValid shapes.now term.now }
    requires canonical { IsCanonical shapes.now term.now }
    ensures { IfOk result (λ all. all ≡ spec_matches shapes.now pattern.now term.now) }
{
    let mut all = Items::new(alloc);
    match match_plain(alloc, shapes, pattern, first, term)? {
        None => Ok(all),
        Some(values) => {
            all.push(values)?;
            Ok(all)
        }
    }
}

/// The matches of a pattern in a term, in order.
pub(crate) fn all_matches(
    alloc: Global,
    shapes: &Shapes,
    pattern: &Pattern,
    first: u32,
    term: &Term,
) -> Result<Items<Items<Term>>, NoMemory>
    ensures { IfOk result (λ all. all ≡ spec_matches shapes.now pattern.now term.now) }
{
    if !is_fit(shapes, term) {
        return elan_terms::matches(alloc, shapes, pattern, term);
    }
    if is_direct(alloc, shapes, pattern, first)? {
        return direct_matches(alloc, shapes, pattern, first, term);
    }
    matches(alloc, shapes, pattern, term)
}
