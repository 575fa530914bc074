//! The parts of a canonical term.

ghost use Rattle.std.specs.Prelude.{◌≡◌, ◌∷◌, ◌++◌, map, length, nat_lt, IfOk};
ghost use Rattle.std.specs.List.{flat_map, filter};
ghost use Rattle.elan_terms.specs.Trees.{app_term};
ghost use Rattle.elan_terms.specs.Match as spec;
ghost use Rattle.elan_terms.specs.Sublists as made;

use crate::canonical::{ascending, is_ac};
use crate::{NoMemory, OpId, Shapes, Term, TermNode, compare, copy, copy_onto};
use sqlite_items::Items;
use std::alloc::Global;

/// The lists that are left where items of a list are struck out, each once where equal items stand
/// together.
#[derive(Drop)]
struct Sublists {
    /// Those that have each of the equal items with which the list begins.
    whole: Items<Items<Term>>,
    others: Items<Items<Term>>,
}

/// These lists, each with the term before it.
#[tactic(auto, unfolding(crate::specs::Match::prefixed))]
pub(crate) fn prefixed_onto(
    alloc: Global,
    out: &mut Items<Items<Term>>,
    first: &Term,
    lists: &[Items<Term>],
) -> Result<(), NoMemory>
    ensures { IfOk result (λ _. out.new ≡ out.old ++ spec.prefixed lists.now first.now) }
{
    for list in lists {
        let mut longer = Items::new(alloc);
        longer.push(copy(alloc, first)?)?;
        copy_onto(alloc, &mut longer, list.as_slice())?;
        out.push(longer)?;
    }
    Ok(())
}

/// Whether the terms begin with this one.
fn begins(term: &Term, terms: &[Term]) -> bool
    ensures { result ≡ made.begins term.now terms.now }
{
    match terms {
        [] => false,
        [first, ..] => compare(term, first).is_eq(),
    }
}

/// The sublists of some terms with one term more before them.
#[tactic(auto, unfolding(crate::specs::Match::prefixed))]
fn with_first(
    alloc: Global,
    first: &Term,
    rest: &[Term],
    shorter: Sublists,
) -> Result<Sublists, NoMemory>
    ensures { IfOk result (λ lists. lists ≡ made.with_first first.now rest.now shorter) }
{
    let mut whole = Items::new(alloc);
    prefixed_onto(alloc, &mut whole, first, shorter.whole.as_slice())?;
    if !begins(first, rest) {
        prefixed_onto(alloc, &mut whole, first, shorter.others.as_slice())?;
    }
    let mut others = shorter.whole;
    others.append(shorter.others)?;
    Ok(Sublists { whole, others })
}

/// The lists that are left where terms are struck out; of equal terms that stand together the last
/// are struck out.
fn struck_out(alloc: Global, terms: &[Term]) -> Result<Sublists, NoMemory>
    ensures { IfOk result (λ lists. lists ≡ made.split terms.now) }
{
    match terms {
        [] => {
            let mut whole = Items::new(alloc);
            whole.push(Items::new(alloc))?;
            Ok(Sublists {
                whole,
                others: Items::new(alloc),
            })
        }
        [first, rest @ ..] => {
            let shorter = struck_out(alloc, rest)?;
            with_first(alloc, first, rest, shorter)
        }
    }
}

fn nodes_onto(
    alloc: Global,
    out: &mut Items<Term>,
    op: OpId,
    lists: &[Items<Term>],
) -> Result<(), NoMemory>
    ensures { IfOk result (λ _.
        out.new ≡ out.old ++ map (app_term op) (filter (λ us. nat_lt 1 (length us)) lists.now)) }
{
    for list in lists {
        if 1 < list.len() {
            let mut args = Items::new(alloc);
            copy_onto(alloc, &mut args, list.as_slice())?;
            out.push(Term {
                node: TermNode::App(op, args),
            })?;
        }
    }
    Ok(())
}

#[tactic(auto, unfolding(crate::specs::Sublists::pieces_at))]
fn pieces_at_onto(
    alloc: Global,
    shapes: &Shapes,
    out: &mut Items<Term>,
    op: OpId,
    terms: &[Term],
) -> Result<(), NoMemory>
    ensures { IfOk result (λ _. out.new ≡ out.old ++ made.pieces_at shapes.now op terms.now) }
{
    if is_ac(shapes, op) {
        let lists = struck_out(alloc, terms)?;
        nodes_onto(alloc, out, op, lists.whole.as_slice())?;
        nodes_onto(alloc, out, op, lists.others.as_slice())
    } else {
        let mut args = Items::new(alloc);
        copy_onto(alloc, &mut args, terms)?;
        out.push(Term {
            node: TermNode::App(op, args),
        })?;
        Ok(())
    }
}

#[cycle(pieces)]
#[tactic(auto, using(crate::proofs::SublistLemmas::pieces_rules, crate::proofs::WeightLemmas::falls))]
fn pieces_onto(
    alloc: Global,
    shapes: &Shapes,
    out: &mut Items<Term>,
    term: &Term,
) -> Result<(), NoMemory>
    ensures { IfOk result (λ _. out.new ≡ out.old ++ made.pieces shapes.now term.now) }
{
    match &term.node {
        TermNode::Int(_) => {
            out.push(copy(alloc, term)?)?;
            Ok(())
        }
        TermNode::App(op, args) => {
            pieces_at_onto(alloc, shapes, out, *op, args.as_slice())?;
            all_pieces_onto(alloc, shapes, out, args.as_slice())
        }
    }
}

#[cycle(pieces)]
#[tactic(auto, using(crate::proofs::SublistLemmas::pieces_rules, crate::proofs::WeightLemmas::falls))]
fn all_pieces_onto(
    alloc: Global,
    shapes: &Shapes,
    out: &mut Items<Term>,
    terms: &[Term],
) -> Result<(), NoMemory>
    ensures { IfOk result (λ _. out.new ≡ out.old ++ flat_map (made.pieces shapes.now) terms.now) }
{
    for term in terms {
        pieces_onto(alloc, shapes, out, term)?;
    }
    Ok(())
}

/// Puts each of the terms to the end that no equal one stands behind.
fn once_onto(alloc: Global, out: &mut Items<Term>, terms: &[Term]) -> Result<(), NoMemory>
    ensures { IfOk result (λ _. out.new ≡ out.old ++ made.once terms.now) }
{
    let mut left = terms;
    while let [term, later @ ..] = left {
        if !begins(term, later) {
            out.push(copy(alloc, term)?)?;
        }
        left = later;
    }
    Ok(())
}

/// The parts of a canonical term, ascending, each once.
#[tactic(auto, using(crate::proofs::SublistLemmas::part_rules))]
pub fn parts(alloc: Global, shapes: &Shapes, term: &Term) -> Result<Items<Term>, NoMemory>
    ensures { IfOk result (λ ts. ts ≡ spec.parts shapes.now term.now) }
{
    let mut pieces = Items::new(alloc);
    pieces_onto(alloc, shapes, &mut pieces, term)?;
    let sorted = ascending(alloc, pieces)?;
    let mut out = Items::new(alloc);
    once_onto(alloc, &mut out, sorted.as_slice())?;
    Ok(out)
}
