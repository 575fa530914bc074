//! Items, rows and values: the parts of the engine that know no program.

ghost use Rattle.std.specs.Prelude.{◌≡◌, ◌∷◌, [], ◌++◌, map, IfOk};
ghost use Rattle.elan_meaning.specs.declared.item.Entry.TheVariants.{At, Stop};
ghost use Rattle.elan_meaning.specs.declared.item.Item.TheVariants.{Res, Mark};
ghost use Rattle.elan_meaning.specs.Items as items_spec;
ghost use Rattle.elan_meaning.specs.Meaning as spec;
ghost use Rattle.elan_plain.specs.Engine.{first as spec_first};

use elan_meaning::{Cause, Entry, Item};
use elan_terms::{Pattern, PatternNode, Term, TermNode, copy, copy_onto};
use elan_text::NoMemory;
use sqlite_items::Items;
use std::alloc::Global;

/// The value of the variable with this number.
pub(crate) fn value(alloc: Global, terms: &[Term], number: u32) -> Result<Term, NoMemory>
    ensures { IfOk result (λ t. t ≡ spec.value_of terms.now number) }
{
    match terms {
        [] => Ok(Term {
            node: TermNode::Int(0),
        }),
        [first, rest @ ..] => {
            if number == 0 {
                copy(alloc, first)
            } else {
                value(alloc, rest, number - 1)
            }
        }
    }
}

fn copy_item(alloc: Global, item: &Item) -> Result<Item, NoMemory>
    ensures { IfOk result (λ i. i ≡ item.now) }
{
    match item {
        Item::Res(term, n) => Ok(Item::Res(copy(alloc, term)?, *n)),
        Item::Mark(cause) => Ok(Item::Mark(*cause)),
    }
}

/// The first of these, if there is one.
pub(crate) fn first(alloc: Global, items: &[Item]) -> Result<Option<Item>, NoMemory>
    ensures { IfOk result (λ i. i ≡ spec_first items.now) }
{
    match items {
        [] => Ok(None),
        [first, ..] => Ok(Some(copy_item(alloc, first)?)),
    }
}

fn head(alloc: Global, items: Items<Item>) -> Result<Items<Item>, NoMemory>
    ensures { IfOk result (λ is. is ≡ items_spec.head items) }
{
    let mut out = Items::new(alloc);
    match items.as_slice() {
        [] => Ok(out),
        [first, ..] => {
            out.push(copy_item(alloc, first)?)?;
            Ok(out)
        }
    }
}

#[tactic(auto, unfolding(elan_meaning::specs::Items::chosen))]
pub(crate) fn chosen(alloc: Global, one: bool, items: Items<Item>) -> Result<Items<Item>, NoMemory>
    ensures { IfOk result (λ is. is ≡ items_spec.chosen one items) }
{
    if one { head(alloc, items) } else { Ok(items) }
}

/// The term alone.
pub(crate) fn stays(alloc: Global, term: &Term, n: u32) -> Result<Items<Item>, NoMemory>
    ensures { IfOk result (λ items. items ≡ Res term.now n ∷ []) }
{
    let mut out = Items::new(alloc);
    out.push(Item::Res(copy(alloc, term)?, n))?;
    Ok(out)
}

/// A mark alone.
pub(crate) fn mark(alloc: Global, cause: Cause) -> Result<Items<Item>, NoMemory>
    ensures { IfOk result (λ items. items ≡ Mark cause ∷ []) }
{
    let mut out = Items::new(alloc);
    out.push(Item::Mark(cause))?;
    Ok(out)
}

/// A mark alone, among entries.
pub(crate) fn stop(alloc: Global, cause: Cause) -> Result<Items<Entry>, NoMemory>
    ensures { IfOk result (λ es. es ≡ Stop cause ∷ []) }
{
    let mut out = Items::new(alloc);
    out.push(Entry::Stop(cause))?;
    Ok(out)
}

/// The terms of both lists.
pub(crate) fn joined(alloc: Global, terms: &[Term], more: &[Term]) -> Result<Items<Term>, NoMemory>
    ensures { IfOk result (λ ts. ts ≡ terms.now ++ more.now) }
{
    let mut both = Items::new(alloc);
    copy_onto(alloc, &mut both, terms)?;
    copy_onto(alloc, &mut both, more)?;
    Ok(both)
}

/// A row alone.
pub(crate) fn met(alloc: Global, values: &[Term], n: u32) -> Result<Items<Entry>, NoMemory>
    ensures { IfOk result (λ es. es ≡ At values.now n ∷ []) }
{
    let mut row = Items::new(alloc);
    copy_onto(alloc, &mut row, values)?;
    let mut out = Items::new(alloc);
    out.push(Entry::At(row, n))?;
    Ok(out)
}

fn behind(alloc: Global, term: &Term, entry: &Entry) -> Result<Entry, NoMemory>
    ensures { IfOk result (λ e. e ≡ items_spec.after term.now entry.now) }
{
    match entry {
        Entry::Stop(cause) => Ok(Entry::Stop(*cause)),
        Entry::At(terms, n) => {
            let mut longer = Items::new(alloc);
            longer.push(copy(alloc, term)?)?;
            copy_onto(alloc, &mut longer, terms.as_slice())?;
            Ok(Entry::At(longer, *n))
        }
    }
}

/// The term before those of each row.
pub(crate) fn before(
    alloc: Global,
    term: &Term,
    rows: Items<Entry>,
) -> Result<Items<Entry>, NoMemory>
    ensures { IfOk result (λ es. es ≡ items_spec.before term.now rows) }
{
    let mut out = Items::new(alloc);
    for row in rows.as_slice() {
        out.push(behind(alloc, term, row)?)?;
    }
    Ok(out)
}

/// A term as a pattern without variables.
#[cycle(pattern)]
#[tactic(auto, using(crate::proofs::ListLemmas::patterns))]
pub(crate) fn pattern_of(alloc: Global, term: &Term) -> Result<Pattern, NoMemory>
    ensures { IfOk result (λ p. p ≡ spec.pattern_of term.now) }
{
    match &term.node {
        TermNode::Int(z) => Ok(Pattern {
            node: PatternNode::Int(*z),
        }),
        TermNode::App(op, args) => {
            let mut patterns = Items::new(alloc);
            patterns_onto(alloc, &mut patterns, args.as_slice())?;
            Ok(Pattern {
                node: PatternNode::App(*op, patterns),
            })
        }
    }
}

#[cycle(pattern)]
#[tactic(auto, using(crate::proofs::ListLemmas::patterns))]
fn patterns_onto(alloc: Global, out: &mut Items<Pattern>, terms: &[Term]) -> Result<(), NoMemory>
    ensures { IfOk result (λ _. out.new ≡ out.old ++ map spec.pattern_of terms.now) }
{
    match terms {
        [] => Ok(()),
        [first, rest @ ..] => {
            out.push(pattern_of(alloc, first)?)?;
            patterns_onto(alloc, out, rest)
        }
    }
}
