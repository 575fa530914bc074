//! The walk down a pattern and a term side by side.

ghost use Rattle.std.specs.Prelude.{◌≡◌, ◌+◌, ◌<◌, ◌^◌, [], ◌∷◌, length, drop, map, None, IfOk, IfSome, IsTrue};
ghost use Rattle.elan_shared.specs.Nodes.{arguments};
ghost use Rattle.elan_terms.specs.Match.{variables, matches};
ghost use Rattle.elan_table.specs.Rows.{terms};
ghost use Rattle.elan_match.specs.Plain.{is_plain, AreNumbered};
ghost use Rattle.elan_match.specs.Values as spec;
ghost use Rattle.elan_match.specs.Values.{Answers};

use crate::NoMemory;
use crate::sorts::is_of_sort;
use elan_table::{Name, Node, Table, TermRef};
use elan_terms::{Pattern, PatternNode, SortId};
use sqlite_items::{Items, at};
use std::alloc::Global;
use std::sync::Wait;

/// The values of a pattern's variables, in the order of their numbers.
pub type Bindings<N> = Items<TermRef<N>>;

/// Compares the term with the value that the variable has, or gives it to the variable if it has
/// none and the term is of its sort. Answers whether it is the value now.
#[tactic(auto, using(crate::proofs::StepLemmas::binds))]
fn bind<N: Name>(
    table: &Table<N>,
    first: u32,
    number: u32,
    sort: SortId,
    term: &TermRef<N>,
    found: &mut Bindings<N>,
) -> Result<bool, NoMemory>
    ensures { IfOk result (λ is_match. Answers is_match (terms found.new)
        (spec.with_place N.shapes first (terms found.old) (number, sort) term.now.value)) }
{
    match at(found.as_slice(), number.saturating_sub(first) as usize) {
        Some(value) => Ok(table.equal(value, term)),
        None => {
            if is_of_sort(table, term, sort) {
                found.push(term.again())?;
                Ok(true)
            } else {
                Ok(false)
            }
        }
    }
}

/// Whether the pattern, with the values found so far, can be the term; then the values of its other
/// variables are put to the end.
#[cycle(walk)]
#[tactic(auto, using(crate::proofs::StepLemmas::steps, elan_terms::proofs::WeightLemmas::falls))]
fn match_onto<N: Name, R: Wait>(
    rt: &R,
    table: &Table<N>,
    first: u32,
    pattern: &Pattern,
    term: &TermRef<N>,
    found: &mut Bindings<N>,
) -> Result<bool, NoMemory>
    ensures { IfOk result (λ is_match. Answers is_match (terms found.new)
        (spec.values_at N.shapes first (terms found.old) pattern.now term.now.value)) }
{
    match &pattern.node {
        PatternNode::Var(number, sort) => bind(table, first, *number, *sort, term, found),
        PatternNode::Int(z) => match table.node(term) {
            Node::Int(y) => Ok(z.cmp(&y).is_eq()),
            Node::App(_, _) => Ok(false),
        },
        PatternNode::App(op, args) => match table.node(term) {
            Node::Int(_) => Ok(false),
            Node::App(f, count) => {
                if op.0 == f.0 && args.len() as u64 == count {
                    match_each(rt, table, first, args.as_slice(), term, 0, found)
                } else {
                    Ok(false)
                }
            }
        },
    }
}

/// The same for patterns and as many arguments of a term, from a place on to the last.
#[cycle(walk)]
#[tactic(auto, using(crate::proofs::StepLemmas::steps, elan_terms::proofs::WeightLemmas::falls))]
fn match_each<N: Name, R: Wait>(
    rt: &R,
    table: &Table<N>,
    first: u32,
    patterns: &[Pattern],
    term: &TermRef<N>,
    place: u64,
    found: &mut Bindings<N>,
) -> Result<bool, NoMemory>
    requires as_many { place + length patterns.now ≡ length (arguments term.now.value) }
    requires fits { length (arguments term.now.value) < 2 ^ 64 }
    ensures { IfOk result (λ is_match. Answers is_match (terms found.new)
        (spec.values_at_each N.shapes first (terms found.old) patterns.now
        (drop place (arguments term.now.value)))) }
{
    match patterns {
        [] => Ok(true),
        [pattern, rest @ ..] => {
            let arg = table.arg(rt, term, place)?;
            if match_onto(rt, table, first, pattern, &arg, found)? {
                match_each(rt, table, first, rest, term, place + 1, found)
            } else {
                Ok(false)
            }
        }
    }
}

/// The only match of a pattern without associative and commutative operators: the values of its
/// variables, which are numbered from `first` on, in the order of their numbers. `None` exactly where
/// there is no match. Memory is taken for the list and for rows of arguments, and for nothing else.
#[tactic(auto, using(crate::proofs::MatchLemmas::answers))]
pub fn match_plain<N: Name, R: Wait>(
    rt: &R,
    alloc: Global,
    table: &Table<N>,
    pattern: &Pattern,
    first: u32,
    term: &TermRef<N>,
) -> Result<Option<Bindings<N>>, NoMemory>
    requires plain { IsTrue (is_plain N.shapes pattern.now) }
    requires numbered { AreNumbered first (variables pattern.now) }
    ensures found { IfOk result (λ answer. IfSome answer (λ values.
        matches N.shapes pattern.now term.now.value ≡ map (λ t. t.value) values ∷ [])) }
    ensures absent { IfOk result (λ answer. answer ≡ None →
        matches N.shapes pattern.now term.now.value ≡ []) }
{
    term.known();
    let mut found = Items::new(alloc);
    if match_onto(rt, table, first, pattern, term, &mut found)? {
        Ok(Some(found))
    } else {
        Ok(None)
    }
}
