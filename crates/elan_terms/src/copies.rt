//! Copies of terms and patterns.

ghost use Rattle.std.specs.Prelude.{◌≡◌, ◌≤◌, ◌++◌, length, take, IfOk, OnErr};

use crate::{NoMemory, Pattern, PatternNode, Term, TermNode};
use sqlite_items::Items;
use std::alloc::Global;

/// A term of the same shape.
#[cycle(copy)]
#[tactic(auto, using(crate::proofs::WeightLemmas::falls))]
pub fn copy(alloc: Global, term: &Term) -> Result<Term, NoMemory>
    ensures { IfOk result (λ t. t ≡ term.now) }
{
    match &term.node {
        TermNode::Int(z) => Ok(Term {
            node: TermNode::Int(*z),
        }),
        TermNode::App(op, args) => {
            let mut copies = Items::new(alloc);
            push_copies(alloc, &mut copies, args.as_slice())?;
            Ok(Term {
                node: TermNode::App(*op, copies),
            })
        }
    }
}

// Where memory runs out, the copies made so far stay behind those that there were.
#[cycle(copy)]
#[tactic(auto, using(crate::proofs::WeightLemmas::falls))]
fn push_copies(alloc: Global, copies: &mut Items<Term>, terms: &[Term]) -> Result<(), NoMemory>
    ensures ok { IfOk result (λ _. copies.new ≡ copies.old ++ terms.now) }
    ensures within { length copies.old ≤ length copies.new }
    ensures kept { take (length copies.old) copies.new ≡ copies.old }
{
    for term in terms {
        copies.push(copy(alloc, term)?)?;
    }
    Ok(())
}

// Takes terms off the end until so many are left.
fn cut(terms: &mut Items<Term>, len: usize)
    requires { len ≤ length terms.old }
    ensures { terms.new ≡ take len terms.old }
{
    while len < terms.len() {
        let _last = terms.pop();
    }
}

/// Puts copies of the terms to the end, in order; where memory runs out, the list is as it was.
pub fn copy_onto(alloc: Global, copies: &mut Items<Term>, terms: &[Term]) -> Result<(), NoMemory>
    ensures ok { IfOk result (λ _. copies.new ≡ copies.old ++ terms.now) }
    ensures err { OnErr result (copies.new ≡ copies.old) }
{
    let before = copies.len();
    let done = push_copies(alloc, copies, terms);
    if done.is_err() {
        cut(copies, before);
    }
    done
}

/// A pattern of the same shape.
#[cycle(copy_pattern)]
#[tactic(auto, using(crate::proofs::WeightLemmas::falls))]
pub fn copy_pattern(alloc: Global, pattern: &Pattern) -> Result<Pattern, NoMemory>
    ensures { IfOk result (λ p. p ≡ pattern.now) }
{
    match &pattern.node {
        PatternNode::Var(number, sort) => Ok(Pattern {
            node: PatternNode::Var(*number, *sort),
        }),
        PatternNode::Int(z) => Ok(Pattern {
            node: PatternNode::Int(*z),
        }),
        PatternNode::App(op, args) => {
            let mut copies = Items::new(alloc);
            copy_patterns_onto(alloc, &mut copies, args.as_slice())?;
            Ok(Pattern {
                node: PatternNode::App(*op, copies),
            })
        }
    }
}

#[cycle(copy_pattern)]
#[tactic(auto, using(crate::proofs::WeightLemmas::falls))]
fn copy_patterns_onto(
    alloc: Global,
    copies: &mut Items<Pattern>,
    patterns: &[Pattern],
) -> Result<(), NoMemory>
    ensures { IfOk result (λ _. copies.new ≡ copies.old ++ patterns.now) }
{
    match patterns {
        [] => Ok(()),
        [first, rest @ ..] => {
            copies.push(copy_pattern(alloc, first)?)?;
            copy_patterns_onto(alloc, copies, rest)
        }
    }
}
