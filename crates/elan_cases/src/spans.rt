//! Numbers of tokens as text: `7` is a token, `7..9` are the tokens from 7 up to but not including 9.

use elan_phrases::{Plan, PlanNode, Planned};
use elan_syntax::Span;
use std::alloc::Global;
use std::io;

/// Puts a word and the number of a token to the end.
pub(crate) fn token_onto(
    alloc: Global,
    into: &mut Vec<u8>,
    word: &str,
    token: u32,
) -> io::Result<()> {
    let text = format!(in alloc; "{word} {token}")?;
    into.extend_from_slice(text.as_str().as_bytes())?;
    Ok(())
}

/// Puts a word and the numbers of tokens to the end.
pub(crate) fn tokens_onto(
    alloc: Global,
    into: &mut Vec<u8>,
    word: &str,
    tokens: &[u32],
) -> io::Result<()> {
    into.extend_from_slice(word.as_bytes())?;
    for token in tokens {
        token_onto(alloc, into, "", *token)?;
    }
    Ok(())
}

/// Puts a word and some tokens to the end.
pub(crate) fn span_onto(
    alloc: Global,
    into: &mut Vec<u8>,
    word: &str,
    span: Span,
) -> io::Result<()> {
    let Span { first, past } = span;
    let text = format!(in alloc; "{word} {first}..{past}")?;
    into.extend_from_slice(text.as_str().as_bytes())?;
    Ok(())
}

/// Puts a word and each of these to the end.
pub(crate) fn spans_onto(
    alloc: Global,
    into: &mut Vec<u8>,
    word: &str,
    spans: &[Span],
) -> io::Result<()> {
    into.extend_from_slice(word.as_bytes())?;
    for span in spans {
        span_onto(alloc, into, "", *span)?;
    }
    Ok(())
}

/// The outermost kind of a strategy, how many strategies stand in it, and the token of its name, if it has one.
fn shape(plan: &Plan) -> (&'static str, usize, Option<u32>) {
    match &plan.node {
        PlanNode::Id => ("id", 0, None),
        PlanNode::Fail => ("fail", 0, None),
        PlanNode::Name(token) => ("name", 0, Some(*token)),
        PlanNode::Applied(token, arms) => ("applied", arms.len(), Some(*token)),
        PlanNode::Seq(steps) => ("seq", steps.len(), None),
        PlanNode::All(arms) => ("dk", arms.len(), None),
        PlanNode::First { one: true, arms } => ("first one", arms.len(), None),
        PlanNode::First { one: false, arms } => ("first", arms.len(), None),
        PlanNode::Repeat(_) => ("repeat*", 1, None),
        PlanNode::Iterate(_) => ("iterate*", 1, None),
        PlanNode::IteratePlus(_) => ("iterate+", 1, None),
        PlanNode::Normalise(_) => ("normalise", 1, None),
    }
}

/// Puts a strategy to the end: its tokens, and its shape.
pub(crate) fn plan_onto(alloc: Global, into: &mut Vec<u8>, planned: &Planned) -> io::Result<()> {
    span_onto(alloc, into, " by", planned.at)?;
    let (kind, count, name) = shape(&planned.plan);
    let text = format!(in alloc; " ({kind} of {count}")?;
    into.extend_from_slice(text.as_str().as_bytes())?;
    if let Some(token) = name {
        token_onto(alloc, into, " at", token)?;
    }
    into.extend_from_slice(b")")?;
    Ok(())
}
