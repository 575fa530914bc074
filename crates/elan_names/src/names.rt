//! What the name of a strategy stands for, found by an index.

ghost use Rattle.std.specs.Prelude.{◌≡◌, ◌||◌, IfOk, Result, Some};
ghost use Rattle.std.specs.Option.{option_map};
ghost use Rattle.elan_program.specs.Soundness.{is_some_list};
ghost use Rattle.elan_names.specs.Names as spec;
ghost use Rattle.elan_names.specs.Indexed.{below_first, found, seen_found};

use crate::heads::{Head, Target};
use crate::keys::{counted_key, name_key, prefix_key, sorted_key};
use crate::site::Known;
use elan_program::{Strategy, StrategyNode};
use elan_terms::{OpId, SortId};
use elan_text::{Code, NoMemory};
use sqlite_items::Items;
use std::alloc::Global;

/// A definition that was found.
#[derive(Clone, Copy)]
pub(crate) struct Found<'a> {
    number: u32,
    head: &'a Head,
}

/// The definition of the first of these numbers.
fn first_of<'a>(heads: &'a [Head], numbers: &[u32]) -> Option<Found<'a>>
    ensures { option_map seen_found result ≡ found heads.now numbers.now }
{
    match numbers {
        [] => None,
        [number, ..] => match heads.get(*number as usize) {
            None => None,
            Some(head) => Some(Found {
                number: *number,
                head,
            }),
        },
    }
}

/// The first definition of a name for a sort.
#[tactic(auto, using(crate::proofs::IndexLemmas::first_head))]
fn head_at<'a>(
    alloc: Global,
    known: &Known<'a>,
    sort: SortId,
    word: &[u8],
) -> Result<Option<Found<'a>>, NoMemory>
    ensures { IfOk result (λ r. option_map seen_found r
        ≡ spec.first (spec.is_head_of word.now sort) 0 known.now.names.now.heads) }
{
    let key = sorted_key(alloc, word, sort)?;
    let numbers = known.index.heads.sorted.find(&key);
    Ok(first_of(known.names.heads.as_slice(), numbers))
}

/// The first definition of a name for a sort that has parameters.
#[tactic(auto, using(crate::proofs::IndexLemmas::first_wide))]
fn wide_head_at<'a>(
    alloc: Global,
    known: &Known<'a>,
    sort: SortId,
    word: &[u8],
) -> Result<Option<Found<'a>>, NoMemory>
    ensures { IfOk result (λ r. option_map seen_found r
        ≡ spec.first (spec.is_wide_head_of word.now sort) 0 known.now.names.now.heads) }
{
    let key = sorted_key(alloc, word, sort)?;
    let numbers = known.index.heads.wide.find(&key);
    Ok(first_of(known.names.heads.as_slice(), numbers))
}

/// The numbers of the rules of a label for a sort.
#[tactic(auto, using(crate::proofs::IndexLemmas::rules_there))]
fn rules_at(
    alloc: Global,
    known: &Known<'_>,
    sort: SortId,
    word: &[u8],
) -> Result<Items<u32>, NoMemory>
    ensures { IfOk result (λ numbers. numbers
        ≡ spec.places (spec.is_rule_of word.now sort) 0 known.now.names.now.labels) }
{
    let key = sorted_key(alloc, word, sort)?;
    Items::from_slice(alloc, known.index.labels.sorted.find(&key))
}

/// Whether a definition or a rule has this name, for whatever sort.
#[tactic(auto, using(crate::proofs::IndexLemmas::named_anywhere))]
fn is_anywhere(alloc: Global, known: &Known<'_>, word: &[u8]) -> Result<bool, NoMemory>
    ensures { IfOk result (λ r. r ≡ spec.is_anywhere known.now.names.now word.now) }
{
    let key = name_key(alloc, word)?;
    let heads = known.index.heads.named.find(&key);
    let labels = known.index.labels.named.find(&key);
    Ok(are_some(heads, labels))
}

/// Whether there is a number among these or those.
fn are_some(these: &[u32], those: &[u32]) -> bool
    ensures { result ≡ (is_some_list these.now || is_some_list those.now) }
{
    !these.is_empty() || !those.is_empty()
}

/// Why a name means nothing at a sort.
fn missing(is_elsewhere: bool) -> Code
    ensures { result ≡ spec.missing is_elsewhere }
{
    if is_elsewhere { Code::E22 } else { Code::E20 }
}

/// The rules of these numbers, or a refusal where there is none.
fn rules_or(numbers: Items<u32>, code: Code) -> Result<Strategy, Code>
    ensures { result ≡ spec.rules_or numbers code }
{
    match numbers.as_slice() {
        [] => Err(code),
        [_, ..] => Ok(Strategy {
            node: StrategyNode::Label(numbers),
        }),
    }
}

/// What a name alone stands for where no definition has it for the sort.
fn label_at(
    alloc: Global,
    known: &Known<'_>,
    sort: SortId,
    word: &[u8],
) -> Result<Result<Strategy, Code>, NoMemory>
    ensures { IfOk result (λ r. r
        ≡ spec.rules_or (spec.places (spec.is_rule_of word.now sort) 0 known.now.names.now.labels)
        (spec.missing (spec.is_anywhere known.now.names.now word.now))) }
{
    let numbers = rules_at(alloc, known, sort, word)?;
    let code = missing(is_anywhere(alloc, known, word)?);
    Ok(rules_or(numbers, code))
}

/// A definition by its number, where it has no parameters.
fn call(alloc: Global, found: Found<'_>) -> Result<Strategy, Code>
    ensures { (other : Result Strategy Code) → result ≡ spec.call_or (Some (seen_found
        found.entry)) other }
{
    if 0 < found.head.parameters {
        Err(Code::E07)
    } else {
        Ok(Strategy {
            node: StrategyNode::Call(found.number, Items::new(alloc)),
        })
    }
}

/// What a name alone stands for at a sort.
#[tactic(auto, unfolding(crate::specs::Names::named))]
pub(crate) fn named(
    alloc: Global,
    known: &Known<'_>,
    sort: SortId,
    word: &[u8],
) -> Result<Result<Strategy, Code>, NoMemory>
    ensures { IfOk result (λ r. r ≡ spec.named known.now.names.now sort word.now) }
{
    let first = head_at(alloc, known, sort, word)?;
    match first {
        Some(found) => Ok(call(alloc, found)),
        None => label_at(alloc, known, sort, word),
    }
}

// ---- names that stand twice

/// Whether the first of these numbers is below this one, or there is one among those.
fn is_below_or_some(numbers: &[u32], before: usize, those: &[u32]) -> bool
    ensures { result ≡ (below_first before numbers.now || is_some_list those.now) }
{
    match numbers {
        [] => !those.is_empty(),
        [number, ..] => (*number as usize) < before || !those.is_empty(),
    }
}

/// Whether a definition among so many first ones, or a rule, has this name for this sort.
///
/// # Errors
///
/// `NoMemory`.
#[tactic(auto, using(crate::proofs::IndexLemmas::taken_there))]
pub fn is_taken(
    alloc: Global,
    known: &Known<'_>,
    before: usize,
    sort: SortId,
    word: &[u8],
) -> Result<bool, NoMemory>
    ensures { IfOk result (λ r. r ≡ spec.is_taken known.now.names.now before sort word.now) }
{
    let key = sorted_key(alloc, word, sort)?;
    let heads = known.index.heads.sorted.find(&key);
    let rules = known.index.labels.sorted.find(&key);
    Ok(is_below_or_some(heads, before, rules))
}

// ---- names over strategies

/// Whether a definition with parameters, or an operator with so many holes, has this name, for
/// whatever sort.
#[tactic(auto, using(crate::proofs::IndexLemmas::applied_anywhere))]
fn is_applied_anywhere(
    alloc: Global,
    known: &Known<'_>,
    word: &[u8],
    count: usize,
) -> Result<bool, NoMemory>
    ensures { IfOk result (λ r. r
        ≡ spec.is_applied_anywhere known.now.names.now known.now.operators.now word.now count) }
{
    let name = name_key(alloc, word)?;
    let heads = known.index.heads.wide_named.find(&name);
    let prefix = counted_key(alloc, word, count)?;
    let operators = known.index.operators.counted.find(&prefix);
    Ok(are_some(heads, operators))
}

/// The operator of these numbers, where there is one number.
fn operator_or(numbers: &[u32], code: Code) -> Result<Target, Code>
    ensures { result ≡ spec.operator_or numbers.now code }
{
    match numbers {
        [] => Err(code),
        [number] => Ok(Target::Operator(OpId(*number))),
        [_, _, ..] => Err(Code::E16),
    }
}

/// What a name over so many strategies stands for where no definition with parameters has it for
/// the sort.
#[tactic(auto, using(crate::proofs::IndexLemmas::operators_there))]
fn operator_at(
    alloc: Global,
    known: &Known<'_>,
    sort: SortId,
    word: &[u8],
    count: usize,
) -> Result<Result<Target, Code>, NoMemory>
    ensures { IfOk result (λ r. r ≡ spec.operator_or
        (spec.places (spec.is_prefixed_of word.now count sort) 0 known.now.operators.now)
        (spec.missing
        (spec.is_applied_anywhere known.now.names.now known.now.operators.now word.now count))) }
{
    let code = missing(is_applied_anywhere(alloc, known, word, count)?);
    let key = prefix_key(alloc, word, count, sort)?;
    Ok(operator_or(known.index.operators.sorted.find(&key), code))
}

/// A definition by its number, where it has so many parameters.
fn definition(count: usize, found: Found<'_>) -> Result<Target, Code>
    ensures { (other : Result Target Code)
        → result ≡ spec.definition_or count (Some (seen_found found.entry)) other }
{
    if found.head.parameters as usize == count {
        Ok(Target::Definition(found.number))
    } else {
        Err(Code::E07)
    }
}

/// What a name over so many strategies stands for at a sort.
#[tactic(auto, unfolding(crate::specs::Names::applied))]
pub(crate) fn applied(
    alloc: Global,
    known: &Known<'_>,
    sort: SortId,
    word: &[u8],
    count: usize,
) -> Result<Result<Target, Code>, NoMemory>
    ensures { IfOk result (λ r. r
        ≡ spec.applied known.now.names.now known.now.operators.now sort word.now count) }
{
    let first = wide_head_at(alloc, known, sort, word)?;
    match first {
        Some(found) => Ok(definition(count, found)),
        None => operator_at(alloc, known, sort, word, count),
    }
}
