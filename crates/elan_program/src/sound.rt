//! Whether a signature is sound.

ghost use Rattle.std.specs.Prelude.{◌≡◌, ◌≤◌, ◌==◌, ◌++◌, IfOk, length};
ghost use Rattle.std.specs.List.{list_all, list_any, flat_map, filter};
ghost use Rattle.elan_terms.specs.Match as match_spec;
ghost use Rattle.elan_program.specs.Soundness as spec;

use crate::spelling::is_spelled;
use crate::{Builtin, Operator, Piece, Signature, Truth};
use elan_terms::{OpId, SortId};
use elan_text::NoMemory;
use sqlite_items::Items;
use std::alloc::Global;

/// How many sorts, operators, rules and named strategies a program has at least that has too many.
pub(crate) const MOST: usize = 4_294_967_296;

/// Whether there is a sort of this number.
pub(crate) fn has_sort_id(signature: &Signature, sort: SortId) -> bool
    ensures { result ≡ spec.has_sort_id signature.now sort }
{
    (sort.0 as usize) < signature.sorts.len()
}

/// Whether two numbers name one sort.
pub(crate) fn same_sort(one: SortId, other: SortId) -> bool
    ensures { result ≡ spec.same_sort one other }
{
    one.0 == other.0
}

/// Whether there is a sort, and it is this one.
pub(crate) fn is_sort(found: Option<SortId>, sort: SortId) -> bool
    ensures { result ≡ match_spec.is_sort found sort }
{
    match found {
        None => false,
        Some(there) => there.0 == sort.0,
    }
}

/// The sort of truth values, if there is one.
pub(crate) fn truth_sort(truth: &Option<Truth>) -> Option<SortId>
    ensures { result ≡ spec.truth_sort truth.now }
{
    match truth {
        None => None,
        Some(truth) => Some(truth.sort),
    }
}

fn has_sort_ids(signature: &Signature, sorts: &[SortId]) -> bool
    ensures { result ≡ list_all (spec.has_sort_id signature.now) sorts.now }
{
    match sorts {
        [] => true,
        [first, rest @ ..] => has_sort_id(signature, *first) && has_sort_ids(signature, rest),
    }
}

// ---- spellings

/// How many arguments a spelling has.
pub fn holes(pieces: &[Piece]) -> usize
    ensures value { result ≡ spec.holes pieces.now }
    ensures within { result ≤ length pieces.now }
{
    match pieces {
        [] => 0,
        [Piece::Hole, rest @ ..] => 1 + holes(rest),
        [Piece::Word(_), rest @ ..] => holes(rest),
    }
}

/// Whether each word of a spelling is one that a spelling may have.
pub fn are_spelled(pieces: &[Piece]) -> bool
    ensures { result ≡ spec.are_spelled pieces.now }
{
    match pieces {
        [] => true,
        [Piece::Hole, rest @ ..] => are_spelled(rest),
        [Piece::Word(name), rest @ ..] => is_spelled(name.as_bytes()) && are_spelled(rest),
    }
}

#[tactic(auto, unfolding(crate::specs::Soundness::is_spelling_of))]
fn is_spelling_of(operator: &Operator) -> bool
    ensures { result ≡ spec.is_spelling_of operator.now }
{
    let pieces = operator.pieces.as_slice();
    match pieces {
        [] => false,
        [_, ..] => holes(pieces) == operator.args.len() && are_spelled(pieces),
    }
}

// ---- sorts of arguments

/// Whether an associative and commutative operator has two arguments of its own sort.
pub fn ac_fits(operator: &Operator) -> bool
    ensures { result ≡ spec.ac_fits operator.now }
{
    if !operator.ac {
        return true;
    }
    match operator.args.as_slice() {
        [first, second] => same_sort(operator.sort, *first) && same_sort(operator.sort, *second),
        _ => false,
    }
}

/// Whether these are two arguments of a sort.
fn are_two_of(found: Option<SortId>, args: &[SortId]) -> bool
    ensures { result ≡ spec.two_args (match_spec.is_sort found) args.now }
{
    match args {
        [first, second] => is_sort(found, *first) && is_sort(found, *second),
        _ => false,
    }
}

/// Whether this is one argument of a sort.
fn is_one_of(found: Option<SortId>, args: &[SortId]) -> bool
    ensures { result ≡ spec.one_arg (match_spec.is_sort found) args.now }
{
    match args {
        [first] => is_sort(found, *first),
        _ => false,
    }
}

/// Whether these are two arguments of one sort.
fn are_two_same(args: &[SortId]) -> bool
    ensures { result ≡ spec.two_same args.now }
{
    match args {
        [first, second] => same_sort(*first, *second),
        _ => false,
    }
}

fn has_no_args(args: &[SortId]) -> bool
    ensures { result ≡ spec.no_args args.now }
{
    match args {
        [] => true,
        [_, ..] => false,
    }
}

// ---- built-in operators

#[tactic(auto, unfolding(crate::specs::Soundness::takes))]
fn takes(signature: &Signature, builtin: Builtin, args: &[SortId]) -> bool
    ensures { result ≡ spec.takes signature.now builtin args.now }
{
    match builtin {
        Builtin::Yes | Builtin::No => has_no_args(args),
        Builtin::Not => is_one_of(truth_sort(&signature.truth), args),
        Builtin::And | Builtin::Or => are_two_of(truth_sort(&signature.truth), args),
        Builtin::Same | Builtin::Differ => are_two_same(args),
        _ => are_two_of(signature.int, args),
    }
}

#[tactic(auto, unfolding(crate::specs::Soundness::makes))]
fn makes(signature: &Signature, builtin: Builtin, sort: SortId) -> bool
    ensures { result ≡ spec.makes signature.now builtin sort }
{
    match builtin {
        Builtin::Add | Builtin::Sub | Builtin::Mul | Builtin::Div | Builtin::Mod => {
            is_sort(signature.int, sort)
        }
        _ => is_sort(truth_sort(&signature.truth), sort),
    }
}

fn builtin_fits(signature: &Signature, operator: &Operator) -> bool
    ensures { result ≡ spec.builtin_fits signature.now operator.now operator.now.builtin }
{
    match operator.builtin {
        None => true,
        Some(builtin) => {
            !operator.ac
                && (takes(signature, builtin, operator.args.as_slice())
                    && makes(signature, builtin, operator.sort))
        }
    }
}

fn is_yes(builtin: Option<Builtin>) -> bool
    ensures { result ≡ spec.is_yes builtin }
{
    matches!(builtin, Some(Builtin::Yes))
}

fn is_no(builtin: Option<Builtin>) -> bool
    ensures { result ≡ spec.is_no builtin }
{
    matches!(builtin, Some(Builtin::No))
}

/// Whether the operators of the truth values are the built-in constants of their sort, where there are truth values.
pub fn truth_fits(signature: &Signature) -> bool
    ensures { result ≡ spec.truth_fits signature.now signature.now.truth }
{
    match &signature.truth {
        None => true,
        Some(truth) => {
            has_sort_id(signature, truth.sort)
                && (is_yes(signature.builtin(truth.yes)) && is_no(signature.builtin(truth.no)))
        }
    }
}

/// Whether the sort of integers is one of the sorts, where there are integers.
pub fn int_fits(signature: &Signature) -> bool
    ensures { result ≡ spec.int_fits signature.now signature.now.int }
{
    match signature.int {
        None => true,
        Some(sort) => has_sort_id(signature, sort),
    }
}

// ---- injections

/// From where to where an injection leads, by the numbers of the sorts.
pub type Lead = (u32, u32);

/// Adds from where to where an operator leads, if it is an injection.
fn lead_onto(out: &mut Items<Lead>, operator: &Operator) -> Result<(), NoMemory>
    ensures { IfOk result (λ _.
        out.new
        ≡ out.old ++ spec.leads operator.now.pieces operator.now.args operator.now.sort) }
{
    match (operator.pieces.as_slice(), operator.args.as_slice()) {
        ([Piece::Hole], [arg]) => {
            out.push((arg.0, operator.sort.0))?;
            Ok(())
        }
        _ => Ok(()),
    }
}

fn leads_onto(out: &mut Items<Lead>, operators: &[Operator]) -> Result<(), NoMemory>
    ensures { IfOk result (λ _.
        out.new
        ≡ out.old ++ flat_map (λ o. spec.leads o.pieces o.args o.sort) operators.now) }
{
    match operators {
        [] => Ok(()),
        [first, rest @ ..] => {
            lead_onto(out, first)?;
            leads_onto(out, rest)
        }
    }
}

/// Whether one of these leads on from where a lead ends.
fn goes_on(others: &[Lead], lead: Lead) -> bool
    ensures { result ≡ list_any (λ j. j.0 == lead.1) others.now }
{
    match others {
        [] => false,
        [first, rest @ ..] => first.0 == lead.1 || goes_on(rest, lead),
    }
}

fn led_on_onto(out: &mut Items<Lead>, others: &[Lead], leads: &[Lead]) -> Result<(), NoMemory>
    ensures { IfOk result (λ _.
        out.new
        ≡ out.old ++ filter (λ i. list_any (λ j. j.0 == i.1) others.now) leads.now) }
{
    match leads {
        [] => Ok(()),
        [first, rest @ ..] => {
            if goes_on(others, *first) {
                out.push(*first)?;
            }
            led_on_onto(out, others, rest)
        }
    }
}

/// The leads at whose end one of the others begins.
#[tactic(auto, unfolding(crate::specs::Soundness::led_on))]
pub fn led_on(alloc: Global, others: &[Lead], leads: &[Lead]) -> Result<Items<Lead>, NoMemory>
    ensures { IfOk result (λ out. out ≡ spec.led_on others.now leads.now) }
{
    let mut out = Items::new(alloc);
    led_on_onto(&mut out, others, leads)?;
    Ok(out)
}

/// The leads with which chains of so many more begin.
#[tactic(auto, using(crate::proofs::ChainLemmas::chain_rules))]
fn chains(alloc: Global, leads: &[Lead], count: usize) -> Result<Items<Lead>, NoMemory>
    ensures { IfOk result (λ out. out ≡ spec.chains leads.now count) }
{
    if count == 0 {
        return Ok(Items::from_slice(alloc, leads)?);
    }
    let shorter = chains(alloc, leads, count - 1)?;
    led_on(alloc, shorter.as_slice(), leads)
}

/// Whether no injections lead a sort back to itself. The time grows with the number of sorts and
/// the square of the number of injections.
#[tactic(auto, unfolding(crate::specs::Soundness::has_no_cycle, crate::specs::Soundness::injections))]
fn has_no_cycle(alloc: Global, signature: &Signature) -> Result<bool, NoMemory>
    ensures { IfOk result (λ ok. ok ≡ spec.has_no_cycle signature.now) }
{
    let mut leads = Items::new(alloc);
    leads_onto(&mut leads, signature.operators.as_slice())?;
    let long = chains(alloc, leads.as_slice(), signature.sorts.len())?;
    Ok(long.is_empty())
}

// ---- signatures

#[tactic(auto, unfolding(crate::specs::Soundness::is_sound_operator))]
fn is_sound_operator(signature: &Signature, operator: &Operator) -> bool
    ensures { result ≡ spec.is_sound_operator signature.now operator.now }
{
    (is_spelling_of(operator)
        && (has_sort_ids(signature, operator.args.as_slice())
            && has_sort_id(signature, operator.sort)))
        && (ac_fits(operator) && builtin_fits(signature, operator))
}

/// Whether the spelling, the sorts and the operation of each of these operators fit together.
pub fn are_sound_operators(signature: &Signature, operators: &[Operator]) -> bool
    ensures { result ≡ list_all (spec.is_sound_operator signature.now) operators.now }
{
    match operators {
        [] => true,
        [first, rest @ ..] => {
            is_sound_operator(signature, first) && are_sound_operators(signature, rest)
        }
    }
}

impl Signature {
    /// Whether the signature is sound: its numbers are in range, the spelling, the sorts and the operation of each operator
    /// fit together, the constants of the truth values are the built-in ones, and no injections lead a sort back to itself.
    #[tactic(auto, unfolding(crate::specs::Soundness::is_sound))]
    pub fn is_sound(&self, alloc: Global) -> Result<bool, NoMemory>
        ensures { IfOk result (λ ok. ok ≡ spec.is_sound self.now) }
    {
        let acyclic = has_no_cycle(alloc, self)?;
        Ok(
            (self.sorts.len() < MOST && self.operators.len() < MOST)
                && (are_sound_operators(self, self.operators.as_slice())
                    && (int_fits(self) && (truth_fits(self) && acyclic))),
        )
    }
}
