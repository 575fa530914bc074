//! The tree of a reading in letters: `x7` is a variable, `f2(1,2)` an application of the operator 2.

use elan_chart::laws::numbers_are_in_range;
use elan_chart::read;
use elan_lexer::tokens;
use elan_program::Signature;
use elan_reading::{ReadingRefusal, Sought, Variable};
use elan_terms::{Pattern, PatternNode, SortId};
use elan_text::{Name, NoMemory};
use elan_variables::Variables;
use sqlite_items::Items;
use std::alloc::Global;

/// Puts a number in digits.
fn number_onto(alloc: Global, out: &mut Vec<u8>, number: i64) -> Result<(), NoMemory> {
    let digits = format!(in alloc; "{number}")?;
    out.extend_from_slice(digits.as_bytes())
}

#[cycle(tree)]
#[tactic(auto, using(elan_terms::proofs::WeightLemmas::falls))]
fn tree_onto(alloc: Global, out: &mut Vec<u8>, tree: &Pattern) -> Result<(), NoMemory> {
    match &tree.node {
        PatternNode::Var(number, _) => {
            out.push(b'x')?;
            number_onto(alloc, out, i64::from(*number))
        }
        PatternNode::Int(value) => number_onto(alloc, out, *value),
        PatternNode::App(op, args) => {
            out.push(b'f')?;
            number_onto(alloc, out, i64::from(op.0))?;
            out.push(b'(')?;
            trees_onto(alloc, out, args.as_slice())?;
            out.push(b')')?;
            Ok(())
        }
    }
}

#[cycle(tree)]
#[tactic(auto, using(elan_terms::proofs::WeightLemmas::falls))]
fn trees_onto(alloc: Global, out: &mut Vec<u8>, trees: &[Pattern]) -> Result<(), NoMemory> {
    match trees {
        [] => Ok(()),
        [tree, rest @ ..] => {
            tree_onto(alloc, out, tree)?;
            if !rest.is_empty() {
                out.push(b',')?;
            }
            trees_onto(alloc, out, rest)
        }
    }
}

fn refusal(refusal: ReadingRefusal) -> &'static [u8] {
    match refusal {
        ReadingRefusal::None => b"none",
        ReadingRefusal::Several => b"several",
        ReadingRefusal::TooLong => b"too long",
        ReadingRefusal::NoMemory => b"no memory",
    }
}

fn variables(alloc: Global) -> Result<Variables, NoMemory> {
    let mut variables = Items::new(alloc);
    variables.push(Variable {
        name: Name::new(alloc, b"v")?,
        sort: SortId(0),
        number: 7,
    })?;
    Variables::new(alloc, variables)
}

/// What a text is read as, where the word `v` is the variable 7 of the sort 0; or why it is not.
pub(crate) fn shown(
    alloc: Global,
    signature: &Signature,
    sought: Sought,
    text: &[u8],
) -> Result<Vec<u8>, NoMemory> {
    numbers_are_in_range();
    let variables = variables(alloc)?;
    let mut out = Vec::new(alloc);
    if !signature.is_sound(alloc)? || 4194304 < text.len() {
        out.extend_from_slice(b"not sound")?;
        return Ok(out);
    }
    match tokens(alloc, text) {
        Err(_) => out.extend_from_slice(b"no tokens")?,
        Ok(list) => {
            match read(alloc, signature, &variables, sought, text, list.as_slice()) {
                Ok(tree) => tree_onto(alloc, &mut out, &tree)?,
                Err(why) => out.extend_from_slice(refusal(why))?,
            }
        }
    }
    Ok(out)
}
