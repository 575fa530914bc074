//! The signatures of inputs.

use crate::instances::flat_of;
use crate::outlines::stop_line;
use crate::sections::Section;
use elan_program::{Assoc, Operator, Piece, Signature};
use elan_signature::signature;
use std::alloc::Global;
use std::io;

/// Puts the spelling of an operator to the end, with `@` for each argument.
fn spelling_onto(into: &mut Vec<u8>, operator: &Operator) -> io::Result<()> {
    for piece in operator.pieces.as_slice() {
        match piece {
            Piece::Hole => into.extend_from_slice(b"@")?,
            Piece::Word(name) => into.extend_from_slice(name.as_bytes())?,
        }
    }
    Ok(())
}

/// What stands behind the priority of an operator: its side, whether it is associative and commutative, and `!` where it
/// is built in.
fn attributes(operator: &Operator) -> (&'static str, &'static str, &'static str) {
    let side = match operator.assoc {
        Assoc::No => "",
        Assoc::Left => " left",
        Assoc::Right => " right",
    };
    let ac = if operator.ac { " ac" } else { "" };
    let own = if operator.builtin.is_some() { " !" } else { "" };
    (side, ac, own)
}

/// Puts an operator to the end: its spelling, the numbers of its sorts, its priority and its attributes.
fn operator_onto(alloc: Global, into: &mut Vec<u8>, operator: &Operator) -> io::Result<()> {
    spelling_onto(into, operator)?;
    into.extend_from_slice(b" :")?;
    for arg in operator.args.as_slice() {
        let number = arg.0;
        let text = format!(in alloc; " {number}")?;
        into.extend_from_slice(text.as_str().as_bytes())?;
    }
    let (number, pri) = (operator.sort.0, operator.pri);
    let (side, ac, own) = attributes(operator);
    let text = format!(in alloc; " > {number} pri {pri}{side}{ac}{own}\n")?;
    into.extend_from_slice(text.as_str().as_bytes())?;
    Ok(())
}

/// Puts the sorts to the end, then the numbers of the sort of integers and of the truth values.
fn sorts_onto(alloc: Global, into: &mut Vec<u8>, signature: &Signature) -> io::Result<()> {
    into.extend_from_slice(b"sorts")?;
    for sort in signature.sorts.as_slice() {
        into.extend_from_slice(b" ")?;
        into.extend_from_slice(sort.as_bytes())?;
    }
    into.extend_from_slice(b"\n")?;
    if let Some(int) = signature.int {
        let number = int.0;
        let text = format!(in alloc; "int {number}\n")?;
        into.extend_from_slice(text.as_str().as_bytes())?;
    }
    if let Some(truth) = &signature.truth {
        let (sort, yes, no) = (truth.sort.0, truth.yes.0, truth.no.0);
        let text = format!(in alloc; "truth {sort} {yes} {no}\n")?;
        into.extend_from_slice(text.as_str().as_bytes())?;
    }
    Ok(())
}

/// The sorts and operators of an input, or its refusal.
pub(crate) fn signed(alloc: Global, all: &[Section<'_>], input: &[u8]) -> io::Result<Vec<u8>> {
    let flat = match flat_of(alloc, all, input)? {
        Err(line) => return Ok(line),
        Ok(flat) => flat,
    };
    match signature(alloc, &flat) {
        Err(stop) => stop_line(alloc, &stop),
        Ok(made) => {
            let mut into = Vec::new(alloc);
            sorts_onto(alloc, &mut into, &made)?;
            for operator in made.operators.as_slice() {
                operator_onto(alloc, &mut into, operator)?;
            }
            Ok(into)
        }
    }
}
