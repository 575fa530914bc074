//! Small signatures whose operators are written as a row.

use elan_program::{Assoc, Operator, Piece, Signature};
use elan_terms::SortId;
use elan_text::{Name, NoMemory};
use sqlite_items::Items;
use std::alloc::Global;

/// An operator: its pieces with a space between them, a hole as `@`; its arguments' sorts; its sort; its priority; its
/// associativity; whether it is associative and commutative.
pub(crate) type Row<'a> = (&'a [u8], &'a [u32], u32, u8, Assoc, bool);

fn piece_onto(alloc: Global, pieces: &mut Items<Piece>, word: &[u8]) -> Result<(), NoMemory> {
    if word == b"@".as_slice() {
        pieces.push(Piece::Hole)
    } else {
        pieces.push(Piece::Word(Name::new(alloc, word)?))
    }
}

fn pieces(alloc: Global, spelling: &[u8]) -> Result<Items<Piece>, NoMemory> {
    let mut pieces = Items::new(alloc);
    let mut word = Vec::new(alloc);
    for byte in spelling {
        if *byte == b' ' {
            piece_onto(alloc, &mut pieces, word.as_slice())?;
            word = Vec::new(alloc);
        } else {
            word.push(*byte)?;
        }
    }
    piece_onto(alloc, &mut pieces, word.as_slice())?;
    Ok(pieces)
}

fn operator(alloc: Global, row: &Row<'_>) -> Result<Operator, NoMemory> {
    let mut args = Items::new(alloc);
    for arg in row.1 {
        args.push(SortId(*arg))?;
    }
    Ok(Operator {
        pieces: pieces(alloc, row.0)?,
        args,
        sort: SortId(row.2),
        pri: row.3,
        assoc: row.4,
        ac: row.5,
        builtin: None,
    })
}

/// The signature of so many sorts and of these operators.
pub(crate) fn signature(
    alloc: Global,
    sorts: u32,
    int: Option<SortId>,
    rows: &[Row<'_>],
) -> Result<Signature, NoMemory> {
    let mut names = Items::new(alloc);
    for _ in 0..sorts {
        names.push(Name::new(alloc, b"s")?)?;
    }
    let mut operators = Items::new(alloc);
    for row in rows {
        operators.push(operator(alloc, row)?)?;
    }
    Ok(Signature {
        sorts: names,
        operators,
        int,
        truth: None,
    })
}
