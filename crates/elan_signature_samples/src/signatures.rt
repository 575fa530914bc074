//! The limits of signatures. Signatures and refusals of small programs are cases of `elan_cases`.

use elan_lexer::tokens;
use elan_modules::{Flat, flatten};
use elan_signature::signature;
use elan_syntax::outline;
use elan_text::{Code, Stop};
use std::alloc::Global;
use std::test::Fail;

/// What stands behind the modules of a program, up to its import.
const QUERY: &[u8] = b"LPL q description\nquery of sort s\nresult of sort s\nimport ";

/// And what stands behind that.
const REST: &[u8] = b"\nstart with (id) query\nend\na end\n";

/// A module with so many sorts and operators, each on a line of its own; its first sort is `s`.
fn many(alloc: Global, sorts: usize, operators: usize) -> Result<Vec<u8>, Fail> {
    let mut text = b"module m sort s\n".to_vec(alloc)?;
    for n in 1..sorts {
        let line = format!(in alloc; "s{n}\n")?;
        text.extend_from_slice(line.as_str().as_bytes())?;
    }
    text.extend_from_slice(b"; end operators\n")?;
    for n in 0..operators {
        let line = format!(in alloc; "a{n} : s;\n")?;
        text.extend_from_slice(line.as_str().as_bytes())?;
    }
    text.extend_from_slice(b"end end\n")?;
    Ok(text)
}

/// The flat program of an input.
fn flat(alloc: Global, text: &[u8]) -> Result<Flat, Fail> {
    if text.len() > 4_194_304 {
        return Err("the stream is too long".into());
    }
    let found = tokens(alloc, text).ok().ok_or("there are tokens")?;
    let outline = outline(alloc, text, found.as_slice())
        .ok()
        .ok_or("there is an outline")?;
    let flat = flatten(alloc, text, found.as_slice(), outline, &mut Vec::new(alloc))
        .ok()
        .ok_or("the program is flattened")?;
    Ok(flat)
}

/// How many sorts and operators a program has, or the code and the line of its refusal.
fn counted(alloc: Global, flat: &Flat) -> Result<(usize, usize), Option<(Code, u32)>> {
    match signature(alloc, flat) {
        Ok(signature) => Ok((signature.sorts.len(), signature.operators.len())),
        Err(Stop::Refused(refusal)) => Err(Some((refusal.code, refusal.at.line))),
        Err(Stop::NoMemory) => Err(None),
    }
}

#[test]
fn there_are_at_most_4096_sorts_and_operators(rt: HostRuntime) -> Result<(), Fail> {
    let alloc = rt.alloc();
    // `bool` has one sort and five operators.
    let rows = [
        (4_096, 1, b"m".as_slice(), Ok((4_096, 1))),
        (4_097, 1, b"m", Err(Some((Code::E14, 4_097)))),
        (4_095, 1, b"m bool", Ok((4_096, 6))),
        (4_096, 1, b"m bool", Err(Some((Code::E14, 4_096)))),
        (1, 4_096, b"m", Ok((1, 4_096))),
        (1, 4_097, b"m", Err(Some((Code::E14, 4_099)))),
        (1, 4_091, b"m bool", Ok((2, 4_096))),
        (1, 4_092, b"m bool", Err(Some((Code::E14, 4_094)))),
    ];
    for (sorts, operators, import, wanted) in rows {
        let mut text = many(alloc, sorts, operators)?;
        text.extend_from_slice(QUERY)?;
        text.extend_from_slice(import)?;
        text.extend_from_slice(REST)?;
        assert_eq!(rt; counted(alloc, &flat(alloc, text.as_slice())?), wanted);
    }
    Ok(())
}
