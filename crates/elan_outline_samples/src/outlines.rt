//! Outside examples, whose refused places were counted by hand.

use elan_lexer::tokens;
use elan_phrases::is_unreserved;
use elan_syntax::laws::{one_answer, rules_behind_a_sort, some_answer, strategies_behind_a_sort};
use elan_syntax::{module_outline, outline};
use elan_text::{Code, Name, Place, Stop};
use std::alloc::Global;
use std::test::Fail;

/// Why a text has no outline.
#[derive(Clone, Copy, Debug, PartialEq, Eq)]
enum Refused {
    At(Code, u32, u32),
    Otherwise,
}

/// The refusal that a call answered.
fn refusal_of(stop: Stop) -> Refused {
    match stop {
        Stop::Refused(refusal) => Refused::At(refusal.code, refusal.at.line, refusal.at.column),
        Stop::NoMemory => Refused::Otherwise,
    }
}

/// Whether a text is a module of this name, or its refusal.
fn module_answer(alloc: Global, bytes: &[u8], name: &Name) -> Option<Refused> {
    if bytes.len() > 4_194_304 || !is_unreserved(name.as_bytes()) {
        return Some(Refused::Otherwise);
    }
    let Ok(found) = tokens(alloc, bytes) else {
        return Some(Refused::Otherwise);
    };
    module_outline(alloc, bytes, found.as_slice(), name)
        .map_err(refusal_of)
        .err()
}

#[test]
fn a_loaded_text_is_one_module_of_its_name(rt: HostRuntime) -> Result<(), Fail> {
    let rows = [
        (b"module cell[X] sort cell[X]; end end".as_slice(), None),
        (b"module\nwrap end", Some((2, 1))),
        (b"module\nsort end", Some((2, 1))),
        (b"module cell end\nmodule cell end", Some((2, 1))),
        (b"module cell end\nLPL q", Some((2, 1))),
        (b"LPL q description", Some((1, 1))),
        (b"", Some((1, 1))),
        (b"module cell\n", Some((2, 1))),
    ];
    let name = Name::new(rt.alloc(), b"cell")?;
    for (text, place) in rows {
        let wanted = place.map(|(line, column)| Refused::At(Code::E05, line, column));
        assert_eq!(rt; module_answer(rt.alloc(), text, &name), wanted);
    }
    Ok(())
}

#[test]
fn a_refusal_names_no_module(rt: HostRuntime) -> Result<(), Fail> {
    let found = tokens(rt.alloc(), b"module m")
        .ok()
        .ok_or("there are tokens")?;
    match outline(rt.alloc(), b"module m", found.as_slice()) {
        Err(Stop::Refused(refusal)) => {
            assert_eq!(rt; refusal.at, Place { line: 1, column: 9 });
            assert!(rt; refusal.module.is_none());
        }
        _ => return Err("it is refused".into()),
    }
    Ok(())
}

#[test]
fn a_law_does_nothing() {
    one_answer();
    some_answer();
    rules_behind_a_sort();
    strategies_behind_a_sort();
}
