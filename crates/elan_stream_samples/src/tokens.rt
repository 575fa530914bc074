//! Outside examples.

ghost use Rattle.std.specs.Prelude.{◌≤◌, length};

use elan_lexer::laws::{one_answer, some_answer, tokens_are_spans, tokens_inside};
use elan_lexer::{Kind, end_place, text, tokens};
use elan_text::{Code, Place, Refusal, Stop};
use std::alloc::Global;
use std::test::Fail;

fn refusal_of(alloc: Global, bytes: &[u8]) -> Option<Refusal>
    requires { length bytes.now ≤ 4194304 }
{
    match tokens(alloc, bytes) {
        Ok(_found) => None,
        Err(Stop::Refused(refusal)) => Some(refusal),
        Err(Stop::NoMemory) => None,
    }
}

#[test]
fn a_text_is_refused_at_its_first_fault(rt: HostRuntime) -> Result<(), Fail> {
    let cases = [
        (b"\xC3".as_slice(), Code::E02, 1, 1),
        (b"/*/".as_slice(), Code::E03, 1, 1),
        (b"9223372036854775808".as_slice(), Code::E04, 1, 1),
        (
            b"ab // \xC3\n /* x **/ 007 := \x01 /*".as_slice(),
            Code::E02,
            2,
            18,
        ),
        (
            b"a\n\n /* * / \x00 9223372036854775808".as_slice(),
            Code::E03,
            3,
            2,
        ),
        (
            b"x\r\n\t00009223372036854775808 \x7F".as_slice(),
            Code::E04,
            2,
            2,
        ),
    ];
    for (bytes, code, line, column) in cases {
        assert!(rt; bytes.len() <= 4_194_304);
        let refusal = refusal_of(rt.alloc(), bytes).ok_or("the text is refused")?;
        assert_eq!(rt; refusal.code, code);
        assert_eq!(rt; refusal.at, Place { line, column });
        assert!(rt; refusal.module.is_none());
    }
    Ok(())
}

#[test]
fn the_longest_token_stands_at_each_place(rt: HostRuntime) -> Result<(), Fail> {
    let bytes = b"ab_1=>\n  2b ==>= /*\n*/// \n<!=/:/ 009223372036854775807";
    let wanted = [
        (Kind::Word, b"ab_1".as_slice(), 1, 1),
        (Kind::Sign, b"=>".as_slice(), 1, 5),
        (Kind::Number, b"2".as_slice(), 2, 3),
        (Kind::Word, b"b".as_slice(), 2, 4),
        (Kind::Sign, b"==".as_slice(), 2, 6),
        (Kind::Sign, b">=".as_slice(), 2, 8),
        (Kind::Sign, b"<".as_slice(), 4, 1),
        (Kind::Sign, b"!=".as_slice(), 4, 2),
        (Kind::Sign, b"/".as_slice(), 4, 4),
        (Kind::Sign, b":".as_slice(), 4, 5),
        (Kind::Sign, b"/".as_slice(), 4, 6),
        (Kind::Number, b"009223372036854775807".as_slice(), 4, 8),
    ];
    let found = tokens(rt.alloc(), bytes).ok().ok_or("the text has tokens")?;
    assert_eq!(rt; found.len(), wanted.len());
    for (token, (kind, spelled, line, column)) in found.iter().zip(wanted) {
        assert_eq!(rt; token.kind, kind);
        assert_eq!(rt; token.at, Place { line, column });
        let inside = token.start <= token.end && token.end as usize <= bytes.len();
        assert!(rt; inside);
        assert_eq!(rt; text(bytes, token), spelled);
    }
    Ok(())
}

#[test]
fn a_text_of_comments_has_no_tokens(rt: HostRuntime) -> Result<(), Fail> {
    for bytes in [
        b"".as_slice(),
        b" \t\r\n".as_slice(),
        b"/**//***/ // /* \xFF".as_slice(),
    ] {
        assert!(rt; bytes.len() <= 4_194_304);
        let found = tokens(rt.alloc(), bytes).ok().ok_or("the text has tokens")?;
        assert!(rt; found.is_empty());
    }
    Ok(())
}

#[test]
fn a_text_ends_after_its_last_byte(rt: HostRuntime) {
    let cases = [
        (b"".as_slice(), 1, 1),
        (b"end".as_slice(), 1, 4),
        (b"end\n".as_slice(), 2, 1),
        (b"\r\n\xC3\xA4".as_slice(), 2, 3),
    ];
    for (bytes, line, column) in cases {
        assert!(rt; bytes.len() <= 4_194_304);
        assert_eq!(rt; end_place(bytes), Place { line, column });
    }
}

#[test]
fn a_law_does_nothing() {
    one_answer();
    some_answer();
    tokens_inside();
    tokens_are_spans();
}
