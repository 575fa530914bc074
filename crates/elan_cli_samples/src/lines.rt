//! Lines of words.

use elan_cli::WordsRefusal::{NoValue, OutOfRange, Repeated, Unknown};
use elan_cli::laws::{accepted_lines_are_written, written_lines_are_accepted};
use elan_cli::{Options, WordsRefusal, options};
use std::alloc::{AllocError, Global};
use std::test::Fail;

/// A line without words.
const NONE: Options = Options {
    workers: 1,
    limit: 1_000_000,
    steps: 10_000,
    plain: false,
    demo: None,
};

/// The same for the plain engine.
const PLAIN: Options = Options {
    workers: 1,
    limit: 1_000_000,
    steps: 1_000,
    plain: true,
    demo: None,
};

/// All that a line may give.
const ALL: Options = Options {
    workers: 64,
    limit: 1_000_000,
    steps: 1_000,
    plain: true,
    demo: Some(200),
};

const FOUR_OF_EIGHT: Options = Options {
    workers: 8,
    limit: 4,
    steps: 10_000,
    plain: false,
    demo: Some(2),
};

const MANY_STEPS: Options = Options {
    workers: 1,
    limit: 1_000_000,
    steps: 1_000_000,
    plain: false,
    demo: None,
};

/// The words, joined by spaces, whether the caller asks for the plain engine, and the answer.
type Row = (&'static str, bool, Result<Options, WordsRefusal>);

const ROWS: [Row; 37] = [
    ("", false, Ok(NONE)),
    ("", true, Ok(PLAIN)),
    ("--plain", false, Ok(PLAIN)),
    ("--plain", true, Ok(PLAIN)),
    ("--demo 2 --limit 4 --workers 8", false, Ok(FOUR_OF_EIGHT)),
    ("--workers=8 --demo=2 --limit=4", false, Ok(FOUR_OF_EIGHT)),
    (
        "--steps 1000 --workers 64 --plain --demo=200 --limit 1000000",
        false,
        Ok(ALL),
    ),
    (
        "--limit=0000000000001000000 --demo 0200 --plain --workers 064 --steps=1000",
        true,
        Ok(ALL),
    ),
    ("--steps=1000000", false, Ok(MANY_STEPS)),
    ("--steps 0", false, Err(OutOfRange(1))),
    ("--steps 1000001", false, Err(OutOfRange(1))),
    ("--limit 1000001", false, Err(OutOfRange(1))),
    ("--limit=0", false, Err(OutOfRange(0))),
    ("--workers 65", false, Err(OutOfRange(1))),
    ("--demo 201", false, Err(OutOfRange(1))),
    ("--demo=00000000000000000001", false, Err(OutOfRange(0))),
    ("--limit 99999999999999999999", false, Err(OutOfRange(1))),
    ("--limit +1", false, Err(OutOfRange(1))),
    ("--limit=-1", false, Err(OutOfRange(0))),
    ("--limit=", false, Err(OutOfRange(0))),
    ("--limit=1=1", false, Err(OutOfRange(0))),
    ("--workers=4 --workers 4", false, Err(Repeated(1))),
    ("--workers 4 --workers=4", false, Err(Repeated(2))),
    ("--plain --plain", false, Err(Repeated(1))),
    ("--limit", false, Err(NoValue(0))),
    ("--limit -1", false, Err(NoValue(0))),
    ("--limit --plain", false, Err(NoValue(0))),
    ("--steps 4 --workers", false, Err(NoValue(2))),
    ("-h", false, Err(Unknown(0))),
    ("--", false, Err(Unknown(0))),
    ("--plain=x", false, Err(Unknown(0))),
    ("--limits 4", false, Err(Unknown(0))),
    ("4", false, Err(Unknown(0))),
    ("--limit 4 4", false, Err(Unknown(2))),
    ("--plain --steps 1001", false, Err(OutOfRange(2))),
    ("--steps 1001 --plain", false, Err(OutOfRange(1))),
    (
        "--steps 1001 --workers 4 --workers 4",
        true,
        Err(OutOfRange(1)),
    ),
];

/// The words of a line.
fn words(alloc: Global, line: &str) -> Result<Vec<String>, AllocError> {
    let mut words = Vec::new(alloc);
    for word in line.split_whitespace() {
        words.push(String::from_str(alloc, word)?)?;
    }
    Ok(words)
}

/// Whether the line is answered as the row says.
fn is_as_said(alloc: Global, row: &Row) -> Result<bool, AllocError> {
    let words = words(alloc, row.0)?;
    let found = options(alloc, words.as_slice(), row.1);
    Ok(found == row.2)
}

#[test]
fn a_line_is_read_or_its_first_refused_word_is_named(rt: HostRuntime) -> Result<(), Fail> {
    for row in &ROWS {
        assert!(rt; is_as_said(rt.alloc(), row)?);
    }
    Ok(())
}

#[test]
fn an_empty_word_is_a_value_out_of_range_or_unknown(rt: HostRuntime) -> Result<(), Fail> {
    let alloc = rt.alloc();
    let mut words = words(alloc, "--limit")?;
    words.push(String::new(alloc))?;
    assert!(rt; options(alloc, words.as_slice(), false) == Err(OutOfRange(1)));
    words.push(String::new(alloc))?;
    assert!(rt; options(alloc, &words.as_slice()[1..], false) == Err(Unknown(0)));
    Ok(())
}

#[test]
fn the_laws_are_calls_that_do_nothing(_rt: HostRuntime) {
    written_lines_are_accepted();
    accepted_lines_are_written();
}
