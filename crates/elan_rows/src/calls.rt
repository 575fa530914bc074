//! The calls of the plain engine for the matches of a pattern, for the item of a pattern under values, and for the list
//! of a strategy on a term.

use crate::answers::{unknown, write_term, written};
use crate::described::{Described, pattern, program, strategy};
use crate::programs::{CHOICE, IDEM, NUMS, SETS};
use elan_meaning::Item;
use elan_plain::{plain_item, plain_list, plain_matches};
use elan_program::Program;
use elan_terms::Term;
use elan_text::NoMemory;
use sqlite_items::Items;
use std::alloc::Global;
use std::test::Fail;

// What is asked about a term.
#[derive(Clone, Copy)]
enum Call {
    /// The matches of a pattern in it.
    Matches,
    /// The item of a pattern whose only variable it is the value of.
    Item,
    /// The list of a strategy on it.
    List,
}

// A call, the words of its pattern or strategy, those of the term, the steps, and the answer.
struct Asked(
    Call,
    &'static [&'static str],
    &'static [&'static str],
    u32,
    &'static str,
);

// The normal form of a pattern without variables; nothing where a word is none.
fn term_of(
    alloc: Global,
    described: &Described,
    program: &Program,
    words: &[&str],
) -> Result<Option<Term>, NoMemory> {
    let Some(pattern) = pattern(alloc, described, words)? else {
        return Ok(None);
    };
    match plain_item(alloc, program, &pattern, &[], 10)? {
        Item::Res(term, _) => Ok(Some(term)),
        Item::Mark(_) => Ok(None),
    }
}

// The values of each match, each match ended by a bar.
fn matched(
    alloc: Global,
    described: &Described,
    matches: &[Items<Term>],
) -> Result<String, NoMemory> {
    let mut text = String::new(alloc);
    for values in matches {
        for value in values.as_slice() {
            write_term(alloc, &mut text, described, value)?;
            text.push(' ')?;
        }
        text.push('|')?;
    }
    Ok(text)
}

fn matches_of(
    alloc: Global,
    described: &Described,
    program: &Program,
    words: &[&str],
    term: &Term,
) -> Result<String, NoMemory> {
    let Some(pattern) = pattern(alloc, described, words)? else {
        return unknown(alloc);
    };
    let all = plain_matches(alloc, program, &pattern, 0, term)?;
    matched(alloc, described, all.as_slice())
}

fn item_of(
    alloc: Global,
    described: &Described,
    program: &Program,
    words: &[&str],
    term: Term,
    steps: u32,
) -> Result<String, NoMemory> {
    let Some(pattern) = pattern(alloc, described, words)? else {
        return unknown(alloc);
    };
    let mut values = Items::new(alloc);
    values.push(term)?;
    let item = plain_item(alloc, program, &pattern, values.as_slice(), steps.min(1000))?;
    let mut items = Items::new(alloc);
    items.push(item)?;
    written(alloc, described, items.as_slice())
}

fn list_of(
    alloc: Global,
    described: &Described,
    program: &Program,
    words: &[&str],
    term: &Term,
    steps: u32,
) -> Result<String, NoMemory> {
    let Some(strategy) = strategy(alloc, described, words)? else {
        return unknown(alloc);
    };
    let items = plain_list(alloc, program, &strategy, term, steps.min(1000))?;
    written(alloc, described, items.as_slice())
}

// What a call answers, or a question mark where a word is none.
fn answer(
    alloc: Global,
    described: &Described,
    program: &Program,
    asked: &Asked,
) -> Result<String, NoMemory> {
    let Some(term) = term_of(alloc, described, program, asked.2)? else {
        return unknown(alloc);
    };
    match asked.0 {
        Call::Matches => matches_of(alloc, described, program, asked.1, &term),
        Call::Item => item_of(alloc, described, program, asked.1, term, asked.3),
        Call::List => list_of(alloc, described, program, asked.1, &term, asked.3),
    }
}

// The number of the first call with another answer, or 1,000 where the program is not valid.
fn wrong_call(
    alloc: Global,
    described: &Described,
    calls: &[Asked],
) -> Result<Option<usize>, NoMemory> {
    let Some(program) = program(alloc, described)? else {
        return Ok(Some(1000));
    };
    for (number, asked) in calls.iter().enumerate() {
        if answer(alloc, described, &program, asked)?.as_str() != asked.4 {
            return Ok(Some(number));
        }
    }
    Ok(None)
}

const IN_UNIONS: &[Asked] = &[
    Asked(
        Call::Matches,
        &["x", "y", "U"],
        &["a", "b", "c", "U", "U"],
        0,
        "a U(b,c) |b U(a,c) |c U(a,b) |U(a,b) c |U(a,c) b |U(b,c) a |",
    ),
    Asked(
        Call::Matches,
        &["x", "x", "U"],
        &["a", "a", "U", "b", "b", "U", "U"],
        0,
        "U(a,b) |",
    ),
    Asked(Call::Matches, &["x", "x", "U"], &["a", "b", "U"], 0, ""),
    Asked(
        Call::Matches,
        &["x", "y", "p"],
        &["a", "b", "p"],
        0,
        "a b |",
    ),
    Asked(Call::Matches, &["z"], &["a"], 0, "?"),
];

const ONE_ITEM: &[Asked] = &[
    Asked(
        Call::Item,
        &["x", "x", "U"],
        &["a", "b", "U"],
        10,
        "U(a,b)/9 ",
    ),
    Asked(Call::Item, &["x", "x", "U"], &["a", "b", "U"], 0, "steps "),
    Asked(Call::Item, &["x"], &["a", "b", "U"], 0, "U(a,b)/0 "),
];

#[test]
fn matches_and_items_are_asked_one_by_one(rt: HostRuntime) -> Result<(), Fail> {
    let alloc = rt.alloc();
    assert_eq!(rt; wrong_call(alloc, &SETS, IN_UNIONS)?, None);
    assert_eq!(rt; wrong_call(alloc, &IDEM, ONE_ITEM)?, None);
    Ok(())
}

const ON_CHOICE: &[Asked] = &[
    Asked(Call::List, &["ab", "ac", "dk"], &["a"], 10, "b/9 c/9 "),
    Asked(Call::List, &["ab"], &["a"], 0, "steps "),
    Asked(Call::List, &["ab"], &["b"], 10, ""),
];

const ON_NUMBERS: &[Asked] = &[
    Asked(Call::List, &["dec", "repeat*"], &["2"], 10, "0/5 "),
    Asked(Call::Item, &["n", "1", "+"], &["4"], 7, "5/7 "),
];

#[test]
fn a_strategy_is_asked_on_a_term(rt: HostRuntime) -> Result<(), Fail> {
    let alloc = rt.alloc();
    assert_eq!(rt; wrong_call(alloc, &CHOICE, ON_CHOICE)?, None);
    assert_eq!(rt; wrong_call(alloc, &NUMS, ON_NUMBERS)?, None);
    Ok(())
}
