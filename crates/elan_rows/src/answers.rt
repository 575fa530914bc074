//! The answers of small programs.

use crate::described::{Described, pattern, program, strategy};
use crate::programs::{CHOICE, DEEP, IDEM, LINKED, NUMS, SETS, TRUTHS, TURNS, VALUES};
use elan_meaning::{Cause, Item};
use elan_plain::plain_items;
use elan_program::{Program, Strategy, StrategyNode};
use elan_terms::{OpId, Pattern, PatternNode, Term, TermNode};
use elan_text::NoMemory;
use sqlite_items::Items;
use std::alloc::Global;
use std::test::Fail;

// A term as the names of its operators, with arguments in brackets.
pub fn write_term(
    alloc: Global,
    text: &mut String,
    described: &Described,
    term: &Term,
) -> Result<(), NoMemory> {
    match &term.node {
        TermNode::Int(z) => write!(text, "{z}"),
        TermNode::App(op, args) => {
            if let Some(there) = described.operators.get(op.0 as usize) {
                text.push_str(there.0)?;
            }
            let mut before = '(';
            for arg in args.as_slice() {
                text.push(before)?;
                before = ',';
                write_term(alloc, text, described, arg)?;
            }
            if before == ',' {
                text.push(')')?;
            }
            Ok(())
        }
    }
}

// Each item, with the steps left behind a result.
pub fn written(alloc: Global, described: &Described, items: &[Item]) -> Result<String, NoMemory> {
    let mut text = String::new(alloc);
    for item in items {
        match item {
            Item::Mark(Cause::Steps) => text.push_str("steps")?,
            Item::Mark(Cause::Depth) => text.push_str("depth")?,
            Item::Res(term, left) => {
                write_term(alloc, &mut text, described, term)?;
                write!(text, "/{left}")?;
            }
        }
        text.push(' ')?;
    }
    Ok(text)
}

// A start strategy, a query, the steps, and the items.
struct Row(
    &'static [&'static str],
    &'static [&'static str],
    u32,
    &'static str,
);

// The items of a row, or a question mark where one of its words is none.
fn answered(
    alloc: Global,
    described: &Described,
    program: &Program,
    row: &Row,
) -> Result<String, NoMemory> {
    let Some(start) = strategy(alloc, described, row.0)? else {
        return unknown(alloc);
    };
    let Some(query) = pattern(alloc, described, row.1)? else {
        return unknown(alloc);
    };
    let items = plain_items(alloc, program, &start, &query, row.2.min(1000))?;
    written(alloc, described, items.as_slice())
}

pub fn unknown(alloc: Global) -> Result<String, NoMemory> {
    let mut text = String::new(alloc);
    text.push('?')?;
    Ok(text)
}

// The number of the first row with other items, or 1,000 where the program is not valid.
fn wrong_row(
    alloc: Global,
    described: &Described,
    rows: &[Row],
) -> Result<Option<usize>, NoMemory> {
    let Some(program) = program(alloc, described)? else {
        return Ok(Some(1000));
    };
    for (number, row) in rows.iter().enumerate() {
        if answered(alloc, described, &program, row)?.as_str() != row.3 {
            return Ok(Some(number));
        }
    }
    Ok(None)
}

const CHOICE_ROWS: &[Row] = &[
    Row(&["ab", "ac", "dk"], &["a"], 10, "b/9 c/9 "),
    Row(&["ab", "ab", "dk"], &["a"], 10, "b/9 b/9 "),
    Row(&["ab"], &["a"], 10, "b/9 "),
    Row(&["id"], &["a"], 10, "a/10 "),
    Row(&["fail"], &["a"], 10, ""),
    Row(&["ab", "ac", ";"], &["a"], 10, ""),
    Row(
        &["ab", "ac", "dk", "normalise"],
        &["a", "a", "g"],
        20,
        "g(b,b)/13 g(b,c)/13 g(c,b)/13 g(c,c)/13 ",
    ),
    Row(&["ab"], &["a"], 0, "steps "),
    Row(&["ab", "ab", "dk"], &["a"], 0, "steps steps "),
    Row(&["ab", "ac", "first"], &["b"], 10, ""),
];

#[test]
fn alternatives_answer_in_their_order(rt: HostRuntime) -> Result<(), Fail> {
    let alloc = rt.alloc();
    assert_eq!(rt; wrong_row(alloc, &CHOICE, CHOICE_ROWS)?, None);
    Ok(())
}

const STRATEGIES: &[Row] = &[
    Row(&["r1", "r2", "dk"], &["0"], 10, "1/9 1/9 "),
    Row(&["fail"], &["0"], 10, ""),
    Row(&["inc", "iterate*"], &["0"], 3, "0/2 1/0 steps "),
    Row(&["loop", "repeat*", "r1", "first"], &["0"], 1000, "steps "),
    Row(&["pairs"], &["0"], 5, "12/2 21/2 "),
    Row(&["pairs"], &["0"], 1000, "12/997 21/997 "),
    Row(&["dec", "repeat*"], &["3"], 1000, "0/993 "),
    Row(&["dec", "iterate*"], &["2"], 1000, "2/999 1/997 0/995 "),
    Row(
        &["r1", "slow", "dk", "r2", "first one"],
        &["0"],
        1000,
        "1/999 ",
    ),
];

#[test]
fn strategies_spend_their_steps(rt: HostRuntime) -> Result<(), Fail> {
    let alloc = rt.alloc();
    assert_eq!(rt; wrong_row(alloc, &NUMS, STRATEGIES)?, None);
    Ok(())
}

const OPERATIONS: &[Row] = &[
    Row(&["id"], &["1", "0", "/"], 3, "/(1,0)/3 "),
    Row(&["id"], &["1", "0", "mod"], 3, "mod(1,0)/3 "),
    Row(
        &["id"],
        &["9223372036854775807", "1", "+"],
        3,
        "+(9223372036854775807,1)/3 ",
    ),
    Row(
        &["id"],
        &["-9223372036854775807", "1", "-"],
        3,
        "-(-9223372036854775807,1)/3 ",
    ),
    Row(&["id"], &["0", "7", "-"], 3, "-7/3 "),
    Row(&["id"], &["-7", "2", "/"], 3, "-3/3 "),
    Row(&["id"], &["-7", "2", "mod"], 3, "-1/3 "),
    Row(
        &["id"],
        &["-9223372036854775807", "-1", "/"],
        3,
        "9223372036854775807/3 ",
    ),
    Row(&["id"], &["1", "1", ">"], 3, "false/3 "),
    Row(&["id"], &["2", "1", ">"], 3, "true/3 "),
];

#[test]
fn integers_are_exact_or_stay(rt: HostRuntime) -> Result<(), Fail> {
    let alloc = rt.alloc();
    assert_eq!(rt; wrong_row(alloc, &NUMS, OPERATIONS)?, None);
    Ok(())
}

const SETS_ROWS: &[Row] = &[
    Row(
        &["split"],
        &["a", "b", "U", "c", "U"],
        1,
        "p(a,U(b,c))/0 p(b,U(a,c))/0 p(c,U(a,b))/0 p(U(a,b),c)/0 p(U(a,c),b)/0 p(U(b,c),a)/0 ",
    ),
    Row(
        &["split"],
        &["a", "b", "U", "c", "U"],
        0,
        "steps steps steps steps steps steps ",
    ),
    Row(
        &["twin"],
        &["a", "a", "U", "b", "U", "b", "U"],
        5,
        "U(a,b)/4 ",
    ),
];

#[test]
fn a_union_is_matched_in_each_way(rt: HostRuntime) -> Result<(), Fail> {
    let alloc = rt.alloc();
    assert_eq!(rt; wrong_row(alloc, &SETS, SETS_ROWS)?, None);
    Ok(())
}

const IDEM_ROWS: &[Row] = &[Row(&["id"], &["b", "a", "U", "a", "U"], 5, "U(a,b)/4 ")];

#[test]
fn an_unlabelled_rule_reaches_into_a_union(rt: HostRuntime) -> Result<(), Fail> {
    let alloc = rt.alloc();
    assert_eq!(rt; wrong_row(alloc, &IDEM, IDEM_ROWS)?, None);
    Ok(())
}

const DEEP_ROWS: &[Row] = &[
    Row(&["id"], &["2", "deep"], 1000, "s(s(z))/997 "),
    Row(&["id"], &["2", "deep"], 2, "steps "),
];

#[test]
fn a_rule_calls_itself_as_long_as_there_are_steps(rt: HostRuntime) -> Result<(), Fail> {
    let alloc = rt.alloc();
    assert_eq!(rt; wrong_row(alloc, &DEEP, DEEP_ROWS)?, None);
    Ok(())
}

const TURNS_ROWS: &[Row] = &[
    Row(&["id"], &["c"], 10, "steps "),
    Row(&["ba"], &["b"], 1, ""),
    Row(&["ba"], &["b"], 0, "steps "),
];

#[test]
fn a_match_costs_its_step_before_its_conditions(rt: HostRuntime) -> Result<(), Fail> {
    let alloc = rt.alloc();
    assert_eq!(rt; wrong_row(alloc, &TURNS, TURNS_ROWS)?, None);
    Ok(())
}

const CALLS_ROWS: &[Row] = &[
    Row(&["slow"], &["0"], 4, "0/2 0/0 steps "),
    Row(&["slow"], &["0"], 0, "steps "),
    Row(&["inc", "twice"], &["0"], 10, "2/7 "),
    Row(&["inc", "twice", "twice"], &["0"], 20, "4/13 "),
    Row(&["inc", "dec", "dk", "twice"], &["1"], 10, "3/7 1/7 1/7 "),
    Row(&["inc", "twice"], &["0"], 2, "steps "),
    Row(&["id", "grow"], &["0"], 1000, "steps "),
    Row(&["dec", "inc", "swap"], &["0"], 10, "0/7 "),
    Row(&["inc", "dec", "swap"], &["0"], 10, ""),
    Row(&["inc", "nest"], &["0"], 10, "3/4 "),
];

#[test]
fn a_call_reads_its_parameters_where_it_stands(rt: HostRuntime) -> Result<(), Fail> {
    let alloc = rt.alloc();
    assert_eq!(rt; wrong_row(alloc, &NUMS, CALLS_ROWS)?, None);
    Ok(())
}

const ROUNDS_ROWS: &[Row] = &[
    Row(&["dec", "iterate+"], &["2"], 1000, "1/997 0/995 "),
    Row(&["inc", "iterate+"], &["0"], 3, "1/0 steps "),
    Row(&["fail", "iterate+"], &["0"], 3, ""),
    Row(&["inc", "iterate+"], &["0"], 0, "steps "),
];

#[test]
fn iterate_plus_leaves_its_start_out(rt: HostRuntime) -> Result<(), Fail> {
    let alloc = rt.alloc();
    assert_eq!(rt; wrong_row(alloc, &NUMS, ROUNDS_ROWS)?, None);
    Ok(())
}

const CONGRUENCE_ROWS: &[Row] = &[
    Row(
        &["ab", "ab", "ac", "dk", "g"],
        &["a", "a", "g"],
        10,
        "g(b,b)/8 g(b,c)/8 ",
    ),
    Row(
        &["ab", "ac", "dk", "ab", "g"],
        &["a", "a", "g"],
        10,
        "g(b,b)/8 g(c,b)/8 ",
    ),
    Row(&["ab", "ab", "g"], &["a"], 10, ""),
    Row(&["ab", "fail", "g"], &["a", "a", "g"], 10, ""),
    Row(&["ab", "ab", "g"], &["a", "a", "g"], 1, "steps "),
    Row(
        &["ab", "id", "dk", "id", "g"],
        &["a", "a", "g"],
        0,
        "steps g(a,a)/0 ",
    ),
];

#[test]
fn a_congruence_takes_the_arguments_from_left_to_right(rt: HostRuntime) -> Result<(), Fail> {
    let alloc = rt.alloc();
    assert_eq!(rt; wrong_row(alloc, &CHOICE, CONGRUENCE_ROWS)?, None);
    Ok(())
}

const MARKS_ROWS: &[Row] = &[
    Row(&["climb"], &["0"], 2, "0/0 steps "),
    Row(&["climb"], &["0"], 3, "0/1 steps "),
    Row(&["climb"], &["0"], 4, "0/2 1/0 steps "),
];

#[test]
fn a_mark_in_a_condition_stands_among_the_results(rt: HostRuntime) -> Result<(), Fail> {
    let alloc = rt.alloc();
    assert_eq!(rt; wrong_row(alloc, &NUMS, MARKS_ROWS)?, None);
    Ok(())
}

const PLACES_ROWS: &[Row] = &[
    Row(&["ab", "normalise"], &["a", "a", "g"], 1, "steps "),
    Row(&["ab", "normalise"], &["a", "a", "g"], 4, "steps "),
    Row(&["ab", "normalise"], &["a", "a", "g"], 7, "g(b,b)/0 "),
    Row(&["ab", "normalise"], &["a", "a", "g"], 6, "steps "),
];

#[test]
fn normalise_meets_its_marks_on_the_way(rt: HostRuntime) -> Result<(), Fail> {
    let alloc = rt.alloc();
    assert_eq!(rt; wrong_row(alloc, &CHOICE, PLACES_ROWS)?, None);
    Ok(())
}

const LINKED_ROWS: &[Row] = &[
    Row(&["id"], &["b", "a", "U", "a", "U"], 5, "U(a,b)/4 "),
    Row(&["id"], &["b", "c", "U", "c", "U"], 5, "U(a,b)/3 "),
];

#[test]
fn an_extension_keeps_its_conditions(rt: HostRuntime) -> Result<(), Fail> {
    let alloc = rt.alloc();
    assert_eq!(rt; wrong_row(alloc, &LINKED, LINKED_ROWS)?, None);
    Ok(())
}

const VALUES_ROWS: &[Row] = &[
    Row(&["id"], &["1", "2", "+"], 5, "4/4 "),
    Row(&["id"], &["3"], 5, "4/4 "),
    Row(&["id"], &["2", "2", "+"], 5, "4/5 "),
    Row(&["id"], &["3"], 0, "steps "),
];

#[test]
fn rules_are_tried_on_integers_and_on_values(rt: HostRuntime) -> Result<(), Fail> {
    let alloc = rt.alloc();
    assert_eq!(rt; wrong_row(alloc, &VALUES, VALUES_ROWS)?, None);
    Ok(())
}

const TRUTHS_ROWS: &[Row] = &[
    Row(&["id"], &["true", "false", "and"], 2, "false/2 "),
    Row(&["id"], &["true", "true", "and"], 2, "true/2 "),
    Row(&["id"], &["false", "true", "or"], 2, "true/2 "),
    Row(&["id"], &["false", "false", "or"], 2, "false/2 "),
    Row(&["id"], &["false", "not"], 2, "true/2 "),
    Row(
        &["id"],
        &["unknown", "true", "or"],
        2,
        "or(unknown,true)/2 ",
    ),
    Row(&["id"], &["unknown", "not"], 2, "not(unknown)/2 "),
    Row(&["id"], &["a", "a", "=="], 2, "true/2 "),
    Row(&["id"], &["a", "b", "=="], 2, "false/2 "),
    Row(&["id"], &["a", "b", "!="], 2, "true/2 "),
    Row(&["id"], &["a", "b", "U", "b", "a", "U", "=="], 2, "true/2 "),
];

#[test]
fn truth_values_are_worked_out(rt: HostRuntime) -> Result<(), Fail> {
    let alloc = rt.alloc();
    assert_eq!(rt; wrong_row(alloc, &TRUTHS, TRUTHS_ROWS)?, None);
    Ok(())
}

const NO_ROWS: &[Row] = &[
    Row(&["r1 r2"], &["0"], 5, "?"),
    Row(&["r1", "r2"], &["0"], 5, "?"),
    Row(&["r1", "dk"], &["0"], 5, "?"),
    Row(&["id"], &["0", "plus"], 5, "?"),
];

#[test]
fn a_word_that_is_none_is_no_row(rt: HostRuntime) -> Result<(), Fail> {
    let alloc = rt.alloc();
    assert_eq!(rt; wrong_row(alloc, &NUMS, NO_ROWS)?, None);
    Ok(())
}

// s(s(..s(z))), with so many s.
fn tower(alloc: Global, height: u32) -> Result<Pattern, NoMemory> {
    let mut term = Pattern {
        node: PatternNode::App(OpId(4), Items::new(alloc)),
    };
    for _ in 0..height {
        let mut args = Items::new(alloc);
        args.push(term)?;
        term = Pattern {
            node: PatternNode::App(OpId(5), args),
        };
    }
    Ok(term)
}

// deep(n)
fn deep(alloc: Global, number: i64) -> Result<Pattern, NoMemory> {
    let mut args = Items::new(alloc);
    args.push(Pattern {
        node: PatternNode::Int(number),
    })?;
    Ok(Pattern {
        node: PatternNode::App(OpId(6), args),
    })
}

// The one item of a query, where there is one.
fn only_item(alloc: Global, query: &Pattern, steps: u32) -> Result<Option<Item>, NoMemory> {
    let Some(program) = program(alloc, &DEEP)? else {
        return Ok(None);
    };
    let start = Strategy {
        node: StrategyNode::Id,
    };
    let mut items = plain_items(alloc, &program, &start, query, steps.min(1000))?;
    let last = items.pop();
    if items.is_empty() { Ok(last) } else { Ok(None) }
}

#[test]
fn a_term_of_depth_two_thousand_is_the_deepest(rt: HostRuntime) -> Result<(), Fail> {
    let alloc = rt.alloc();
    let most = only_item(alloc, &tower(alloc, 1999)?, 1)?;
    assert!(rt; matches!(most, Some(Item::Res(_, 1))));
    let past = only_item(alloc, &tower(alloc, 2000)?, 1)?;
    assert!(rt; matches!(past, Some(Item::Mark(Cause::Depth))));
    Ok(())
}

#[test]
fn a_call_of_itself_costs_a_step_each_time(rt: HostRuntime) -> Result<(), Fail> {
    let alloc = rt.alloc();
    let enough = only_item(alloc, &deep(alloc, 499)?, 500)?;
    assert!(rt; matches!(enough, Some(Item::Res(_, 0))));
    let short = only_item(alloc, &deep(alloc, 500)?, 500)?;
    assert!(rt; matches!(short, Some(Item::Mark(Cause::Steps))));
    Ok(())
}
