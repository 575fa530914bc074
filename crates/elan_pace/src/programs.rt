//! The programs that are measured, with their queries.

use elan_program::{
    Assoc, Builtin, Clause, Named, Operator, Parts, Piece, Rule, Signature, Strategy, StrategyNode,
    Truth,
};
use elan_terms::{NoMemory, OpId, Pattern, PatternNode, SortId};
use elan_text::Name;
use sqlite_items::Items;
use std::alloc::Global;

/// The steps of each run.
pub const STEPS: u32 = 1000;

/// What is measured.
#[derive(Clone, Copy)]
pub enum Plan {
    /// The length of a list of 200 elements.
    List,
    /// `x U x => x` on ten different constants.
    Twins,
    /// `k U n(x) U n(y) => k U n(x + y)` on six numbers.
    Sum,
    /// A rule that calls itself 600 times, behind 200 other rules.
    Rules,
    /// `grow(id)`, a named strategy that calls itself with ever more.
    Grow,
}

const INT: SortId = SortId(0);

const BOOL: SortId = SortId(1);

const OTHER: SortId = SortId(2);

const YES: OpId = OpId(0);

const NO: OpId = OpId(1);

const ADD: OpId = OpId(2);

const SUB: OpId = OpId(3);

const GREATER: OpId = OpId(4);

const UNION: OpId = OpId(5);

const NIL: OpId = OpId(6);

const CONS: OpId = OpId(7);

const LENGTH: OpId = OpId(8);

const DOWN: OpId = OpId(9);

const OTHERS: OpId = OpId(10);
/// The first of ten constants.
const FIRST: u32 = 11;

/// An operator: its name, which stands before its arguments in the spelling, its argument sorts, its
/// sort, and its built-in operation, if it has one.
struct Row(&'static str, &'static [SortId], SortId, Option<Builtin>);

const OPERATORS: [Row; 21] = [
    Row("true", &[], BOOL, Some(Builtin::Yes)),
    Row("false", &[], BOOL, Some(Builtin::No)),
    Row("+", &[INT, INT], INT, Some(Builtin::Add)),
    Row("-", &[INT, INT], INT, Some(Builtin::Sub)),
    Row(">", &[INT, INT], BOOL, Some(Builtin::Greater)),
    Row("U", &[OTHER, OTHER], OTHER, None),
    Row("nil", &[], OTHER, None),
    Row("cons", &[INT, OTHER], OTHER, None),
    Row("length", &[OTHER], INT, None),
    Row("down", &[INT], INT, None),
    Row("n", &[INT], OTHER, None),
    Row("a", &[], OTHER, None),
    Row("b", &[], OTHER, None),
    Row("c", &[], OTHER, None),
    Row("d", &[], OTHER, None),
    Row("e", &[], OTHER, None),
    Row("f", &[], OTHER, None),
    Row("g", &[], OTHER, None),
    Row("h", &[], OTHER, None),
    Row("i", &[], OTHER, None),
    Row("j", &[], OTHER, None),
];

fn pieces(alloc: Global, name: &str, holes: usize) -> Result<Items<Piece>, NoMemory> {
    let mut pieces = Items::new(alloc);
    pieces.push(Piece::Word(Name::new(alloc, name.as_bytes())?))?;
    for _ in 0..holes {
        pieces.push(Piece::Hole)?;
    }
    Ok(pieces)
}

/// The operator of a row. `U` is associative and commutative.
fn operator(alloc: Global, row: &Row) -> Result<Operator, NoMemory> {
    Ok(Operator {
        pieces: pieces(alloc, row.0, row.1.len())?,
        args: Items::from_slice(alloc, row.1)?,
        sort: row.2,
        pri: 0,
        assoc: Assoc::No,
        ac: row.0 == "U",
        builtin: row.3,
    })
}

fn operators(alloc: Global) -> Result<Items<Operator>, NoMemory> {
    let mut all = Items::new(alloc);
    for row in &OPERATORS {
        all.push(operator(alloc, row)?)?;
    }
    Ok(all)
}

fn signature(alloc: Global) -> Result<Signature, NoMemory> {
    let mut sorts = Items::new(alloc);
    for word in ["int", "bool", "s"] {
        sorts.push(Name::new(alloc, word.as_bytes())?)?;
    }
    Ok(Signature {
        sorts,
        operators: operators(alloc)?,
        int: Some(INT),
        truth: Some(Truth {
            sort: BOOL,
            yes: YES,
            no: NO,
        }),
    })
}

fn var(number: u32, sort: SortId) -> Pattern {
    Pattern {
        node: PatternNode::Var(number, sort),
    }
}

fn int(value: i64) -> Pattern {
    Pattern {
        node: PatternNode::Int(value),
    }
}

fn constant(alloc: Global, op: OpId) -> Pattern {
    Pattern {
        node: PatternNode::App(op, Items::new(alloc)),
    }
}

fn over(alloc: Global, op: OpId, arg: Pattern) -> Result<Pattern, NoMemory> {
    let mut args = Items::new(alloc);
    args.push(arg)?;
    Ok(Pattern {
        node: PatternNode::App(op, args),
    })
}

fn pair(alloc: Global, op: OpId, first: Pattern, second: Pattern) -> Result<Pattern, NoMemory> {
    let mut args = Items::new(alloc);
    args.push(first)?;
    args.push(second)?;
    Ok(Pattern {
        node: PatternNode::App(op, args),
    })
}

fn rule(alloc: Global, sort: SortId, left: Pattern, right: Pattern) -> Rule {
    Rule {
        label: None,
        sort,
        left,
        right,
        clauses: Items::new(alloc),
    }
}

/// `length(nil) => 0` and `length(cons(x, l)) => length(l) + 1`.
fn length_rules(alloc: Global, rules: &mut Items<Rule>) -> Result<(), NoMemory> {
    let none = over(alloc, LENGTH, constant(alloc, NIL))?;
    rules.push(rule(alloc, INT, none, int(0)))?;
    let list = pair(alloc, CONS, var(0, INT), var(1, OTHER))?;
    let shorter = over(alloc, LENGTH, var(1, OTHER))?;
    let right = pair(alloc, ADD, shorter, int(1))?;
    rules.push(rule(alloc, INT, over(alloc, LENGTH, list)?, right))
}

/// `x U x => x`.
fn twin_rules(alloc: Global, rules: &mut Items<Rule>) -> Result<(), NoMemory> {
    let left = pair(alloc, UNION, var(0, OTHER), var(0, OTHER))?;
    rules.push(rule(alloc, OTHER, left, var(0, OTHER)))
}

/// `a U n(x) U n(y) => a U n(x + y)`.
fn sum_rules(alloc: Global, rules: &mut Items<Rule>) -> Result<(), NoMemory> {
    let mark = constant(alloc, OpId(FIRST));
    let first = pair(alloc, UNION, mark, over(alloc, OTHERS, var(0, INT))?)?;
    let left = pair(alloc, UNION, first, over(alloc, OTHERS, var(1, INT))?)?;
    let sum = over(alloc, OTHERS, pair(alloc, ADD, var(0, INT), var(1, INT))?)?;
    let right = pair(alloc, UNION, constant(alloc, OpId(FIRST)), sum)?;
    rules.push(rule(alloc, OTHER, left, right))
}

/// Two hundred rules for lengths that never apply; then `down(0) => 0`, and `down(x) => down(x - 1) + 1` if x > 0.
fn down_rules(alloc: Global, rules: &mut Items<Rule>) -> Result<(), NoMemory> {
    for value in 0..200i64 {
        let list = pair(alloc, CONS, int(value), constant(alloc, NIL))?;
        rules.push(rule(alloc, INT, over(alloc, LENGTH, list)?, int(1)))?;
    }
    rules.push(rule(alloc, INT, over(alloc, DOWN, int(0))?, int(0)))?;
    let less = over(alloc, DOWN, pair(alloc, SUB, var(0, INT), int(1))?)?;
    let mut last = rule(
        alloc,
        INT,
        over(alloc, DOWN, var(0, INT))?,
        pair(alloc, ADD, less, int(1))?,
    );
    last.clauses
        .push(Clause::If(pair(alloc, GREATER, var(0, INT), int(0))?))?;
    rules.push(last)
}

/// `grow(X) => grow(dk(X, X))`.
fn grow(alloc: Global, named: &mut Items<Named>) -> Result<(), NoMemory> {
    let mut both = Items::new(alloc);
    for _ in 0..2 {
        both.push(Strategy {
            node: StrategyNode::Param(0),
        })?;
    }
    let more = Strategy {
        node: StrategyNode::All(both),
    };
    let mut actuals = Items::new(alloc);
    actuals.push(more)?;
    named.push(Named {
        name: Name::new(alloc, "grow".as_bytes())?,
        sort: INT,
        parameters: 1,
        body: Strategy {
            node: StrategyNode::Call(0, actuals),
        },
    })
}

/// The program of a plan.
pub fn parts(alloc: Global, plan: Plan) -> Result<Parts, NoMemory> {
    let mut rules = Items::new(alloc);
    let mut named = Items::new(alloc);
    match plan {
        Plan::List => length_rules(alloc, &mut rules)?,
        Plan::Twins => twin_rules(alloc, &mut rules)?,
        Plan::Sum => sum_rules(alloc, &mut rules)?,
        Plan::Rules => down_rules(alloc, &mut rules)?,
        Plan::Grow => grow(alloc, &mut named)?,
    }
    Ok(Parts {
        signature: signature(alloc)?,
        rules,
        named,
    })
}

/// The start strategy of a plan.
pub fn start(alloc: Global, plan: Plan) -> Result<Strategy, NoMemory> {
    let id = Strategy {
        node: StrategyNode::Id,
    };
    match plan {
        Plan::Grow => {
            let mut actuals = Items::new(alloc);
            actuals.push(id)?;
            Ok(Strategy {
                node: StrategyNode::Call(0, actuals),
            })
        }
        _ => Ok(id),
    }
}

fn list(alloc: Global) -> Result<Pattern, NoMemory> {
    let mut list = constant(alloc, NIL);
    for value in 0..200i64 {
        list = pair(alloc, CONS, int(value), list)?;
    }
    over(alloc, LENGTH, list)
}

fn constants(alloc: Global) -> Result<Pattern, NoMemory> {
    let mut all = constant(alloc, OpId(FIRST));
    for number in 1..10u32 {
        all = pair(alloc, UNION, all, constant(alloc, OpId(FIRST + number)))?;
    }
    Ok(all)
}

fn summands(alloc: Global) -> Result<Pattern, NoMemory> {
    let mut all = constant(alloc, OpId(FIRST));
    for value in 1..7i64 {
        all = pair(alloc, UNION, all, over(alloc, OTHERS, int(value))?)?;
    }
    Ok(all)
}

/// The query of a plan.
pub fn query(alloc: Global, plan: Plan) -> Result<Pattern, NoMemory> {
    match plan {
        Plan::List => list(alloc),
        Plan::Twins => constants(alloc),
        Plan::Sum => summands(alloc),
        Plan::Rules => over(alloc, DOWN, int(600)),
        Plan::Grow => Ok(int(0)),
    }
}
