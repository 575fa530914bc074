//! Programs as tables of words. A pattern is written with each operator behind its arguments, and a strategy with each
//! combination behind its parts. A word that nothing is named by is no pattern and no strategy.

use elan_program::{
    Assoc, Builtin, Clause, Named, Operator, Parts, Piece, Program, Rule, Signature, Strategy,
    StrategyNode, Truth,
};
use elan_terms::{OpId, Pattern, PatternNode, SortId};
use elan_text::{Name, NoMemory};
use sqlite_items::{Boxed, Items};
use std::alloc::Global;

/// The sort of integers, which is the first in each program.
pub const INT: SortId = SortId(0);

/// The sort of truth values, which is the second.
pub const BOOL: SortId = SortId(1);

/// The sort of other terms.
pub const OTHER: SortId = SortId(2);

/// What an operator is.
#[derive(Clone, Copy, PartialEq, Eq)]
pub enum Kind {
    Plain,
    /// Associative and commutative.
    Union,
    Builtin(Builtin),
}

/// An operator: its name, which stands before its arguments in the spelling, its argument sorts, its sort, and its kind.
#[derive(Clone, Copy)]
pub struct Op(
    pub &'static str,
    pub &'static [SortId],
    pub SortId,
    pub Kind,
);

/// A condition: the words of its pattern; or of its left side, its strategy and the term that it starts from.
#[derive(Clone, Copy)]
pub enum Condition {
    If(&'static [&'static str]),
    Where(&'static [&'static str], &'static [&'static str], &'static [&'static str]),
}

/// A rule: its label, which has no bytes where there is none, its two sides, and its conditions.
#[derive(Clone, Copy)]
pub struct Line(
    pub &'static str,
    pub &'static [&'static str],
    pub &'static [&'static str],
    pub &'static [Condition],
);

/// A named strategy: its name, the names of its parameters, and its body.
#[derive(Clone, Copy)]
pub struct Definition {
    pub name: &'static str,
    pub parameters: &'static [&'static str],
    pub body: &'static [&'static str],
}

/// A program: its operators, its variables with their sorts, its rules, which are all for one sort, and the named
/// strategies for that sort.
#[derive(Clone, Copy)]
pub struct Described {
    pub operators: &'static [Op],
    pub variables: &'static [(&'static str, SortId)],
    pub sort: SortId,
    pub rules: &'static [Line],
    pub named: &'static [Definition],
}

fn name(alloc: Global, text: &str) -> Result<Name, NoMemory> {
    Name::new(alloc, text.as_bytes())
}

fn operator(alloc: Global, op: &Op) -> Result<Operator, NoMemory> {
    let mut pieces = Items::new(alloc);
    pieces.push(Piece::Word(name(alloc, op.0)?))?;
    for _ in op.1 {
        pieces.push(Piece::Hole)?;
    }
    Ok(Operator {
        pieces,
        args: Items::from_slice(alloc, op.1)?,
        sort: op.2,
        pri: 0,
        assoc: Assoc::No,
        ac: op.3 == Kind::Union,
        builtin: match op.3 {
            Kind::Builtin(builtin) => Some(builtin),
            _ => None,
        },
    })
}

/// The number of the operator with a built-in operation.
fn number_of(operators: &[Op], builtin: Builtin) -> u32 {
    let found = operators
        .iter()
        .position(|op| op.3 == Kind::Builtin(builtin));
    match found {
        Some(number) => u32::try_from(number).unwrap_or(0),
        None => 0,
    }
}

fn signature(alloc: Global, described: &Described) -> Result<Signature, NoMemory> {
    let mut sorts = Items::new(alloc);
    for word in ["int", "bool", "s"] {
        sorts.push(name(alloc, word)?)?;
    }
    let mut operators = Items::new(alloc);
    for op in described.operators {
        operators.push(operator(alloc, op)?)?;
    }
    let has_truth = described
        .operators
        .iter()
        .any(|op| op.3 == Kind::Builtin(Builtin::Yes));
    let truth = Truth {
        sort: BOOL,
        yes: OpId(number_of(described.operators, Builtin::Yes)),
        no: OpId(number_of(described.operators, Builtin::No)),
    };
    Ok(Signature {
        sorts,
        operators,
        int: Some(INT),
        truth: if has_truth { Some(truth) } else { None },
    })
}

/// The decimal digits of a word, with `-` before them where it is negative.
fn integer(word: &str) -> Option<i64> {
    word.parse::<i64>().ok()
}

fn int_pattern(value: i64) -> Pattern {
    Pattern {
        node: PatternNode::Int(value),
    }
}

/// Takes so many from the end of what was read, in order; nothing where there are fewer.
fn taken<T: Drop>(
    alloc: Global,
    read: &mut Items<T>,
    count: usize,
) -> Result<Option<Items<T>>, NoMemory> {
    let mut reversed = Items::new(alloc);
    for _ in 0..count {
        match read.pop() {
            None => return Ok(None),
            Some(last) => reversed.push(last)?,
        }
    }
    let mut parts = Items::new(alloc);
    for _ in 0..count {
        match reversed.pop() {
            None => return Ok(None),
            Some(next) => parts.push(next)?,
        }
    }
    Ok(Some(parts))
}

/// The only one that was read; nothing where there are none or more.
fn only<T: Drop>(mut read: Items<T>) -> Option<T> {
    let last = read.pop();
    if read.is_empty() { last } else { None }
}

/// The pattern that one word adds to what was read.
fn pattern_of(
    alloc: Global,
    described: &Described,
    read: &mut Items<Pattern>,
    word: &str,
) -> Result<Option<Pattern>, NoMemory> {
    if let Some(value) = integer(word) {
        return Ok(Some(int_pattern(value)));
    }
    for (number, (name, sort)) in described.variables.iter().enumerate() {
        if *name == word {
            let number = u32::try_from(number).unwrap_or(0);
            return Ok(Some(Pattern {
                node: PatternNode::Var(number, *sort),
            }));
        }
    }
    for (number, op) in described.operators.iter().enumerate() {
        if op.0 == word {
            let number = u32::try_from(number).unwrap_or(0);
            let Some(args) = taken(alloc, read, op.1.len())? else {
                return Ok(None);
            };
            return Ok(Some(Pattern {
                node: PatternNode::App(OpId(number), args),
            }));
        }
    }
    Ok(None)
}

/// The pattern of words.
pub fn pattern(
    alloc: Global,
    described: &Described,
    words: &[&str],
) -> Result<Option<Pattern>, NoMemory> {
    let mut read = Items::new(alloc);
    for word in words {
        let Some(next) = pattern_of(alloc, described, &mut read, word)? else {
            return Ok(None);
        };
        read.push(next)?;
    }
    Ok(only(read))
}

/// The numbers of the rules with a label.
fn labelled(alloc: Global, described: &Described, word: &str) -> Result<Items<u32>, NoMemory> {
    let mut numbers = Items::new(alloc);
    for (number, line) in described.rules.iter().enumerate() {
        if line.0 == word {
            numbers.push(u32::try_from(number).unwrap_or(0))?;
        }
    }
    Ok(numbers)
}

/// The strategy that combines the last two.
fn combined(
    alloc: Global,
    read: &mut Items<Strategy>,
    word: &str,
) -> Result<Option<StrategyNode>, NoMemory> {
    let Some(arms) = taken(alloc, read, 2)? else {
        return Ok(None);
    };
    let node = if word == ";" {
        StrategyNode::Seq(arms)
    } else if word == "dk" {
        StrategyNode::All(arms)
    } else {
        StrategyNode::First {
            one: word == "first one",
            arms,
        }
    };
    Ok(Some(node))
}

/// The strategy that repeats the last one.
fn repeated(
    alloc: Global,
    described: &Described,
    read: &mut Items<Strategy>,
    word: &str,
) -> Result<Option<StrategyNode>, NoMemory> {
    let Some(inner) = read.pop() else {
        return Ok(None);
    };
    let inner = Boxed::new(alloc, inner)?;
    let node = if word == "repeat*" {
        StrategyNode::Repeat(inner)
    } else if word == "iterate*" {
        StrategyNode::Iterate(inner)
    } else if word == "iterate+" {
        StrategyNode::IteratePlus(inner)
    } else {
        StrategyNode::Normalise(described.sort, inner)
    };
    Ok(Some(node))
}

/// The congruence of the operator with this name, over the strategies that were read last.
fn congruence(
    alloc: Global,
    described: &Described,
    read: &mut Items<Strategy>,
    word: &str,
) -> Result<Option<StrategyNode>, NoMemory> {
    for (number, op) in described.operators.iter().enumerate() {
        if op.0 == word && !op.1.is_empty() {
            let number = OpId(u32::try_from(number).unwrap_or(0));
            return match taken(alloc, read, op.1.len())? {
                None => Ok(None),
                Some(arms) => Ok(Some(StrategyNode::Cong(number, arms))),
            };
        }
    }
    Ok(None)
}

/// The strategy of a name: a parameter, a named strategy over those that were read last, a label, or a congruence.
fn called(
    alloc: Global,
    described: &Described,
    parameters: &[&str],
    read: &mut Items<Strategy>,
    word: &str,
) -> Result<Option<StrategyNode>, NoMemory> {
    if let Some(number) = parameters.iter().position(|there| *there == word) {
        return Ok(Some(StrategyNode::Param(u32::try_from(number).unwrap_or(0))));
    }
    for (number, definition) in described.named.iter().enumerate() {
        if definition.name == word {
            let number = u32::try_from(number).unwrap_or(0);
            return match taken(alloc, read, definition.parameters.len())? {
                None => Ok(None),
                Some(actuals) => Ok(Some(StrategyNode::Call(number, actuals))),
            };
        }
    }
    let numbers = labelled(alloc, described, word)?;
    if numbers.is_empty() {
        return congruence(alloc, described, read, word);
    }
    Ok(Some(StrategyNode::Label(numbers)))
}

fn is_among(words: &[&str], word: &str) -> bool {
    words.iter().any(|there| *there == word)
}

/// The strategy that one word adds to what was read.
fn step(
    alloc: Global,
    described: &Described,
    parameters: &[&str],
    read: &mut Items<Strategy>,
    word: &str,
) -> Result<Option<StrategyNode>, NoMemory> {
    if word == "id" {
        Ok(Some(StrategyNode::Id))
    } else if word == "fail" {
        Ok(Some(StrategyNode::Fail))
    } else if is_among(&[";", "dk", "first", "first one"], word) {
        combined(alloc, read, word)
    } else if is_among(&["repeat*", "iterate*", "iterate+", "normalise"], word) {
        repeated(alloc, described, read, word)
    } else {
        called(alloc, described, parameters, read, word)
    }
}

/// The strategy of words in a body with these parameters.
fn body(
    alloc: Global,
    described: &Described,
    parameters: &[&str],
    words: &[&str],
) -> Result<Option<Strategy>, NoMemory> {
    let mut read = Items::new(alloc);
    for word in words {
        let Some(node) = step(alloc, described, parameters, &mut read, word)? else {
            return Ok(None);
        };
        read.push(Strategy { node })?;
    }
    Ok(only(read))
}

/// The strategy of words.
pub fn strategy(
    alloc: Global,
    described: &Described,
    words: &[&str],
) -> Result<Option<Strategy>, NoMemory> {
    body(alloc, described, &[], words)
}

fn where_clause(
    alloc: Global,
    described: &Described,
    left: &[&str],
    by: &[&str],
    of: &[&str],
) -> Result<Option<Clause>, NoMemory> {
    let Some(left) = pattern(alloc, described, left)? else {
        return Ok(None);
    };
    let Some(by) = strategy(alloc, described, by)? else {
        return Ok(None);
    };
    let Some(of) = pattern(alloc, described, of)? else {
        return Ok(None);
    };
    Ok(Some(Clause::Where { left, by, of }))
}

fn clause(
    alloc: Global,
    described: &Described,
    condition: &Condition,
) -> Result<Option<Clause>, NoMemory> {
    match condition {
        Condition::If(test) => match pattern(alloc, described, test)? {
            None => Ok(None),
            Some(test) => Ok(Some(Clause::If(test))),
        },
        Condition::Where(left, by, of) => where_clause(alloc, described, left, by, of),
    }
}

fn clauses(
    alloc: Global,
    described: &Described,
    conditions: &[Condition],
) -> Result<Option<Items<Clause>>, NoMemory> {
    let mut clauses = Items::new(alloc);
    for condition in conditions {
        let Some(next) = clause(alloc, described, condition)? else {
            return Ok(None);
        };
        clauses.push(next)?;
    }
    Ok(Some(clauses))
}

fn label(alloc: Global, text: &str) -> Result<Option<Name>, NoMemory> {
    if text.is_empty() {
        return Ok(None);
    }
    Ok(Some(name(alloc, text)?))
}

fn rule(alloc: Global, described: &Described, line: &Line) -> Result<Option<Rule>, NoMemory> {
    let Some(clauses) = clauses(alloc, described, line.3)? else {
        return Ok(None);
    };
    let Some(left) = pattern(alloc, described, line.1)? else {
        return Ok(None);
    };
    let Some(right) = pattern(alloc, described, line.2)? else {
        return Ok(None);
    };
    Ok(Some(Rule {
        label: label(alloc, line.0)?,
        sort: described.sort,
        left,
        right,
        clauses,
    }))
}

fn named_strategy(
    alloc: Global,
    described: &Described,
    definition: &Definition,
) -> Result<Option<Named>, NoMemory> {
    let parameters = definition.parameters;
    match body(alloc, described, parameters, definition.body)? {
        None => Ok(None),
        Some(body) => Ok(Some(Named {
            name: name(alloc, definition.name)?,
            sort: described.sort,
            parameters: u32::try_from(parameters.len()).unwrap_or(0),
            body,
        })),
    }
}

/// The parts of a program that is described.
fn parts(alloc: Global, described: &Described) -> Result<Option<Parts>, NoMemory> {
    let mut rules = Items::new(alloc);
    for line in described.rules {
        let Some(next) = rule(alloc, described, line)? else {
            return Ok(None);
        };
        rules.push(next)?;
    }
    let mut named = Items::new(alloc);
    for there in described.named {
        let Some(next) = named_strategy(alloc, described, there)? else {
            return Ok(None);
        };
        named.push(next)?;
    }
    Ok(Some(Parts {
        signature: signature(alloc, described)?,
        rules,
        named,
    }))
}

/// The program that is described, if each of its words is known and it is valid.
pub fn program(alloc: Global, described: &Described) -> Result<Option<Program>, NoMemory> {
    let Some(parts) = parts(alloc, described)? else {
        return Ok(None);
    };
    if parts.is_valid(alloc)? {
        let program = Program::new(alloc, parts.signature, parts.rules, parts.named)?;
        Ok(Some(program))
    } else {
        Ok(None)
    }
}
