//! Where a variable of a pattern may have its next value, if the pattern is to be the term.
ghost use Rattle.std.specs.Prelude.{◌≡◌, ◌↔◌, [], ◌∷◌, false, is_some, IsTrue, IsFalse, IfOk};
ghost use Rattle.std.specs.List.{list_all, list_any};
ghost use Rattle.elan_terms.specs.Trees.{int_term};
ghost use Rattle.elan_terms.specs.Term.{is_ac as spec_ac};
ghost use Rattle.elan_terms.specs.Ascending.{Ascends};
ghost use Rattle.elan_table.specs.Rows.{terms};
ghost use Rattle.elan_arms.specs.Arms.{is_variable, heads};
ghost use Rattle.elan_look.specs.Lows.{any_if as spec_any_if};
ghost use Rattle.elan_look.specs.Sights.{value_at, is_given as spec_given, seeks_at, seeks};
ghost use Rattle.elan_look.specs.Tells.{Tells, SaysIf, Has, Makes, MakeEach, MakeNode};
ghost use Rattle.elan_look.specs.Nodes.{settled_of, loose_of, settled, loose, seeks_inside, AreShallow, TakesAway, FindsIn, Serve, AreThere, IsAmong};

use crate::NoMemory;
use crate::count::{Counts, count_all};
use crate::low::Low;
use crate::share::look_own;
use crate::sight::Sight;
use crate::take::{copy_rows, take_arms, take_one};
use elan_table::{Name, Table, TermRef, Top};
use elan_terms::{OpId, Pattern, PatternNode, is_ac};
use sqlite_items::Items;
use std::alloc::Global;
use std::sync::Wait;

fn any_if<N: Name>(holds: bool) -> Low<N>
    ensures { result ≡ spec_any_if holds }
{
    if holds { Low::Any } else { Low::Empty }
}

/// Whether the term is this integer.
#[tactic(auto, using(crate::proofs::TellLemmas::integers))]
fn is_integer<N: Name>(table: &Table<N>, term: &TermRef<N>, z: &i64) -> bool
    ensures { IsTrue result ↔ (term.now.value ≡ int_term z.now) }
{
    match table.top(term) {
        Top::Int(y) => y == *z,
        Top::App(_, _) => false,
    }
}

/// What it tells of the sought variable that this is the value of the variable of that number.
fn at_variable<N: Name>(
    table: &Table<N>,
    sight: &Sight<N>,
    number: u32,
    term: &TermRef<N>,
) -> Low<N>
    ensures tells { Tells N.shapes sight.now (is_some (value_at sight.now number))
        (Has number term.now.value) result }
    ensures says { SaysIf (seeks_at sight.now number) result }
{
    match sight.value(number) {
        Some(value) => any_if(table.equal(&value, term)),
        None => {
            if sight.is_sought(number) {
                if sight.takes(table, term) {
                    Low::At(term.again())
                } else {
                    Low::Empty
                }
            } else {
                Low::Any
            }
        }
    }
}

/// The bound for the sought variable where the pattern is the term.
#[cycle(walk)]
#[tactic(auto, using(elan_terms::proofs::WeightLemmas::falls))]
pub(crate) fn look_at<N: Name, R: Wait>(
    rt: &R,
    alloc: Global,
    table: &Table<N>,
    sight: &Sight<N>,
    pattern: &Pattern,
    term: &TermRef<N>,
) -> Result<Low<N>, NoMemory>
    ensures tells { IfOk result (Tells N.shapes sight.now (spec_given sight.now pattern.now)
        (Makes N.shapes pattern.now term.now.value)) }
    ensures says { IfOk result (SaysIf (seeks sight.now pattern.now)) }
{
    match &pattern.node {
        PatternNode::Var(number, _) => Ok(at_variable(table, sight, *number, term)),
        PatternNode::Int(z) => Ok(any_if(is_integer(table, term, z))),
        PatternNode::App(op, args) => match table.top(term) {
            Top::Int(_) => Ok(Low::Empty),
            Top::App(f, rows) => {
                if op.0 != f.0 {
                    Ok(Low::Empty)
                } else if is_ac(table.shapes(), *op) {
                    term.known();
                    look_under(rt, alloc, table, sight, *op, args.as_slice(), rows)
                } else {
                    look_each(rt, alloc, table, sight, args.as_slice(), rows)
                }
            }
        },
    }
}

/// The same where each of the patterns is the term of the row beside it.
#[cycle(walk)]
#[tactic(auto, using(elan_terms::proofs::WeightLemmas::falls))]
fn look_each<N: Name, R: Wait>(
    rt: &R,
    alloc: Global,
    table: &Table<N>,
    sight: &Sight<N>,
    patterns: &[Pattern],
    rows: &[TermRef<N>],
) -> Result<Low<N>, NoMemory>
    ensures tells { IfOk result (Tells N.shapes sight.now (list_all (spec_given sight.now) patterns.now)
        (MakeEach N.shapes patterns.now (terms rows.now))) }
    ensures says { IfOk result (SaysIf (list_any (seeks sight.now) patterns.now)) }
{
    match patterns {
        [] => match rows {
            [] => Ok(Low::Any),
            [_, ..] => Ok(Low::Empty),
        },
        [first, more @ ..] => match rows {
            [] => Ok(Low::Empty),
            [row, rest @ ..] => {
                let low = look_at(rt, alloc, table, sight, first, row)?;
                if low.is_empty() {
                    Ok(Low::Empty)
                } else {
                    let later = look_each(rt, alloc, table, sight, more, rest)?;
                    Ok(low.meet(table, later))
                }
            }
        },
    }
}

/// Where the pattern is one of the rows: the row; its values are all known.
#[cycle(walk)]
#[tactic(auto, using(elan_terms::proofs::WeightLemmas::falls))]
fn find<N: Name, R: Wait>(
    rt: &R,
    alloc: Global,
    table: &Table<N>,
    sight: &Sight<N>,
    pattern: &Pattern,
    rows: &[TermRef<N>],
) -> Result<Option<TermRef<N>>, NoMemory>
    requires { IsTrue (spec_given sight.now pattern.now) }
    ensures { IfOk result (FindsIn N.shapes sight.now pattern.now (terms rows.now)) }
{
    let mut left = rows;
    'rows: while let [row, rest @ ..] = left {
        let low = look_at(rt, alloc, table, sight, pattern, row)?;
        if !low.is_empty() {
            return Ok(Some(row.again()));
        }
        left = rest;
    }
    Ok(None)
}

/// The rows without one that the pattern is, whose values are all known, and that brings one term.
#[cycle(walk)]
#[tactic(auto, using(elan_terms::proofs::WeightLemmas::falls))]
fn take_ground<N: Name, R: Wait>(
    rt: &R,
    alloc: Global,
    table: &Table<N>,
    sight: &Sight<N>,
    op: OpId,
    pattern: &Pattern,
    rows: &[TermRef<N>],
) -> Result<Option<Items<TermRef<N>>>, NoMemory>
    requires given { IsTrue (spec_given sight.now pattern.now) }
    requires whole { IsFalse (is_variable pattern.now) }
    requires other { IsFalse (heads op pattern.now) }
    requires ascend { Ascends (terms rows.now) }
    ensures { IfOk result (TakesAway N.shapes sight.now op (pattern.now ∷ []) (terms rows.now)) }
{
    match find(rt, alloc, table, sight, pattern, rows)? {
        None => Ok(None),
        Some(row) => take_one(alloc, table, &row, rows),
    }
}

/// The rows without those that the pattern brings, as far as its values are all known, or those of
/// its own patterns where the operator heads it.
#[cycle(walk)]
#[tactic(auto, using(elan_terms::proofs::WeightLemmas::falls))]
fn take_pattern<N: Name, R: Wait>(
    rt: &R,
    alloc: Global,
    table: &Table<N>,
    sight: &Sight<N>,
    op: OpId,
    pattern: &Pattern,
    rows: Items<TermRef<N>>,
) -> Result<Option<Items<TermRef<N>>>, NoMemory>
    requires ac { IsTrue (spec_ac N.shapes op) }
    requires ascend { Ascends (terms rows) }
    ensures { IfOk result (TakesAway N.shapes sight.now op (settled_of sight.now op pattern.now) (terms rows)) }
{
    match &pattern.node {
        PatternNode::Var(number, _) => match sight.value(*number) {
            None => Ok(Some(rows)),
            Some(value) => {
                value.known();
                take_arms(alloc, table, op, &value, rows.as_slice())
            }
        },
        PatternNode::Int(_) => take_ground(rt, alloc, table, sight, op, pattern, rows.as_slice()),
        PatternNode::App(f, args) => {
            if op.0 == f.0 {
                take_all(rt, alloc, table, sight, op, args.as_slice(), rows)
            } else if sight.is_given(pattern) {
                take_ground(rt, alloc, table, sight, op, pattern, rows.as_slice())
            } else {
                Ok(Some(rows))
            }
        }
    }
}

/// The same of each of the patterns.
#[cycle(walk)]
#[tactic(auto, using(elan_terms::proofs::WeightLemmas::falls))]
fn take_all<N: Name, R: Wait>(
    rt: &R,
    alloc: Global,
    table: &Table<N>,
    sight: &Sight<N>,
    op: OpId,
    patterns: &[Pattern],
    rows: Items<TermRef<N>>,
) -> Result<Option<Items<TermRef<N>>>, NoMemory>
    requires ac { IsTrue (spec_ac N.shapes op) }
    requires ascend { Ascends (terms rows) }
    ensures { IfOk result (TakesAway N.shapes sight.now op (settled sight.now op patterns.now) (terms rows)) }
{
    match patterns {
        [] => Ok(Some(rows)),
        [first, more @ ..] => match take_pattern(rt, alloc, table, sight, op, first, rows)? {
            None => Ok(None),
            Some(left) => take_all(rt, alloc, table, sight, op, more, left),
        },
    }
}

/// The bound where the pattern is one of the rows.
#[cycle(walk)]
#[tactic(auto, using(elan_terms::proofs::WeightLemmas::falls))]
fn look_among<N: Name, R: Wait>(
    rt: &R,
    alloc: Global,
    table: &Table<N>,
    sight: &Sight<N>,
    pattern: &Pattern,
    rows: &[TermRef<N>],
) -> Result<Low<N>, NoMemory>
    ensures tells { IfOk result (Tells N.shapes sight.now false (IsAmong N.shapes pattern.now (terms rows.now))) }
    ensures says { IfOk result (SaysIf (seeks sight.now pattern.now)) }
{
    let mut low = Low::Empty;
    let mut left = rows;
    'rows: while let [row, rest @ ..] = left {
        let one = look_at(rt, alloc, table, sight, pattern, row)?;
        low = low.join(table, one);
        left = rest;
    }
    Ok(low)
}

/// The bound where the pattern brings some of the rows, or its own patterns where the operator heads it.
#[cycle(walk)]
#[tactic(auto, using(elan_terms::proofs::WeightLemmas::falls))]
fn look_inside<N: Name, R: Wait>(
    rt: &R,
    alloc: Global,
    table: &Table<N>,
    sight: &Sight<N>,
    op: OpId,
    pattern: &Pattern,
    rows: &[TermRef<N>],
) -> Result<Low<N>, NoMemory>
    ensures tells { IfOk result (Tells N.shapes sight.now false
        (AreThere N.shapes op (loose_of sight.now op pattern.now) (terms rows.now))) }
    ensures says { IfOk result (SaysIf (seeks_inside sight.now (loose_of sight.now op pattern.now))) }
{
    match &pattern.node {
        PatternNode::Var(_, _) => Ok(Low::Any),
        PatternNode::Int(_) => Ok(Low::Any),
        PatternNode::App(f, args) => {
            if op.0 == f.0 {
                look_inside_all(rt, alloc, table, sight, op, args.as_slice(), rows)
            } else if sight.is_given(pattern) {
                Ok(Low::Any)
            } else {
                look_among(rt, alloc, table, sight, pattern, rows)
            }
        }
    }
}

/// The same of each of the patterns.
#[cycle(walk)]
#[tactic(auto, using(elan_terms::proofs::WeightLemmas::falls))]
fn look_inside_all<N: Name, R: Wait>(
    rt: &R,
    alloc: Global,
    table: &Table<N>,
    sight: &Sight<N>,
    op: OpId,
    patterns: &[Pattern],
    rows: &[TermRef<N>],
) -> Result<Low<N>, NoMemory>
    ensures tells { IfOk result (Tells N.shapes sight.now false
        (AreThere N.shapes op (loose sight.now op patterns.now) (terms rows.now))) }
    ensures says { IfOk result (SaysIf (seeks_inside sight.now (loose sight.now op patterns.now))) }
{
    match patterns {
        [] => Ok(Low::Any),
        [first, more @ ..] => {
            let low = look_inside(rt, alloc, table, sight, op, first, rows)?;
            if low.is_empty() {
                Ok(Low::Empty)
            } else {
                let later = look_inside_all(rt, alloc, table, sight, op, more, rows)?;
                Ok(low.meet(table, later))
            }
        }
    }
}

/// The bound where the patterns whose values are not all known bring exactly these rows.
#[cycle(walk)]
#[tactic(auto, using(elan_terms::proofs::WeightLemmas::falls))]
fn look_left<N: Name, R: Wait>(
    rt: &R,
    alloc: Global,
    table: &Table<N>,
    sight: &Sight<N>,
    op: OpId,
    patterns: &[Pattern],
    rows: &[TermRef<N>],
) -> Result<Low<N>, NoMemory>
    requires ac { IsTrue (spec_ac N.shapes op) }
    requires ascend { Ascends (terms rows.now) }
    requires shallow { AreShallow (terms rows.now) }
    ensures tells { IfOk result (Tells N.shapes sight.now (list_all (spec_given sight.now) patterns.now)
        (Serve N.shapes op (loose sight.now op patterns.now) (terms rows.now))) }
    ensures says { IfOk result (SaysIf (list_any (seeks sight.now) patterns.now)) }
{
    let counts = count_all(sight, op, patterns, Counts::none())?;
    if counts.may_be_served(rows.len()) {
        let own = look_own(rt, alloc, table, sight, op, &counts, rows)?;
        if own.is_empty() {
            return Ok(Low::Empty);
        }
        let inside = look_inside_all(rt, alloc, table, sight, op, patterns, rows)?;
        Ok(own.meet(table, inside))
    } else {
        Ok(Low::Empty)
    }
}

/// The bound where the operator over the patterns is the operator over the terms of the rows.
#[cycle(walk)]
#[tactic(auto, using(elan_terms::proofs::WeightLemmas::falls))]
fn look_under<N: Name, R: Wait>(
    rt: &R,
    alloc: Global,
    table: &Table<N>,
    sight: &Sight<N>,
    op: OpId,
    patterns: &[Pattern],
    rows: &[TermRef<N>],
) -> Result<Low<N>, NoMemory>
    requires ac { IsTrue (spec_ac N.shapes op) }
    requires ascend { Ascends (terms rows.now) }
    requires shallow { AreShallow (terms rows.now) }
    ensures tells { IfOk result (Tells N.shapes sight.now (list_all (spec_given sight.now) patterns.now)
        (MakeNode N.shapes op patterns.now (terms rows.now))) }
    ensures says { IfOk result (SaysIf (list_any (seeks sight.now) patterns.now)) }
{
    let all = copy_rows(alloc, rows)?;
    match take_all(rt, alloc, table, sight, op, patterns, all)? {
        None => Ok(Low::Empty),
        Some(left) => look_left(rt, alloc, table, sight, op, patterns, left.as_slice()),
    }
}
