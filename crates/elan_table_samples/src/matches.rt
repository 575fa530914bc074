//! What no clause says: calls with ample memory.

ghost use Rattle.std.specs.Prelude.{◌≡◌, ◌++◌, [], ◌∷◌, IfOk};
ghost use Rattle.elan_terms.specs.Match.{occurrences, variables};
ghost use Rattle.elan_match.specs.Plain.{AreNumbered};

use elan_match::{Bindings, NoMemory, is_plain, match_plain};
use elan_table::{Blank, Name, Table, TermRef};
use elan_terms::{OpId, Pattern, PatternNode, Shape, Shapes, SortId};
use sqlite_items::Items;
use std::alloc::{AllocError, Global};
use std::marker::Brand;
use std::sync::Wait;
use std::test::Fail;

// The operators of the tests: two constants, an associative and commutative one, and one of two
// arguments in their order. All are of the first sort; integers are of the second.
const A: OpId = OpId(0);

const B: OpId = OpId(1);

const UNION: OpId = OpId(2);

const PAIR: OpId = OpId(3);

fn shape(alloc: Global, many: usize, ac: bool) -> Result<Shape, NoMemory> {
    let mut args = Items::new(alloc);
    for _ in 0..many {
        args.push(SortId(0))?;
    }
    Ok(Shape {
        args,
        sort: SortId(0),
        ac,
    })
}

fn blank(alloc: Global) -> Result<Blank, NoMemory> {
    let mut shapes = Items::new(alloc);
    shapes.push(shape(alloc, 0, false)?)?;
    shapes.push(shape(alloc, 0, false)?)?;
    shapes.push(shape(alloc, 2, true)?)?;
    shapes.push(shape(alloc, 2, false)?)?;
    let shapes = Shapes {
        shapes,
        int: Some(SortId(1)),
    };
    Ok(Blank::new(shapes))
}

/// A row of the application; one that the table does not take is an error as well.
fn node<N: Name, R: Wait>(
    rt: &R,
    table: &Table<N>,
    op: OpId,
    args: &[TermRef<N>],
) -> Result<TermRef<N>, NoMemory> {
    if table.takes(op, args) {
        table.intern(rt, op, args)
    } else {
        Err(AllocError)
    }
}

fn applied<N: Name, R: Wait>(
    rt: &R,
    table: &Table<N>,
    op: OpId,
    left: &TermRef<N>,
    right: &TermRef<N>,
) -> Result<TermRef<N>, NoMemory> {
    let args = [left.again(), right.again()];
    node(rt, table, op, args.as_slice())
}

#[tactic(auto, using(elan_terms::proofs::MatchLemmas::pattern_rules))]
fn variable(number: u32, sort: SortId) -> Pattern
    ensures { occurrences result ≡ (number, sort) ∷ [] }
{
    Pattern {
        node: PatternNode::Var(number, sort),
    }
}

#[tactic(auto, using(crate::proofs::MatchesLemmas::occurrences_pairs))]
fn pair(alloc: Global, left: Pattern, right: Pattern) -> Result<Pattern, NoMemory>
    ensures { IfOk result (λ p. occurrences p ≡ occurrences left ++ occurrences right) }
{
    let mut args = Items::new(alloc);
    args.push(left)?;
    args.push(right)?;
    Ok(Pattern {
        node: PatternNode::App(PAIR, args),
    })
}

/// The pair of a variable and itself.
#[tactic(auto, using(crate::proofs::MatchesLemmas::numbered_pairs))]
fn twice(alloc: Global) -> Result<Pattern, NoMemory>
    ensures { IfOk result (λ p. AreNumbered 0 (variables p)) }
{
    pair(alloc, variable(0, SortId(0)), variable(0, SortId(0)))
}

/// The pair of two variables.
#[tactic(auto, using(crate::proofs::MatchesLemmas::numbered_pairs))]
fn both(alloc: Global) -> Result<Pattern, NoMemory>
    ensures { IfOk result (λ p. AreNumbered 7 (variables p)) }
{
    pair(alloc, variable(7, SortId(0)), variable(8, SortId(0)))
}

fn values<N: Name, R: Wait>(
    rt: &R,
    alloc: Global,
    table: &Table<N>,
    pattern: &Pattern,
    first: u32,
    row: &TermRef<N>,
) -> Result<Option<Bindings<N>>, NoMemory>
    requires { AreNumbered first (variables pattern.now) }
{
    if is_plain(table.shapes(), pattern) {
        match_plain(rt, alloc, table, pattern, first, row)
    } else {
        Err(AllocError)
    }
}

fn are_equal<N: Name>(table: &Table<N>, some: &[TermRef<N>], others: &[TermRef<N>]) -> bool {
    let mut equal = some.len() == others.len();
    for (a, b) in some.iter().zip(others) {
        equal = equal && table.equal(a, b);
    }
    equal
}

/// Whether there is no match.
fn has_none<N: Name, R: Wait>(
    rt: &R,
    alloc: Global,
    table: &Table<N>,
    pattern: &Pattern,
    first: u32,
    row: &TermRef<N>,
) -> Result<bool, NoMemory>
    requires { AreNumbered first (variables pattern.now) }
{
    match values(rt, alloc, table, pattern, first, row)? {
        None => Ok(true),
        Some(_) => Ok(false),
    }
}

/// Whether there is a match, and it has these values.
fn has_values<N: Name, R: Wait>(
    rt: &R,
    alloc: Global,
    table: &Table<N>,
    pattern: &Pattern,
    first: u32,
    row: &TermRef<N>,
    wanted: &[TermRef<N>],
) -> Result<bool, NoMemory>
    requires { AreNumbered first (variables pattern.now) }
{
    match values(rt, alloc, table, pattern, first, row)? {
        None => Ok(false),
        Some(found) => Ok(are_equal(table, found.as_slice(), wanted)),
    }
}

/// What a variable that occurs twice does: in two equal arguments and in two others.
fn two_places<N: Name, R: Wait>(
    rt: &R,
    alloc: Global,
    table: &Table<N>,
    a: &TermRef<N>,
    b: &TermRef<N>,
) -> Result<(bool, bool), NoMemory> {
    let pattern = twice(alloc)?;
    let same = applied(rt, table, PAIR, a, a)?;
    let other = applied(rt, table, PAIR, a, b)?;
    let wanted = [a.again()];
    let found = has_values(rt, alloc, table, &pattern, 0, &same, wanted.as_slice())?;
    Ok((found, has_none(rt, alloc, table, &pattern, 0, &other)?))
}

/// What two variables do, whose numbers begin at 7.
fn two_variables<N: Name, R: Wait>(
    rt: &R,
    alloc: Global,
    table: &Table<N>,
    a: &TermRef<N>,
    b: &TermRef<N>,
) -> Result<bool, NoMemory> {
    let pattern = both(alloc)?;
    let union = applied(rt, table, UNION, a, b)?;
    let row = applied(rt, table, PAIR, b, &union)?;
    let wanted = [b.again(), union];
    has_values(rt, alloc, table, &pattern, 7, &row, wanted.as_slice())
}

/// A variable twice in two equal arguments and in two others, two variables, and one of another sort.
#[tactic(auto, using(crate::proofs::MatchesLemmas::numbered_pairs))]
fn answers<N: Name, R: Wait>(
    rt: &R,
    alloc: Global,
    blank: Blank,
) -> Result<(bool, bool, bool, bool), NoMemory>
    requires { blank ≡ (N.root, N.shapes) }
{
    let table = Table::<N>::new(alloc, blank.named::<N>(alloc)?)?;
    let none = Items::new(alloc);
    let a = node(rt, &table, A, none.as_slice())?;
    let b = node(rt, &table, B, none.as_slice())?;
    let (same, other) = two_places(rt, alloc, &table, &a, &b)?;
    let apart = two_variables(rt, alloc, &table, &a, &b)?;
    let pattern = variable(3, SortId(1));
    let unsorted = has_none(rt, alloc, &table, &pattern, 3, &a)?;
    Ok((same, other, apart, unsorted))
}

#[test]
fn variables_take_what_stands_in_their_places(rt: HostRuntime) -> Result<(), Fail> {
    let answer = answers::<Brand, _>(&rt, rt.alloc(), blank(rt.alloc())?)?;
    assert_eq!(rt; answer, (true, true, true, true));
    Ok(())
}
