//! What no clause says: calls with ample memory.

ghost use Rattle.std.specs.Prelude.{◌≡◌, ◌++◌, [], ◌∷◌, IfOk};
ghost use Rattle.elan_terms.specs.Match.{occurrences, variables};
ghost use Rattle.elan_fits.specs.Plain.{AreNumbered};

use elan_fits::{NoMemory, Walk, is_plain, match_plain, matches};
use elan_terms::{
    OpId, Pattern, PatternNode, Shape, Shapes, SortId, Term, TermNode, is_canonical, is_valid,
};
use sqlite_items::Items;
use std::alloc::{AllocError, Global};
use std::test::Fail;

// a, b and c are the constants 0, 1 and 2; 3 is the associative and commutative U, 4 makes a pair.
// All are of the first sort; integers are of the second.
const UNION: OpId = OpId(3);

const PAIR: OpId = OpId(4);

fn shape(alloc: Global, many: usize, ac: bool) -> Result<Shape, NoMemory> {
    let mut args = Items::new(alloc);
    for _ in 0..many {
        args.push(SortId(0))?;
    }
    Ok(Shape {
        args,
        sort: SortId(0),
        ac,
    })
}

fn sets(alloc: Global) -> Result<Shapes, NoMemory> {
    let mut shapes = Items::new(alloc);
    for _ in 0..3 {
        shapes.push(shape(alloc, 0, false)?)?;
    }
    shapes.push(shape(alloc, 2, true)?)?;
    shapes.push(shape(alloc, 2, false)?)?;
    Ok(Shapes {
        shapes,
        int: Some(SortId(1)),
    })
}

fn constant(alloc: Global, number: u32) -> Term {
    Term {
        node: TermNode::App(OpId(number), Items::new(alloc)),
    }
}

// U over the constants of these numbers.
fn union(alloc: Global, numbers: &[u32]) -> Result<Term, NoMemory> {
    let mut args = Items::new(alloc);
    for number in numbers {
        args.push(constant(alloc, *number))?;
    }
    Ok(Term {
        node: TermNode::App(UNION, args),
    })
}

fn couple(alloc: Global, left: Term, right: Term) -> Result<Term, NoMemory> {
    let mut args = Items::new(alloc);
    args.push(left)?;
    args.push(right)?;
    Ok(Term {
        node: TermNode::App(PAIR, args),
    })
}

#[tactic(auto, using(elan_terms::proofs::MatchLemmas::pattern_rules))]
fn variable(number: u32, sort: SortId) -> Pattern
    ensures { occurrences result ≡ (number, sort) ∷ [] }
{
    Pattern {
        node: PatternNode::Var(number, sort),
    }
}

#[tactic(auto, using(crate::proofs::FitsLemmas::occurrences_pairs))]
fn over(alloc: Global, op: OpId, left: Pattern, right: Pattern) -> Result<Pattern, NoMemory>
    ensures { IfOk result (λ p. occurrences p ≡ occurrences left ++ occurrences right) }
{
    let mut args = Items::new(alloc);
    args.push(left)?;
    args.push(right)?;
    Ok(Pattern {
        node: PatternNode::App(op, args),
    })
}

/// The pair of a variable and itself.
#[tactic(auto, using(crate::proofs::FitsLemmas::numbered_pairs))]
fn twice(alloc: Global) -> Result<Pattern, NoMemory>
    ensures { IfOk result (λ p. AreNumbered 0 (variables p)) }
{
    over(alloc, PAIR, variable(0, SortId(0)), variable(0, SortId(0)))
}

/// The pair of two variables.
#[tactic(auto, using(crate::proofs::FitsLemmas::numbered_pairs))]
fn both(alloc: Global) -> Result<Pattern, NoMemory>
    ensures { IfOk result (λ p. AreNumbered 7 (variables p)) }
{
    over(alloc, PAIR, variable(7, SortId(0)), variable(8, SortId(0)))
}

// One character a constant, a pair in brackets, and those of a U joined.
fn spell_onto(text: &mut String, term: &Term) -> Result<(), NoMemory> {
    let TermNode::App(op, args) = &term.node else {
        return Ok(());
    };
    match op.0 {
        0 => text.push('a')?,
        1 => text.push('b')?,
        2 => text.push('c')?,
        4 => text.push('(')?,
        _ => {}
    }
    for arg in args.as_slice() {
        spell_onto(text, arg)?;
    }
    Ok(())
}

fn spell_match(text: &mut String, values: &[Term]) -> Result<(), NoMemory> {
    for value in values {
        spell_onto(text, value)?;
        text.push(',')?;
    }
    text.push(' ')?;
    Ok(())
}

/// All matches; an error as well where the term is not valid or not canonical.
fn all(alloc: Global, pattern: &Pattern, term: &Term) -> Result<String, NoMemory> {
    let shapes = sets(alloc)?;
    let mut text = String::new(alloc);
    if !is_valid(&shapes, term) || !is_canonical(&shapes, term) {
        return Err(AllocError);
    }
    let found = matches(alloc, &shapes, pattern, term)?;
    for values in found.as_slice() {
        spell_match(&mut text, values.as_slice())?;
    }
    Ok(text)
}

/// The match of a plain pattern, or `-`.
fn one(alloc: Global, pattern: &Pattern, first: u32, term: &Term) -> Result<String, NoMemory>
    requires { AreNumbered first (variables pattern.now) }
{
    let shapes = sets(alloc)?;
    let mut text = String::new(alloc);
    if !is_plain(&shapes, pattern) || !is_valid(&shapes, term) || !is_canonical(&shapes, term) {
        return Err(AllocError);
    }
    match match_plain(alloc, &shapes, pattern, first, term)? {
        None => text.push('-')?,
        Some(values) => spell_match(&mut text, values.as_slice())?,
    }
    Ok(text)
}

#[test]
fn two_variables_part_a_union_of_three_in_six_ways(rt: HostRuntime) -> Result<(), Fail> {
    let alloc = rt.alloc();
    let pattern = over(alloc, UNION, variable(0, SortId(0)), variable(1, SortId(0)))?;
    let found = all(alloc, &pattern, &union(alloc, &[0, 1, 2])?)?;
    assert_eq!(rt; found.as_str(), "a,bc, b,ac, c,ab, ab,c, ac,b, bc,a, ");
    Ok(())
}

#[test]
fn a_variable_twice_under_a_union_takes_each_half(rt: HostRuntime) -> Result<(), Fail> {
    let alloc = rt.alloc();
    let pattern = over(alloc, UNION, variable(0, SortId(0)), variable(0, SortId(0)))?;
    let rows = [
        ([0, 0, 1, 1].as_slice(), "ab, "),
        ([0, 0, 1].as_slice(), ""),
    ];
    for (numbers, wanted) in rows {
        let found = all(alloc, &pattern, &union(alloc, numbers)?)?;
        assert_eq!(rt; found.as_str(), wanted);
    }
    Ok(())
}

#[test]
fn a_place_outside_a_union_decides_for_one_inside(rt: HostRuntime) -> Result<(), Fail> {
    let alloc = rt.alloc();
    let inner = over(alloc, UNION, variable(0, SortId(0)), variable(1, SortId(0)))?;
    let pattern = over(alloc, PAIR, variable(0, SortId(0)), inner)?;
    let term = couple(alloc, constant(alloc, 1), union(alloc, &[0, 1, 2])?)?;
    let found = all(alloc, &pattern, &term)?;
    assert_eq!(rt; found.as_str(), "b,ac, ");
    Ok(())
}

/// The U of `c` and the pairs of `a` with `b` and of `b` with `a`.
fn pairs_in_union(alloc: Global) -> Result<Term, NoMemory> {
    let mut args = Items::new(alloc);
    args.push(constant(alloc, 2))?;
    args.push(constants(alloc, 0, 1)?)?;
    args.push(constants(alloc, 1, 0)?)?;
    Ok(Term {
        node: TermNode::App(UNION, args),
    })
}

#[test]
fn a_pair_in_a_union_takes_the_pair_that_is_there(rt: HostRuntime) -> Result<(), Fail> {
    let alloc = rt.alloc();
    let inner = over(alloc, PAIR, variable(0, SortId(0)), variable(1, SortId(0)))?;
    let pattern = over(alloc, UNION, inner, variable(2, SortId(0)))?;
    let found = all(alloc, &pattern, &pairs_in_union(alloc)?)?;
    assert_eq!(rt; found.as_str(), "a,b,c(ba, b,a,c(ab, ");
    Ok(())
}

/// The first four answers of a walk, `-` where there is no match.
fn walked(alloc: Global, pattern: &Pattern, term: &Term) -> Result<String, NoMemory> {
    let shapes = sets(alloc)?;
    if !is_valid(&shapes, term) || !is_canonical(&shapes, term) {
        return Err(AllocError);
    }
    let mut walk = Walk::new(alloc, &shapes, pattern, term)?;
    let mut text = String::new(alloc);
    for _ in 0..4 {
        match walk.next(alloc)? {
            None => text.push('-')?,
            Some(values) => spell_match(&mut text, values.as_slice())?,
        }
    }
    Ok(text)
}

#[test]
fn a_walk_gives_one_match_at_a_time_and_then_none(rt: HostRuntime) -> Result<(), Fail> {
    let alloc = rt.alloc();
    let pattern = over(alloc, UNION, variable(0, SortId(0)), variable(1, SortId(0)))?;
    let found = walked(alloc, &pattern, &union(alloc, &[0, 1])?)?;
    assert_eq!(rt; found.as_str(), "a,b, b,a, --");
    Ok(())
}

/// The pair of two constants of these numbers.
fn constants(alloc: Global, left: u32, right: u32) -> Result<Term, NoMemory> {
    couple(alloc, constant(alloc, left), constant(alloc, right))
}

#[test]
fn a_plain_variable_twice_takes_equal_terms(rt: HostRuntime) -> Result<(), Fail> {
    let pattern = twice(rt.alloc())?;
    let rows = [(0u32, 0u32, "a, "), (1, 0, "-")];
    for (left, right, wanted) in rows {
        let term = constants(rt.alloc(), left, right)?;
        assert_eq!(rt; one(rt.alloc(), &pattern, 0, &term)?.as_str(), wanted);
    }
    Ok(())
}

#[test]
fn plain_variables_take_what_stands_in_their_places(rt: HostRuntime) -> Result<(), Fail> {
    let pattern = both(rt.alloc())?;
    let term = couple(
        rt.alloc(),
        constant(rt.alloc(), 1),
        union(rt.alloc(), &[0, 1])?,
    )?;
    assert_eq!(rt; one(rt.alloc(), &pattern, 7, &term)?.as_str(), "b,ab, ");
    Ok(())
}
