//! The built-in operations.

ghost use Rattle.std.specs.Prelude.{◌≡◌, ◌+ℤ◌, ◌-ℤ◌, ◌*ℤ◌, int_div, Some, Option, List};
ghost use Rattle.elan_terms.specs.declared.tree.Term.{Term as TermValue};
ghost use Rattle.elan_program.specs.declared.signature.Truth.{Truth as TruthValue};
ghost use Rattle.elan_program.specs.Builtins.{value_by};
ghost use Rattle.elan_builtin.specs.Reduce as spec;
ghost use Rattle.elan_builtin.specs.Stands.{StandFor, TellsSame, term_of};

use crate::{Operand, Reduced};
use elan_program::Builtin;

/// The value of an operation on these operands, or none exactly where it is not reducible.
///
/// `same` tells whether the two arguments are the same term; an operation of one argument does not
/// look at it. An operation with another number of operands than it has arguments is not reducible.
pub fn reduce(op: Builtin, args: &[Operand], same: bool) -> Option<Reduced>
    ensures value { result ≡ spec.value_of op args.now same }

    // For the terms that the operands stand for it is the value that a program's meaning has.
    ensures terms { (truth : Option TruthValue) (ts : List TermValue)
        → StandFor truth args.now ts → TellsSame same ts →
        value_by truth (Some op) ts ≡ term_of truth result }
{
    value(op, args, same)
}

fn value(op: Builtin, args: &[Operand], same: bool) -> Option<Reduced>
    ensures { result ≡ spec.value_of op args.now same }
{
    match args {
        [first] => of_one(op, first),
        [first, second] => of_two(op, same, first, second),
        _ => None,
    }
}

fn of_one(op: Builtin, first: &Operand) -> Option<Reduced>
    ensures { result ≡ spec.of_one op first.now }
{
    match (op, first) {
        (Builtin::Not, Operand::Truth(x)) => Some(Reduced::Truth(!*x)),
        _ => None,
    }
}

fn of_two(op: Builtin, same: bool, first: &Operand, second: &Operand) -> Option<Reduced>
    ensures { result ≡ spec.of_two op same first.now second.now }
{
    match (first, second) {
        (Operand::Int(x), Operand::Int(y)) => of_integers(op, same, *x, *y),
        (Operand::Truth(x), Operand::Truth(y)) => of_truths(op, same, *x, *y),
        _ => of_any(op, same),
    }
}

fn of_any(op: Builtin, same: bool) -> Option<Reduced>
    ensures { result ≡ spec.of_any op same }
{
    match op {
        Builtin::Same => Some(Reduced::Truth(same)),
        Builtin::Differ => Some(Reduced::Truth(!same)),
        _ => None,
    }
}

fn of_truths(op: Builtin, same: bool, x: bool, y: bool) -> Option<Reduced>
    ensures { result ≡ spec.of_truths op same x y }
{
    match op {
        Builtin::And => Some(Reduced::Truth(x && y)),
        Builtin::Or => Some(Reduced::Truth(x || y)),
        _ => of_any(op, same),
    }
}

fn of_integers(op: Builtin, same: bool, x: i64, y: i64) -> Option<Reduced>
    ensures { result ≡ spec.of_integers op same x y }
{
    match op {
        Builtin::Add => sum(x, y),
        Builtin::Sub => difference(x, y),
        Builtin::Mul => product(x, y),
        Builtin::Div => quotient(x, y),
        Builtin::Mod => remainder(x, y),
        Builtin::Less => Some(Reduced::Truth(x < y)),
        Builtin::LessOrSame => Some(Reduced::Truth(x <= y)),
        Builtin::Greater => Some(Reduced::Truth(x > y)),
        Builtin::GreaterOrSame => Some(Reduced::Truth(x >= y)),
        Builtin::IntSame => Some(Reduced::Truth(x == y)),
        Builtin::IntDiffer => Some(Reduced::Truth(x != y)),
        _ => of_any(op, same),
    }
}

/// An integer of the language: the least `i64` is none.
#[tactic(auto, using(crate::proofs::RangeLemmas::ranges))]
fn ranged(z: i64) -> Option<Reduced>
    ensures { result ≡ spec.ranged z }
{
    if z == i64::MIN {
        None
    } else {
        Some(Reduced::Int(z))
    }
}

#[tactic(auto, using(crate::proofs::RangeLemmas::ranges))]
fn sum(x: i64, y: i64) -> Option<Reduced>
    ensures { result ≡ spec.ranged (x +ℤ y) }
{
    match x.checked_add(y) {
        None => None,
        Some(z) => ranged(z),
    }
}

#[tactic(auto, using(crate::proofs::RangeLemmas::ranges))]
fn difference(x: i64, y: i64) -> Option<Reduced>
    ensures { result ≡ spec.ranged (x -ℤ y) }
{
    match x.checked_sub(y) {
        None => None,
        Some(z) => ranged(z),
    }
}

#[tactic(auto, using(crate::proofs::RangeLemmas::ranges))]
fn product(x: i64, y: i64) -> Option<Reduced>
    ensures { result ≡ spec.ranged (x *ℤ y) }
{
    match x.checked_mul(y) {
        None => None,
        Some(z) => ranged(z),
    }
}

#[tactic(auto, using(crate::proofs::RangeLemmas::ranges, crate::proofs::RangeLemmas::quotients))]
fn quotient(x: i64, y: i64) -> Option<Reduced>
    ensures { result ≡ spec.unless_zero y (int_div x y) }
{
    match x.checked_div(y) {
        None => None,
        Some(z) => ranged(z),
    }
}

#[tactic(auto, using(crate::proofs::RangeLemmas::ranges, crate::proofs::RangeLemmas::quotients))]
fn remainder(x: i64, y: i64) -> Option<Reduced>
    ensures { result ≡ spec.unless_zero y (spec.left_over x y) }
{
    if y == 0 {
        return None;
    }
    ranged(x.wrapping_rem(y))
}
