//! The operators of the built-in modules.

ghost use Rattle.std.specs.Prelude.{◌≡◌, ◌≤◌, ◌++◌, ◌∷◌, [], length, IfOk, OnOk};
ghost use Rattle.elan_program.specs.declared.signature.Assoc.TheVariants as side;
ghost use Rattle.elan_signature.specs.BuiltIns as spec;

use elan_modules::{Instance, Origin, Standard};
use elan_numbers::Numbers;
use elan_program::{Assoc, Builtin, Operator, Piece, Signature, Truth};
use elan_terms::{OpId, SortId};
use elan_text::{Name, NoMemory};
use sqlite_items::Items;
use std::alloc::{AllocError, Global};

/// The number of the sort of this written form; where there is none, a number that no sort has.
fn sort_of(sorts: &Numbers, sort: &[u8]) -> Result<SortId, NoMemory>
    ensures { IfOk result (λ n. n ≡ spec.sort_of sorts.now sort.now) }
{
    let number = sorts.number_of(sort).unwrap_or(sorts.len());
    Ok(SortId(u32::try_from(number).map_err(|_| AllocError)?))
}

/// A word of a spelling.
fn word_of(alloc: Global, bytes: &[u8]) -> Result<Piece, NoMemory>
    ensures { IfOk result (λ piece. piece ≡ spec.word_of bytes.now) }
{
    Ok(Piece::Word(Name::new(alloc, bytes)?))
}

/// How an operator between two arguments binds, and its operation.
#[derive(Clone, Copy)]
struct Binding {
    pri: u8,
    assoc: Assoc,
    builtin: Builtin,
}

/// Adds an operator between two arguments of one sort.
fn add_infix(
    alloc: Global,
    known: &mut Items<Operator>,
    word: &[u8],
    arg: SortId,
    sort: SortId,
    binding: Binding,
) -> Result<(), NoMemory>
    ensures { OnOk result (known.new ≡ known.old
        ++ spec.infix_of word.now arg sort binding.pri binding.assoc binding.builtin ∷ []) }
{
    let mut pieces = Items::new(alloc);
    pieces.push(Piece::Hole)?;
    pieces.push(word_of(alloc, word)?)?;
    pieces.push(Piece::Hole)?;
    let mut args = Items::new(alloc);
    args.push(arg)?;
    args.push(arg)?;
    known.push(Operator {
        pieces,
        args,
        sort,
        pri: binding.pri,
        assoc: binding.assoc,
        ac: false,
        builtin: Some(binding.builtin),
    })
}

/// Adds a truth value.
fn add_constant(
    alloc: Global,
    known: &mut Items<Operator>,
    word: &[u8],
    sort: SortId,
    builtin: Builtin,
) -> Result<(), NoMemory>
    ensures { OnOk result (known.new ≡ known.old ++ spec.constant_of word.now sort builtin ∷ []) }
{
    let mut pieces = Items::new(alloc);
    pieces.push(word_of(alloc, word)?)?;
    known.push(Operator {
        pieces,
        args: Items::new(alloc),
        sort,
        pri: 0,
        assoc: Assoc::No,
        ac: false,
        builtin: Some(builtin),
    })
}

/// Adds `not`.
fn add_not(alloc: Global, known: &mut Items<Operator>, sort: SortId) -> Result<(), NoMemory>
    ensures { OnOk result (known.new ≡ known.old ++ spec.not_of sort ∷ []) }
{
    let mut pieces = Items::new(alloc);
    pieces.push(word_of(alloc, b"not")?)?;
    pieces.push(Piece::Hole)?;
    let mut args = Items::new(alloc);
    args.push(sort)?;
    known.push(Operator {
        pieces,
        args,
        sort,
        pri: 30,
        assoc: Assoc::No,
        ac: false,
        builtin: Some(Builtin::Not),
    })
}

/// A binding to the left.
fn left(pri: u8, builtin: Builtin) -> Binding
    ensures { result ≡ record { pri = pri; assoc = side.Left; builtin = builtin } }
{
    Binding {
        pri,
        assoc: Assoc::Left,
        builtin,
    }
}

/// The binding of a comparison.
fn comparison(builtin: Builtin) -> Binding
    ensures { result ≡ record { pri = 40; assoc = side.No; builtin = builtin } }
{
    Binding {
        pri: 40,
        assoc: Assoc::No,
        builtin,
    }
}

/// Adds the operators of `bool`.
fn add_bool_operators(
    alloc: Global,
    known: &mut Items<Operator>,
    sort: SortId,
) -> Result<(), NoMemory>
    ensures { OnOk result (known.new ≡ known.old ++ spec.bool_operators sort) }
{
    add_constants(alloc, known, sort)?;
    add_connectives(alloc, known, sort)
}

/// Adds the truth values.
fn add_constants(alloc: Global, known: &mut Items<Operator>, sort: SortId) -> Result<(), NoMemory>
    ensures { OnOk result (known.new ≡ known.old ++ spec.constants sort) }
{
    add_constant(alloc, known, b"true", sort, Builtin::Yes)?;
    add_constant(alloc, known, b"false", sort, Builtin::No)
}

/// Adds `and`, `or` and `not`.
fn add_connectives(alloc: Global, known: &mut Items<Operator>, sort: SortId) -> Result<(), NoMemory>
    ensures { OnOk result (known.new ≡ known.old ++ spec.connectives sort) }
{
    add_infix(alloc, known, b"and", sort, sort, left(20, Builtin::And))?;
    add_infix(alloc, known, b"or", sort, sort, left(10, Builtin::Or))?;
    add_not(alloc, known, sort)
}

/// Adds the operators of `int` that make integers.
fn add_sums(alloc: Global, known: &mut Items<Operator>, sort: SortId) -> Result<(), NoMemory>
    ensures { OnOk result (known.new ≡ known.old ++ spec.sums sort) }
{
    add_additions(alloc, known, sort)?;
    add_products(alloc, known, sort)
}

/// Adds `+` and `-`.
fn add_additions(alloc: Global, known: &mut Items<Operator>, sort: SortId) -> Result<(), NoMemory>
    ensures { OnOk result (known.new ≡ known.old ++ spec.additions sort) }
{
    add_infix(alloc, known, b"+", sort, sort, left(50, Builtin::Add))?;
    add_infix(alloc, known, b"-", sort, sort, left(50, Builtin::Sub))
}

/// Adds `*` and `/`.
fn add_quotients(alloc: Global, known: &mut Items<Operator>, sort: SortId) -> Result<(), NoMemory>
    ensures { OnOk result (known.new ≡ known.old ++ spec.quotients sort) }
{
    add_infix(alloc, known, b"*", sort, sort, left(60, Builtin::Mul))?;
    add_infix(alloc, known, b"/", sort, sort, left(60, Builtin::Div))
}

/// Adds `*`, `/` and `mod`.
fn add_products(alloc: Global, known: &mut Items<Operator>, sort: SortId) -> Result<(), NoMemory>
    ensures { OnOk result (known.new ≡ known.old ++ spec.products sort) }
{
    add_quotients(alloc, known, sort)?;
    add_infix(alloc, known, b"mod", sort, sort, left(60, Builtin::Mod))?;
    Ok(())
}

/// Adds the operators of `int` that make truth values.
#[tactic(auto, using(crate::proofs::RowLemmas::six))]
fn add_comparisons(
    alloc: Global,
    known: &mut Items<Operator>,
    truth: SortId,
    sort: SortId,
) -> Result<(), NoMemory>
    ensures { OnOk result (known.new ≡ known.old ++ spec.comparisons truth sort) }
{
    add_infix(alloc, known, b"<", sort, truth, comparison(Builtin::Less))?;
    add_infix(
        alloc,
        known,
        b"<=",
        sort,
        truth,
        comparison(Builtin::LessOrSame),
    )?;
    add_infix(
        alloc,
        known,
        b">",
        sort,
        truth,
        comparison(Builtin::Greater),
    )?;
    add_infix(
        alloc,
        known,
        b">=",
        sort,
        truth,
        comparison(Builtin::GreaterOrSame),
    )?;
    add_infix(
        alloc,
        known,
        b"==",
        sort,
        truth,
        comparison(Builtin::IntSame),
    )?;
    add_infix(
        alloc,
        known,
        b"!=",
        sort,
        truth,
        comparison(Builtin::IntDiffer),
    )
}

/// Adds the operators of `eq` for a sort.
fn add_equality(
    alloc: Global,
    known: &mut Items<Operator>,
    truth: SortId,
    sort: SortId,
) -> Result<(), NoMemory>
    ensures { OnOk result (known.new ≡ known.old ++ spec.eq_operators truth sort) }
{
    add_infix(alloc, known, b"==", sort, truth, comparison(Builtin::Same))?;
    add_infix(
        alloc,
        known,
        b"!=",
        sort,
        truth,
        comparison(Builtin::Differ),
    )
}

/// Adds the operators of `eq` for each of these sorts.
fn add_equalities(
    alloc: Global,
    sorts: &Numbers,
    known: &mut Items<Operator>,
    args: &[Name],
) -> Result<(), NoMemory>
    ensures { OnOk result (known.new ≡ spec.with_eqs sorts.now known.old args.now) }
{
    let truth = sort_of(sorts, b"bool")?;
    let mut left = args;
    'names: while let [arg, rest @ ..] = left {
        let sort = sort_of(sorts, arg.as_bytes())?;
        add_equality(alloc, known, truth, sort)?;
        left = rest;
    }
    Ok(())
}

/// The truth values, whose constants are the next two operators.
fn truth_at(sorts: &Numbers, count: usize) -> Result<Truth, NoMemory>
    ensures { IfOk result (λ truth. truth ≡ spec.truth_at sorts.now count) }
{
    let sort = sort_of(sorts, b"bool")?;
    let first = u32::try_from(count).map_err(|_| AllocError)?;
    let second = first.checked_add(1).ok_or(AllocError)?;
    Ok(Truth {
        sort,
        yes: OpId(first),
        no: OpId(second),
    })
}

/// Adds `bool`.
fn add_bool(alloc: Global, sorts: &Numbers, signature: &mut Signature) -> Result<(), NoMemory>
    ensures { OnOk result (signature.new ≡ spec.with_bool sorts.now signature.old) }
{
    let truth = truth_at(sorts, signature.operators.len())?;
    add_bool_operators(alloc, &mut signature.operators, truth.sort)?;
    signature.truth = Some(truth);
    Ok(())
}

/// Adds `int`.
fn add_int(alloc: Global, sorts: &Numbers, signature: &mut Signature) -> Result<(), NoMemory>
    ensures { OnOk result (signature.new ≡ spec.with_int sorts.now signature.old) }
{
    let truth = sort_of(sorts, b"bool")?;
    let sort = sort_of(sorts, b"int")?;
    add_sums(alloc, &mut signature.operators, sort)?;
    add_comparisons(alloc, &mut signature.operators, truth, sort)?;
    signature.int = Some(sort);
    Ok(())
}

/// Adds a built-in module with these arguments.
fn add_standard(
    alloc: Global,
    sorts: &Numbers,
    signature: &mut Signature,
    standard: Standard,
    args: &[Name],
) -> Result<(), NoMemory>
    ensures { OnOk result (signature.new
        ≡ spec.with_standard sorts.now signature.old standard args.now) }
{
    match standard {
        Standard::Bool => add_bool(alloc, sorts, signature),
        Standard::Int => add_int(alloc, sorts, signature),
        Standard::Eq => add_equalities(alloc, sorts, &mut signature.operators, args),
    }
}

/// Adds the operators of all instances that are built in.
pub(crate) fn add_built_ins(
    alloc: Global,
    sorts: &Numbers,
    signature: &mut Signature,
    instances: &[Instance],
) -> Result<(), NoMemory>
    ensures { OnOk result (signature.new
        ≡ spec.with_instances sorts.now signature.old instances.now) }
{
    let mut left = instances;
    'instances: while let [instance, rest @ ..] = left {
        if let Origin::Builtin(standard) = instance.origin {
            add_standard(alloc, sorts, signature, standard, instance.args.as_slice())?;
        }
        left = rest;
    }
    Ok(())
}
