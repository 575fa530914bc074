//! The check of a flat program.

ghost use Rattle.std.specs.Prelude.{◌≡◌, ◌<◌, ◌^◌, length, map, true, IfOk};
ghost use Rattle.std.specs.List.{All};
ghost use Rattle.elan_program.specs.Soundness.{is_sound};
ghost use Rattle.elan_clauses.specs.Gives.{Gives};
ghost use Rattle.elan_clauses.specs.Offered.{is_small};
ghost use Rattle.elan_clauses.specs.Readable.{IsReadable};
ghost use Rattle.elan_names.specs.Indexed.{IsIndexOf};
ghost use Rattle.elan_check.specs.Fits.{AllFit};
ghost use Rattle.elan_check.specs.Lent.{seen_part};
ghost use Rattle.elan_check.specs.Validity.{IsPrepared, ReadsAll};
ghost use Rattle.elan_check.specs.Walk as spec;

use crate::asking::asked;
use crate::laying::lay;
use crate::naming::names_of;
use crate::parts::Part;
use crate::prepared::{Asked, Prepared};
use crate::sorts::{Sorts, sort_index};
use crate::steps::{Checker, Done, parts_onto};
use elan_clauses::Read;
use elan_modules::Flat;
use elan_names::{Index, Names};
use elan_program::{Program, Signature};
use elan_text::{NoMemory, Stop};
use sqlite_items::Items;
use std::alloc::{AllocError, Global};

/// An index holds fewer rules and definitions than this.
const MOST: usize = 4_294_967_296;

/// The index of the names of a program. More of them than an index holds are refused as for want of
/// memory.
fn index_of(alloc: Global, names: &Names, signature: &Signature) -> Result<Index, NoMemory>
    requires { length signature.now.operators < 2 ^ 32 }
    ensures { IfOk result (λ index. IsIndexOf index names.now signature.now.operators) }
{
    if names.labels.len() >= MOST || names.heads.len() >= MOST {
        return Err(AllocError);
    }
    Index::new(alloc, names, signature.operators.as_slice())
}

/// The program of what was checked, which is valid, with what is asked of it.
fn prepared(
    alloc: Global,
    signature: Signature,
    done: Done,
    asked: Asked,
) -> Result<Prepared, NoMemory>
    requires { IsPrepared (spec.prepared signature done asked) }
    ensures { IfOk result (λ p. p ≡ spec.prepared signature done asked) }
{
    let program = Program::new(alloc, signature, done.rules, done.named)?;
    Ok(Prepared {
        program,
        start: asked.start,
        query: asked.query,
        sort: asked.sort,
    })
}

/// The sections, checked by the names of all, and what is asked.
fn done_with<'a, R: Read>(
    alloc: Global,
    checker: &'a Checker<'a, R>,
    sorts: &Sorts<'_>,
    flat: &'a Flat,
    parts: &'a [Part<'a>],
) -> Result<(Done, Asked), Stop>
    requires same { sorts.now.signature.now ≡ checker.now.signature.now }
    requires sound { is_sound checker.now.signature.now ≡ true }
    requires readable { All IsReadable flat.now.texts }
    requires fits { let c = checker.now in
        AllFit (R.reads c.reader.now) c.signature.now (map seen_part parts.now) }
    ensures { let c = checker.now in Gives result (spec.done_with (R.reads c.reader.now)
        flat.now c.signature.now c.names.now (map seen_part parts.now)) }
{
    let mut done = Done {
        rules: Items::new(alloc),
        named: Items::new(alloc),
    };
    parts_onto(alloc, checker, &mut done, parts)?;
    let asked = asked(alloc, checker, sorts, flat)?;
    Ok((done, asked))
}

/// The sections, checked, and what is asked.
#[tactic(auto, using(crate::proofs::StepLemmas::fits_few, crate::proofs::SortLemmas::few_operators))]
fn checked_parts<'a, R: Read>(
    alloc: Global,
    reader: &'a R,
    flat: &'a Flat,
    sorts: &Sorts<'a>,
    parts: &'a [Part<'a>],
) -> Result<(Done, Asked), Stop>
    requires sound { is_sound sorts.now.signature.now ≡ true }
    requires readable { All IsReadable flat.now.texts }
    requires fits { AllFit (R.reads reader.now) sorts.now.signature.now (map seen_part parts.now) }
    ensures { Gives result (spec.done_and_asked (R.reads reader.now) flat.now
        sorts.now.signature.now (map seen_part parts.now)) }
{
    let names = names_of(alloc, parts)?;
    let index = index_of(alloc, &names, sorts.signature)?;
    let checker = Checker {
        reader,
        signature: sorts.signature,
        names: &names,
        index: &index,
    };
    let found = done_with(alloc, &checker, sorts, flat, parts);
    found
}

/// What was checked of a flat program, and what is asked of it.
#[tactic(auto, using(crate::proofs::StepLemmas::fits_laid, crate::proofs::SortLemmas::few_sorts), unfolding(crate::specs::Walk::checked_whole))]
fn checked_whole<'a, R: Read>(
    alloc: Global,
    reader: &'a R,
    flat: &'a Flat,
    signature: &'a Signature,
) -> Result<(Done, Asked), Stop>
    requires sound { is_sound signature.now ≡ true }
    requires small { is_small flat.now ≡ true }
    requires readable { All IsReadable flat.now.texts }
    requires reads { ReadsAll (R.reads reader.now) signature.now flat.now }
    ensures { Gives result
        (spec.checked_whole (R.reads reader.now) flat.now signature.now) }
{
    let index = sort_index(alloc, signature)?;
    let sorts = Sorts {
        signature,
        index: &index,
    };
    let parts = lay(alloc, &sorts, flat)?;
    let found = checked_parts(alloc, reader, flat, &sorts, parts.as_slice())?;
    Ok(found)
}

/// The checked program of a flat program with its start strategy and its query, or the first
/// refusal.
///
/// # Errors
///
/// `E07` and `E14` to `E22` at the first place of the walk: the instances in order, in each its
/// sections in the order of the text, and last the `LPL` text and the query; or `NoMemory`.
#[tactic(auto, unfolding(crate::specs::Walk::checked))]
pub fn check<R: Read>(
    alloc: Global,
    reader: &R,
    flat: &Flat,
    signature: Signature,
) -> Result<Prepared, Stop>
    requires sound { is_sound signature ≡ true }
    requires small { is_small flat.now ≡ true }
    requires readable { All IsReadable flat.now.texts }
    requires reads { ReadsAll (R.reads reader.now) signature flat.now }
    ensures exact { Gives result (spec.checked (R.reads reader.now) flat.now signature) }
    ensures valid { IfOk result (λ p. IsPrepared p) }
{
    let (done, asked) = checked_whole(alloc, reader, flat, &signature)?;
    let prepared = prepared(alloc, signature, done, asked)?;
    Ok(prepared)
}
