//! What the `LPL` text and the query ask.

ghost use Rattle.std.specs.Prelude.{◌≡◌, true, [], Ok};
ghost use Rattle.std.specs.List.{All};
ghost use Rattle.elan_program.specs.Soundness.{is_sound};
ghost use Rattle.elan_clauses.specs.Gives.{Gives};
ghost use Rattle.elan_clauses.specs.Readable.{IsReadable};
ghost use Rattle.elan_check.specs.Walk as spec;
ghost use Rattle.elan_check.specs.Laid.{sort_at as the_sort};

use crate::prepared::Asked;
use crate::sorts::{Module, Sorts, sort_at};
use crate::steps::Checker;
use elan_clauses::{Around, Read, refused, strategy_in, text_as};
use elan_modules::{Flat, LoadedText, Replacements};
use elan_reading::Sought;
use elan_terms::SortId;
use elan_text::{Code, Stop};
use elan_variables::Variables;
use sqlite_items::Items;
use std::alloc::Global;

/// Nothing, or the refusal of a result sort that is not the query sort.
fn same_or(
    alloc: Global,
    flat: &Flat,
    stream: &LoadedText,
    sort: SortId,
    other: SortId,
) -> Result<(), Stop>
    requires { stream.now ≡ spec.stream_of flat.now.texts }
    ensures { Gives result (spec.same_or flat.now sort other (Ok tt)) }
{
    if other.0 == sort.0 {
        Ok(())
    } else {
        Err(refused(alloc, stream, flat.lpl.result_sort.first, Code::E22))
    }
}

/// The two sorts of the `LPL` text, which are one.
fn asked_sort(
    alloc: Global,
    sorts: &Sorts<'_>,
    flat: &Flat,
    stream: &LoadedText,
) -> Result<SortId, Stop>
    requires { stream.now ≡ spec.stream_of flat.now.texts }
    ensures { Gives result (spec.asked_sort flat.now sorts.now.signature.now) }
{
    let none = Items::new(alloc);
    let replacements = Replacements::new(alloc, none.as_slice(), none.as_slice())?;
    let site = Module {
        text: stream,
        replacements: &replacements,
    };
    let sort = sort_at(alloc, sorts, &site, flat.lpl.query_sort)?;
    let other = sort_at(alloc, sorts, &site, flat.lpl.result_sort)?;
    same_or(alloc, flat, stream, sort, other)?;
    Ok(sort)
}

/// The start strategy and the query at a sort.
#[tactic(auto, using(crate::proofs::StepLemmas::stream_readable))]
fn asked_at<R: Read>(
    alloc: Global,
    around: &Around<'_, R>,
    flat: &Flat,
    sort: SortId,
) -> Result<Asked, Stop>
    requires text { around.now.text.now ≡ spec.stream_of flat.now.texts }
    requires ground { around.now.variables.now ≡ [] }
    requires sound { is_sound around.now.signature.now ≡ true }
    requires readable { All IsReadable flat.now.texts }
    ensures { let a = around.now in Gives result
        (spec.asked_at (R.reads a.reader.now) flat.now a.signature.now a.names.now sort) }
{
    let start = strategy_in(alloc, around, None, sort, &flat.lpl.start)?;
    let query = text_as(alloc, around, Sought::Sort(sort), flat.query)?;
    Ok(Asked { start, query, sort })
}

/// What is asked, in this stream.
fn asked_in<'a, R: Read>(
    alloc: Global,
    checker: &'a Checker<'a, R>,
    sorts: &Sorts<'_>,
    flat: &Flat,
    stream: &'a LoadedText,
) -> Result<Asked, Stop>
    requires stream { stream.now ≡ spec.stream_of flat.now.texts }
    requires same { sorts.now.signature.now ≡ checker.now.signature.now }
    requires sound { is_sound checker.now.signature.now ≡ true }
    requires readable { All IsReadable flat.now.texts }
    ensures { let c = checker.now in Gives result
        (spec.asked (R.reads c.reader.now) flat.now c.signature.now c.names.now) }
{
    let sort = asked_sort(alloc, sorts, flat, stream)?;
    let none = Variables::none(alloc);
    let around = Around {
        reader: checker.reader,
        signature: checker.signature,
        names: checker.names,
        index: checker.index,
        text: stream,
        variables: &none,
    };
    let asked = asked_at(alloc, &around, flat, sort)?;
    Ok(asked)
}

/// What is asked: the two sorts are one, then the start strategy, and then the query.
pub(crate) fn asked<'a, R: Read>(
    alloc: Global,
    checker: &'a Checker<'a, R>,
    sorts: &Sorts<'_>,
    flat: &'a Flat,
) -> Result<Asked, Stop>
    requires same { sorts.now.signature.now ≡ checker.now.signature.now }
    requires sound { is_sound checker.now.signature.now ≡ true }
    requires readable { All IsReadable flat.now.texts }
    ensures { let c = checker.now in Gives result
        (spec.asked (R.reads c.reader.now) flat.now c.signature.now c.names.now) }
{
    match flat.texts.as_slice() {
        [stream, ..] => asked_in(alloc, checker, sorts, flat, stream),
        [] => {
            let empty = LoadedText {
                module: None,
                bytes: Items::new(alloc),
                tokens: Items::new(alloc),
                modules: Items::new(alloc),
            };
            asked_in(alloc, checker, sorts, flat, &empty)
        }
    }
}
