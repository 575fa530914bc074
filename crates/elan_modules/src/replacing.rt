//! The sorts that stand for the parameters of a module, found by the parameters' names.

ghost use Rattle.std.specs.Prelude.{◌≡◌, ◌≤◌, ◌<◌, ◌++◌, ◌∷◌, [], ℕ, List, length, map, cond, slice_get, IfOk, OnOk, Some};
ghost use Rattle.std.specs.List.{list_any};
ghost use Rattle.elan_numbers.specs.Numbering.{is_called, with_name};
ghost use Rattle.elan_modules.specs.Replacing as replacing;
ghost use Rattle.elan_modules.specs.Sorts as spec;

use crate::sorts::separators_in;
use elan_numbers::Numbers;
use elan_text::{Name, NoMemory};
use sqlite_items::Items;
use std::alloc::Global;
use std::marker::Model;

/// The parameters of a module with the sorts that stand for them. A sort is found by its parameter without going
/// through the others.
#[derive(Drop)]
pub struct Replacements<'a> {
    parameters: &'a [Name],
    sorts: &'a [Name],
    /// The parameters that differ.
    known: Numbers,
    /// The sort that stands for each of them.
    values: Items<Name>,
    /// How many `[` and `,` each of these sorts has.
    counts: Vec<usize>,
}

impl<'a> Model for Replacements<'a> {
    ghost use Rattle.elan_modules.specs.Replacing.{Replacing, IsCounted};

    ghost Value = { Replacing };

    ghost view = { λ r. record { parameters = r.parameters.now; sorts = r.sorts.now } };

    ghost invariant = { λ r. IsCounted r.parameters.now r.sorts.now r.known r.values r.counts.items };
}

impl<'a> Replacements<'a> {
    /// The sorts that stand for these parameters, in order.
    pub fn new(
        alloc: Global,
        parameters: &'a [Name],
        sorts: &'a [Name],
    ) -> Result<Replacements<'a>, NoMemory>
        ensures { IfOk result (λ r. r ≡ replacing.replacing parameters.now sorts.now) }
    {
        let (known, values) = values_of(alloc, parameters, sorts)?;
        let counts = counts_of(alloc, values.as_slice())?;
        Ok(Replacements {
            parameters,
            sorts,
            known,
            values,
            counts,
        })
    }

    /// The sort that stands for a word which is a parameter; another word stands for itself.
    pub(crate) fn value_of<'b>(&'b self, word: &'b [u8]) -> &'b [u8]
        ensures { result.now ≡ spec.value_of self.now.parameters self.now.sorts word.now }
    {
        value_by(&self.known, self.values.as_slice(), word)
    }

    /// How many `[` and `,` the sort has that stands for a word. It does not go through that sort.
    pub(crate) fn separators_of(&self, word: &[u8]) -> usize
        ensures { result ≡ spec.separators
            (spec.value_of self.now.parameters self.now.sorts word.now) }
    {
        separators_by(
            &self.known,
            self.values.as_slice(),
            self.counts.as_slice(),
            word,
        )
    }
}

/// How many `[` and `,` the value of a word has, by the numbers of each value.
fn separators_by(known: &Numbers, values: &[Name], counts: &[usize], word: &[u8]) -> usize
    requires each { length known.now ≡ length values.now }
    requires counted { counts.now ≡ replacing.counts_of values.now }
    ensures { result ≡ spec.separators (spec.value_of known.now values.now word.now) }
{
    match known.number_of(word) {
        Some(number) => counts[number],
        None => separators_in(word),
    }
}

/// How many `[` and `,` each of these has.
fn counts_of(alloc: Global, values: &[Name]) -> Result<Vec<usize>, NoMemory>
    ensures { IfOk result (λ counts. counts.items ≡ replacing.counts_of values.now) }
{
    let mut counts = Vec::new(alloc);
    let mut left = values;
    'values: while let [value, rest @ ..] = left {
        counts.push(separators_in(value.as_bytes()))?;
        left = rest;
    }
    Ok(counts)
}

/// The value of a word that has a number; another word stands for itself.
fn value_by<'a>(known: &Numbers, values: &'a [Name], word: &'a [u8]) -> &'a [u8]
    requires { length known.now ≡ length values.now }
    ensures { result.now ≡ spec.value_of known.now values.now word.now }
{
    match known.number_of(word) {
        Some(number) => values[number].as_bytes(),
        None => word,
    }
}

/// The parameters that differ, and the sort that stands for each of them.
fn values_of(
    alloc: Global,
    parameters: &[Name],
    sorts: &[Name],
) -> Result<(Numbers, Items<Name>), NoMemory>
    ensures { IfOk result (λ pair. replacing.IsIndex parameters.now sorts.now pair.0 pair.1) }
{
    let mut known = Numbers::new(alloc);
    let mut values = Items::new(alloc);
    let (mut left, mut rest) = (parameters, sorts);
    'pairs: while let [parameter, others @ ..] = left {
        let [sort, more @ ..] = rest else {
            return Ok((known, values));
        };
        add_value(alloc, &mut known, &mut values, parameter, sort)?;
        left = others;
        rest = more;
    }
    Ok((known, values))
}

/// Adds a parameter and its sort, unless the parameter is there.
fn add_value(
    alloc: Global,
    known: &mut Numbers,
    values: &mut Items<Name>,
    parameter: &Name,
    sort: &Name,
) -> Result<(), NoMemory>
    ensures known { OnOk result (known.new ≡ with_name known.old parameter.now.bytes) }
    ensures values { OnOk result (values.new
        ≡ replacing.with_value known.old parameter.now values.old sort.now) }
{
    let name = parameter.as_bytes();
    if known.number_of(name).is_some() {
        return Ok(());
    }
    known.add(alloc, name)?;
    values.push(sort.copy(alloc)?)?;
    Ok(())
}
