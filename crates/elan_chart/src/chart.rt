//! The chart: what each run of a text is read as.

ghost use Rattle.std.specs.Prelude.{◌≡◌, ◌<◌, ◌^◌, [], IfOk, slice_get};
ghost use Rattle.std.specs.List.{All};
ghost use Rattle.std.specs.Option.{option_copied};
ghost use Rattle.elan_entries.specs.Found as found;
ghost use Rattle.elan_chart.specs.Chart as spec;
ghost use Rattle.elan_reading.specs.Lexemes.{IsInRange};

use crate::offers::{put_cut, put_groups, put_integer, put_lasts, put_risen, put_token, put_words};
use elan_entries::found::{Entry, put_all};
use elan_entries::lexemes::is_sign;
use elan_program::Signature;
use elan_reading::Lexeme;
use elan_terms::OpId;
use elan_text::{Name, NoMemory};
use elan_variables::Variables;
use sqlite_items::Items;
use std::alloc::Global;

/// What the runs are read by.
#[derive(Clone, Copy)]
pub(crate) struct Scope<'a> {
    pub signature: &'a Signature,
    pub variables: &'a Variables,
    /// The operators whose words are in the text, each behind its last piece.
    pub ends: &'a [Entry],
    /// The injections from each sort.
    pub injections: &'a [Items<OpId>],
    /// The operators of `ends` that end with a hole, by the sort of the last argument.
    pub lasts: &'a [Items<OpId>],
}

/// What injections make of a level, and of what they made, as often as there are sorts.
fn climb(
    alloc: Global,
    scope: Scope<'_>,
    sorts: &[Name],
    level: Items<Entry>,
    all: &mut Items<Entry>,
) -> Result<(), NoMemory>
    ensures { IfOk result (λ _. all.new ≡ spec.climb (spec.seen scope.entry) sorts.now level
        all.old) }
{
    let mut level = level;
    'levels: for _sort in sorts {
        if level.is_empty() {
            return Ok(());
        }
        let mut next = Items::new(alloc);
        put_risen(
            alloc,
            &mut next,
            scope.signature,
            scope.injections,
            level.as_slice(),
        )?;
        put_all(alloc, all, next.as_slice())?;
        level = next;
    }
    Ok(())
}

/// What is read from all cuts of a run: its fronts in the row so far, and what follows them in the
/// rows below.
fn put_cuts(
    alloc: Global,
    run: &mut Items<Entry>,
    scope: Scope<'_>,
    before: Option<&Lexeme>,
    row: &[Items<Entry>],
    below: &[Items<Items<Entry>>],
) -> Result<(), NoMemory>
    ensures { IfOk result (λ _. run.new ≡ found.put_all run.old (spec.cuts (spec.seen scope.entry)
        (option_copied before.entry) row.now below.now)) }
{
    match row {
        [] => Ok(()),
        [front, fronts @ ..] => match below {
            [] => Ok(()),
            [rests, others @ ..] => {
                put_front(alloc, run, scope, before, front, rests, fronts.len())?;
                put_cuts(alloc, run, scope, before, fronts, others)?;
                Ok(())
            }
        },
    }
}

/// What is read of a front and what follows it, where that is there.
fn put_front(
    alloc: Global,
    run: &mut Items<Entry>,
    scope: Scope<'_>,
    before: Option<&Lexeme>,
    front: &Items<Entry>,
    rests: &Items<Items<Entry>>,
    count: usize,
) -> Result<(), NoMemory>
    ensures { IfOk result (λ _. run.new ≡ found.put_all run.old (spec.cut_at (spec.seen
        scope.entry) (option_copied before.entry) front.now (slice_get rests.now count))) }
{
    match rests.get(count) {
        None => Ok(()),
        Some(rest) => put_cut(
            alloc,
            run,
            scope.signature,
            before,
            front.as_slice(),
            rest.as_slice(),
        ),
    }
}

/// The run that begins with the next token and is shorter by so many tokens.
fn run_in<'a>(below: &'a [Items<Items<Entry>>], count: usize) -> &'a [Entry]
    ensures { result.now ≡ spec.run_in below.now count }
{
    match below {
        [] => &[],
        [row, ..] => match row.get(count) {
            None => &[],
            Some(run) => run.as_slice(),
        },
    }
}

/// A minus before a number, or what is read between parentheses.
fn put_framed(
    alloc: Global,
    run: &mut Items<Entry>,
    scope: Scope<'_>,
    first: &Lexeme,
    last: &Lexeme,
    count: usize,
    below: &[Items<Items<Entry>>],
) -> Result<(), NoMemory>
    requires some { 0 < count }
    requires last_fits { IsInRange last.now }
    ensures { IfOk result (λ _. run.new ≡ found.put_all run.old (spec.framed (spec.seen
        scope.entry) first.now last.now count below.now)) }
{
    if count == 1 {
        if is_sign(45, first) {
            put_integer(alloc, run, scope.signature.int, true, last)
        } else {
            Ok(())
        }
    } else {
        put_groups(alloc, run, first, last, run_in(below, count - 2))
    }
}

/// What the next run of a row is read as, but for injections and last holes.
#[tactic(auto, using(elan_entries::proofs::PutLemmas::put_all_append))]
fn put_offers(
    alloc: Global,
    run: &mut Items<Entry>,
    scope: Scope<'_>,
    before: Option<&Lexeme>,
    first: &Lexeme,
    last: &Lexeme,
    row: &[Items<Entry>],
    below: &[Items<Items<Entry>>],
) -> Result<(), NoMemory>
    requires first_fits { IsInRange first.now }
    requires last_fits { IsInRange last.now }
    ensures { IfOk result (λ _. run.new ≡ found.put_all run.old (spec.offers (spec.seen
        scope.entry) (option_copied before.entry) first.now last.now row.now below.now)) }
{
    match row {
        [] => {
            put_token(alloc, run, scope.signature, scope.variables, first)?;
            put_words(alloc, run, scope.signature, before, first, scope.ends)
        }
        [_, ..] => {
            put_framed(alloc, run, scope, first, last, row.len(), below)?;
            let rests = run_in(below, row.len() - 1);
            put_words(alloc, run, scope.signature, before, first, rests)?;
            put_cuts(alloc, run, scope, before, row, below)
        }
    }
}

/// What the next run of a row is read as, but for last holes.
fn wholes(
    alloc: Global,
    scope: Scope<'_>,
    before: Option<&Lexeme>,
    first: &Lexeme,
    last: &Lexeme,
    row: &[Items<Entry>],
    below: &[Items<Items<Entry>>],
) -> Result<Items<Entry>, NoMemory>
    requires first_fits { IsInRange first.now }
    requires last_fits { IsInRange last.now }
    ensures { IfOk result (λ es. es ≡ spec.wholes (spec.seen scope.entry) (option_copied
        before.entry) first.now last.now row.now below.now) }
{
    let mut level = Items::new(alloc);
    put_offers(alloc, &mut level, scope, before, first, last, row, below)?;
    let mut all = Items::new(alloc);
    put_all(alloc, &mut all, level.as_slice())?;
    let sorts = scope.signature.sorts.as_slice();
    climb(alloc, scope, sorts, level, &mut all)?;
    Ok(all)
}

/// What the next run of a row is read as.
fn run(
    alloc: Global,
    scope: Scope<'_>,
    before: Option<&Lexeme>,
    first: &Lexeme,
    last: &Lexeme,
    row: &[Items<Entry>],
    below: &[Items<Items<Entry>>],
) -> Result<Items<Entry>, NoMemory>
    requires first_fits { IsInRange first.now }
    requires last_fits { IsInRange last.now }
    ensures { IfOk result (λ es. es ≡ spec.run (spec.seen scope.entry) (option_copied before.entry)
        first.now last.now row.now below.now) }
{
    let mut all = wholes(alloc, scope, before, first, last, row, below)?;
    let mut more = Items::new(alloc);
    put_lasts(
        alloc,
        &mut more,
        scope.signature,
        before,
        scope.lasts,
        all.as_slice(),
    )?;
    put_all(alloc, &mut all, more.as_slice())?;
    Ok(all)
}

/// The runs that begin with the first of these tokens, by length.
fn row(
    alloc: Global,
    scope: Scope<'_>,
    before: Option<&Lexeme>,
    first: &Lexeme,
    tokens: &[Lexeme],
    below: &[Items<Items<Entry>>],
) -> Result<Items<Items<Entry>>, NoMemory>
    requires first_fits { IsInRange first.now }
    requires fit { All IsInRange tokens.now }
    ensures { IfOk result (λ es. es ≡ spec.row (spec.seen scope.entry) (option_copied before.entry)
        first.now tokens.now below.now []) }
{
    let mut row = Items::new(alloc);
    for last in tokens {
        let next = run(alloc, scope, before, first, last, row.as_slice(), below)?;
        row.push(next)?;
    }
    Ok(row)
}

/// The rows of all tokens, the first token's first.
pub(crate) fn rows(
    alloc: Global,
    scope: Scope<'_>,
    before: Option<&Lexeme>,
    tokens: &[Lexeme],
) -> Result<Vec<Items<Items<Entry>>>, NoMemory>
    requires { All IsInRange tokens.now }
    ensures { IfOk result (λ v. v.items ≡ spec.rows (spec.seen scope.entry) (option_copied
        before.entry) tokens.now) }
{
    match tokens {
        [] => Ok(Vec::new(alloc)),
        [first, rest @ ..] => {
            let mut below = rows(alloc, scope, Some(first), rest)?;
            let row = row(alloc, scope, before, first, tokens, below.as_slice())?;
            below.insert(0, row)?;
            Ok(below)
        }
    }
}
