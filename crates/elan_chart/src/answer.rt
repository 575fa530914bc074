//! The one reading of a text.

ghost use Rattle.std.specs.Prelude.{◌≡◌, ◌≤◌, true, IfOk, IfErr, length, map};
ghost use Rattle.std.specs.List.{All};
ghost use Rattle.elan_lexer.specs.Text.{IsInside};
ghost use Rattle.elan_program.specs.Soundness.{is_sound};
ghost use Rattle.elan_chart.specs.Answer as spec;
ghost use Rattle.elan_chart.specs.Chart as chart;
ghost use Rattle.elan_reading.specs.Lexemes.{lexeme_of, IsInRange};
ghost use Rattle.elan_reading.specs.Answers.{IsOnly, IsRefused};

use crate::chart::{Scope, rows};
use crate::operators::{blank, ends_onto, injections_onto, lasts_onto};
use elan_entries::found::{Entry, Found, Key, merged};
use elan_entries::lexemes::lexemes;
use elan_entries::shared::{Tree, to_owned};
use elan_lexer::Token;
use elan_program::Signature;
use elan_reading::{Lexeme, ReadingRefusal, Sought};
use elan_terms::Pattern;
use elan_text::NoMemory;
use elan_variables::Variables;
use sqlite_items::Items;
use std::alloc::Global;

fn is_sought(sought: Sought, key: Key) -> bool
    ensures { result ≡ spec.is_sought sought key }
{
    match key {
        Key::Rest(_, _, _) => false,
        Key::Whole(sort, _, injected) => match sought {
            Sought::Sort(s) => s.0 == sort.0,
            Sought::Any => !injected,
        },
    }
}

fn with(known: Option<Found>, more: Found) -> Found
    ensures { result ≡ spec.with_more known more }
{
    match known {
        None => more,
        Some(found) => merged(found, &more),
    }
}

/// What is found at all keys that are sought.
fn all_sought(alloc: Global, sought: Sought, entries: &[Entry]) -> Result<Option<Found>, NoMemory>
    ensures { IfOk result (λ f. f ≡ spec.all_sought sought None entries.now) }
{
    let mut found = None;
    for entry in entries {
        if is_sought(sought, entry.key) {
            found = Some(with(found, entry.found.again(alloc)?));
        }
    }
    Ok(found)
}

/// The one tree, where there is one.
fn only(alloc: Global, found: Option<Found>) -> Result<Pattern, ReadingRefusal>
    ensures ok { IfOk result (λ p. spec.IsThe found p) }
    ensures refused { IfErr result (λ e. spec.Refuses found e) }
{
    match found {
        None => Err(ReadingRefusal::None),
        Some(Found::Several) => Err(ReadingRefusal::Several),
        Some(Found::One(trees)) => first(alloc, trees.as_slice()),
    }
}

/// The first tree.
fn first(alloc: Global, trees: &[Tree]) -> Result<Pattern, ReadingRefusal>
    ensures ok { IfOk result (λ p. spec.IsFirst trees.now p) }
    ensures refused { IfErr result (λ e. spec.LacksFirst trees.now e) }
{
    match trees {
        [] => Err(ReadingRefusal::None),
        [tree, ..] => Ok(to_owned(alloc, tree)?),
    }
}

/// The longest run of the first row.
fn longest<'a>(rows: &'a [Items<Items<Entry>>]) -> &'a [Entry]
    ensures { result.now ≡ spec.longest rows.now }
{
    match rows {
        [] => &[],
        [row, ..] => match row.as_slice() {
            [] => &[],
            [_, ..] => match row.get(row.len() - 1) {
                None => &[],
                Some(run) => run.as_slice(),
            },
        },
    }
}

/// The one reading of the tokens: a tree at the sort that is sought; or, where any is, at some sort
/// with no injection outermost. The tokens are those of the bytes. The time is at most cubic in the
/// number of tokens, which is at most 256.
///
/// # Errors
///
/// `None` where there is no reading, `Several` where two differ, and `TooLong` where there are more
/// than 256 tokens.
#[tactic(auto, using(crate::proofs::AnswerLemmas::reads))]
pub fn read(
    alloc: Global,
    signature: &Signature,
    variables: &Variables,
    sought: Sought,
    bytes: &[u8],
    tokens: &[Token],
) -> Result<Pattern, ReadingRefusal>
    requires sound { is_sound signature.now ≡ true }
    requires inside { All (IsInside bytes.now) tokens.now }
    requires in_range { All IsInRange (map (lexeme_of bytes.now) tokens.now) }
    // What is answered is a reading, and no other tree is.
    ensures only { IfOk result (λ p. IsOnly signature.now variables.now
        (map (lexeme_of bytes.now) tokens.now) sought p) }
    ensures short { IfOk result (λ _. length tokens.now ≤ 256) }
    // Why there is not one.
    ensures refused { IfErr result (λ e. IsRefused signature.now variables.now
        (map (lexeme_of bytes.now) tokens.now) sought e) }
{
    if 256 < tokens.len() {
        return Err(ReadingRefusal::TooLong);
    }
    let lexemes = lexemes(alloc, bytes, tokens)?;
    let found = found_in(alloc, signature, variables, sought, lexemes.as_slice())?;
    only(alloc, found)
}

/// What the text is read as, of what is sought.
#[tactic(auto, using(crate::proofs::Bounded::few))]
fn found_in(
    alloc: Global,
    signature: &Signature,
    variables: &Variables,
    sought: Sought,
    lexemes: &[Lexeme],
) -> Result<Option<Found>, NoMemory>
    requires sound { is_sound signature.now ≡ true }
    requires in_range { All IsInRange lexemes.now }
    ensures { IfOk result (λ f. f ≡ spec.all_sought sought None (spec.longest (chart.rows
        (chart.scope_of signature.now variables.now lexemes.now) None lexemes.now))) }
{
    let operators = signature.operators.as_slice();
    let mut ends = Items::new(alloc);
    ends_onto(alloc, &mut ends, lexemes, 0, operators)?;
    let mut injections = blank(alloc, signature.sorts.as_slice())?;
    injections_onto(alloc, &mut injections, 0, operators)?;
    let mut lasts = blank(alloc, signature.sorts.as_slice())?;
    lasts_onto(alloc, &mut lasts, lexemes, 0, operators)?;
    let scope = Scope {
        signature,
        variables,
        ends: ends.as_slice(),
        injections: injections.as_slice(),
        lasts: lasts.as_slice(),
    };
    let rows = rows(alloc, scope, None, lexemes)?;
    all_sought(alloc, sought, longest(rows.as_slice()))
}
