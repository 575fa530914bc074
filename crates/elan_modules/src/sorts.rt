//! Sort expressions by their tokens, and the sorts that stand for the parameters in them.

ghost use Rattle.std.specs.Prelude.{◌≡◌, ◌≤◌, ◌<◌, ◌++◌, ◌+◌, ℕ, List, length, IfOk, OnOk, Some, slice_get, slice_range, nat_lt, map};
ghost use Rattle.elan_lexer.specs.Text.{token_text};
ghost use Rattle.elan_modules.specs.Sorts as spec;

use crate::flat::LoadedText;
use crate::replacing::Replacements;
use elan_lexer::Token;
use elan_syntax::Span;
use elan_text::{Name, NoMemory, Place};
use sqlite_items::Items;
use std::alloc::{AllocError, Global};

/// How many names a sort expression may have.
const MOST_NAMES: usize = 64;

/// The items from one number up to another, or those of them that there are.
pub fn part<T>(items: &[T], first: usize, past: usize) -> &[T]
    ensures { result.now ≡ slice_range items.now first past }
{
    let (_, rest) = items.split_at(first.min(items.len()));
    let count = past.saturating_sub(first);
    rest.split_at(count.min(rest.len())).0
}

/// The bytes of a token.
pub fn word<'a>(bytes: &'a [u8], token: &Token) -> &'a [u8]
    ensures { result.now ≡ token_text bytes.now token.now }
{
    part(bytes, token.start as usize, token.end as usize)
}

/// The bytes of the token of a number, or none where there is no such token.
pub fn word_at(text: &LoadedText, number: u32) -> &[u8]
    ensures { result.now ≡ spec.word_at text.now number }
{
    match text.tokens.get(number as usize) {
        Some(token) => word(text.bytes.as_slice(), token),
        None => &[],
    }
}

/// The place of the token of a number, or that of the first byte where there is no such token.
pub fn place_at(text: &LoadedText, number: u32) -> Place
    ensures { result ≡ spec.place_at text.now number }
{
    match text.tokens.get(number as usize) {
        Some(token) => token.at,
        None => Place { line: 1, column: 1 },
    }
}

/// Whether the first of these tokens is `[`.
fn opens(bytes: &[u8], tokens: &[Token]) -> bool
    ensures { result ≡ spec.opens (map (token_text bytes.now) tokens.now) }
{
    match tokens {
        [token, ..] => word(bytes, token) == b"[".as_slice(),
        [] => false,
    }
}

/// What is written for a token of a sort expression, behind which these stand.
fn value_at<'a>(
    bytes: &'a [u8],
    replacements: &'a Replacements<'_>,
    token: &Token,
    rest: &[Token],
) -> &'a [u8]
    ensures { result.now ≡ spec.value_at replacements.now.parameters replacements.now.sorts
        (token_text bytes.now token.now) (map (token_text bytes.now) rest.now) }
{
    let word = word(bytes, token);
    if opens(bytes, rest) {
        word
    } else {
        replacements.value_of(word)
    }
}

/// The written form of the sort expression of a span, with the parameters replaced. Each word is looked up once,
/// and the replacements serve all sort expressions of a module.
pub fn written_by(
    alloc: Global,
    text: &LoadedText,
    replacements: &Replacements<'_>,
    span: Span,
) -> Result<Name, NoMemory>
    ensures { IfOk result (λ name. name.bytes
        ≡ spec.written text.now replacements.now.parameters replacements.now.sorts span) }
{
    let tokens = part(
        text.tokens.as_slice(),
        span.first as usize,
        span.past as usize,
    );
    let mut found = Vec::new(alloc);
    write_words(&mut found, text.bytes.as_slice(), replacements, tokens)?;
    Ok(Name {
        bytes: Items::from_vec(found),
    })
}

/// Puts the words of these tokens behind what is there, with the parameters replaced.
#[tactic(auto, unfolding(crate::specs::Sorts::replaced))]
fn write_words(
    found: &mut Vec<u8>,
    bytes: &[u8],
    replacements: &Replacements<'_>,
    tokens: &[Token],
) -> Result<(), NoMemory>
    ensures { OnOk result (found.new.items ≡ found.old.items
        ++ spec.replaced replacements.now.parameters replacements.now.sorts
        (map (token_text bytes.now) tokens.now)) }
{
    let mut left = tokens;
    'words: while let [token, rest @ ..] = left {
        found.extend_from_slice(value_at(bytes, &*replacements, token, rest))?;
        left = rest;
    }
    Ok(())
}

/// Whether a sort expression has too many names once the parameters are replaced. It is not written for this.
pub(crate) fn is_long(text: &LoadedText, replacements: &Replacements<'_>, span: Span) -> bool
    ensures { result ≡ nat_lt spec.most_names (spec.names_in
        (spec.written text.now replacements.now.parameters replacements.now.sorts span)) }
{
    let tokens = part(
        text.tokens.as_slice(),
        span.first as usize,
        span.past as usize,
    );
    has_many(text.bytes.as_slice(), replacements, tokens)
}

/// Whether what is written for these tokens has too many names.
#[tactic(auto, unfolding(crate::specs::Sorts::replaced), using(crate::proofs::SortLemmas::separators_append, crate::proofs::SortLemmas::names_are))]
fn has_many(bytes: &[u8], replacements: &Replacements<'_>, tokens: &[Token]) -> bool
    ensures { result ≡ nat_lt spec.most_names (spec.names_in
        (spec.replaced replacements.now.parameters replacements.now.sorts
        (map (token_text bytes.now) tokens.now))) }
{
    let mut count = 0;
    let mut left = tokens;
    'words: while let [token, rest @ ..] = left {
        let more = separators_at(bytes, replacements, token, rest);
        if more >= MOST_NAMES - count {
            return true;
        }
        count += more;
        left = rest;
    }
    false
}

/// How many `[` and `,` there are in what is written for a token, behind which these stand.
fn separators_at(
    bytes: &[u8],
    replacements: &Replacements<'_>,
    token: &Token,
    rest: &[Token],
) -> usize
    ensures { result ≡ spec.separators (spec.value_at
        replacements.now.parameters replacements.now.sorts
        (token_text bytes.now token.now) (map (token_text bytes.now) rest.now)) }
{
    let word = word(bytes, token);
    if opens(bytes, rest) {
        separators_in(word)
    } else {
        replacements.separators_of(word)
    }
}

/// How many `[` and `,` there are.
#[tactic(auto, unfolding(crate::specs::Sorts::separators))]
pub(crate) fn separators_in(written: &[u8]) -> usize
    ensures value { result ≡ spec.separators written.now }
    ensures few { result ≤ length written.now }
{
    let mut count = 0;
    let mut left = written;
    'bytes: while let [byte, rest @ ..] = left {
        if *byte == b'[' || *byte == b',' {
            count += 1;
        }
        left = rest;
    }
    count
}

/// The arguments of a reference, in order.
#[tactic(auto, using(crate::proofs::SortLemmas::drop_words))]
pub fn argument_spans(alloc: Global, text: &LoadedText, span: Span) -> Result<Items<Span>, NoMemory>
    ensures { IfOk result (λ spans. spans ≡ spec.argument_spans text.now span) }
{
    let tokens = part(
        text.tokens.as_slice(),
        span.first as usize,
        span.past as usize,
    );
    let behind = part(tokens, 2, tokens.len());
    let start = next(next(span.first)?)?;
    arguments_from(alloc, text.bytes.as_slice(), start, behind)
}

/// The number after this one.
fn next(number: u32) -> Result<u32, NoMemory>
    ensures { IfOk result (λ n. n ≡ number + 1) }
{
    number.checked_add(1).ok_or(AllocError)
}

/// The arguments that stand from a token of this number on, up to the `]` that closes them.
#[tactic(auto, unfolding(crate::specs::Sorts::arguments_from))]
fn arguments_from(
    alloc: Global,
    bytes: &[u8],
    start: u32,
    tokens: &[Token],
) -> Result<Items<Span>, NoMemory>
    ensures { IfOk result (λ spans. spans
        ≡ spec.arguments_from start start 0 (map (token_text bytes.now) tokens.now)) }
{
    let mut found = Items::new(alloc);
    let mut at = start;
    let mut first = start;
    let mut depth = 0;
    let mut left = tokens;
    'words: while let [token, rest @ ..] = left {
        let word = word(bytes, token);
        if word == b"[".as_slice() {
            depth = next(depth)?;
        } else if word == b"]".as_slice() {
            if depth == 0 {
                found.push(Span { first, past: at })?;
                return Ok(found);
            }
            depth -= 1;
        } else if word == b",".as_slice() && depth == 0 {
            found.push(Span { first, past: at })?;
            first = next(at)?;
        }
        at = next(at)?;
        left = rest;
    }
    Ok(found)
}
