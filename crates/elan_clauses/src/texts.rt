//! Texts as patterns, and which variables they may have.

ghost use Rattle.std.specs.Prelude.{◌≡◌, ◌<◌, ◌^◌, true, length, map, slice_range, slice_get, Some, None, Ok, Err, IfOk};
ghost use Rattle.std.specs.List.{All};
ghost use Rattle.elan_lexer.specs.Text.{IsInside};
ghost use Rattle.elan_program.specs.Soundness.{is_sound};
ghost use Rattle.elan_reading.specs.Lexemes.{lexeme_of, IsInRange};
ghost use Rattle.elan_names.specs.Indexed.{IsIndexOf};
ghost use Rattle.elan_clauses.specs.Gives.{Gives};
ghost use Rattle.elan_clauses.specs.Readable.{IsReadable};
ghost use Rattle.elan_clauses.specs.Texts as spec;

use crate::reading::{Read, Unread};
use crate::refusing::refused;
use elan_lexer::Token;
use elan_modules::{LoadedText, part};
use elan_names::{Index, Names};
use elan_program::{Operator, Signature, Truth};
use elan_reading::Sought;
use elan_syntax::Span;
use elan_terms::{OpId, Pattern, PatternNode, SortId};
use elan_text::{Code, Stop};
use elan_variables::Variables;
use std::alloc::Global;

/// What texts and strategies are checked by.
#[derive(Drop)]
pub struct Around<'a, R> {
    pub reader: &'a R,
    pub signature: &'a Signature,
    pub names: &'a Names,
    pub index: &'a Index,
    pub text: &'a LoadedText,
    pub variables: &'a Variables,
    pub ghost indexed: { IsIndexOf index.now names.now signature.now.operators },
}

/// A value, or the refusal at the first token of a text.
fn at_text<A>(alloc: Global, text: &LoadedText, at: Span, found: Result<A, Code>) -> Result<A, Stop>
    ensures { Gives result (spec.at_text text.now at found) }
{
    match found {
        Ok(value) => Ok(value),
        Err(code) => Err(refused(alloc, text, at.first, code)),
    }
}

/// Nothing, or the refusal of a text for which a test holds.
fn unless(alloc: Global, text: &LoadedText, at: Span, code: Code, bad: bool) -> Result<(), Stop>
    ensures { Gives result (spec.unless text.now at code bad tt) }
{
    if bad {
        Err(refused(alloc, text, at.first, code))
    } else {
        Ok(())
    }
}

/// The tokens of a span, which may be read as the whole text may.
#[tactic(auto, using(crate::proofs::ReadableLemmas::inside_part, crate::proofs::ReadableLemmas::in_range_part))]
fn run_at(text: &LoadedText, at: Span) -> &[Token]
    requires { IsReadable text.now }
    ensures tokens { result.now ≡ slice_range text.now.tokens at.first at.past }
    ensures inside { All (IsInside text.now.bytes) result.now }
    ensures in_range { All IsInRange (map (lexeme_of text.now.bytes) result.now) }
{
    part(text.tokens.as_slice(), at.first as usize, at.past as usize)
}

/// A text at a sort, or at any.
pub fn text_as<R: Read>(
    alloc: Global,
    around: &Around<'_, R>,
    sought: Sought,
    at: Span,
) -> Result<Pattern, Stop>
    requires sound { is_sound around.now.signature.now ≡ true }
    requires readable { IsReadable around.now.text.now }
    ensures { let a = around.now in
        Gives result (spec.text_as (R.reads a.reader.now) a.signature.now a.text.now
        a.variables.now sought at) }
{
    let text = around.text;
    let tokens = run_at(text, at);
    match around.reader.read(
        alloc,
        around.signature,
        around.variables,
        sought,
        text.bytes.as_slice(),
        tokens,
    ) {
        Ok(pattern) => Ok(pattern),
        Err(Unread::Refused(code)) => Err(refused(alloc, text, at.first, code)),
        Err(Unread::NoMemory) => Err(Stop::NoMemory),
    }
}

/// A text as a truth value, which has no reading where there are none.
pub(crate) fn truth_as<R: Read>(
    alloc: Global,
    around: &Around<'_, R>,
    at: Span,
) -> Result<Pattern, Stop>
    requires sound { is_sound around.now.signature.now ≡ true }
    requires readable { IsReadable around.now.text.now }
    ensures { let a = around.now in
        Gives result (spec.truth_as (R.reads a.reader.now) a.signature.now a.text.now
        a.variables.now a.signature.now.truth at) }
{
    match &around.signature.truth {
        Some(truth) => text_as(alloc, around, Sought::Sort(truth.sort), at),
        None => {
            let text = around.text;
            let tokens = part(text.tokens.as_slice(), at.first as usize, at.past as usize);
            let code = if 256 < tokens.len() {
                Code::E17
            } else {
                Code::E15
            };
            Err(refused(alloc, text, at.first, code))
        }
    }
}

/// The sort of an operator, if it is there.
fn made_by(operators: &[Operator], op: OpId) -> Option<SortId>
    ensures { result ≡ spec.made_by (slice_get operators.now op.0) }
{
    match operators.get(op.0 as usize) {
        None => None,
        Some(operator) => Some(operator.sort),
    }
}

/// The sort of a pattern, by its outermost node.
#[tactic(auto, using(crate::proofs::TextLemmas::head_rules))]
fn head_sort(signature: &Signature, pattern: &Pattern) -> Option<SortId>
    ensures { result ≡ spec.head_sort signature.now pattern.now.node }
{
    match &pattern.node {
        PatternNode::Var(_, sort) => Some(*sort),
        PatternNode::Int(_) => signature.int,
        PatternNode::App(op, _) => made_by(signature.operators.as_slice(), *op),
    }
}

/// The sort of what was read, which is always there.
pub(crate) fn sort_of(
    alloc: Global,
    signature: &Signature,
    text: &LoadedText,
    at: Span,
    pattern: &Pattern,
) -> Result<SortId, Stop>
    ensures { Gives result (spec.sort_of signature.now text.now at pattern.now) }
{
    match head_sort(signature, pattern) {
        Some(sort) => Ok(sort),
        None => Err(refused(alloc, text, at.first, Code::E15)),
    }
}
