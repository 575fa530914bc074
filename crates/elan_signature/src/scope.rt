//! A module of a text, with the sorts that stand for its parameters.

ghost use Rattle.std.specs.Prelude.{◌≡◌, ◌≤◌, ◌++◌, ◌∷◌, [], length, IfOk};
ghost use Rattle.elan_signature.specs.Declarations as spec;
ghost use Rattle.elan_signature.specs.Outcomes.{Gives, Is, itself, refusal_at as refusal_in};
ghost use Rattle.elan_numbers.specs.Numbering.{number_of};

use crate::outcome::refusal_at;
use elan_modules::{LoadedText, Replacements, written_by};
use elan_numbers::Numbers;
use elan_syntax::Span;
use elan_terms::SortId;
use elan_text::{Code, NoMemory, Stop};
use sqlite_items::Items;
use std::alloc::{AllocError, Global};
use std::marker::Model;

/// A module of a text, with the sorts that stand for its parameters.
#[derive(Drop)]
pub(crate) struct Scope<'a> {
    text: &'a LoadedText,
    replacements: &'a Replacements<'a>,
    /// All sorts by their numbers.
    sorts: &'a Numbers,
    /// All sorts as they are counted for the limit.
    counted: &'a Numbers,
}

impl<'a> Model for Scope<'a> {
    ghost use Rattle.elan_signature.specs.Declarations as spec;
    ghost use Rattle.elan_phrases.specs.contracts.plan.Plan as plan;
    ghost use Rattle.std.specs.Coded.{codes};

    ghost Value = { spec.Scope };

    ghost coded = { Prim.hlevel (codes, plan.the_row.coded) };

    ghost view = { λ c. record {
      text = c.text.now;
      parameters = c.replacements.now.parameters;
      args = c.replacements.now.sorts;
      sorts = c.sorts.now;
      counted = c.counted.now;
    } };

    ghost invariant = { λ c. Unit {0} };
}

/// What a walk has before it: all texts, and all sorts.
#[derive(Drop)]
pub(crate) struct World<'a> {
    texts: &'a [LoadedText],
    /// All sorts by their numbers.
    sorts: &'a Numbers,
    /// All sorts as they are counted for the limit.
    counted: &'a Numbers,
}

impl<'a> Model for World<'a> {
    ghost use Rattle.elan_signature.specs.Declarations as spec;
    ghost use Rattle.elan_phrases.specs.contracts.plan.Plan as plan;
    ghost use Rattle.std.specs.Coded.{codes};

    ghost Value = { spec.World };

    ghost coded = { Prim.hlevel (codes, plan.the_row.coded) };

    ghost view = { λ w. record {
      texts = w.texts.now;
      sorts = w.sorts.now;
      counted = w.counted.now;
    } };

    ghost invariant = { λ w. Unit {0} };
}

impl<'a> World<'a> {
    /// What a walk through these texts has before it.
    pub(crate) fn new(
        texts: &'a [LoadedText],
        sorts: &'a Numbers,
        counted: &'a Numbers,
    ) -> World<'a>
        ensures { result ≡ record { texts = texts.now; sorts = sorts.now; counted = counted.now } }
    {
        World {
            texts,
            sorts,
            counted,
        }
    }

    /// All texts.
    pub(crate) fn texts(&self) -> &'a [LoadedText]
        ensures { result.now ≡ self.now.texts }
    {
        self.texts
    }

    /// A module of a text.
    pub(crate) fn scope(
        &self,
        text: &'a LoadedText,
        replacements: &'a Replacements<'a>,
    ) -> Scope<'a>
        ensures { result ≡ spec.scope_of self.now text.now
            replacements.now.parameters replacements.now.sorts }
    {
        Scope {
            text,
            replacements,
            sorts: self.sorts,
            counted: self.counted,
        }
    }
}

/// The sort of a number, or the refusal at a token.
fn known_at(
    alloc: Global,
    text: &LoadedText,
    first: u32,
    number: Option<usize>,
) -> Result<SortId, Stop>
    ensures { Gives itself result (spec.known_at text.now first number) }
{
    match number {
        Some(number) => Ok(SortId(u32::try_from(number).map_err(|_| AllocError)?)),
        None => Err(refusal_at(alloc, text, Code::E10, first)),
    }
}

impl<'a> Scope<'a> {
    /// The text.
    pub(crate) fn text(&self) -> &'a LoadedText
        ensures { result.now ≡ self.now.text }
    {
        self.text
    }

    /// The refusal at a token.
    pub(crate) fn refusal(&self, alloc: Global, code: Code, number: u32) -> Stop
        ensures { Is (refusal_in self.now.text code number) result }
    {
        refusal_at(alloc, self.text, code, number)
    }

    /// The sort of a sort expression.
    pub(crate) fn sort_at(&self, alloc: Global, span: Span) -> Result<SortId, Stop>
        ensures { Gives itself result (spec.sort_at self.now span) }
    {
        let name = written_by(alloc, self.text, self.replacements, span)?;
        let number = self.sorts.number_of(name.as_bytes());
        known_at(alloc, self.text, span.first, number)
    }

    /// The sorts of sort expressions.
    #[tactic(auto, unfolding(crate::specs::Declarations::sorts_at))]
    pub(crate) fn sorts_at(&self, alloc: Global, spans: &[Span]) -> Result<Items<SortId>, Stop>
        ensures { Gives itself result (spec.sorts_at self.now [] spans.now) }
    {
        let mut found = Items::new(alloc);
        let mut left = spans;
        'spans: while let [span, rest @ ..] = left {
            found.push(self.sort_at(alloc, *span)?)?;
            left = rest;
        }
        Ok(found)
    }

    /// The number of the sort of a sort expression among those that are counted.
    pub(crate) fn counted_at(&self, alloc: Global, span: Span) -> Result<Option<usize>, NoMemory>
        ensures { IfOk result (λ n. n ≡ number_of (spec.sort_text self.now span) self.now.counted) }
    {
        let name = written_by(alloc, self.text, self.replacements, span)?;
        Ok(self.counted.number_of(name.as_bytes()))
    }
}
