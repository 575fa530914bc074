//! One level of the engine: rules on a term, and a node on its own.

ghost use Rattle.std.specs.Prelude.{◌≡◌, ◌++◌, IfOk, IsTrue};
ghost use Rattle.elan_terms.specs.Valid.{IsValid};
ghost use Rattle.elan_terms.specs.Canonical.{IsCanonical};
ghost use Rattle.std.specs.List.{flat_map};
ghost use Rattle.elan_plain.specs.Engine.{Gives, IsWorld, asked, first, under};
ghost use Rattle.elan_plain.specs.Level as spec;

use crate::builtin::reduced;
use crate::lists::{first, mark};
use crate::matching::{is_direct, is_fit};
use crate::{Ask, World};
use elan_fits::Walk;
use elan_meaning::{Cause, Item};
use elan_program::Rule;
use elan_terms::{Term, is_deeper};
use elan_text::NoMemory;
use sqlite_items::Items;
use std::alloc::Global;

/// How deep a term may be.
pub(crate) const MAX_DEPTH: u32 = 2000;

/// A level of the engine. The function gives the lists of the meaning below this level.
#[derive(Clone, Copy)]
pub struct Level<F> {
    pub alloc: Global,
    pub level: u32,
    pub below: F,
}

impl<F: Fn(Global, u32, &World<'_>, Ask<'_>, u32) -> Result<Items<Item>, NoMemory>> Level<F> {
    pub(crate) fn ask(
        &self,
        world: &World<'_>,
        ask: Ask<'_>,
        n: u32,
    ) -> Result<Items<Item>, NoMemory>
        requires lower { Gives self.now.level (F.pre self.now.below) (F.post self.now.below) }
        requires world { IsWorld world.now }
        ensures { IfOk result (λ items.
            items ≡ asked world.now.program.now (under world.now self.now.level) ask.entry n) }
    {
        (self.below)(self.alloc, self.level, world, ask, n)
    }

    fn taken_up(
        &self,
        world: &World<'_>,
        rule: &Rule,
        n: u32,
        values: &[Term],
    ) -> Result<Items<Item>, NoMemory>
        requires lower { Gives self.now.level (F.pre self.now.below) (F.post self.now.below) }
        requires world { IsWorld world.now }
        ensures { IfOk result (λ items.
            items ≡ spec.taken_up world.now self.now.level rule.now n values.now) }
    {
        if n == 0 {
            mark(self.alloc, Cause::Steps)
        } else {
            self.ask(world, Ask::Body(rule, values), n - 1)
        }
    }

    fn all_taken_up(
        &self,
        world: &World<'_>,
        rule: &Rule,
        n: u32,
        all: Items<Items<Term>>,
    ) -> Result<Items<Item>, NoMemory>
        requires lower { Gives self.now.level (F.pre self.now.below) (F.post self.now.below) }
        requires world { IsWorld world.now }
        ensures { IfOk result (λ items.
            items ≡ flat_map (spec.taken_up world.now self.now.level rule.now n) all) }
    {
        let mut out = Items::new(self.alloc);
        for values in all.as_slice() {
            let items = self.taken_up(world, rule, n, values.as_slice())?;
            out.append(items)?;
        }
        Ok(out)
    }

    /// What a rule gives on a term.
    #[tactic(auto, unfolding(elan_meaning::specs::Meaning::apply))]
    pub(crate) fn apply(
        &self,
        world: &World<'_>,
        rule: &Rule,
        term: &Term,
        n: u32,
    ) -> Result<Items<Item>, NoMemory>
        requires lower { Gives self.now.level (F.pre self.now.below) (F.post self.now.below) }
        requires world { IsWorld world.now }
        ensures { IfOk result (λ items.
            items ≡ spec.apply world.now self.now.level rule.now term.now n) }
    {
        let all = world.matches(self.alloc, &rule.left, 0, term)?;
        self.all_taken_up(world, rule, n, all)
    }

    /// The first item that a rule gives under a match, if it gives any.
    fn first_taken_up(
        &self,
        world: &World<'_>,
        rule: &Rule,
        n: u32,
        values: &[Term],
    ) -> Result<Option<Item>, NoMemory>
        requires lower { Gives self.now.level (F.pre self.now.below) (F.post self.now.below) }
        requires world { IsWorld world.now }
        ensures { IfOk result (λ item.
            item ≡ first (spec.taken_up world.now self.now.level rule.now n values.now)) }
    {
        let items = self.taken_up(world, rule, n, values)?;
        first(self.alloc, items.as_slice())
    }

    /// The first item that a rule gives under one of these matches, if any gives one.
    #[tactic(auto, using(crate::proofs::LevelLemmas::firsts))]
    fn first_under(
        &self,
        world: &World<'_>,
        rule: &Rule,
        n: u32,
        all: &[Items<Term>],
    ) -> Result<Option<Item>, NoMemory>
        requires lower { Gives self.now.level (F.pre self.now.below) (F.post self.now.below) }
        requires world { IsWorld world.now }
        ensures { IfOk result (λ item.
            item ≡ first (flat_map (spec.taken_up world.now self.now.level rule.now n) all.now)) }
    {
        for values in all {
            if let Some(item) = self.first_taken_up(world, rule, n, values.as_slice())? {
                return Ok(Some(item));
            }
        }
        Ok(None)
    }

    /// The first item that a rule gives under one of the matches that are left to a walk.
    #[tactic(auto, using(crate::proofs::LevelLemmas::firsts))]
    fn first_on(
        &self,
        world: &World<'_>,
        rule: &Rule,
        n: u32,
        walk: Walk<'_>,
    ) -> Result<Option<Item>, NoMemory>
        requires lower { Gives self.now.level (F.pre self.now.below) (F.post self.now.below) }
        requires world { IsWorld world.now }
        ensures { IfOk result (λ item.
            item ≡ first (flat_map (spec.taken_up world.now self.now.level rule.now n) walk.entry)) }
    {
        let mut walk = walk;
        while let Some(values) = walk.next(self.alloc)? {
            if let Some(item) = self.first_taken_up(world, rule, n, values.as_slice())? {
                return Ok(Some(item));
            }
        }
        Ok(None)
    }

    /// The first item that a rule gives on a valid canonical term, one match at a time.
    #[tactic(auto, using(crate::proofs::LevelLemmas::firsts), unfolding(elan_meaning::specs::Meaning::apply))]
    fn first_matched(
        &self,
        world: &World<'_>,
        rule: &Rule,
        term: &Term,
        n: u32,
    ) -> Result<Option<Item>, NoMemory>
        requires lower { Gives self.now.level (F.pre self.now.below) (F.post self.now.below) }
        requires world { IsWorld world.now }
        requires valid { IsValid world.now.shapes term.now }
        requires canonical { IsCanonical world.now.shapes term.now }
        ensures { IfOk result (λ item.
            item ≡ first (spec.apply world.now self.now.level rule.now term.now n)) }
    {
        if is_direct(self.alloc, &world.shapes, &rule.left, 0)? {
            let all = world.matches(self.alloc, &rule.left, 0, term)?;
            return self.first_under(world, rule, n, all.as_slice());
        }
        let walk = Walk::new(self.alloc, &world.shapes, &rule.left, &*term)?;
        self.first_on(world, rule, n, walk)
    }

    /// The first item that a rule gives on a term, if it gives any. Where `fit` is true, the term is
    /// valid and canonical.
    #[tactic(auto, unfolding(elan_meaning::specs::Meaning::apply, crate::specs::Engine::apply_on))]
    fn first_item(
        &self,
        world: &World<'_>,
        rule: &Rule,
        fit: bool,
        term: &Term,
        n: u32,
    ) -> Result<Option<Item>, NoMemory>
        requires lower { Gives self.now.level (F.pre self.now.below) (F.post self.now.below) }
        requires world { IsWorld world.now }
        requires fit { IsTrue fit → IsValid world.now.shapes term.now
            × IsCanonical world.now.shapes term.now }
        ensures { IfOk result (λ item.
            item ≡ first (spec.apply_on world.now self.now.level term.now n rule.now)) }
    {
        if fit {
            return self.first_matched(world, rule, term, n);
        }
        let all = world.matches(self.alloc, &rule.left, 0, term)?;
        self.first_under(world, rule, n, all.as_slice())
    }

    /// The first item of the first of these rules that gives any.
    #[tactic(auto, using(crate::proofs::LevelLemmas::firsts))]
    fn tried(
        &self,
        world: &World<'_>,
        rules: &[Rule],
        term: &Term,
        n: u32,
    ) -> Result<Option<Item>, NoMemory>
        requires lower { Gives self.now.level (F.pre self.now.below) (F.post self.now.below) }
        requires world { IsWorld world.now }
        ensures { IfOk result (λ item. item ≡ first (flat_map
            (spec.apply_on world.now self.now.level term.now n) rules.now)) }
    {
        let fit = is_fit(&world.shapes, term);
        for rule in rules {
            if let Some(item) = self.first_item(world, rule, fit, term, n)? {
                return Ok(Some(item));
            }
        }
        Ok(None)
    }

    /// The one item of a canonical node.
    #[tactic(auto, using(crate::proofs::LevelLemmas::settling))]
    pub(crate) fn of_node(&self, world: &World<'_>, term: Term, n: u32) -> Result<Item, NoMemory>
        requires lower { Gives self.now.level (F.pre self.now.below) (F.post self.now.below) }
        requires world { IsWorld world.now }
        ensures { IfOk result (λ i. i ≡ spec.of_node world.now self.now.level term n) }
    {
        if is_deeper(&term, MAX_DEPTH) {
            return Ok(Item::Mark(Cause::Depth));
        }
        let value = reduced(self.alloc, world.program.signature(), term);
        match self.tried(world, world.program.unlabelled(), &value, n)? {
            Some(item) => Ok(item),
            None => Ok(Item::Res(value, n)),
        }
    }
}
