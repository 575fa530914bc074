//! The conditions of a rule, and its right side under each assignment that meets them.

ghost use Rattle.std.specs.Prelude.{◌≡◌, ◌∷◌, ◌++◌, IfOk};
ghost use Rattle.std.specs.List.{flat_map};
ghost use Rattle.elan_meaning.specs.Items.{rows_of};
ghost use Rattle.elan_plain.specs.Engine.{Gives, IsWorld, under};
ghost use Rattle.elan_plain.specs.Level as spec;

use crate::builtin::is_true;
use crate::lists::{joined, met, stop};
use crate::{Ask, Level, World};
use elan_meaning::{Entry, Item};
use elan_program::{Clause, Rule, Strategy};
use elan_terms::{Pattern, Term};
use elan_text::NoMemory;
use sqlite_items::Items;
use std::alloc::Global;

impl<F: Fn(Global, u32, &World<'_>, Ask<'_>, u32) -> Result<Items<Item>, NoMemory>> Level<F> {
    #[cycle(clauses)]
    #[tactic(auto, using(crate::proofs::LevelLemmas::conditions))]
    fn clauses(
        &self,
        world: &World<'_>,
        clauses: &[Clause],
        values: &[Term],
        n: u32,
    ) -> Result<Items<Entry>, NoMemory>
        requires lower { Gives self.now.level (F.pre self.now.below) (F.post self.now.below) }
        requires world { IsWorld world.now }
        ensures { IfOk result (λ es.
            es ≡ spec.clauses world.now self.now.level clauses.now values.now n) }
    {
        match clauses {
            [] => met(self.alloc, values, n),
            [first, rest @ ..] => self.clause(world, first, rest, values, n),
        }
    }

    #[cycle(clauses)]
    #[tactic(auto, using(crate::proofs::LevelLemmas::conditions))]
    fn clause(
        &self,
        world: &World<'_>,
        first: &Clause,
        rest: &[Clause],
        values: &[Term],
        n: u32,
    ) -> Result<Items<Entry>, NoMemory>
        requires lower { Gives self.now.level (F.pre self.now.below) (F.post self.now.below) }
        requires world { IsWorld world.now }
        ensures { IfOk result (λ es.
            es ≡ spec.clauses world.now self.now.level (first.now ∷ rest.now) values.now n) }
    {
        match first {
            Clause::If(test) => {
                let item = self.normal(world, test, values, n)?;
                self.if_true(world, item, rest, values)
            }
            Clause::Where { left, by, of } => {
                let item = self.normal(world, of, values, n)?;
                self.if_result(world, item, left, by, rest, values)
            }
        }
    }

    #[cycle(clauses)]
    #[tactic(auto, using(crate::proofs::LevelLemmas::conditions))]
    fn if_true(
        &self,
        world: &World<'_>,
        item: Item,
        rest: &[Clause],
        values: &[Term],
    ) -> Result<Items<Entry>, NoMemory>
        requires lower { Gives self.now.level (F.pre self.now.below) (F.post self.now.below) }
        requires world { IsWorld world.now }
        ensures { IfOk result (λ es.
            es ≡ spec.if_true world.now self.now.level item
            (spec.clauses world.now self.now.level rest.now values.now)) }
    {
        match item {
            Item::Mark(cause) => stop(self.alloc, cause),
            Item::Res(term, m) => {
                if is_true(&world.program.signature().truth, &term) {
                    self.clauses(world, rest, values, m)
                } else {
                    Ok(Items::new(self.alloc))
                }
            }
        }
    }

    #[cycle(clauses)]
    #[tactic(auto, using(crate::proofs::LevelLemmas::conditions))]
    fn if_result(
        &self,
        world: &World<'_>,
        item: Item,
        left: &Pattern,
        by: &Strategy,
        rest: &[Clause],
        values: &[Term],
    ) -> Result<Items<Entry>, NoMemory>
        requires lower { Gives self.now.level (F.pre self.now.below) (F.post self.now.below) }
        requires world { IsWorld world.now }
        ensures { IfOk result (λ es.
            es ≡ spec.if_result world.now self.now.level item
            (spec.sought world.now self.now.level left.now by.now
            (spec.clauses world.now self.now.level rest.now) values.now)) }
    {
        match item {
            Item::Mark(cause) => stop(self.alloc, cause),
            Item::Res(term, m) => {
                let items = self.outside(world, by, &term, m)?;
                self.each_found(world, left, rest, values, items)
            }
        }
    }

    #[cycle(clauses)]
    #[tactic(auto, using(crate::proofs::LevelLemmas::conditions))]
    fn each_found(
        &self,
        world: &World<'_>,
        left: &Pattern,
        rest: &[Clause],
        values: &[Term],
        items: Items<Item>,
    ) -> Result<Items<Entry>, NoMemory>
        requires lower { Gives self.now.level (F.pre self.now.below) (F.post self.now.below) }
        requires world { IsWorld world.now }
        ensures { IfOk result (λ es.
            es ≡ rows_of items
            (spec.found world.now self.now.level left.now
            (spec.clauses world.now self.now.level rest.now) values.now)) }
    {
        let mut out = Items::new(self.alloc);
        for item in items.as_slice() {
            match item {
                Item::Mark(cause) => out.push(Entry::Stop(*cause))?,
                Item::Res(term, m) => {
                    let more = self.found(world, left, rest, values, term, *m)?;
                    out.append(more)?;
                }
            }
        }
        Ok(out)
    }

    #[cycle(clauses)]
    #[tactic(auto, using(crate::proofs::LevelLemmas::conditions))]
    fn found(
        &self,
        world: &World<'_>,
        left: &Pattern,
        rest: &[Clause],
        values: &[Term],
        term: &Term,
        n: u32,
    ) -> Result<Items<Entry>, NoMemory>
        requires lower { Gives self.now.level (F.pre self.now.below) (F.post self.now.below) }
        requires world { IsWorld world.now }
        ensures { IfOk result (λ es.
            es ≡ spec.found world.now self.now.level left.now
            (spec.clauses world.now self.now.level rest.now) values.now term.now n) }
    {
        let first = u32::try_from(values.len()).unwrap_or(u32::MAX);
        let all = world.matches(self.alloc, left, first, term)?;
        self.each_match(world, rest, values, n, all)
    }

    #[cycle(clauses)]
    #[tactic(auto, using(crate::proofs::LevelLemmas::conditions))]
    fn each_match(
        &self,
        world: &World<'_>,
        rest: &[Clause],
        values: &[Term],
        n: u32,
        all: Items<Items<Term>>,
    ) -> Result<Items<Entry>, NoMemory>
        requires lower { Gives self.now.level (F.pre self.now.below) (F.post self.now.below) }
        requires world { IsWorld world.now }
        ensures { IfOk result (λ es.
            es ≡ flat_map
            (spec.matched world.now self.now.level
            (spec.clauses world.now self.now.level rest.now) values.now n) all) }
    {
        let mut out = Items::new(self.alloc);
        for bound in all.as_slice() {
            let more = self.matched(world, rest, values, n, bound.as_slice())?;
            out.append(more)?;
        }
        Ok(out)
    }

    #[cycle(clauses)]
    #[tactic(auto, using(crate::proofs::LevelLemmas::conditions), unfolding(elan_meaning::specs::Items::matched))]
    fn matched(
        &self,
        world: &World<'_>,
        rest: &[Clause],
        values: &[Term],
        n: u32,
        bound: &[Term],
    ) -> Result<Items<Entry>, NoMemory>
        requires lower { Gives self.now.level (F.pre self.now.below) (F.post self.now.below) }
        requires world { IsWorld world.now }
        ensures { IfOk result (λ es.
            es ≡ spec.matched world.now self.now.level
            (spec.clauses world.now self.now.level rest.now) values.now n bound.now) }
    {
        let longer = joined(self.alloc, values, bound)?;
        self.clauses(world, rest, longer.as_slice(), n)
    }

    fn finished(
        &self,
        world: &World<'_>,
        rule: &Rule,
        entries: Items<Entry>,
    ) -> Result<Items<Item>, NoMemory>
        requires lower { Gives self.now.level (F.pre self.now.below) (F.post self.now.below) }
        requires world { IsWorld world.now }
        ensures { IfOk result (λ items.
            items ≡ spec.finished world.now self.now.level rule.now entries) }
    {
        let mut out = Items::new(self.alloc);
        for entry in entries.as_slice() {
            match entry {
                Entry::Stop(cause) => out.push(Item::Mark(*cause))?,
                Entry::At(values, n) => {
                    let item = self.normal(world, &rule.right, values.as_slice(), *n)?;
                    out.push(item)?;
                }
            }
        }
        Ok(out)
    }

    /// A rule's conditions and right side, under the values of a match.
    pub(crate) fn body(
        &self,
        world: &World<'_>,
        rule: &Rule,
        values: &[Term],
        n: u32,
    ) -> Result<Items<Item>, NoMemory>
        requires lower { Gives self.now.level (F.pre self.now.below) (F.post self.now.below) }
        requires world { IsWorld world.now }
        ensures { IfOk result (λ items.
            items ≡ spec.finished world.now self.now.level rule.now
            (spec.clauses world.now self.now.level rule.now.clauses values.now n)) }
    {
        let entries = self.clauses(world, rule.clauses.as_slice(), values, n)?;
        self.finished(world, rule, entries)
    }
}
