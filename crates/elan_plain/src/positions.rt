//! Strategies at the positions of a sort.

ghost use Rattle.std.specs.Prelude.{◌≡◌, ◌++◌, map, IfOk};
ghost use Rattle.elan_meaning.specs.Items.{on_results, items_of};
ghost use Rattle.elan_plain.specs.Closures.{meant};
ghost use Rattle.elan_plain.specs.Engine.{Gives, IsWorld, under};
ghost use Rattle.elan_plain.specs.Level as spec;

use crate::level::MAX_DEPTH;
use crate::lists::{before, mark, stays};
use crate::{Ask, Closure, Level, World};
use elan_meaning::{Cause, Entry, Item};
use elan_terms::{OpId, SortId, Term, TermNode, copy, copy_onto, is_deeper};
use elan_text::NoMemory;
use sqlite_items::Items;
use std::alloc::Global;

impl<F: Fn(Global, u32, &World<'_>, Ask<'_>, u32) -> Result<Items<Item>, NoMemory>> Level<F> {
    /// The positions at the level below, in each result.
    fn place_each(
        &self,
        world: &World<'_>,
        sort: SortId,
        strategy: Closure<'_>,
        items: Items<Item>,
    ) -> Result<Items<Item>, NoMemory>
        requires lower { Gives self.now.level (F.pre self.now.below) (F.post self.now.below) }
        requires world { IsWorld world.now }
        ensures { IfOk result (λ out.
            out ≡ on_results items
            ((under world.now self.now.level).positions sort (meant strategy.entry))) }
    {
        let mut out = Items::new(self.alloc);
        for item in items.as_slice() {
            match item {
                Item::Mark(cause) => out.push(Item::Mark(*cause))?,
                Item::Res(term, n) => {
                    let more = self.ask(world, Ask::Place(sort, strategy, term), *n)?;
                    out.append(more)?;
                }
            }
        }
        Ok(out)
    }

    fn at_node(
        &self,
        world: &World<'_>,
        sort: SortId,
        strategy: Closure<'_>,
        term: &Term,
        n: u32,
    ) -> Result<Items<Item>, NoMemory>
        requires lower { Gives self.now.level (F.pre self.now.below) (F.post self.now.below) }
        requires world { IsWorld world.now }
        ensures { IfOk result (λ items.
            items ≡ spec.at_node world.now self.now.level sort (meant strategy.entry) term.now n) }
    {
        if n == 0 {
            return mark(self.alloc, Cause::Steps);
        }
        let items = self.ask(world, Ask::Run(strategy, term), n - 1)?;
        if items.is_empty() {
            return stays(self.alloc, term, n - 1);
        }
        self.place_each(world, sort, strategy, items)
    }

    #[tactic(auto, unfolding(elan_meaning::specs::Meaning::placed))]
    fn placed(
        &self,
        world: &World<'_>,
        sort: SortId,
        strategy: Closure<'_>,
        term: &Term,
        n: u32,
    ) -> Result<Items<Item>, NoMemory>
        requires lower { Gives self.now.level (F.pre self.now.below) (F.post self.now.below) }
        requires world { IsWorld world.now }
        ensures { IfOk result (λ items.
            items ≡ spec.placed world.now self.now.level sort (meant strategy.entry) term.now n) }
    {
        if is_deeper(term, MAX_DEPTH) {
            return mark(self.alloc, Cause::Depth);
        }
        if world.is_of_sort(term, sort) {
            return self.at_node(world, sort, strategy, term, n);
        }
        stays(self.alloc, term, n)
    }

    #[tactic(auto, unfolding(elan_meaning::specs::Meaning::placed_node))]
    fn placed_node(
        &self,
        world: &World<'_>,
        sort: SortId,
        strategy: Closure<'_>,
        op: OpId,
        terms: &[Term],
        n: u32,
    ) -> Result<Items<Item>, NoMemory>
        requires lower { Gives self.now.level (F.pre self.now.below) (F.post self.now.below) }
        requires world { IsWorld world.now }
        ensures { IfOk result (λ items.
            items ≡ spec.placed_node world.now self.now.level sort
            (meant strategy.entry) op terms.now n) }
    {
        let mut args = Items::new(self.alloc);
        copy_onto(self.alloc, &mut args, terms)?;
        let made = world.node(self.alloc, op, args)?;
        self.placed(world, sort, strategy, &made, n)
    }

    fn nodes(
        &self,
        world: &World<'_>,
        sort: SortId,
        strategy: Closure<'_>,
        op: OpId,
        rows: Items<Entry>,
    ) -> Result<Items<Item>, NoMemory>
        requires lower { Gives self.now.level (F.pre self.now.below) (F.post self.now.below) }
        requires world { IsWorld world.now }
        ensures { IfOk result (λ items.
            items ≡ items_of rows
            (spec.placed_node world.now self.now.level sort (meant strategy.entry) op)) }
    {
        let mut out = Items::new(self.alloc);
        for row in rows.as_slice() {
            match row {
                Entry::Stop(cause) => out.push(Item::Mark(*cause))?,
                Entry::At(terms, n) => {
                    let more = self.placed_node(world, sort, strategy, op, terms.as_slice(), *n)?;
                    out.append(more)?;
                }
            }
        }
        Ok(out)
    }

    #[cycle(positions)]
    #[tactic(auto, using(crate::proofs::LevelLemmas::places))]
    pub(crate) fn positions(
        &self,
        world: &World<'_>,
        sort: SortId,
        strategy: Closure<'_>,
        term: &Term,
        n: u32,
    ) -> Result<Items<Item>, NoMemory>
        requires lower { Gives self.now.level (F.pre self.now.below) (F.post self.now.below) }
        requires world { IsWorld world.now }
        ensures { IfOk result (λ items.
            items ≡ spec.positions world.now self.now.level sort
            (meant strategy.entry) term.now n) }
    {
        match &term.node {
            TermNode::Int(_) => self.placed(world, sort, strategy, term, n),
            TermNode::App(op, args) => {
                let rows = self.rows(world, sort, strategy, args.as_slice(), n)?;
                self.nodes(world, sort, strategy, *op, rows)
            }
        }
    }

    #[cycle(positions)]
    #[tactic(auto, using(crate::proofs::LevelLemmas::places), unfolding(elan_meaning::specs::Items::then_before))]
    fn rows(
        &self,
        world: &World<'_>,
        sort: SortId,
        strategy: Closure<'_>,
        terms: &[Term],
        n: u32,
    ) -> Result<Items<Entry>, NoMemory>
        requires lower { Gives self.now.level (F.pre self.now.below) (F.post self.now.below) }
        requires world { IsWorld world.now }
        ensures { IfOk result (λ rows.
            rows ≡ spec.rows world.now self.now.level
            (map (spec.positions world.now self.now.level sort
            (meant strategy.entry)) terms.now) n) }
    {
        let mut out = Items::new(self.alloc);
        match terms {
            [] => {
                out.push(Entry::At(Items::new(self.alloc), n))?;
                Ok(out)
            }
            [first, rest @ ..] => {
                let items = self.positions(world, sort, strategy, first, n)?;
                for item in items.as_slice() {
                    match item {
                        Item::Mark(cause) => out.push(Entry::Stop(*cause))?,
                        Item::Res(result_term, m) => {
                            let later = self.rows(world, sort, strategy, rest, *m)?;
                            let more = before(self.alloc, result_term, later)?;
                            out.append(more)?;
                        }
                    }
                }
                Ok(out)
            }
        }
    }
}
