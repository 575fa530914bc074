//! The one item of a pattern under an assignment.

ghost use Rattle.std.specs.Prelude.{◌≡◌, map, IfOk};
ghost use Rattle.elan_meaning.specs.Items.{on_results, items_of};
ghost use Rattle.elan_plain.specs.Engine.{Gives, IsWorld, behind, turned};
ghost use Rattle.elan_plain.specs.Level as spec;

use crate::lists::{pattern_of, value};
use crate::{Ask, Level, Turn, World};
use elan_meaning::{Entry, Item};
use elan_terms::{OpId, Pattern, PatternNode, Term, TermNode, copy_onto};
use elan_text::NoMemory;
use sqlite_items::Items;
use std::alloc::Global;

impl<F: Fn(Global, u32, &World<'_>, Ask<'_>, u32) -> Result<Items<Item>, NoMemory>> Level<F> {
    #[cycle(normal)]
    #[tactic(auto, using(crate::proofs::LevelLemmas::normals))]
    pub(crate) fn normal(
        &self,
        world: &World<'_>,
        pattern: &Pattern,
        values: &[Term],
        n: u32,
    ) -> Result<Item, NoMemory>
        requires lower { Gives self.now.level (F.pre self.now.below) (F.post self.now.below) }
        requires world { IsWorld world.now }
        ensures { IfOk result (λ i.
            i ≡ spec.normal world.now self.now.level pattern.now values.now n) }
    {
        match &pattern.node {
            PatternNode::Var(number, _) => Ok(Item::Res(value(self.alloc, values, *number)?, n)),
            PatternNode::Int(z) => self.of_node(
                world,
                Term {
                    node: TermNode::Int(*z),
                },
                n,
            ),
            PatternNode::App(op, args) => {
                let mut row = Items::new(self.alloc);
                match self.in_turn_onto(world, &mut row, args.as_slice(), values, n)? {
                    Turn::Left(m) => {
                        let made = world.node(self.alloc, *op, row)?;
                        self.of_node(world, made, m)
                    }
                    Turn::Stopped(cause) => Ok(Item::Mark(cause)),
                }
            }
        }
    }

    #[cycle(normal)]
    #[tactic(auto, using(crate::proofs::LevelLemmas::normals), unfolding(elan_meaning::specs::Items::then_after))]
    fn in_turn_onto(
        &self,
        world: &World<'_>,
        row: &mut Items<Term>,
        patterns: &[Pattern],
        values: &[Term],
        n: u32,
    ) -> Result<Turn, NoMemory>
        requires lower { Gives self.now.level (F.pre self.now.below) (F.post self.now.below) }
        requires world { IsWorld world.now }
        ensures { IfOk result (λ turn.
            turned row.new turn
            ≡ behind row.old
            (spec.in_turn world.now self.now.level
            (map (spec.normal world.now self.now.level) patterns.now) values.now n)) }
    {
        match patterns {
            [] => Ok(Turn::Left(n)),
            [first, rest @ ..] => match self.normal(world, first, values, n)? {
                Item::Mark(cause) => Ok(Turn::Stopped(cause)),
                Item::Res(term, m) => {
                    row.push(term)?;
                    self.in_turn_onto(world, row, rest, values, m)
                }
            },
        }
    }

    /// A whole term normalised.
    #[tactic(auto, unfolding(elan_meaning::specs::Meaning::normal_term))]
    fn normal_term(&self, world: &World<'_>, term: &Term, n: u32) -> Result<Items<Item>, NoMemory>
        requires lower { Gives self.now.level (F.pre self.now.below) (F.post self.now.below) }
        requires world { IsWorld world.now }
        ensures { IfOk result (λ items.
            items ≡ spec.normal_term world.now self.now.level term.now n) }
    {
        let pattern = pattern_of(self.alloc, term)?;
        let item = self.normal(world, &pattern, &[], n)?;
        let mut out = Items::new(self.alloc);
        out.push(item)?;
        Ok(out)
    }

    /// Each result normalised.
    pub(crate) fn normal_each(
        &self,
        world: &World<'_>,
        items: Items<Item>,
    ) -> Result<Items<Item>, NoMemory>
        requires lower { Gives self.now.level (F.pre self.now.below) (F.post self.now.below) }
        requires world { IsWorld world.now }
        ensures { IfOk result (λ out.
            out ≡ on_results items (spec.normal_term world.now self.now.level)) }
    {
        let mut out = Items::new(self.alloc);
        for item in items.as_slice() {
            match item {
                Item::Mark(cause) => out.push(Item::Mark(*cause))?,
                Item::Res(term, n) => {
                    let more = self.normal_term(world, term, *n)?;
                    out.append(more)?;
                }
            }
        }
        Ok(out)
    }

    /// An operator over a row of results, normalised as a whole.
    #[tactic(auto, unfolding(elan_meaning::specs::Meaning::normal_app))]
    fn normal_app(
        &self,
        world: &World<'_>,
        op: OpId,
        terms: &[Term],
        n: u32,
    ) -> Result<Items<Item>, NoMemory>
        requires lower { Gives self.now.level (F.pre self.now.below) (F.post self.now.below) }
        requires world { IsWorld world.now }
        ensures { IfOk result (λ items.
            items ≡ spec.normal_app world.now self.now.level op terms.now n) }
    {
        let mut args = Items::new(self.alloc);
        copy_onto(self.alloc, &mut args, terms)?;
        let term = Term {
            node: TermNode::App(op, args),
        };
        self.normal_term(world, &term, n)
    }

    /// The same of each row.
    pub(crate) fn normal_apps(
        &self,
        world: &World<'_>,
        op: OpId,
        rows: Items<Entry>,
    ) -> Result<Items<Item>, NoMemory>
        requires lower { Gives self.now.level (F.pre self.now.below) (F.post self.now.below) }
        requires world { IsWorld world.now }
        ensures { IfOk result (λ items.
            items ≡ items_of rows (spec.normal_app world.now self.now.level op)) }
    {
        let mut out = Items::new(self.alloc);
        for row in rows.as_slice() {
            match row {
                Entry::Stop(cause) => out.push(Item::Mark(*cause))?,
                Entry::At(terms, n) => {
                    let more = self.normal_app(world, op, terms.as_slice(), *n)?;
                    out.append(more)?;
                }
            }
        }
        Ok(out)
    }
}
