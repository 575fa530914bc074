//! The list of a strategy.

ghost use Rattle.std.specs.Prelude.{◌≡◌, ◌++◌, ◌==◌, map, slice_get, ℕ, IfOk};
ghost use Rattle.std.specs.List.{flat_map};
ghost use Rattle.elan_program.specs.declared.strategy.StrategyNode.TheVariants.{Repeat, Iterate, Param};
ghost use Rattle.elan_program.specs.Strategies.{made, with_actuals};
ghost use Rattle.elan_terms.specs.Trees.{case_term};
ghost use Rattle.elan_meaning.specs.Items.{on_results, first_of, rows_of, then_before};
ghost use Rattle.elan_plain.specs.Closures.{closed, meant};
ghost use Rattle.elan_plain.specs.Engine.{Gives, IsWorld, under};
ghost use Rattle.elan_plain.specs.Level as spec;

use crate::closures::{resolved, within};
use crate::lists::{before, chosen, mark, met, stays};
use crate::{Actuals, Ask, Closure, Level, World};
use elan_meaning::{Cause, Entry, Item};
use elan_program::{Strategy, StrategyNode};
use elan_terms::{OpId, SortId, Term, TermNode};
use elan_text::NoMemory;
use sqlite_items::Items;
use std::alloc::Global;

fn is_same(op: OpId, head: OpId) -> bool
    ensures { result ≡ (op.0 == head.0) }
{
    op.0 == head.0
}

impl<F: Fn(Global, u32, &World<'_>, Ask<'_>, u32) -> Result<Items<Item>, NoMemory>> Level<F> {
    #[tactic(auto, unfolding(elan_meaning::specs::Meaning::apply_number))]
    fn apply_number(
        &self,
        world: &World<'_>,
        number: u32,
        term: &Term,
        n: u32,
    ) -> Result<Items<Item>, NoMemory>
        requires lower { Gives self.now.level (F.pre self.now.below) (F.post self.now.below) }
        requires world { IsWorld world.now }
        ensures { IfOk result (λ items.
            items ≡ spec.apply_number world.now self.now.level term.now n number) }
    {
        match world.program.rules().get(number as usize) {
            None => Ok(Items::new(self.alloc)),
            Some(rule) => self.apply(world, rule, term, n),
        }
    }

    fn label(
        &self,
        world: &World<'_>,
        numbers: &[u32],
        term: &Term,
        n: u32,
    ) -> Result<Items<Item>, NoMemory>
        requires lower { Gives self.now.level (F.pre self.now.below) (F.post self.now.below) }
        requires world { IsWorld world.now }
        ensures { IfOk result (λ items.
            items ≡ flat_map (spec.apply_number world.now self.now.level term.now n) numbers.now) }
    {
        let mut out = Items::new(self.alloc);
        for number in numbers {
            let items = self.apply_number(world, *number, term, n)?;
            out.append(items)?;
        }
        Ok(out)
    }

    /// A body on a term at the level below, with these strategies in the places of its parameters.
    #[tactic(auto, using(crate::proofs::Closing::givens))]
    fn run_body<'x>(
        &self,
        world: &World<'_>,
        body: &'x Strategy,
        strategies: &'x [Strategy],
        read_in: &'x Actuals<'x>,
        term: &'x Term,
        n: u32,
    ) -> Result<Items<Item>, NoMemory>
        requires lower { Gives self.now.level (F.pre self.now.below) (F.post self.now.below) }
        requires world { IsWorld world.now }
        ensures { IfOk result (λ items. items ≡ (under world.now self.now.level).strategy
            (with_actuals (map (closed read_in.now) strategies.now) body.now) term.now n) }
    {
        let actuals = Actuals::Given {
            strategies,
            read_in,
        };
        self.ask(world, Ask::Run(within(&actuals, &*body), term), n)
    }

    fn call(
        &self,
        world: &World<'_>,
        number: u32,
        strategies: &[Strategy],
        read_in: &Actuals<'_>,
        term: &Term,
        n: u32,
    ) -> Result<Items<Item>, NoMemory>
        requires lower { Gives self.now.level (F.pre self.now.below) (F.post self.now.below) }
        requires world { IsWorld world.now }
        ensures { IfOk result (λ items. items ≡ spec.call world.now self.now.level
            (slice_get world.now.program.now.named number)
            (map (closed read_in.now) strategies.now) term.now n) }
    {
        if n == 0 {
            return mark(self.alloc, Cause::Steps);
        }
        match world.program.named().get(number as usize) {
            None => Ok(Items::new(self.alloc)),
            Some(named) => self.run_body(
                world,
                &named.body,
                &*strategies,
                &*read_in,
                &*term,
                n - 1,
            ),
        }
    }

    pub(crate) fn repeat(
        &self,
        world: &World<'_>,
        inner: Closure<'_>,
        term: &Term,
        n: u32,
    ) -> Result<Items<Item>, NoMemory>
        requires lower { Gives self.now.level (F.pre self.now.below) (F.post self.now.below) }
        requires world { IsWorld world.now }
        ensures { IfOk result (λ items.
            items ≡ spec.repeat world.now self.now.level (meant inner.entry) term.now n) }
    {
        if n == 0 {
            return mark(self.alloc, Cause::Steps);
        }
        let items = self.ask(world, Ask::Run(inner, term), n - 1)?;
        if items.is_empty() {
            return stays(self.alloc, term, n - 1);
        }
        self.repeat_each(world, inner, items)
    }

    /// `repeat*` at the level below, on each result.
    fn repeat_each(
        &self,
        world: &World<'_>,
        inner: Closure<'_>,
        items: Items<Item>,
    ) -> Result<Items<Item>, NoMemory>
        requires lower { Gives self.now.level (F.pre self.now.below) (F.post self.now.below) }
        requires world { IsWorld world.now }
        ensures { IfOk result (λ out. out ≡ on_results items
            ((under world.now self.now.level).strategy (made (Repeat (meant inner.entry))))) }
    {
        let mut out = Items::new(self.alloc);
        for item in items.as_slice() {
            match item {
                Item::Mark(cause) => out.push(Item::Mark(*cause))?,
                Item::Res(term, n) => {
                    let more = self.ask(world, Ask::Repeat(inner, term), *n)?;
                    out.append(more)?;
                }
            }
        }
        Ok(out)
    }

    pub(crate) fn iterate(
        &self,
        world: &World<'_>,
        inner: Closure<'_>,
        term: &Term,
        n: u32,
    ) -> Result<Items<Item>, NoMemory>
        requires lower { Gives self.now.level (F.pre self.now.below) (F.post self.now.below) }
        requires world { IsWorld world.now }
        ensures { IfOk result (λ items.
            items ≡ spec.iterate world.now self.now.level (meant inner.entry) term.now n) }
    {
        if n == 0 {
            return mark(self.alloc, Cause::Steps);
        }
        let mut out = stays(self.alloc, term, n - 1)?;
        let items = self.ask(world, Ask::Run(inner, term), n - 1)?;
        let more = self.iterate_each(world, inner, items)?;
        out.append(more)?;
        Ok(out)
    }

    fn iterate_plus(
        &self,
        world: &World<'_>,
        inner: Closure<'_>,
        term: &Term,
        n: u32,
    ) -> Result<Items<Item>, NoMemory>
        requires lower { Gives self.now.level (F.pre self.now.below) (F.post self.now.below) }
        requires world { IsWorld world.now }
        ensures { IfOk result (λ items.
            items ≡ spec.iterate_plus world.now self.now.level (meant inner.entry) term.now n) }
    {
        if n == 0 {
            return mark(self.alloc, Cause::Steps);
        }
        let items = self.ask(world, Ask::Run(inner, term), n - 1)?;
        self.iterate_each(world, inner, items)
    }

    /// `iterate*` at the level below, on each result.
    fn iterate_each(
        &self,
        world: &World<'_>,
        inner: Closure<'_>,
        items: Items<Item>,
    ) -> Result<Items<Item>, NoMemory>
        requires lower { Gives self.now.level (F.pre self.now.below) (F.post self.now.below) }
        requires world { IsWorld world.now }
        ensures { IfOk result (λ out. out ≡ on_results items
            ((under world.now self.now.level).strategy (made (Iterate (meant inner.entry))))) }
    {
        let mut out = Items::new(self.alloc);
        for item in items.as_slice() {
            match item {
                Item::Mark(cause) => out.push(Item::Mark(*cause))?,
                Item::Res(term, n) => {
                    let more = self.ask(world, Ask::Iterate(inner, term), *n)?;
                    out.append(more)?;
                }
            }
        }
        Ok(out)
    }

    fn normalise(
        &self,
        world: &World<'_>,
        sort: SortId,
        inner: Closure<'_>,
        term: &Term,
        n: u32,
    ) -> Result<Items<Item>, NoMemory>
        requires lower { Gives self.now.level (F.pre self.now.below) (F.post self.now.below) }
        requires world { IsWorld world.now }
        ensures { IfOk result (λ items. items ≡ on_results
            (spec.positions world.now self.now.level sort (meant inner.entry) term.now n)
            (spec.normal_term world.now self.now.level)) }
    {
        let items = self.positions(world, sort, inner, term, n)?;
        self.normal_each(world, items)
    }

    /// The list of a strategy that stands in no body.
    #[tactic(auto, using(crate::proofs::Closing::outsides))]
    pub(crate) fn outside(
        &self,
        world: &World<'_>,
        strategy: &Strategy,
        term: &Term,
        n: u32,
    ) -> Result<Items<Item>, NoMemory>
        requires lower { Gives self.now.level (F.pre self.now.below) (F.post self.now.below) }
        requires world { IsWorld world.now }
        ensures { IfOk result (λ items.
            items ≡ spec.strategy world.now self.now.level strategy.now term.now n) }
    {
        self.strategy(world, within(&Actuals::Absent, strategy), term, n)
    }

    /// The list of a strategy on a term.
    #[cycle(strategy)]
    #[tactic(auto, using(crate::proofs::LevelLemmas::strategies, crate::proofs::Closing::closings))]
    pub(crate) fn strategy(
        &self,
        world: &World<'_>,
        closure: Closure<'_>,
        term: &Term,
        n: u32,
    ) -> Result<Items<Item>, NoMemory>
        requires lower { Gives self.now.level (F.pre self.now.below) (F.post self.now.below) }
        requires world { IsWorld world.now }
        ensures { IfOk result (λ items.
            items ≡ spec.strategy world.now self.now.level (meant closure.entry) term.now n) }
    {
        self.step(world, resolved(closure.strategy, closure.actuals), term, n)
    }

    /// The list of a strategy that is no parameter with an actual.
    #[cycle(strategy)]
    #[tactic(auto, using(crate::proofs::LevelLemmas::strategies, crate::proofs::Closing::closings))]
    fn step(
        &self,
        world: &World<'_>,
        closure: Closure<'_>,
        term: &Term,
        n: u32,
    ) -> Result<Items<Item>, NoMemory>
        requires lower { Gives self.now.level (F.pre self.now.below) (F.post self.now.below) }
        requires world { IsWorld world.now }
        requires resolved { (number : ℕ) → closure.strategy.now.node ≡ Param number
            → meant closure ≡ made (Param number) }
        ensures { IfOk result (λ items.
            items ≡ spec.strategy world.now self.now.level (meant closure.entry) term.now n) }
    {
        let actuals = closure.actuals;
        match &closure.strategy.node {
            StrategyNode::Id => stays(self.alloc, term, n),
            StrategyNode::Fail => Ok(Items::new(self.alloc)),
            StrategyNode::Label(numbers) => self.label(world, numbers.as_slice(), term, n),
            StrategyNode::Call(number, given) => {
                self.call(world, *number, given.as_slice(), &*actuals, term, n)
            }
            StrategyNode::Param(_) => Ok(Items::new(self.alloc)),
            StrategyNode::Seq(arms) => self.sequence(world, arms.as_slice(), &*actuals, term, n),
            StrategyNode::All(arms) => self.all(world, arms.as_slice(), &*actuals, term, n),
            StrategyNode::First { one, arms } => {
                let items = self.first_of(world, arms.as_slice(), &*actuals, term, n)?;
                chosen(self.alloc, *one, items)
            }
            StrategyNode::Repeat(inner) => self.repeat(
                world,
                within(&*actuals, &*inner.get()),
                term,
                n,
            ),
            StrategyNode::Iterate(inner) => {
                self.iterate(world, within(&*actuals, &*inner.get()), term, n)
            }
            StrategyNode::IteratePlus(inner) => {
                self.iterate_plus(world, within(&*actuals, &*inner.get()), term, n)
            }
            StrategyNode::Normalise(sort, inner) => {
                self.normalise(world, *sort, within(&*actuals, &*inner.get()), term, n)
            }
            StrategyNode::Cong(op, arms) => {
                self.congruence(world, *op, arms.as_slice(), &*actuals, term, n)
            }
        }
    }

    #[cycle(strategy)]
    #[tactic(auto, using(crate::proofs::LevelLemmas::strategies))]
    fn sequence(
        &self,
        world: &World<'_>,
        arms: &[Strategy],
        actuals: &Actuals<'_>,
        term: &Term,
        n: u32,
    ) -> Result<Items<Item>, NoMemory>
        requires lower { Gives self.now.level (F.pre self.now.below) (F.post self.now.below) }
        requires world { IsWorld world.now }
        ensures { IfOk result (λ items. items ≡ spec.sequence world.now self.now.level
            (map (spec.strategy world.now self.now.level) (map (closed actuals.now) arms.now)) term.now n) }
    {
        match arms {
            [] => stays(self.alloc, term, n),
            [first, rest @ ..] => {
                let items = self.strategy(world, within(&*actuals, &*first), term, n)?;
                let mut out = Items::new(self.alloc);
                for item in items.as_slice() {
                    match item {
                        Item::Mark(cause) => out.push(Item::Mark(*cause))?,
                        Item::Res(result_term, m) => {
                            let more = self.sequence(world, &*rest, &*actuals, result_term, *m)?;
                            out.append(more)?;
                        }
                    }
                }
                Ok(out)
            }
        }
    }

    #[cycle(strategy)]
    #[tactic(auto, using(crate::proofs::LevelLemmas::strategies), unfolding(elan_meaning::specs::Meaning::strategy_on))]
    fn all(
        &self,
        world: &World<'_>,
        arms: &[Strategy],
        actuals: &Actuals<'_>,
        term: &Term,
        n: u32,
    ) -> Result<Items<Item>, NoMemory>
        requires lower { Gives self.now.level (F.pre self.now.below) (F.post self.now.below) }
        requires world { IsWorld world.now }
        ensures { IfOk result (λ items. items ≡ flat_map
            (spec.strategy_on world.now self.now.level term.now n) (map (closed actuals.now) arms.now)) }
    {
        match arms {
            [] => Ok(Items::new(self.alloc)),
            [first, rest @ ..] => {
                let mut items = self.strategy(world, within(&*actuals, &*first), term, n)?;
                let more = self.all(world, &*rest, &*actuals, term, n)?;
                items.append(more)?;
                Ok(items)
            }
        }
    }

    #[cycle(strategy)]
    #[tactic(auto, using(crate::proofs::LevelLemmas::strategies), unfolding(elan_meaning::specs::Meaning::strategy_on))]
    fn first_of(
        &self,
        world: &World<'_>,
        arms: &[Strategy],
        actuals: &Actuals<'_>,
        term: &Term,
        n: u32,
    ) -> Result<Items<Item>, NoMemory>
        requires lower { Gives self.now.level (F.pre self.now.below) (F.post self.now.below) }
        requires world { IsWorld world.now }
        ensures { IfOk result (λ items. items ≡ first_of (map
            (spec.strategy_on world.now self.now.level term.now n) (map (closed actuals.now) arms.now))) }
    {
        match arms {
            [] => Ok(Items::new(self.alloc)),
            [first, rest @ ..] => {
                let items = self.strategy(world, within(&*actuals, &*first), term, n)?;
                if items.is_empty() {
                    self.first_of(world, &*rest, &*actuals, term, n)
                } else {
                    Ok(items)
                }
            }
        }
    }

    /// A congruence: nothing where another operator heads the term, or none.
    #[cycle(strategy)]
    #[tactic(auto, using(crate::proofs::LevelLemmas::congruences))]
    fn congruence(
        &self,
        world: &World<'_>,
        op: OpId,
        arms: &[Strategy],
        actuals: &Actuals<'_>,
        term: &Term,
        n: u32,
    ) -> Result<Items<Item>, NoMemory>
        requires lower { Gives self.now.level (F.pre self.now.below) (F.post self.now.below) }
        requires world { IsWorld world.now }
        ensures { IfOk result (λ items. items ≡ case_term
            (spec.not_headed world.now self.now.level)
            (spec.congruent world.now self.now.level op
            (map (spec.strategy world.now self.now.level) (map (closed actuals.now) arms.now)) n)
            term.now) }
    {
        match &term.node {
            TermNode::Int(_) => Ok(Items::new(self.alloc)),
            TermNode::App(head, args) => {
                if !is_same(op, *head) {
                    return Ok(Items::new(self.alloc));
                }
                let rows = self.results(world, &*arms, &*actuals, args.as_slice(), n)?;
                self.normal_apps(world, op, rows)
            }
        }
    }

    /// The rows of the results of each strategy on the argument of its place.
    #[cycle(strategy)]
    #[tactic(auto, using(crate::proofs::LevelLemmas::congruences))]
    fn results(
        &self,
        world: &World<'_>,
        arms: &[Strategy],
        actuals: &Actuals<'_>,
        terms: &[Term],
        n: u32,
    ) -> Result<Items<Entry>, NoMemory>
        requires lower { Gives self.now.level (F.pre self.now.below) (F.post self.now.below) }
        requires world { IsWorld world.now }
        ensures { IfOk result (λ rows. rows ≡ spec.rows world.now self.now.level
            (spec.paired world.now self.now.level (map (spec.strategy world.now self.now.level)
            (map (closed actuals.now) arms.now)) terms.now) n) }
    {
        match arms {
            [] => met(self.alloc, &[], n),
            [arm, arms @ ..] => match terms {
                [] => met(self.alloc, &[], n),
                [first, rest @ ..] => {
                    let items = self.strategy(world, within(&*actuals, &*arm), first, n)?;
                    self.result_rows(world, &*arms, &*actuals, &*rest, items)
                }
            },
        }
    }

    /// The results of an argument before each row of the arguments that come after it.
    #[cycle(strategy)]
    #[tactic(auto, using(crate::proofs::LevelLemmas::congruences), unfolding(elan_meaning::specs::Items::then_before))]
    fn result_rows(
        &self,
        world: &World<'_>,
        arms: &[Strategy],
        actuals: &Actuals<'_>,
        terms: &[Term],
        items: Items<Item>,
    ) -> Result<Items<Entry>, NoMemory>
        requires lower { Gives self.now.level (F.pre self.now.below) (F.post self.now.below) }
        requires world { IsWorld world.now }
        ensures { IfOk result (λ rows. rows ≡ rows_of items
            (then_before (spec.rows world.now self.now.level
            (spec.paired world.now self.now.level (map (spec.strategy world.now self.now.level)
            (map (closed actuals.now) arms.now)) terms.now)))) }
    {
        let mut out = Items::new(self.alloc);
        for item in items.as_slice() {
            match item {
                Item::Mark(cause) => out.push(Entry::Stop(*cause))?,
                Item::Res(term, m) => {
                    let later = self.results(world, &*arms, &*actuals, &*terms, *m)?;
                    let more = before(self.alloc, term, later)?;
                    out.append(more)?;
                }
            }
        }
        Ok(out)
    }
}
