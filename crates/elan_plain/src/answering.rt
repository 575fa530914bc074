//! The levels tied together, and the answers of a query.

ghost use Rattle.std.specs.Prelude.{◌≡◌, ◌≤◌, IfOk};
ghost use Rattle.elan_terms.specs.Match.{matches};
ghost use Rattle.elan_program.specs.Signature.{shapes_of};
ghost use Rattle.elan_meaning.specs.Laws.{normal_item, strategy_items};
ghost use Rattle.elan_meaning.specs.Meaning.{below, answers, level};
ghost use Rattle.elan_plain.specs.Engine.{Gives, IsWorld, asked, under};

use crate::lists::mark;
use crate::{Ask, Level, World};
use elan_meaning::Item;
use elan_program::{Program, Strategy};
use elan_terms::{Pattern, Term};
use elan_text::NoMemory;
use sqlite_items::Items;
use std::alloc::Global;

impl<F: Fn(Global, u32, &World<'_>, Ask<'_>, u32) -> Result<Items<Item>, NoMemory>> Level<F> {
    /// What is asked for, at the level above the one below.
    #[tactic(auto, using(crate::proofs::LevelLemmas::asks))]
    fn answer(&self, world: &World<'_>, ask: Ask<'_>, n: u32) -> Result<Items<Item>, NoMemory>
        requires lower { Gives self.now.level (F.pre self.now.below) (F.post self.now.below) }
        requires world { IsWorld world.now }
        ensures { IfOk result (λ items.
            items ≡ asked world.now.program.now
            (level world.now.program.now (under world.now self.now.level)) ask.entry n) }
    {
        match ask {
            Ask::Body(rule, values) => self.body(world, rule, values, n),
            Ask::Run(strategy, term) => self.strategy(world, strategy, term, n),
            Ask::Repeat(inner, term) => self.repeat(world, inner, term, n),
            Ask::Iterate(inner, term) => self.iterate(world, inner, term, n),
            Ask::Place(sort, strategy, term) => self.positions(world, sort, strategy, term, n),
        }
    }
}

/// What is asked for below a level.
#[tactic(auto, using(crate::proofs::LevelLemmas::knots))]
fn answer_below(
    alloc: Global,
    level: u32,
    world: &World<'_>,
    ask: Ask<'_>,
    n: u32,
) -> Result<Items<Item>, NoMemory>
    requires { IsWorld world.now }
    ensures { IfOk result (λ items.
        items ≡ asked world.now.program.now (below world.now.program.now level) ask.entry n) }
{
    if level == 0 {
        return Ok(Items::new(alloc));
    }
    Level {
        alloc,
        level: level - 1,
        below: answer_below,
    }
    .answer(world, ask, n)
}

/// What is made of a program once.
fn world(alloc: Global, program: &Program) -> Result<World<'_>, NoMemory>
    ensures { IfOk result (λ w. IsWorld w × (w.program.now ≡ program.now)) }
{
    Ok(World {
        program,
        shapes: program.signature().shapes(alloc)?,
    })
}

#[tactic(auto, using(crate::proofs::LevelLemmas::knots))]
fn items(
    alloc: Global,
    world: &World<'_>,
    start: &Strategy,
    query: &Pattern,
    steps: u32,
) -> Result<Items<Item>, NoMemory>
    requires { IsWorld world.now }
    ensures { IfOk result (λ items.
        items ≡ answers world.now.program.now start.now query.now steps) }
{
    let level = Level {
        alloc,
        level: steps,
        below: answer_below,
    };
    match level.normal(world, query, &[], steps)? {
        Item::Mark(cause) => mark(alloc, cause),
        Item::Res(term, n) => level.outside(world, start, &term, n),
    }
}

/// All items of a query in order: the start strategy's list on the normalised query, made with
/// this many steps. An error means that memory ran out. The call takes time and stack by the steps
/// and by the size of the lists.
pub fn plain_items(
    alloc: Global,
    program: &Program,
    start: &Strategy,
    query: &Pattern,
    steps: u32,
) -> Result<Items<Item>, NoMemory>
    requires { steps ≤ 1000 }
    ensures { IfOk result (λ items. items ≡ answers program.now start.now query.now steps) }
{
    let world = world(alloc, program)?;
    items(alloc, &world, start, query, steps)
}

/// The matches of a pattern in a term, in order. Each has the values of the pattern's variables in the
/// order of their first occurrence. They are found soonest where the variables are numbered from
/// `first` on in that order, and the term is valid and in canonical form. An error means that memory
/// ran out.
pub fn plain_matches(
    alloc: Global,
    program: &Program,
    pattern: &Pattern,
    first: u32,
    term: &Term,
) -> Result<Items<Items<Term>>, NoMemory>
    ensures { IfOk result (λ all.
        all ≡ matches (shapes_of program.now.signature) pattern.now term.now) }
{
    world(alloc, program)?.matches(alloc, pattern, first, term)
}

/// The one item of a pattern in which these are the values of the variables, made with this many
/// steps. An error means that memory ran out.
#[tactic(auto, using(crate::proofs::LevelLemmas::knots))]
pub fn plain_item(
    alloc: Global,
    program: &Program,
    pattern: &Pattern,
    values: &[Term],
    steps: u32,
) -> Result<Item, NoMemory>
    requires { steps ≤ 1000 }
    ensures { IfOk result (λ item. item ≡ normal_item program.now pattern.now values.now steps) }
{
    let world = world(alloc, program)?;
    Level {
        alloc,
        level: steps,
        below: answer_below,
    }
    .normal(&world, pattern, values, steps)
}

/// The list of a strategy that stands in no body, on a term, made with this many steps. An error
/// means that memory ran out.
#[tactic(auto, using(crate::proofs::LevelLemmas::knots))]
pub fn plain_list(
    alloc: Global,
    program: &Program,
    strategy: &Strategy,
    term: &Term,
    steps: u32,
) -> Result<Items<Item>, NoMemory>
    requires { steps ≤ 1000 }
    ensures { IfOk result (λ items.
        items ≡ strategy_items program.now strategy.now term.now steps) }
{
    let world = world(alloc, program)?;
    Level {
        alloc,
        level: steps,
        below: answer_below,
    }
    .outside(&world, strategy, term, steps)
}
