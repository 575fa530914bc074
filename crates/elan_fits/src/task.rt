//! The search for matches, variable by variable.

ghost use Rattle.std.specs.Prelude.{◌≡◌, ◌∷◌, ◌++◌, [], ◌<◌, length, drop, IfOk};
ghost use Rattle.elan_terms.specs.Match as match_spec;
ghost use Rattle.elan_fits.specs.Walks as spec;
ghost use Rattle.elan_fits.specs.Walks.{IsTask};

use crate::NoMemory;
use crate::look::{Look, Prefix};
use crate::sorts::has_sort;
use elan_terms::{Pattern, Shapes, SortId, Term, compare, copy, copy_onto, instance};
use sqlite_items::Items;
use std::alloc::Global;

/// A pattern with its variables, and a term with its parts.
#[derive(Drop)]
pub(crate) struct Task<'a> {
    pub shapes: &'a Shapes,
    pub pattern: &'a Pattern,
    pub term: &'a Term,
    pub variables: Items<(u32, SortId)>,
    pub parts: Items<Term>,
}

/// How far a walk is: before the first match, after one whose values are the parts in these places,
/// or behind all.
#[derive(Drop)]
pub(crate) enum Stage {
    Begin,
    After(Items<usize>),
    End,
}

/// The place before the others.
fn in_front(alloc: Global, first: usize, others: Items<usize>) -> Result<Items<usize>, NoMemory>
    ensures { IfOk result (λ all. all ≡ first ∷ others) }
{
    let mut all = Items::new(alloc);
    all.push(first)?;
    all.append(others)?;
    Ok(all)
}

/// The values, and one more.
fn and_one(alloc: Global, values: &[Term], last: &Term) -> Result<Items<Term>, NoMemory>
    ensures { IfOk result (λ all. all ≡ values.now ++ last.now ∷ []) }
{
    let mut all = Items::new(alloc);
    copy_onto(alloc, &mut all, values)?;
    all.push(copy(alloc, last)?)?;
    Ok(all)
}

impl Task<'_> {
    #[tactic(auto, unfolding(elan_terms::specs::Match::fits))]
    fn fits(&self, alloc: Global, values: &[Term]) -> Result<bool, NoMemory>
        ensures { IfOk result (λ yes. yes ≡ match_spec.fits self.now.shapes.now self.now.variables
            self.now.pattern.now self.now.term.now values.now) }
    {
        let made = instance(
            alloc,
            self.shapes,
            self.variables.as_slice(),
            values,
            self.pattern,
        )?;
        Ok(compare(&made, self.term).is_eq())
    }

    /// What is known of the next variable's value.
    #[tactic(auto, using(crate::proofs::WalkLemmas::nexts))]
    fn next_look(
        &self,
        alloc: Global,
        before: &[Term],
        variable: (u32, SortId),
        others: &[(u32, SortId)],
    ) -> Result<Look, NoMemory>
        requires task { IsTask self.now }
        requires next { drop (length before.now) self.now.variables ≡ variable ∷ others.now }
        ensures { IfOk result (λ look. spec.Leads self.now look before.now others.now) }
    {
        let prefix = Prefix {
            shapes: self.shapes,
            variables: self.variables.as_slice(),
            values: before,
            next: variable.0,
        };
        prefix.look(alloc, self.pattern, self.term)
    }

    /// The first match that begins with these values, by the places of the other values.
    #[cycle(search)]
    #[tactic(auto, using(crate::proofs::WalkLemmas::searches))]
    fn search(
        &self,
        alloc: Global,
        before: &[Term],
        others: &[(u32, SortId)],
    ) -> Result<Option<Items<usize>>, NoMemory>
        requires task { IsTask self.now }
        requires next { drop (length before.now) self.now.variables ≡ others.now }
        ensures { IfOk result (λ answer. spec.Finds self.now before.now others.now answer
            (spec.fresh self.now before.now others.now)) }
    {
        match others {
            [] => {
                if self.fits(alloc, before)? {
                    Ok(Some(Items::new(alloc)))
                } else {
                    Ok(None)
                }
            }
            [first, rest @ ..] => {
                let look = self.next_look(alloc, before, *first, rest)?;
                self.search_from(alloc, before, *first, rest, &look, 0)
            }
        }
    }

    /// The same, where the next variable has a part from this place on.
    #[cycle(search)]
    #[tactic(auto, using(crate::proofs::WalkLemmas::searches))]
    fn search_from(
        &self,
        alloc: Global,
        before: &[Term],
        first: (u32, SortId),
        rest: &[(u32, SortId)],
        look: &Look,
        start: usize,
    ) -> Result<Option<Items<usize>>, NoMemory>
        requires task { IsTask self.now }
        requires next { drop (length before.now) self.now.variables ≡ first ∷ rest.now }
        requires leads { spec.Leads self.now look.now before.now rest.now }
        ensures { IfOk result (λ answer. spec.Finds self.now before.now (first ∷ rest.now) answer
            (spec.among self.now before.now (drop start self.now.parts) first rest.now)) }
    {
        let mut place = start;
        while place < self.parts.len() {
            match self.search_at(alloc, before, first, rest, look, place)? {
                Some(places) => return Ok(Some(places)),
                None => place += 1,
            }
        }
        Ok(None)
    }

    /// The same, where the next variable has the part in this place.
    #[cycle(search)]
    #[tactic(auto, using(crate::proofs::WalkLemmas::searches))]
    fn search_at(
        &self,
        alloc: Global,
        before: &[Term],
        first: (u32, SortId),
        rest: &[(u32, SortId)],
        look: &Look,
        place: usize,
    ) -> Result<Option<Items<usize>>, NoMemory>
        requires task { IsTask self.now }
        requires next { drop (length before.now) self.now.variables ≡ first ∷ rest.now }
        requires leads { spec.Leads self.now look.now before.now rest.now }
        requires within { place < length self.now.parts }
        ensures { IfOk result (λ answer.
            spec.FindsAt self.now before.now first rest.now answer place) }
    {
        let part = &self.parts.as_slice()[place];
        if !look.admits(part) {
            return Ok(None);
        }
        if !has_sort(self.shapes, part, first.1) {
            return Ok(None);
        }
        let longer = and_one(alloc, before, part)?;
        match self.search(alloc, longer.as_slice(), rest)? {
            None => Ok(None),
            Some(places) => Ok(Some(in_front(alloc, place, places)?)),
        }
    }

    /// The first match after the one whose other values are the parts in these places.
    #[cycle(search_after)]
    #[tactic(auto, using(crate::proofs::WalkLemmas::afters))]
    fn search_after(
        &self,
        alloc: Global,
        before: &[Term],
        others: &[(u32, SortId)],
        places: &[usize],
    ) -> Result<Option<Items<usize>>, NoMemory>
        requires task { IsTask self.now }
        requires next { drop (length before.now) self.now.variables ≡ others.now }
        requires within { spec.AreThere (length self.now.parts) places.now }
        ensures { IfOk result (λ answer. spec.Finds self.now before.now others.now answer
            (spec.after self.now before.now places.now others.now)) }
    {
        match others {
            [] => Ok(None),
            [first, rest @ ..] => match places {
                [] => Ok(None),
                [place, more @ ..] => self.search_past(alloc, before, *first, rest, *place, more),
            },
        }
    }

    /// The same, where the next variable has the part in this place, and the others these.
    #[cycle(search_after)]
    #[tactic(auto, using(crate::proofs::WalkLemmas::afters))]
    fn search_past(
        &self,
        alloc: Global,
        before: &[Term],
        first: (u32, SortId),
        rest: &[(u32, SortId)],
        place: usize,
        places: &[usize],
    ) -> Result<Option<Items<usize>>, NoMemory>
        requires task { IsTask self.now }
        requires next { drop (length before.now) self.now.variables ≡ first ∷ rest.now }
        requires at { place < length self.now.parts }
        requires within { spec.AreThere (length self.now.parts) places.now }
        ensures { IfOk result (λ answer. spec.Finds self.now before.now (first ∷ rest.now) answer
            (spec.after self.now before.now (place ∷ places.now) (first ∷ rest.now))) }
    {
        let longer = and_one(alloc, before, &self.parts.as_slice()[place])?;
        match self.search_after(alloc, longer.as_slice(), rest, places)? {
            Some(others) => Ok(Some(in_front(alloc, place, others)?)),
            None => {
                let look = self.next_look(alloc, before, first, rest)?;
                self.search_from(alloc, before, first, rest, &look, place + 1)
            }
        }
    }

    /// The next match of a walk at this stage, by the places of its values.
    #[tactic(auto, using(crate::proofs::StageLemmas::advances))]
    pub(crate) fn advance(
        &self,
        alloc: Global,
        stage: &Stage,
    ) -> Result<Option<Items<usize>>, NoMemory>
        requires { spec.Stands self.now stage.now }
        ensures { IfOk result (λ answer.
            spec.Finds self.now [] self.now.variables answer (spec.left self.now stage.now)) }
    {
        match stage {
            Stage::Begin => {
                let none = Items::new(alloc);
                let answer = self.search(alloc, none.as_slice(), self.variables.as_slice())?;
                Ok(answer)
            }
            Stage::After(places) => {
                let none = Items::new(alloc);
                let variables = self.variables.as_slice();
                let answer = self.search_after(
                    alloc,
                    none.as_slice(),
                    variables,
                    places.as_slice(),
                )?;
                Ok(answer)
            }
            Stage::End => Ok(None),
        }
    }

    /// The parts in these places.
    pub(crate) fn values(&self, alloc: Global, places: &[usize]) -> Result<Items<Term>, NoMemory>
        requires { spec.AreThere (length self.now.parts) places.now }
        ensures { IfOk result (λ all. all ≡ spec.picked self.now.parts places.now) }
    {
        let mut all = Items::new(alloc);
        self.values_onto(&mut all, alloc, places)?;
        Ok(all)
    }

    fn values_onto(
        &self,
        all: &mut Items<Term>,
        alloc: Global,
        places: &[usize],
    ) -> Result<(), NoMemory>
        requires { spec.AreThere (length self.now.parts) places.now }
        ensures { IfOk result (λ _. all.new ≡ all.old ++ spec.picked self.now.parts places.now) }
    {
        match places {
            [] => Ok(()),
            [first, rest @ ..] => {
                all.push(copy(alloc, &self.parts.as_slice()[*first])?)?;
                self.values_onto(all, alloc, rest)
            }
        }
    }
}
