//! What can be known of the next variable's value before it is chosen.

ghost use Rattle.std.specs.Prelude.{◌≡◌, ◌∷◌, [], ℕ, IfOk, IsTrue, IsFalse};
ghost use Rattle.std.specs.Option.{option_copied};
ghost use Rattle.elan_terms.specs.declared.tree.Term.{Term as TermValue};
ghost use Rattle.elan_terms.specs.Term.{arms_under, is_ac as spec_ac};
ghost use Rattle.elan_terms.specs.Match.{instance as spec_instance};
ghost use Rattle.elan_fits.specs.Looks as spec;
ghost use Rattle.elan_fits.specs.Looks.{Keeps, Tells, Makes, MakeEach, Bring, Struck, Lacks};

use crate::NoMemory;
use crate::strike::strike_arms;
use elan_terms::{
    OpId, Pattern, PatternNode, Shapes, SortId, Term, TermNode, compare, copy, copy_onto, instance,
    is_ac, node,
};
use sqlite_items::Items;
use std::alloc::Global;

/// Which values the next variable may have: none, one alone, or any.
#[derive(Drop)]
pub(crate) enum Look {
    Never,
    Only(Term),
    Any,
}

/// Values of the first of some variables, and the number of the variable that is next.
#[derive(Drop)]
pub(crate) struct Prefix<'a> {
    pub shapes: &'a Shapes,
    pub variables: &'a [(u32, SortId)],
    pub values: &'a [Term],
    pub next: u32,
}

impl Look {
    /// Whether the variable may have this value.
    pub(crate) fn admits(&self, term: &Term) -> bool
        ensures { result ≡ spec.admits self.now term.now }
    {
        match self {
            Look::Never => false,
            Look::Only(only) => compare(only, term).is_eq(),
            Look::Any => true,
        }
    }
}

fn known<'a>(variables: &[(u32, SortId)], values: &'a [Term], number: u32) -> Option<&'a Term>
    ensures { option_copied result ≡ spec.known variables.now values.now number }
{
    match variables {
        [] => None,
        [first, rest @ ..] => match values {
            [] => None,
            [value, more @ ..] => {
                if first.0 == number {
                    Some(value)
                } else {
                    known(rest, more, number)
                }
            }
        },
    }
}

/// What two looks allow together.
fn both(first: Look, second: Look) -> Look
    ensures { (u : TermValue) → IsTrue (spec.admits first u) → IsTrue (spec.admits second u) →
        IsTrue (spec.admits result u) }
{
    match first {
        Look::Never => Look::Never,
        Look::Any => second,
        Look::Only(only) => match second {
            Look::Never => Look::Never,
            Look::Any => Look::Only(only),
            Look::Only(_) => Look::Only(only),
        },
    }
}

impl Prefix<'_> {
    #[cycle(fixed)]
    #[tactic(auto, using(crate::proofs::LookLemmas::fixes, elan_terms::proofs::WeightLemmas::falls))]
    fn is_fixed(&self, pattern: &Pattern) -> bool
        ensures { IsTrue result → spec.IsFixed self.now pattern.now }
    {
        match &pattern.node {
            PatternNode::Var(number, _) => match known(self.variables, self.values, *number) {
                None => false,
                Some(_) => true,
            },
            PatternNode::Int(_) => true,
            PatternNode::App(_, args) => self.are_fixed(args.as_slice()),
        }
    }

    #[cycle(fixed)]
    #[tactic(auto, using(crate::proofs::LookLemmas::fixes, elan_terms::proofs::WeightLemmas::falls))]
    fn are_fixed(&self, patterns: &[Pattern]) -> bool
        ensures { IsTrue result → spec.AreFixed self.now patterns.now }
    {
        match patterns {
            [] => true,
            [first, rest @ ..] => self.is_fixed(first) && self.are_fixed(rest),
        }
    }

    #[tactic(auto, using(crate::proofs::LookLemmas::variables))]
    fn at_variable(&self, alloc: Global, number: u32, term: &Term) -> Result<Look, NoMemory>
        ensures { IfOk result (λ look. Tells self.now look (λ value. value number ≡ term.now)) }
    {
        match known(self.variables, self.values, number) {
            Some(value) => {
                if compare(value, term).is_eq() {
                    Ok(Look::Any)
                } else {
                    Ok(Look::Never)
                }
            }
            None => {
                if number == self.next {
                    Ok(Look::Only(copy(alloc, term)?))
                } else {
                    Ok(Look::Any)
                }
            }
        }
    }

    /// What is known where the pattern is the term.
    #[cycle(look)]
    #[tactic(auto, using(crate::proofs::LookLemmas::looks, elan_terms::proofs::WeightLemmas::falls))]
    pub(crate) fn look(
        &self,
        alloc: Global,
        pattern: &Pattern,
        term: &Term,
    ) -> Result<Look, NoMemory>
        ensures { IfOk result (λ look. Tells self.now look (Makes self.now pattern.now term.now)) }
    {
        match &pattern.node {
            PatternNode::Var(number, _) => {
                let look = self.at_variable(alloc, *number, term)?;
                Ok(look)
            }
            PatternNode::Int(z) => match &term.node {
                TermNode::Int(y) => Ok(if z.cmp(y).is_eq() {
                    Look::Any
                } else {
                    Look::Never
                }),
                TermNode::App(_, _) => Ok(Look::Never),
            },
            PatternNode::App(op, args) => match &term.node {
                TermNode::Int(_) => Ok(Look::Never),
                TermNode::App(f, terms) => {
                    if op.0 == f.0 {
                        self.look_in(alloc, *op, args.as_slice(), terms.as_slice())
                    } else {
                        Ok(Look::Never)
                    }
                }
            },
        }
    }

    /// The same for an operator over patterns, and over terms.
    #[cycle(look)]
    #[tactic(auto, using(crate::proofs::LookLemmas::looks, elan_terms::proofs::WeightLemmas::falls))]
    fn look_in(
        &self,
        alloc: Global,
        op: OpId,
        patterns: &[Pattern],
        terms: &[Term],
    ) -> Result<Look, NoMemory>
        ensures { IfOk result (λ look.
            Tells self.now look (spec.MakeNode self.now op patterns.now terms.now)) }
    {
        if is_ac(self.shapes, op) {
            let mut left = Items::new(alloc);
            copy_onto(alloc, &mut left, terms)?;
            self.look_sum(alloc, op, patterns, left)
        } else {
            self.look_each(alloc, patterns, terms)
        }
    }

    #[cycle(look)]
    #[tactic(auto, using(crate::proofs::LookLemmas::looks, elan_terms::proofs::WeightLemmas::falls))]
    fn look_each(
        &self,
        alloc: Global,
        patterns: &[Pattern],
        terms: &[Term],
    ) -> Result<Look, NoMemory>
        ensures { IfOk result (λ look.
            Tells self.now look (MakeEach self.now patterns.now terms.now)) }
    {
        match patterns {
            [] => match terms {
                [] => Ok(Look::Any),
                [_, ..] => Ok(Look::Never),
            },
            [pattern, others @ ..] => match terms {
                [] => Ok(Look::Never),
                [term, more @ ..] => {
                    let first = self.look(alloc, pattern, term)?;
                    let rest = self.look_each(alloc, others, more)?;
                    Ok(both(first, rest))
                }
            },
        }
    }

    /// Strikes what a pattern brings whose variables have values. Answers whether it was all there.
    #[tactic(auto, using(crate::proofs::LookLemmas::strikes))]
    fn strike_fixed(
        &self,
        alloc: Global,
        op: OpId,
        pattern: &Pattern,
        left: &mut Items<Term>,
    ) -> Result<bool, NoMemory>
        requires { spec.IsFixed self.now pattern.now }
        ensures struck { IfOk result (λ all. IsTrue all →
            (value : ℕ → TermValue) → Keeps self.now value → Struck left.old
            (arms_under op (spec_instance self.now.shapes.now value pattern.now)) left.new) }
        ensures lacks { IfOk result (λ all. IsFalse all →
            (value : ℕ → TermValue) → Keeps self.now value → Lacks left.old
            (arms_under op (spec_instance self.now.shapes.now value pattern.now))) }
    {
        let made = instance(alloc, self.shapes, self.variables, self.values, pattern)?;
        Ok(strike_arms(left, op, &made))
    }

    /// What is known where patterns bring these terms under an operator.
    #[cycle(look)]
    #[tactic(auto, using(crate::proofs::LookLemmas::looks, elan_terms::proofs::WeightLemmas::falls))]
    fn look_sum(
        &self,
        alloc: Global,
        op: OpId,
        patterns: &[Pattern],
        terms: Items<Term>,
    ) -> Result<Look, NoMemory>
        requires { IsTrue (spec_ac self.now.shapes.now op) }
        ensures { IfOk result (λ look. Tells self.now look (Bring self.now op patterns.now terms)) }
    {
        let mut left = terms;
        match patterns {
            [] => Ok(if left.is_empty() {
                Look::Any
            } else {
                Look::Never
            }),
            [pattern, others @ ..] => {
                if !self.is_fixed(pattern) {
                    self.look_loose(alloc, op, pattern, others, left)
                } else if self.strike_fixed(alloc, op, pattern, &mut left)? {
                    self.look_sum(alloc, op, others, left)
                } else {
                    Ok(Look::Never)
                }
            }
        }
    }

    /// The same, where the first of the patterns has a variable without a value.
    #[cycle(look)]
    #[tactic(auto, using(crate::proofs::LookLemmas::looks, elan_terms::proofs::WeightLemmas::falls))]
    fn look_loose(
        &self,
        alloc: Global,
        op: OpId,
        loose: &Pattern,
        patterns: &[Pattern],
        terms: Items<Term>,
    ) -> Result<Look, NoMemory>
        requires { IsTrue (spec_ac self.now.shapes.now op) }
        ensures { IfOk result (λ look.
            Tells self.now look (Bring self.now op (loose.now ∷ patterns.now) terms)) }
    {
        let mut left = terms;
        match patterns {
            [] => self.look_last(alloc, op, loose, left),
            [pattern, others @ ..] => {
                if !self.is_fixed(pattern) {
                    Ok(Look::Any)
                } else if self.strike_fixed(alloc, op, pattern, &mut left)? {
                    self.look_loose(alloc, op, loose, others, left)
                } else {
                    Ok(Look::Never)
                }
            }
        }
    }

    /// The same of one pattern alone.
    #[cycle(look)]
    #[tactic(auto, using(crate::proofs::LookLemmas::looks, elan_terms::proofs::WeightLemmas::falls))]
    fn look_last(
        &self,
        alloc: Global,
        op: OpId,
        loose: &Pattern,
        left: Items<Term>,
    ) -> Result<Look, NoMemory>
        requires { IsTrue (spec_ac self.now.shapes.now op) }
        ensures { IfOk result (λ look.
            Tells self.now look (Bring self.now op (loose.now ∷ []) left)) }
    {
        match &loose.node {
            PatternNode::Var(number, _) => self.look_rest(alloc, op, *number, left),
            PatternNode::Int(_) => Ok(Look::Any),
            PatternNode::App(f, _) => {
                if op.0 == f.0 {
                    Ok(Look::Any)
                } else {
                    self.look_one(alloc, op, loose, left.as_slice())
                }
            }
        }
    }

    /// The same of a pattern that another operator heads.
    #[cycle(look)]
    #[tactic(auto, using(crate::proofs::LookLemmas::looks, elan_terms::proofs::WeightLemmas::falls))]
    fn look_one(
        &self,
        alloc: Global,
        op: OpId,
        loose: &Pattern,
        left: &[Term],
    ) -> Result<Look, NoMemory>
        requires { spec.IsApart self.now op loose.now }
        ensures { IfOk result (λ look.
            Tells self.now look (Bring self.now op (loose.now ∷ []) left.now)) }
    {
        match left {
            [] => Ok(Look::Never),
            [only, others @ ..] => match others {
                [] => self.look(alloc, loose, only),
                [_, ..] => Ok(Look::Never),
            },
        }
    }

    /// The same of a variable, which is all that is left.
    #[tactic(auto, using(crate::proofs::LookLemmas::rests))]
    fn look_rest(
        &self,
        alloc: Global,
        op: OpId,
        number: u32,
        left: Items<Term>,
    ) -> Result<Look, NoMemory>
        requires { IsTrue (spec_ac self.now.shapes.now op) }
        ensures { IfOk result (λ look. Tells self.now look (spec.Rest op number left)) }
    {
        if number != self.next {
            return Ok(Look::Any);
        }
        if let Some(_) = known(self.variables, self.values, number) {
            return Ok(Look::Any);
        }
        if left.len() < 2 {
            alone(alloc, left.as_slice())
        } else {
            Ok(Look::Only(node(alloc, self.shapes, op, left)?))
        }
    }
}

/// The only one of at most one term.
fn alone(alloc: Global, terms: &[Term]) -> Result<Look, NoMemory>
    ensures { IfOk result (λ look. spec.IsAlone look terms.now) }
{
    match terms {
        [] => Ok(Look::Never),
        [only, ..] => Ok(Look::Only(copy(alloc, only)?)),
    }
}
