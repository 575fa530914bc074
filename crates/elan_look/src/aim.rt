//! The matches of a pattern in the term of a row.
ghost use Rattle.std.specs.Prelude.{◌≡◌, IfOk};
ghost use Rattle.elan_terms.specs.Match.{variables as spec_variables};
ghost use Rattle.elan_match.specs.Plain.{AreNumbered};

use crate::NoMemory;
use crate::plan::Plan;
use elan_search::{Ahead, Low};
use elan_table::{Name, Table, TermRef};
use elan_terms::{Pattern, copy_pattern, variables};
use std::alloc::Global;
use std::marker::Model;
use std::sync::Wait;

/// A pattern that is to be the term of a row. A search sees it as the matches, which are not kept: each
/// has a value for each variable, in order of first occurrence. Contracts see the pattern and the term.
#[derive(Drop)]
pub struct Aim<N: Name> {
    plan: Plan<N>,
}

impl<N: Name> Model for Aim<N> {
    ghost use Rattle.std.specs.Coded.{codes, coded×};
    ghost use Rattle.elan_terms.specs.contracts.tree.Pattern as pattern_type;
    ghost use Rattle.elan_terms.specs.contracts.tree.Term as term_type;
    ghost use Rattle.elan_terms.specs.declared.tree.Pattern.{Pattern as PatternValue};
    ghost use Rattle.elan_terms.specs.declared.tree.Term.{Term as TermValue};

    ghost Value = { PatternValue × TermValue };

    ghost coded = { coded× (Prim.hlevel (codes, pattern_type.the_row.coded)) (Prim.hlevel (codes, term_type.the_row.coded)) };

    ghost use Rattle.elan_look.specs.Plans.{IsPlan};

    ghost view = { λ a. (a.plan.pattern, a.plan.term.value) };

    ghost invariant = { λ a. IsPlan a.plan };
}

impl<N: Name> Aim<N> {
    /// The pattern's variables are numbered one after the other, from the first number on, in order of
    /// first occurrence.
    pub fn new(
        alloc: Global,
        pattern: &Pattern,
        first: u32,
        term: TermRef<N>,
    ) -> Result<Aim<N>, NoMemory>
        requires { AreNumbered first (spec_variables pattern.now) }
        ensures { IfOk result (λ aim. aim ≡ (pattern.now, term.value)) }
    {
        let plan = Plan {
            pattern: copy_pattern(alloc, pattern)?,
            variables: variables(alloc, pattern)?,
            first,
            term,
        };
        Ok(Aim { plan })
    }

    /// The same pattern and term once more.
    pub fn again(&self, alloc: Global) -> Result<Aim<N>, NoMemory>
        ensures { IfOk result (λ aim. aim ≡ self.now) }
    {
        let plan = self.plan.copy(alloc)?;
        Ok(Aim { plan })
    }
}

impl<N: Name> Ahead<N> for Aim<N> {
    ghost use Rattle.std.specs.Prelude.{length};
    ghost use Rattle.elan_terms.specs.Match.{variables as spec_variables, matches as spec_matches};
    ghost use Rattle.elan_laws.proofs.MatchLaws.{matches-ascend};
    ghost use Rattle.elan_look.specs.Matches.{matches-long};

    ghost lists = { λ a. spec_matches N.shapes a.0 a.1 };

    ghost long = { λ a. length (spec_variables a.0) };

    fn count(&self) -> usize {
        self.plan.variables.len()
    }

    fn bound<R: Wait>(
        &self,
        rt: &R,
        alloc: Global,
        table: &Table<N>,
        done: &[TermRef<N>],
        floor: Option<&TermRef<N>>,
    ) -> Result<Low<N>, NoMemory> {
        let low = self.plan.bound(rt, alloc, table, done, floor)?;
        Ok(low)
    }

    fn fits<R: Wait>(
        &self,
        rt: &R,
        alloc: Global,
        table: &Table<N>,
        done: &[TermRef<N>],
    ) -> Result<bool, NoMemory> {
        let yes = self.plan.fits(rt, alloc, table, done)?;
        Ok(yes)
    }

    ghost all_long = { λ a. matches-long N.shapes a.0 a.1 };

    ghost ascend = { λ a. matches-ascend N.shapes a.0 a.1 };
}
