//! A walk along the matches.
ghost use Rattle.std.specs.Prelude.{◌≡◌, length, IfOk, IfSome};
ghost use Rattle.elan_terms.specs.Match.{variables as spec_variables, matches as spec_matches};
ghost use Rattle.elan_search.specs.Next.{Gives};
ghost use Rattle.elan_walk.specs.Walks.{last_terms, IsLong};

use crate::NoMemory;
use elan_look::Aim;
use elan_match::Bindings;
use elan_search::{after, first};
use elan_table::{Name, Table, TermRef};
use elan_terms::Pattern;
use sqlite_items::Items;
use std::alloc::Global;
use std::marker::Model;
use std::sync::Wait;

/// The matches of a pattern in the term of a row that are still to come: those after the last that was
/// given, in the order of the list. No list is kept. Contracts see the list of what is to come.
#[derive(Drop)]
pub struct AcWalk<N: Name> {
    aim: Aim<N>,
    last: Option<Bindings<N>>,
}

impl<N: Name> Model for AcWalk<N> {
    ghost use Rattle.std.specs.Prelude.{List, length};
    ghost use Rattle.std.specs.Coded.{codes, coded_list};
    ghost use Rattle.elan_terms.specs.contracts.tree.Term as term_type;
    ghost use Rattle.elan_terms.specs.declared.tree.Term.{Term as TermValue};
    ghost use Rattle.elan_terms.specs.Match.{variables as spec_variables, matches as spec_matches};
    ghost use Rattle.elan_search.specs.Next.{owed};
    ghost use Rattle.elan_walk.specs.Walks.{last_terms, IsLong};

    ghost Value = { List (List TermValue) };

    ghost coded = { coded_list (coded_list (Prim.hlevel (codes, term_type.the_row.coded))) };

    ghost view = { λ w. owed (spec_matches N.shapes w.aim.0 w.aim.1) (last_terms w.last) };

    ghost invariant = { λ w. IsLong (length (spec_variables w.aim.0)) w.last };
}

fn copy_rows<N: Name>(alloc: Global, rows: &[TermRef<N>]) -> Result<Bindings<N>, NoMemory>
    ensures { IfOk result (λ copy. copy ≡ rows.now) }
{
    let mut copy = Items::new(alloc);
    for row in rows {
        copy.push(row.again())?;
    }
    Ok(copy)
}

fn copy_last<N: Name>(
    alloc: Global,
    last: &Option<Bindings<N>>,
) -> Result<Option<Bindings<N>>, NoMemory>
    ensures { IfOk result (λ copy. copy ≡ last.now) }
{
    match last {
        None => Ok(None),
        Some(rows) => {
            let copy = copy_rows(alloc, rows.as_slice())?;
            Ok(Some(copy))
        }
    }
}

/// The first of the matches that come after the last one.
fn following<N: Name, R: Wait>(
    rt: &R,
    alloc: Global,
    table: &Table<N>,
    aim: &Aim<N>,
    last: &Option<Bindings<N>>,
) -> Result<Option<Bindings<N>>, NoMemory>
    requires { IsLong (length (spec_variables aim.now.0)) last.now }
    ensures owed { IfOk result (Gives (spec_matches N.shapes aim.now.0 aim.now.1) (last_terms last.now)) }
    ensures long { IfOk result (λ found. IfSome found (λ m. length m ≡ length (spec_variables aim.now.0))) }
{
    match last {
        None => first(rt, alloc, table, aim),
        Some(rows) => after(rt, alloc, table, aim, rows.as_slice()),
    }
}

impl<N: Name> AcWalk<N> {
    ghost use Rattle.std.specs.Prelude.{◌≡◌, IfOk, OnErr};
    ghost use Rattle.elan_terms.specs.Match.{variables as spec_variables, matches as spec_matches};
    ghost use Rattle.elan_match.specs.Plain.{AreNumbered};
    ghost use Rattle.elan_walk.specs.Walks.{GivesOne};

    /// All matches are to come. The pattern's variables are numbered one after the other, from the
    /// first number on, in order of first occurrence.
    pub fn new(
        alloc: Global,
        pattern: &Pattern,
        first: u32,
        term: TermRef<N>,
    ) -> Result<AcWalk<N>, NoMemory>
        requires { AreNumbered first (spec_variables pattern.now) }
        ensures { IfOk result (λ walk. walk ≡ spec_matches N.shapes pattern.now term.value) }
    {
        let aim = Aim::new(alloc, pattern, first, term)?;
        Ok(AcWalk { aim, last: None })
    }

    /// A walk of its own with the same matches to come.
    pub fn fork(&self, alloc: Global) -> Result<AcWalk<N>, NoMemory>
        ensures { IfOk result (λ walk. walk ≡ self.now) }
    {
        let aim = self.aim.again(alloc)?;
        let last = copy_last(alloc, &self.last)?;
        Ok(AcWalk { aim, last })
    }

    /// The next match; `None` exactly where none is to come. Where memory ran out the same matches are
    /// to come as before.
    pub fn next<R: Wait>(
        &mut self,
        rt: &R,
        alloc: Global,
        table: &Table<N>,
    ) -> Result<Option<Bindings<N>>, NoMemory>
        ensures found { IfOk result (λ found. GivesOne self.old found self.new) }
        ensures err { OnErr result (self.new ≡ self.old) }
    {
        match following(rt, alloc, table, &self.aim, &self.last)? {
            None => Ok(None),
            Some(values) => {
                let kept = copy_rows(alloc, values.as_slice())?;
                self.last = Some(kept);
                Ok(Some(values))
            }
        }
    }
}
