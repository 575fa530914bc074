//! What a search for a match goes by.
ghost use Rattle.std.specs.Prelude.{◌≡◌, ◌↔◌, IfOk, IsTrue};
ghost use Rattle.std.specs.List.{All};
ghost use Rattle.std.specs.Option.{option_copied};
ghost use Rattle.elan_table.specs.Rows.{MayStand};
ghost use Rattle.elan_look.specs.Plans.{all_there, HaveSorts};

use crate::NoMemory;
use crate::low::Low;
use crate::sight::Sight;
use crate::sorts::is_of_sort;
use crate::walk::look_at;
use elan_search::Low as Next;
use elan_table::{Name, Table, TermRef};
use elan_terms::{Pattern, SortId, copy_pattern};
use sqlite_items::Items;
use std::alloc::Global;
use std::sync::Wait;

/// A pattern, its variables with their sorts in order of first occurrence, the number of the first of
/// them, and the row whose term the pattern is to be.
#[derive(Drop)]
pub(crate) struct Plan<N: Name> {
    pub pattern: Pattern,
    pub variables: Items<(u32, SortId)>,
    pub first: u32,
    pub term: TermRef<N>,
}

/// What holds of the term of each of these rows.
fn all_known<N: Name>(rows: &[TermRef<N>])
    ensures { All (λ t. MayStand N.shapes t.value) rows.now }
{
    match rows {
        [] => {}
        [first, rest @ ..] => {
            first.known();
            all_known(rest);
        }
    }
}

fn there<N: Name>(alloc: Global, rows: &[TermRef<N>]) -> Result<Items<Option<TermRef<N>>>, NoMemory>
    ensures { IfOk result (λ known. known ≡ all_there rows.now) }
{
    let mut known = Items::new(alloc);
    for row in rows {
        known.push(Some(row.again()))?;
    }
    Ok(known)
}

/// Whether each row's term has the sort of the variable beside it, and there are as many of both.
fn have_sorts<N: Name>(table: &Table<N>, variables: &[(u32, SortId)], rows: &[TermRef<N>]) -> bool
    ensures { IsTrue result ↔ HaveSorts N.shapes variables.now rows.now }
{
    match variables {
        [] => match rows {
            [] => true,
            [_, ..] => false,
        },
        [variable, more @ ..] => match rows {
            [] => false,
            [row, rest @ ..] => {
                is_of_sort(table, row, variable.1) && have_sorts(table, more, rest)
            }
        },
    }
}

fn copy_variables(
    alloc: Global,
    variables: &[(u32, SortId)],
) -> Result<Items<(u32, SortId)>, NoMemory>
    ensures { IfOk result (λ copy. copy ≡ variables.now) }
{
    let mut copy = Items::new(alloc);
    for variable in variables {
        copy.push(*variable)?;
    }
    Ok(copy)
}

fn again<N: Name>(row: Option<&TermRef<N>>) -> Option<TermRef<N>>
    ensures { result ≡ option_copied row.entry }
{
    match row {
        None => None,
        Some(row) => Some(row.again()),
    }
}

impl<N: Name> Plan<N> {
    ghost use Rattle.std.specs.Prelude.{◌≡◌, ◌<◌, ◌↔◌, length, IfOk, IsTrue};
    ghost use Rattle.std.specs.List.{Contains};
    ghost use Rattle.std.specs.Option.{option_copied};
    ghost use Rattle.elan_table.specs.Rows.{terms};
    ghost use Rattle.elan_search.specs.Bounds.{term_if, Bounds};
    ghost use Rattle.elan_look.specs.Plans.{IsPlan, matches_of};

    /// A plan of its own with the same parts.
    pub(crate) fn copy(&self, alloc: Global) -> Result<Plan<N>, NoMemory>
        ensures { IfOk result (λ plan. plan ≡ self.now) }
    {
        Ok(Plan {
            pattern: copy_pattern(alloc, &self.pattern)?,
            variables: copy_variables(alloc, self.variables.as_slice())?,
            first: self.first,
            term: self.term.again(),
        })
    }

    /// Whether these values, in the order of the variables, are a match.
    pub(crate) fn fits<R: Wait>(
        &self,
        rt: &R,
        alloc: Global,
        table: &Table<N>,
        done: &[TermRef<N>],
    ) -> Result<bool, NoMemory>
        requires plan { IsPlan self.now }
        requires all { length done.now ≡ length self.now.variables }
        ensures { IfOk result (λ yes.
            IsTrue yes ↔ Contains (matches_of N.shapes self.now) (terms done.now)) }
    {
        all_known(done);
        self.term.known();
        if !have_sorts(table, self.variables.as_slice(), done) {
            return Ok(false);
        }
        let sight = Sight {
            first: self.first,
            known: there(alloc, done)?,
            sought: None,
            floor: None,
        };
        let low = look_at(rt, alloc, table, &sight, &self.pattern, &self.term)?;
        Ok(!low.is_empty())
    }

    /// A bound for the value of the next variable in the matches that begin with these values and go
    /// on with a term after the floor.
    pub(crate) fn bound<R: Wait>(
        &self,
        rt: &R,
        alloc: Global,
        table: &Table<N>,
        done: &[TermRef<N>],
        floor: Option<&TermRef<N>>,
    ) -> Result<Next<N>, NoMemory>
        requires plan { IsPlan self.now }
        requires more { length done.now < length self.now.variables }
        ensures { IfOk result (Bounds (matches_of N.shapes self.now) (terms done.now)
            (term_if (option_copied floor.entry))) }
    {
        self.term.known();
        let variable = self.variables.as_slice()[done.len()];
        let sight = Sight {
            first: self.first,
            known: there(alloc, done)?,
            sought: Some(variable),
            floor: again(floor),
        };
        match look_at(rt, alloc, table, &sight, &self.pattern, &self.term)? {
            Low::Empty => Ok(Next::Empty),
            Low::At(row) => Ok(Next::At(row)),
            Low::Any => unreachable!(),
        }
    }
}
