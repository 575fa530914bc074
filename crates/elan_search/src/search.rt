//! The search for the first list, and for the next.
ghost use Rattle.std.specs.Prelude.{◌≡◌, length, IfOk, IfSome, None, Some, take};
ghost use Rattle.elan_table.specs.Rows.{terms};
ghost use Rattle.elan_search.specs.Bounds.{term_if};
ghost use Rattle.elan_search.specs.Next.{FindsFirst, FindsNext, Gives};
ghost use Rattle.elan_search.specs.Place.{IsPlace, FindsAhead};

use crate::ahead::Ahead;
use crate::place::{Turn, step};
use elan_table::{Name, NoMemory, Table, TermRef};
use sqlite_items::Items;
use std::alloc::{AllocError, Global};
use std::sync::Wait;

/// The first list ahead of a place.
fn search<N: Name, A: Ahead<N>, R: Wait>(
    rt: &R,
    alloc: Global,
    table: &Table<N>,
    ahead: &A,
    mut done: Items<TermRef<N>>,
    mut floor: Option<TermRef<N>>,
) -> Result<Option<Items<TermRef<N>>>, NoMemory>
    requires { IsPlace (A.long ahead.now) (terms done) (term_if floor) }
    ensures { IfOk result (FindsAhead (A.lists ahead.now) (terms done) (term_if floor)) }
{
    for _ in 0..u64::MAX {
        match step(rt, alloc, table, ahead, &mut done, &mut floor)? {
            Turn::On => {}
            Turn::Found => return Ok(Some(done)),
            Turn::Over => return Ok(None),
        }
    }
    Err(AllocError)
}

fn copy_rows<N: Name>(alloc: Global, rows: &[TermRef<N>]) -> Result<Items<TermRef<N>>, NoMemory>
    ensures { IfOk result (λ copy. copy ≡ rows.now) }
{
    let mut copy = Items::new(alloc);
    for row in rows {
        copy.push(row.again())?;
    }
    Ok(copy)
}

/// The first of the lists; `None` exactly where there is no list. On `NoMemory` nothing is known.
pub fn first<N: Name, A: Ahead<N>, R: Wait>(
    rt: &R,
    alloc: Global,
    table: &Table<N>,
    ahead: &A,
) -> Result<Option<Items<TermRef<N>>>, NoMemory>
    ensures first { IfOk result (FindsFirst (A.lists ahead.now)) }
    ensures owed { IfOk result (Gives (A.lists ahead.now) None) }
    ensures len { IfOk result (λ found. IfSome found (λ m. length m ≡ A.long ahead.now)) }
{
    search(rt, alloc, table, ahead, Items::new(alloc), None)
}

/// The first of the lists that come after the terms of `last`; `None` exactly where none comes after
/// them. They are so many as each list has, and need not be one of the lists. On `NoMemory` nothing
/// is known.
pub fn after<N: Name, A: Ahead<N>, R: Wait>(
    rt: &R,
    alloc: Global,
    table: &Table<N>,
    ahead: &A,
    last: &[TermRef<N>],
) -> Result<Option<Items<TermRef<N>>>, NoMemory>
    requires { length last.now ≡ A.long ahead.now }
    ensures next { IfOk result (FindsNext (A.lists ahead.now) (terms last.now)) }
    ensures owed { IfOk result (Gives (A.lists ahead.now) (Some (terms last.now))) }
    ensures len { IfOk result (λ found. IfSome found (λ m. length m ≡ A.long ahead.now)) }
{
    let mut done = copy_rows(alloc, last)?;
    match done.pop() {
        None => Ok(None),
        Some(floor) => search(rt, alloc, table, ahead, done, Some(floor)),
    }
}
