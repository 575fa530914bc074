//! A turn of the search.
ghost use Rattle.std.specs.Prelude.{IfOk};
ghost use Rattle.elan_table.specs.Rows.{terms};
ghost use Rattle.elan_search.specs.Bounds.{term_if};
ghost use Rattle.elan_search.specs.Place.{IsPlace, Turns, GoesBack};

use crate::ahead::{Ahead, Low};
use elan_table::{Name, NoMemory, Table, TermRef};
use sqlite_items::Items;
use std::alloc::Global;
use std::sync::Wait;

/// What a turn of the search tells.
#[derive(Drop)]
pub(crate) enum Turn {
    /// It goes on.
    On,
    /// The terms of the place are a list.
    Found,
    /// No list is left.
    Over,
}

/// The last term becomes the floor.
fn back<N: Name>(done: &mut Items<TermRef<N>>, floor: &mut Option<TermRef<N>>) -> Turn
    ensures { GoesBack done.old done.new floor.new result }
{
    match done.pop() {
        None => Turn::Over,
        Some(last) => {
            *floor = Some(last);
            Turn::On
        }
    }
}

/// One turn: the place grows by a bound for its next term, or its last term becomes the floor.
pub(crate) fn step<N: Name, A: Ahead<N>, R: Wait>(
    rt: &R,
    alloc: Global,
    table: &Table<N>,
    ahead: &A,
    done: &mut Items<TermRef<N>>,
    floor: &mut Option<TermRef<N>>,
) -> Result<Turn, NoMemory>
    requires { IsPlace (A.long ahead.now) (terms done.old) (term_if floor.old) }
    ensures { IfOk result (Turns (A.lists ahead.now) (A.long ahead.now)
        (terms done.old) (term_if floor.old) (terms done.new) (term_if floor.new)) }
{
    if done.len() < ahead.count() {
        match ahead.bound(rt, alloc, table, done.as_slice(), floor.as_ref())? {
            Low::Empty => Ok(back(done, floor)),
            Low::At(value) => {
                done.push(value)?;
                *floor = None;
                Ok(Turn::On)
            }
        }
    } else if ahead.fits(rt, alloc, table, done.as_slice())? {
        Ok(Turn::Found)
    } else {
        Ok(back(done, floor))
    }
}
