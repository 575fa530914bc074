//! The time of a walk.
ghost use Rattle.std.specs.Prelude.{◌≡◌};

use elan_letters::{are_numbered, blank, pattern, row};
use elan_table::{Blank, Name, NoMemory, Table};
use elan_terms::variables;
use elan_walk::AcWalk;
use std::alloc::{AllocError, Global};
use std::io;
use std::marker::Brand;
use std::sync::Wait;
use std::time::{CpuClock, Duration};

/// How many matches were taken, and the processor time of that.
#[derive(Drop)]
pub struct Measured {
    pub matches: u32,
    pub time: Duration,
}

/// The walk over the matches of a pattern whose variables are numbered in order.
fn walk_of<N: Name, R: Wait>(
    rt: &R,
    alloc: Global,
    table: &Table<N>,
    letters: &[u8],
    term: &[u8],
) -> Result<AcWalk<N>, NoMemory> {
    let pattern = pattern(alloc, letters)?;
    if !are_numbered(0, variables(alloc, &pattern)?.as_slice()) {
        return Err(AllocError);
    }
    AcWalk::new(alloc, &pattern, 0, row(rt, alloc, table, term)?)
}

/// How many matches the walk gives, at most so many.
fn taken<N: Name, R: Wait>(
    rt: &R,
    alloc: Global,
    table: &Table<N>,
    walk: &mut AcWalk<N>,
    most: u32,
) -> Result<u32, NoMemory> {
    for count in 0..most {
        if walk.next(rt, alloc, table)?.is_none() {
            return Ok(count);
        }
    }
    Ok(most)
}

fn run<N: Name, R: CpuClock + Wait>(
    rt: &R,
    alloc: Global,
    blank: Blank,
    letters: &[u8],
    term: &[u8],
    most: u32,
) -> io::Result<Measured>
    requires { blank ≡ (N.root, N.shapes) }
{
    let table = Table::<N>::new(alloc, blank.named::<N>(alloc)?)?;
    let mut walk = walk_of(rt, alloc, &table, letters, term)?;
    let begun = rt.thread_cpu_time()?;
    let matches = taken(rt, alloc, &table, &mut walk, most)?;
    let time = rt.thread_cpu_time()?.saturating_sub(begun);
    Ok(Measured { matches, time })
}

/// Takes the first matches in a table of its own.
pub fn take_first<R: AllocGlobal + CpuClock + Wait>(
    rt: &R,
    letters: &[u8],
    term: &[u8],
    most: u32,
) -> io::Result<Measured> {
    let alloc = rt.alloc();
    run::<Brand, _>(rt, alloc, blank(alloc)?, letters, term, most)
}
